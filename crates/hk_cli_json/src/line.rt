//! What has lines of JSON.

ghost use Rattle.std.specs.Prelude.{◌≡◌, ◌++◌, ℕ, List, Option, None, IfSome, IfOk, OnOk};
ghost use Rattle.std.specs.Fmt.{AppendsText};
ghost use Rattle.std.specs.String.{string_bytes};
ghost use Rattle.hk_cli_json.specs.Fields as spec;

use std::alloc::{AllocError, Global};

/// What has a form in JSON: one line, an object. The first key is its kind.
pub trait InJson {
    // The bytes of the line, or `None` where only tests say them.
    ghost json: { Self → Option (List ℕ) } = { λ _. None };

    /// Adds the line at the end of the text, with its line feed. The only error is out of memory; then nothing is
    /// promised of the text. Cost: O(n), n bytes of the line.
    fn json_to(&self, alloc: Global, out: &mut String) -> Result<(), AllocError>
        ensures { OnOk result (AppendsText (string_bytes out.old) (string_bytes out.new) (json self.now)) };
}

/// The line of a value, with its line feed. The only error is out of memory. Cost: O(n), n bytes of the line.
pub fn json_of<T: InJson>(alloc: Global, value: &T) -> Result<String, AllocError>
    ensures { IfOk result (λ line. IfSome (T.json value.now) (λ text. string_bytes line ≡ text)) }
{
    let mut line = String::new(alloc);
    value.json_to(alloc, &mut line)?;
    Ok(line)
}

/// Adds the comma in front of a list's element that is not the first.
pub(crate) fn put_comma(index: usize, out: &mut String) -> Result<(), AllocError>
    ensures { OnOk result (string_bytes out.new ≡ string_bytes out.old ++ spec.comma index) }
{
    if index > 0 {
        return out.push(',');
    }
    Ok(())
}
