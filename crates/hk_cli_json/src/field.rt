//! The fields of lines that are read.

ghost use Rattle.std.specs.Prelude.{◌≡◌, IfSome};
ghost use Rattle.hk_cli_json.specs.Reading as spec;

use hk_types::{MOST_BODY_BYTES, StreamNo, Time};
use serde::{Deserialize, Deserializer, Format};
use std::alloc::Global;

/// A number of 64 bits, as a string.
#[derive(Clone, Copy)]
pub(crate) struct Wide(pub(crate) u64);

impl Wide {
    pub(crate) fn zero() -> Wide {
        Wide(0)
    }
}

/// The number that decimal digits alone make.
fn number_of(digits: &str) -> Option<u64>
    ensures { IfSome result (λ n. spec.Writes digits.now n) }
{
    if digits.is_empty() || !digits.bytes().all(|byte| byte.is_ascii_digit()) {
        return None;
    }
    digits.parse::<u64>().ok()
}

impl<'de> Deserialize<'de> for Wide {
    fn deserialize<F: Format>(
        alloc: Global,
        from: &mut Deserializer<'de, '_, F>,
    ) -> Result<Wide, F::Error> {
        let digits = from.string(alloc)?;
        match number_of(&digits) {
            Some(number) => Ok(Wide(number)),
            None => Err(from.custom("no string of a 64-bit number")),
        }
    }
}

/// A time, as a string.
#[derive(Clone, Copy)]
pub(crate) struct Moment(pub(crate) Time);

impl Moment {
    pub(crate) fn zero() -> Moment {
        Moment(Time::zero())
    }
}

impl<'de> Deserialize<'de> for Moment {
    fn deserialize<F: Format>(
        alloc: Global,
        from: &mut Deserializer<'de, '_, F>,
    ) -> Result<Moment, F::Error> {
        let number = Wide::deserialize(alloc, from)?;
        match Time::new(number.0) {
            Ok(time) => Ok(Moment(time)),
            Err(_fault) => Err(from.custom("a time is at most 2^62")),
        }
    }
}

/// The number of a stream.
#[derive(Clone, Copy)]
pub(crate) struct Stream(pub(crate) StreamNo);

impl Stream {
    pub(crate) fn first() -> Stream {
        Stream(StreamNo::new(1).unwrap())
    }
}

impl<'de> Deserialize<'de> for Stream {
    fn deserialize<F: Format>(
        alloc: Global,
        from: &mut Deserializer<'de, '_, F>,
    ) -> Result<Stream, F::Error> {
        let number = u16::deserialize(alloc, from)?;
        match StreamNo::new(number) {
            Ok(stream) => Ok(Stream(stream)),
            Err(_fault) => Err(from.custom("a stream is 1 to 64")),
        }
    }
}

/// A body, as hexadecimal digits.
#[derive(Drop)]
pub(crate) struct Body(String);

impl Body {
    pub(crate) fn empty(alloc: Global) -> Body {
        Body(String::new(alloc))
    }

    /// The bytes of these digits.
    pub(crate) fn bytes(&self, alloc: Global) -> Option<Vec<u8>>
        ensures { IfSome result (λ bytes. bytes.items ≡ spec.body_of self.now) }
    {
        hex::decode(alloc, &self.0).ok()
    }
}

/// Whether these are the hexadecimal digits of a body, in either case.
fn are_digits(digits: &str) -> bool {
    digits.len() <= 2 * MOST_BODY_BYTES
        && digits.len() % 2 == 0
        && digits.bytes().all(|byte| byte.is_ascii_hexdigit())
}

impl<'de> Deserialize<'de> for Body {
    fn deserialize<F: Format>(
        alloc: Global,
        from: &mut Deserializer<'de, '_, F>,
    ) -> Result<Body, F::Error> {
        let digits = from.string(alloc)?;
        if are_digits(&digits) {
            return Ok(Body(digits));
        }
        Err(from.custom("no pairs of 0 to 9 and a to f"))
    }
}
