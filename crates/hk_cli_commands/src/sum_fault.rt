//! Why a checksum in an input is refused, in words.

use hk_cli_input::{Sum, SumFault, SumFlaw};
use std::alloc::AllocError;

/// What to do with a file that is corrupt.
const OTHER_FILE: &str =
    "the file is corrupt: load another, as FILE.1 of 'hkrep save --out FILE', or save a node anew";

/// Adds a checksum in hexadecimal digits.
fn put_sum(sum: &Sum, out: &mut String) -> Result<(), AllocError> {
    for byte in sum {
        write!(out, "{byte:02x}")?;
    }
    Ok(())
}

/// Adds both checksums where they differ.
fn put_sums(own: &Sum, said: &Sum, out: &mut String) -> Result<(), AllocError> {
    out.push_str("the checksum of the frames before it is ")?;
    put_sum(own, out)?;
    out.push_str(", where it says ")?;
    put_sum(said, out)
}

/// Adds what is wrong with the frame of a checksum.
fn put_flaw(flaw: &SumFlaw, out: &mut String) -> Result<(), AllocError> {
    match flaw {
        SumFlaw::Other { said, own } => put_sums(own, said, out),
        SumFlaw::Form(form) => write!(out, "it has a checksum of the form {form}, not 1"),
        SumFlaw::Length(length) => {
            write!(
                out,
                "the frame of a checksum has {length} bytes behind its length, not 36"
            )
        }
        SumFlaw::Cut => out.push_str("the input ends inside the frame of a checksum"),
    }
}

/// Adds the line of a checksum that is refused.
pub(crate) fn put_sum_fault(fault: &SumFault, out: &mut String) -> Result<(), AllocError> {
    let (frame, byte) = (fault.frame, fault.byte);
    write!(out, "frame {frame}: refused 6: at byte {byte} ")?;
    put_flaw(&fault.flaw, out)?;
    writeln!(out, "; {OTHER_FILE}")
}
