//! A line under way.

ghost use Rattle.std.specs.Prelude.{◌≡◌, ◌+◌, ◌≤◌, ◌++◌, length};
ghost use Rattle.arrayvec.specs.ArrayString.{array_string_len};
ghost use Rattle.writing.specs.declared.Refusal.TheVariants.{TooLong};
ghost use Rattle.writing.specs.Lines.{Writes, most};
ghost use Rattle.writing.specs.Reports.{at as at_of};

use crate::Refusal;
use arrayvec::ArrayString;
use itoa::{Buffer, Integer};

/// The most bytes that a line has.
const ROOM: usize = 1290;

/// No heap: the bytes lie in the value itself.
pub(crate) type Line = ArrayString<ROOM>;

/// Adds a number in base ten, with its sign where it is below zero.
pub(crate) fn add_number<I: Integer>(line: &mut Line, n: I)
    requires { array_string_len line.old + length (I.text n) ≤ most }
    ensures { line.new.bytes ≡ line.old.bytes ++ I.text n }
{
    line.push_str(Buffer::new().format(n));
}

/// Adds a place.
#[tactic(auto, using(crate::proofs::Digits::twenty_at_most))]
pub(crate) fn add_place(line: &mut Line, place: usize)
    requires { array_string_len line.old + 24 ≤ most }
    ensures { line.new.bytes ≡ line.old.bytes ++ at_of place }
{
    line.push_str(" at ");
    add_number(line, place);
}

/// Copies the line to the front of a buffer. Says how long it is.
pub(crate) fn copy_to(line: &Line, out: &mut [u8]) -> Result<usize, Refusal>
    ensures { Writes TooLong line.now.bytes out.old result out.new }
{
    let bytes = line.as_bytes();
    if bytes.len() > out.len() {
        return Err(Refusal::TooLong);
    }
    out[..bytes.len()].copy_from_slice(bytes);
    Ok(bytes.len())
}
