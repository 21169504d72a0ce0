//! How values, faults, pauses and refusals are written.

#![tactic(auto)]

ghost use Rattle.std.specs.Prelude.{◌≡◌, ◌≤◌, List, ◌++◌, length, ℤ, Err};
ghost use Rattle.arrayvec.specs.ArrayString.{array_string_len};
ghost use Rattle.values.specs.Value.{Value, Values, cells as cells_of, count as count_of, onto, ontos};
ghost use Rattle.values.specs.Lawful.{Lawful};
ghost use Rattle.writing.specs.Written.{written, members as members_of, word as word_of, opening as opening_of, closing as closing_of};
ghost use Rattle.writing.specs.Heads.{head as head_of, Begins, Follow};
ghost use Rattle.writing.specs.Lines.{Writes};
ghost use Rattle.writing.specs.Reports.{fault as fault_line, paused as paused_line, refused as refused_line};
ghost use Rattle.writing.specs.Laws.{Bounded, Reached, Printable, Distinct};
ghost use Rattle.writing.specs.Refusals.{told as told_of};
ghost use Rattle.writing.specs.declared.Unwritten.TheVariants as unwritten;

use crate::line::{Line, add_number, add_place, copy_to};
use syntax::{Collection, Refused};
use values::{Fault, Kind, NoKind};

mod line;

/// Why a line is not written.
#[derive(Clone, Copy, Debug, PartialEq, Eq)]
pub enum Refusal {
    /// the buffer is too short for it
    TooLong,
}

impl Refusal {
    /// The number by which it is told.
    pub fn told(self) -> Refused
        ensures { result ≡ told_of self }
    {
        self.into()
    }
}

impl From<Refusal> for Refused {
    ghost from_gives = { λ refusal refused. refused ≡ told_of refusal };

    fn from(refusal: Refusal) -> Refused {
        match refusal {
            Refusal::TooLong => Refused {
                number: 14,
                place: None,
            },
        }
    }
}

/// What a pair of cells begins.
#[derive(Clone, Copy)]
enum Head {
    Number(i32),
    Truth(bool),
    Many(Collection, usize),
}

impl From<(i32, i32)> for Head {
    ghost from_gives = { λ pair head. head ≡ head_of pair.0 pair.1 };

    #[tactic(auto, using(crate::proofs::Pairs::no_kind))]
    fn from((kind, content): (i32, i32)) -> Head {
        let count = values::members(kind, content);
        match Kind::try_from(kind) {
            Ok(Kind::Truth) => Head::Truth(content != 0),
            Ok(Kind::Set) => Head::Many(Collection::Set, count),
            Ok(Kind::Sequence) => Head::Many(Collection::Sequence, count),
            Ok(Kind::Tuple) => Head::Many(Collection::Tuple, count),
            Ok(Kind::Number) | Err(NoKind) => Head::Number(content),
        }
    }
}

fn word(truth: bool) -> &'static str
    ensures { result.now ≡ word_of truth }
{
    if truth { "true" } else { "false" }
}

fn opening(kind: Collection) -> &'static str
    ensures { result.now ≡ opening_of kind }
{
    match kind {
        Collection::Set => "{",
        Collection::Sequence => "[",
        Collection::Tuple => "mk_(",
    }
}

fn closing(kind: Collection) -> &'static str
    ensures { result.now ≡ closing_of kind }
{
    match kind {
        Collection::Set => "}",
        Collection::Sequence => "]",
        Collection::Tuple => ")",
    }
}

/// Adds the first value of `cells` to the line. Gives what follows it.
#[cycle(members_value)]
fn value<'c>(cells: &'c [i32], line: &mut Line) -> &'c [i32]
    requires { Begins cells.now (array_string_len line.old) }
    ensures shorter { length result.now ≤ length cells.now }
    ensures written { (v : Value) (xs : List ℤ) → cells.now ≡ onto v xs → (result.now ≡ xs) × (line.new.bytes ≡ line.old.bytes ++ written v) }
{
    let [kind, content, rest @ ..] = cells else {
        return cells;
    };
    match Head::from((*kind, *content)) {
        Head::Number(number) => {
            add_number(line, number);
            rest
        }
        Head::Truth(truth) => {
            line.push_str(word(truth));
            rest
        }
        Head::Many(kind, count) => {
            line.push_str(opening(kind));
            let after = members(count, rest, line);
            line.push_str(closing(kind));
            after
        }
    }
}

/// Adds the first `count` values of `cells` to the line, as members. Gives what follows them.
#[cycle(members_value)]
fn members<'c>(count: usize, cells: &'c [i32], line: &mut Line) -> &'c [i32]
    requires { Follow count cells.now (array_string_len line.old) }
    ensures shorter { length result.now ≤ length cells.now }
    ensures written { (vs : Values) (xs : List ℤ) → count ≡ count_of vs → cells.now ≡ ontos vs xs → (result.now ≡ xs) × (line.new.bytes ≡ line.old.bytes ++ members_of vs) }
{
    if count == 0 {
        return cells;
    }
    let mut rest = value(cells, line);
    for _ in 1..count {
        line.push_str(", ");
        rest = value(rest, line);
    }
    rest
}

/// Why a value is not written.
#[derive(Clone, Copy, Debug, PartialEq, Eq)]
pub enum Unwritten {
    /// the cells are no lawful value
    NoValue,
    /// its line is refused
    Refused(Refusal),
}

impl From<Refusal> for Unwritten {
    ghost from_gives = { λ refusal why. why ≡ unwritten.Refused refusal };

    fn from(refusal: Refusal) -> Unwritten {
        Unwritten::Refused(refusal)
    }
}

/// Writes a value to the front of a buffer. Says how long its line is.
pub fn write_value(cells: &[i32], out: &mut [u8]) -> Result<usize, Unwritten>
    ensures value { (v : Value) → cells.now ≡ cells_of v → Lawful v → Writes (Unwritten.Refused Refusal.TooLong) (written v) out.old result out.new }
    ensures other { ((v : Value) → cells.now ≡ cells_of v → Lawful v → ⊥) → (result ≡ Err Unwritten.NoValue) × (out.new ≡ out.old) }
{
    if !lawful::lawful(cells) {
        return Err(Unwritten::NoValue);
    }
    let mut line = Line::new();
    value(cells, &mut line);
    Ok(copy_to(&line, out)?)
}

// The next three push piece by piece, without `write!`: of that it is not said when it succeeds, and each line that fits is written.

/// Writes a fault to the front of a buffer. Says how long its line is.
#[tactic(auto, using(crate::proofs::Digits::twenty_at_most))]
pub fn write_fault(fault: Fault, place: usize, out: &mut [u8]) -> Result<usize, Refusal>
    ensures { Writes Refusal.TooLong (fault_line fault place) out.old result out.new }
{
    let mut line = Line::new();
    line.push_str("fault ");
    add_number(&mut line, fault.number());
    add_place(&mut line, place);
    copy_to(&line, out)
}

/// Writes where a machine pauses to the front of a buffer. Says how long the line is.
pub fn write_paused(place: usize, out: &mut [u8]) -> Result<usize, Refusal>
    ensures { Writes Refusal.TooLong (paused_line place) out.old result out.new }
{
    let mut line = Line::new();
    line.push_str("paused");
    add_place(&mut line, place);
    copy_to(&line, out)
}

/// Writes a refusal to the front of a buffer. Says how long its line is.
#[tactic(auto, using(crate::proofs::Digits::twenty_at_most))]
pub fn write_refused(refused: Refused, out: &mut [u8]) -> Result<usize, Refusal>
    ensures { Writes Refusal.TooLong (refused_line refused) out.old result out.new }
{
    let mut line = Line::new();
    line.push_str("refused ");
    add_number(&mut line, refused.number);
    if let Some(place) = refused.place {
        add_place(&mut line, place);
    }
    copy_to(&line, out)
}

/// What holds of the lines of lawful values.
pub fn laws()
    ensures bounded { Bounded }
    ensures reached { Reached }
    ensures printable { Printable }
    ensures distinct { Distinct }
{}

#[cfg(test)]
mod tests {
    use super::*;
    use std::process::Abort;
    use std::test::Fail;

    // The value is written, and the byte behind it stays.
    fn shows(rt: &impl Abort, cells: &[i32], line: &[u8]) -> Result<(), Fail> {
        let mut out = [b'.'; 80];
        let n = write_value(cells, &mut out)?;
        assert!(rt; n < 80);
        assert_eq!(rt; &out[0..n], line);
        assert_eq!(rt; out[n], b'.');
        Ok(())
    }

    #[test]
    fn values_are_written(rt: HostRuntime) -> Result<(), Fail> {
        shows(&rt, &[2, 2, 0, 1, 0, 3], b"{1, 3}")?;
        shows(&rt, &[2, 0], b"{}")?;
        shows(&rt, &[3, 0], b"[]")?;
        shows(&rt, &[4, 2, 0, 1, 1, 1], b"mk_(1, true)")?;
        shows(&rt, &[4, 0], b"mk_()")?;
        shows(&rt, &[0, -2], b"-2")?;
        shows(&rt, &[0, 0], b"0")?;
        shows(&rt, &[1, 0], b"false")
    }

    #[test]
    fn the_extreme_numbers(rt: HostRuntime) -> Result<(), Fail> {
        shows(&rt, &[0, 2147483647], b"2147483647")?;
        shows(&rt, &[0, -2147483647], b"-2147483647")?;
        let mut out = [b'.'; 80];
        assert_eq!(rt;
            write_value(&[0, -2147483648], &mut out),
            Err(Unwritten::NoValue)
        );
        assert_eq!(rt; out, [b'.'; 80]);
        Ok(())
    }

    #[test]
    fn sets_in_sets(rt: HostRuntime) -> Result<(), Fail> {
        shows(
            &rt,
            &[2, 3, 2, 0, 2, 1, 0, 10, 3, 2, 1, 0, 2, 1, 3, 0],
            b"{{}, {10}, [false, {[]}]}",
        )?;
        let mut out = [b'.'; 80];
        assert_eq!(rt;
            write_value(&[2, 2, 0, 3, 0, 1], &mut out),
            Err(Unwritten::NoValue)
        );
        Ok(())
    }

    #[test]
    fn a_byte_too_short(rt: HostRuntime) {
        let cells = [2, 2, 0, 1, 0, 3];
        let mut short = [b'.'; 5];
        assert_eq!(rt;
            write_value(&cells, &mut short),
            Err(Unwritten::Refused(Refusal::TooLong))
        );
        assert_eq!(rt; short, [b'.'; 5]);
        let mut enough = [b'.'; 6];
        assert_eq!(rt; write_value(&cells, &mut enough), Ok(6));
        assert_eq!(rt; enough, *b"{1, 3}");
    }

    // 99 numbers of eleven bytes in a tuple.
    #[test]
    fn the_longest_line(rt: HostRuntime) -> Result<(), Fail> {
        let mut cells = [0i32; 200];
        cells[0] = 4;
        cells[1] = 99;
        for pair in cells[2..].chunks_exact_mut(2) {
            pair[1] = -2147483647;
        }
        assert_eq!(rt; write_value(&cells, &mut [0; 1290]), Ok(1290));
        assert_eq!(rt;
            write_value(&cells, &mut [0; 1289]),
            Err(Unwritten::Refused(Refusal::TooLong))
        );
        Ok(())
    }

    #[test]
    fn the_deepest_value(rt: HostRuntime) -> Result<(), Fail> {
        let mut cells = [3i32; 200];
        for pair in cells.chunks_exact_mut(2) {
            pair[1] = 1;
        }
        cells[199] = 0;
        assert_eq!(rt; write_value(&cells, &mut [0; 200]), Ok(200));
        Ok(())
    }

    #[test]
    fn reports_are_written(rt: HostRuntime) {
        let mut out = [b'.'; 14];
        assert_eq!(rt; write_fault(Fault::DivisionByZero, 3, &mut out), Ok(13));
        assert_eq!(rt; out, *b"fault 22 at 3.");
        assert_eq!(rt; write_paused(0, &mut out), Ok(11));
        assert_eq!(rt; out, *b"paused at 0 3.");
        let placed = Refused {
            number: 3,
            place: Some(6),
        };
        assert_eq!(rt; write_refused(placed, &mut out), Ok(14));
        assert_eq!(rt; out, *b"refused 3 at 6");
        let plain = Refused {
            number: 1,
            place: None,
        };
        assert_eq!(rt; write_refused(plain, &mut out), Ok(9));
        assert_eq!(rt; out, *b"refused 1 at 6");
        let far = Refused {
            number: 3,
            place: Some(18446744073709551615),
        };
        assert_eq!(rt; write_refused(far, &mut out), Err(Refusal::TooLong));
        assert_eq!(rt; out, *b"refused 1 at 6");
    }
}
