//! Values as cells: pairs of kind and content, one after another.
//!
//! A cell may be any `i32`, also where a kind is read or asked for.

#![tactic(auto)]

mod kinds;

ghost use Rattle.std.specs.Prelude.{◌≡◌, ℕ, ◌+◌, ◌-◌, ◌<◌, ◌≤◌, ◌^◌, ◌⊎◌, List, [], ◌∷◌, ◌++◌, length, take, drop, ℤ, pos, MatchResult, OnErr, slice_index_or};
ghost use Rattle.tables.specs.Items.{items, room, loan};
ghost use Rattle.values.specs.Faults.{number as fault_number};
ghost use Rattle.values.specs.Value.{within, past, by_cells, front};
ghost use Rattle.values.specs.Cells.{begins};
ghost use Rattle.values.specs.Kinds.{cell};
ghost use Rattle.values.specs.declared.Fault.TheVariants.{TooLarge};

pub use kinds::{Kind, NoKind};
use std::cmp::Ordering;
use syntax::Collection;
pub use tables::Full;
use tables::Table;

/// Why an expression has no value, with the number by which it is reported.
#[derive(Clone, Copy, Debug, PartialEq, Eq)]
pub enum Fault {
    /// a part has the wrong kind
    WrongKind = 20,
    /// a number leaves the range
    OutOfRange = 21,
    /// `div`, `rem` or `mod` by 0
    DivisionByZero = 22,
    /// a value passes 200 cells
    TooLarge = 23,
    /// no such member
    OutOfBounds = 24,
    /// `let be` has no candidate
    NoCandidate = 25,
    /// no case matches
    NoCase = 26,
}

impl Fault {
    /// The number by which it is reported.
    pub fn number(self) -> u8
        ensures { result ≡ fault_number self }
    {
        self as u8
    }
}

// A value for which no room is left passes 200 cells.
impl From<Full> for Fault {
    ghost from_gives = { λ _ e. e ≡ TooLarge };

    fn from(_full: Full) -> Fault {
        Fault::TooLarge
    }
}

/// What an operand has to be.
#[derive(Clone, Copy)]
pub enum Operand {
    Any,
    Number,
    Truth,
    Many(Collection),
}

/// How many members follow a pair of cells. Any cells: they are taken as they came, and need not begin a value.
pub fn members(kind: i32, content: i32) -> usize
    ensures { result ≡ within kind content }
{
    if kind >= 2 && content >= 0 {
        content as usize
    } else {
        0
    }
}

/// How many cells the first value takes: all where it is cut short.
pub fn first(s: &[i32]) -> usize
    ensures rest { drop result s.now ≡ past 1 s.now }
    ensures inside { result ≤ length s.now }
    ensures some { 0 < length s.now → 0 < result }
{
    let mut rest = s;
    let mut pending: usize = 1;
    while let [kind, content, more @ ..] = rest {
        pending = pending - 1 + members(*kind, *content);
        if pending == 0 {
            return s.len() - more.len();
        }
        if pending > more.len() {
            break;
        }
        rest = more;
    }
    s.len()
}

/// The order of two values: the first differing cell decides.
pub fn compare(a: &[i32], b: &[i32]) -> Ordering
    ensures { result ≡ by_cells a.now b.now }
{
    a.cmp(&b)
}

/// The first value of `s`, and what follows it.
pub fn split(s: &[i32]) -> (&[i32], &[i32])
    ensures front { result.0.now ≡ front s.now }
    ensures back { result.1.now ≡ past 1 s.now }
    ensures whole { s.now ≡ result.0.now ++ result.1.now }
    ensures falls { 0 < length s.now → length result.1.now < length s.now }
{
    s.split_at(first(s))
}

/// What follows the first pair of cells: the members.
pub fn inner(s: &[i32]) -> &[i32]
    ensures { result.now ≡ drop 2 s.now }
{
    s.get(2..).unwrap_or(&[])
}

/// The first cell: the kind of a value, as it stands there, since of other cells a caller is told it too.
pub fn kind(s: &[i32]) -> i32
    ensures { result ≡ slice_index_or s.now 0 (pos 0) }
{
    s.first().copied().unwrap_or(0)
}

/// The second cell: the content of a number or a truth value, or the count of members.
pub fn content(s: &[i32]) -> i32
    ensures { result ≡ slice_index_or s.now 1 (pos 0) }
{
    s.get(1).copied().unwrap_or(0)
}

/// Whether an operand is of the kind that is asked for. Its kind is a cell as it came: any number.
pub fn is(what: Operand, kind: i32) -> bool
    ensures { result ≡ begins what kind }
{
    let wanted = match what {
        Operand::Any => return true,
        Operand::Number => Kind::Number,
        Operand::Truth => Kind::Truth,
        Operand::Many(Collection::Set) => Kind::Set,
        Operand::Many(Collection::Sequence) => Kind::Sequence,
        Operand::Many(Collection::Tuple) => Kind::Tuple,
    };
    kind == wanted as i32
}

/// Adds the pair of cells before `count` members. Refuses, and leaves the table as it was, where they are too many for a cell or no room is left.
pub fn begin(table: &mut Table<'_, i32>, kind: Kind, count: usize) -> Result<(), Full>
    ensures begun { MatchResult result (λ _. (items table.new ≡ items table.old ++ cell kind ∷ pos count ∷ []) × (count < 2 ^ 31)) (λ _. (2 ^ 31 ≤ count) ⊎ (room table.old < length (items table.old) + 2)) }
    ensures room { room table.new ≡ room table.old }
    ensures same { OnErr result (table.new ≡ table.old) }
    ensures lent { loan table.new ≡ loan table.old }
{
    let Ok(content) = i32::try_from(count) else {
        return Err(Full);
    };
    if table.remaining() < 2 {
        return Err(Full);
    }
    // Cell by cell, which is quicker than a copy of the pair.
    table.push(kind as i32)?;
    table.push(content)
}

/// Writes `piece` behind the first `n` cells of `out`. Says where it ends.
// The length stands beside the buffer: the cells are changed in place after it, and of a table over a part of a buffer no clause says what it leaves there.
pub fn append(out: &mut [i32], n: usize, piece: &[i32]) -> Result<usize, Full>
    ensures { MatchResult result (λ m. (take m out.new ≡ take n out.old ++ piece.now) × (m ≡ n + length piece.now) × (m ≤ length out.old)) (λ _. length out.old < n + length piece.now) }
{
    if n > out.len() || piece.len() > out.len() - n {
        return Err(Full);
    }
    let m = n + piece.len();
    out[n..m].copy_from_slice(piece);
    Ok(m)
}
