//! Members by number, sequences and ranges.

#![tactic(auto)]

ghost use Rattle.std.specs.Prelude.{◌≡◌, ℕ, ◌+◌, ◌-◌, ◌*◌, ◌^◌, ◌<◌, ◌≤◌, List, [], ◌∷◌, ◌++◌, length, take, pos, ◌+ℤ◌, ◌≤ℤ◌, ◌<ℤ◌, IfOk, Ok, Err, MatchResult, slice_index_or};
ghost use Rattle.syntax.specs.declared.Collection.{Collection};
ghost use Rattle.syntax.specs.declared.Collection.TheVariants.{Set, Sequence};
ghost use Rattle.tables.specs.Items.{items, room, loan};
ghost use Rattle.values.specs.Value.{Value, past, front, cells, row, of};
ghost use Rattle.values.specs.Numbers.{span, between};
ghost use Rattle.values.specs.Operators.{nth};
ghost use Rattle.values.specs.Cells.{in_cells};
ghost use Rattle.sequences.specs.Count.{counted, width};

use tables::{Full, Table};
use values::{Fault, Kind};

/// How many numbers a set of 200 cells has at most.
const MOST_NUMBERS: usize = 99;

/// `s` past its first `n` values.
pub fn skip(n: usize, s: &[i32]) -> &[i32]
    ensures { result.now ≡ past n s.now }
{
    let mut rest = s;
    for _ in 0..n {
        if rest.is_empty() {
            break;
        }
        rest = values::split(rest).1;
    }
    rest
}

/// The member at `i`, from 0.
fn member(s: &[i32], i: usize) -> &[i32]
    ensures { (k : Collection) (vs : List Value) (d : Value) → s.now ≡ cells (of k vs) → i < length vs → result.now ≡ cells (slice_index_or vs i d) }
{
    values::split(skip(i, values::inner(s))).0
}

/// How many members a set, a sequence or a tuple has.
pub fn count(s: &[i32]) -> usize
    ensures is { result ≡ counted s.now }
    ensures small { result < 2 ^ 31 }
{
    match s {
        [_, n, ..] if *n >= 0 => *n as usize,
        _ => 0,
    }
}

/// The member with the number `n`, counted from 1.
pub fn pick(s: &[i32], n: usize) -> Result<&[i32], Fault>
    ensures { (k : Collection) (vs : List Value) → s.now ≡ cells (of k vs) → MatchResult result (λ x. Ok x.now ≡ in_cells (nth n vs)) (λ e. Err e ≡ in_cells (nth n vs)) }
{
    if n < 1 || n > count(s) {
        return Err(Fault::OutOfBounds);
    }
    Ok(member(s, n - 1))
}

/// All but the first member of a sequence that has one.
pub fn tail(s: &[i32], out: &mut [i32]) -> Result<usize, Full>
    ensures inside { IfOk result (λ n. n ≤ length out.old) }
    ensures made { (v : Value) (vs : List Value) → s.now ≡ cells (of Sequence (v ∷ vs)) → MatchResult result (λ n. take n out.new ≡ cells (of Sequence vs)) (λ _. length out.old < length (cells (of Sequence vs))) }
{
    let members = count(s);
    if members < 1 {
        return Err(Full);
    }
    let mut table = Table::make(out);
    values::begin(&mut table, Kind::Sequence, members - 1)?;
    table.extend_from_slice(values::split(values::inner(s)).1)?;
    Ok(table.len())
}

/// Two sequences one after the other.
pub fn join(a: &[i32], b: &[i32], out: &mut [i32]) -> Result<usize, Full>
    ensures inside { IfOk result (λ n. n ≤ length out.old) }
    ensures made { (us vs : List Value) → a.now ≡ cells (of Sequence us) → b.now ≡ cells (of Sequence vs) → length us + length vs < 2 ^ 31 → MatchResult result (λ n. take n out.new ≡ cells (of Sequence (us ++ vs))) (λ _. length out.old < length (cells (of Sequence (us ++ vs)))) }
{
    let mut table = Table::make(out);
    values::begin(&mut table, Kind::Sequence, count(a) + count(b))?;
    table.extend_from_slice(values::inner(a))?;
    table.extend_from_slice(values::inner(b))?;
    Ok(table.len())
}

/// How many numbers there are from `a` to `b`.
fn wide(a: i32, b: i32) -> usize
    ensures is { result ≡ width a b }
    ensures small { result ≤ 2 ^ 32 }
    ensures top { (a +ℤ pos result) ≤ℤ (pos 2147483648) }
{
    if a <= b {
        (b as i64 - a as i64 + 1) as usize
    } else {
        0
    }
}

/// `a + i`.
fn shifted(a: i32, i: usize) -> i32
    requires { (i < 2 ^ 32) × ((a +ℤ pos i) <ℤ (pos 2147483648)) }
    ensures { result ≡ a +ℤ pos i }
{
    (a as i64 + i as i64) as i32
}

/// Adds `count` numbers from `a` on behind the items of the table.
fn numbers(a: i32, count: usize, table: &mut Table<'_, i32>) -> Result<(), Full>
    requires { (count ≤ 2 ^ 32) × ((a +ℤ pos count) ≤ℤ (pos 2147483648)) }
    ensures made { MatchResult result (λ _. items table.new ≡ items table.old ++ row (span a count)) (λ _. room table.old < length (items table.old) + 2 * count) }
    ensures room { room table.new ≡ room table.old }
    ensures lent { loan table.new ≡ loan table.old }
{
    for i in 0..count {
        table.extend_from_slice(&[Kind::Number as i32, shifted(a, i)])?;
    }
    Ok(())
}

/// The set of the numbers from `a` to `b`, for a buffer of at most 200 cells.
pub fn range(a: i32, b: i32, out: &mut [i32]) -> Result<usize, Full>
    ensures inside { IfOk result (λ n. n ≤ length out.old) }
    ensures made { length out.old ≤ 200 → MatchResult result (λ n. take n out.new ≡ cells (of Set (between a b))) (λ _. length out.old < length (cells (of Set (between a b)))) }
{
    let count = wide(a, b);
    if count > MOST_NUMBERS {
        return Err(Full);
    }
    let mut table = Table::make(out);
    values::begin(&mut table, Kind::Set, count)?;
    numbers(a, count, &mut table)?;
    Ok(table.len())
}
