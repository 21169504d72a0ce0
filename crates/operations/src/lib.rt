//! The operators on values in cells.
//!
//! Each writes the cells of its value at the start of `out` and tells how many they are, or tells the fault. What `out` holds past them, or beside the fault of a value that is too large, is left open; beside any other fault it is as it was.
//!
//! Values come as plain cells, and the clauses speak of those that are a value's: a type for such cells would ask more of callers.
//! A length comes back, and no slice of `out`: a clause cannot say what a buffer holds from which the result borrows.

#![tactic(auto)]

ghost use Rattle.std.specs.Prelude.{◌≡◌, ℕ, ◌≤◌, Bool, true, not, ◌&&◌, List, [], ◌∷◌, ◌++◌, length, take, ℤ, pos, IfOk, if◌then◌else◌, Ok, Err, OnErr, slice_index_or};
ghost use Rattle.std.specs.Ordering.{is_eq};
ghost use Rattle.syntax.specs.declared.Collection.TheVariants.{Set, Sequence};
ghost use Rattle.values.specs.Value.{Value, truth, cells, of, by_cells};
ghost use Rattle.values.specs.Kinds.{cell};
ghost use Rattle.values.specs.Lawful.{Lawful, ascending};
ghost use Rattle.values.specs.Sets.{member, every};
ghost use Rattle.values.specs.Cells.{told, in_cells, Spared};
ghost use Rattle.values.specs.Operators.{is as is_of, operand as operand_of, left as left_of, right as right_of, takes as takes_both, unary as unary_of, binary as binary_of, nth, at as at_of, tail as tail_of, members, select as select_of, range as range_of, grow as grow_of};
ghost use Rattle.operations.specs.Fit.{numbered, is_true};
ghost use Rattle.operations.specs.Laws.{Lawfuls, Subject, Room};

use numbers::Division;
use sets::Blend;
use syntax::{Binary, Collection, Unary};
use tables::Table;
use values::{Fault, Kind, Operand};

/// What the operators make of lawful values is lawful.
pub fn lawful_results()
    ensures { Lawfuls }
{}

/// The laws of numbers, intervals, sequences and their sets.
pub fn subject_laws()
    ensures { Subject }
{}

/// What is made of one value, and what two sets share or do not share, is never too large.
pub fn room_laws()
    ensures { Room }
{}

// ---- which kinds an operator takes

fn operand(op: Unary) -> Operand
    ensures { result ≡ operand_of op }
{
    match op {
        Unary::Not => Operand::Truth,
        Unary::Negate | Unary::Abs => Operand::Number,
        Unary::Card => Operand::Many(Collection::Set),
        Unary::Len | Unary::Hd | Unary::Tl | Unary::Elems | Unary::Inds => {
            Operand::Many(Collection::Sequence)
        }
    }
}

fn left(op: Binary) -> Operand
    ensures { result ≡ left_of op }
{
    match op {
        Binary::Equal | Binary::NotEqual | Binary::InSet | Binary::NotInSet => Operand::Any,
        Binary::Iff => Operand::Truth,
        Binary::Less | Binary::LessEqual | Binary::Greater | Binary::GreaterEqual => {
            Operand::Number
        }
        Binary::Plus | Binary::Minus | Binary::Times => Operand::Number,
        Binary::Div | Binary::Rem | Binary::Mod => Operand::Number,
        Binary::Subset | Binary::ProperSubset => Operand::Many(Collection::Set),
        Binary::Union | Binary::Difference | Binary::Inter => Operand::Many(Collection::Set),
        Binary::Concat | Binary::Apply => Operand::Many(Collection::Sequence),
    }
}

fn right(op: Binary) -> Operand
    ensures { result ≡ right_of op }
{
    match op {
        Binary::InSet | Binary::NotInSet => Operand::Many(Collection::Set),
        Binary::Apply => Operand::Number,
        _ => left(op),
    }
}

/// Whether a value is of the kind that is asked for.
fn fits(what: Operand, a: &[i32]) -> bool
    ensures { (v : Value) → a.now ≡ cells v → result ≡ is_of what v }
{
    values::is(what, values::kind(a))
}

/// Whether the operator takes values of these kinds.
fn takes(op: Binary, a: &[i32], b: &[i32]) -> bool
    ensures { (v w : Value) → a.now ≡ cells v → b.now ≡ cells w → result ≡ takes_both op v w }
{
    fits(left(op), a) && fits(right(op), b)
}

// ---- what is written

/// The truth of a truth value.
fn flag(a: &[i32]) -> bool
    ensures { result ≡ is_true (slice_index_or a.now 1 (pos 0)) }
{
    values::content(a) != 0
}

/// Writes a pair of cells. Says how many they are.
fn pair(out: &mut [i32; 200], kind: Kind, content: i32) -> usize
    ensures is { result ≡ 2 }
    ensures holds { take 2 out.new ≡ cell kind ∷ content ∷ [] }
{
    // Cell by cell, which is quicker than a copy of the pair.
    out[0] = kind as i32;
    out[1] = content;
    2
}

/// Writes a truth value.
fn answer(out: &mut [i32; 200], b: bool) -> Result<usize, Fault>
    ensures is { result ≡ Ok 2 }
    ensures holds { take 2 out.new ≡ cells (truth b) }
{
    Ok(pair(out, Kind::Truth, i32::from(b)))
}

/// Writes a number, or leaves the buffer alone beside its fault: one way for the six operators that calculate.
fn number(out: &mut [i32; 200], x: Result<i32, Fault>) -> Result<usize, Fault>
    ensures inside { IfOk result (λ n. n ≤ 200) }
    ensures gives { told result out.new ≡ in_cells (numbered x) }
    ensures spared { Spared result out.old out.new }
{
    Ok(pair(out, Kind::Number, x?))
}

/// Whether two values are the same: numbers and truth values by their two cells.
fn equal(a: &[i32], b: &[i32]) -> bool
    ensures { result ≡ is_eq (by_cells a.now b.now) }
{
    match (a, b) {
        ([kind, content], [other, same]) => kind == other && content == same,
        _ => a == b,
    }
}

/// The member with the number `n`, counted from 1.
fn pick(a: &[i32], n: usize, out: &mut [i32; 200]) -> Result<usize, Fault>
    ensures inside { IfOk result (λ n. n ≤ 200) }
    ensures gives { (k : Collection) (vs : List Value) → a.now ≡ cells (of k vs) → length a.now ≤ 200 → told result out.new ≡ in_cells (nth n vs) }
    ensures spared { Spared result out.old out.new }
{
    let member = sequences::pick(a, n)?;
    let mut table = Table::make(out);
    table.extend_from_slice(member)?;
    Ok(table.len())
}

/// The member that a sequence has at an index.
fn apply(a: &[i32], i: i32, out: &mut [i32; 200]) -> Result<usize, Fault>
    ensures inside { IfOk result (λ n. n ≤ 200) }
    ensures gives { (k : Collection) (vs : List Value) → a.now ≡ cells (of k vs) → length a.now ≤ 200 → told result out.new ≡ in_cells (at_of i vs) }
    ensures spared { Spared result out.old out.new }
{
    if i < 0 {
        return Err(Fault::OutOfBounds);
    }
    pick(a, i as usize, out)
}

/// All but the first member of a sequence.
fn tail(a: &[i32], out: &mut [i32; 200]) -> Result<usize, Fault>
    ensures inside { IfOk result (λ n. n ≤ 200) }
    ensures gives { (vs : List Value) → a.now ≡ cells (of Sequence vs) → told result out.new ≡ in_cells (tail_of vs) }
    ensures spared { Spared result out.old out.new }
{
    if values::content(a) < 1 {
        return Err(Fault::OutOfBounds);
    }
    sequences::tail(a, out).map_err(Fault::from)
}

/// Whether a set is a part of another.
fn part(a: &[i32], b: &[i32]) -> bool
    ensures { (us ts : List Value) → a.now ≡ cells (of Set us) → b.now ≡ cells (of Set ts) → ascending us ≡ true → ascending ts ≡ true → result ≡ every us ts }
{
    sets::subset(values::inner(a), values::inner(b))
}

/// Whether a set is a part of another and not the same.
fn proper(a: &[i32], b: &[i32]) -> bool
    ensures { (us ts : List Value) → a.now ≡ cells (of Set us) → b.now ≡ cells (of Set ts) → ascending us ≡ true → ascending ts ≡ true → result ≡ (every us ts && not (every ts us)) }
{
    part(a, b) && !part(b, a)
}

/// Whether a value is a member of a set.
fn has(b: &[i32], a: &[i32]) -> bool
    ensures { (us : List Value) (v : Value) → b.now ≡ cells (of Set us) → a.now ≡ cells v → ascending us ≡ true → result ≡ member v us }
{
    sets::contains(values::inner(b), a)
}

// ---- the operators

/// An operator on one value.
pub fn unary(op: Unary, a: &[i32], out: &mut [i32; 200]) -> Result<usize, Fault>
    ensures inside { IfOk result (λ n. n ≤ 200) }
    ensures gives { (v : Value) → a.now ≡ cells v → Lawful v → told result out.new ≡ in_cells (unary_of op v) }
    ensures spared { Spared result out.old out.new }
{
    if !fits(operand(op), a) {
        return Err(Fault::WrongKind);
    }
    match op {
        Unary::Not => answer(out, !flag(a)),
        Unary::Negate => number(out, Ok(numbers::negated(values::content(a)))),
        Unary::Abs => number(out, Ok(numbers::magnitude(values::content(a)))),
        Unary::Card | Unary::Len => number(out, Ok(values::content(a))),
        Unary::Hd => pick(a, 1, out),
        Unary::Tl => tail(a, out),
        Unary::Elems => sets::gather(values::inner(a), out).map_err(Fault::from),
        Unary::Inds => sequences::range(1, values::content(a), out).map_err(Fault::from),
    }
}

/// An operator on two values.
pub fn binary(op: Binary, a: &[i32], b: &[i32], out: &mut [i32; 200]) -> Result<usize, Fault>
    ensures inside { IfOk result (λ n. n ≤ 200) }
    ensures gives { (v w : Value) → a.now ≡ cells v → b.now ≡ cells w → Lawful v → Lawful w → told result out.new ≡ in_cells (binary_of op v w) }
    ensures spared { Spared result out.old out.new }
{
    if !takes(op, a, b) {
        return Err(Fault::WrongKind);
    }
    let (x, y) = (values::content(a), values::content(b));
    match op {
        Binary::Iff => answer(out, flag(a) == flag(b)),
        Binary::Equal => answer(out, equal(a, b)),
        Binary::NotEqual => answer(out, !equal(a, b)),
        Binary::Less => answer(out, x < y),
        Binary::LessEqual => answer(out, x <= y),
        Binary::Greater => answer(out, x > y),
        Binary::GreaterEqual => answer(out, x >= y),
        Binary::Subset => answer(out, part(a, b)),
        Binary::ProperSubset => answer(out, proper(a, b)),
        Binary::InSet => answer(out, has(b, a)),
        Binary::NotInSet => answer(out, !has(b, a)),
        Binary::Plus => number(out, numbers::sum(x, y)),
        Binary::Minus => number(out, numbers::difference(x, y)),
        Binary::Times => number(out, numbers::product(x, y)),
        Binary::Div => number(out, numbers::divide(Division::Div, x, y)),
        Binary::Rem => number(out, numbers::divide(Division::Rem, x, y)),
        Binary::Mod => number(out, numbers::divide(Division::Mod, x, y)),
        Binary::Union => sets::combine(Blend::Union, a, b, out).map_err(Fault::from),
        Binary::Difference => sets::combine(Blend::Difference, a, b, out).map_err(Fault::from),
        Binary::Inter => sets::combine(Blend::Inter, a, b, out).map_err(Fault::from),
        Binary::Concat => sequences::join(a, b, out).map_err(Fault::from),
        Binary::Apply => apply(a, y, out),
    }
}

/// The part of a tuple with the number `n`, counted from 1.
pub fn select(n: usize, a: &[i32], out: &mut [i32; 200]) -> Result<usize, Fault>
    ensures inside { IfOk result (λ n. n ≤ 200) }
    ensures gives { (v : Value) → a.now ≡ cells v → Lawful v → told result out.new ≡ in_cells (select_of n v) }
    ensures spared { Spared result out.old out.new }
{
    if !fits(Operand::Many(Collection::Tuple), a) {
        return Err(Fault::WrongKind);
    }
    pick(a, n, out)
}

/// The set of the numbers from `a` to `b`.
pub fn range(a: &[i32], b: &[i32], out: &mut [i32; 200]) -> Result<usize, Fault>
    ensures inside { IfOk result (λ n. n ≤ 200) }
    ensures gives { (v w : Value) → a.now ≡ cells v → b.now ≡ cells w → Lawful v → Lawful w → told result out.new ≡ in_cells (range_of v w) }
    ensures spared { Spared result out.old out.new }
{
    if !fits(Operand::Number, a) || !fits(Operand::Number, b) {
        return Err(Fault::WrongKind);
    }
    sequences::range(values::content(a), values::content(b), out).map_err(Fault::from)
}

/// A growing collection in the first `n` cells takes the value behind them as a member. Beside a fault nothing changes.
pub fn grow(s: &mut [i32], n: usize) -> Result<usize, Fault>
    ensures inside { IfOk result (λ m. m ≤ length s.old) }
    ensures gives { (k : Collection) (us : List Value) (v : Value) → s.old ≡ cells (of k us) ++ cells v → length (cells (of k us)) ≡ n → Lawful (of k us) → told result s.new ≡ in_cells (grow_of k us v) }
    ensures unchanged { OnErr result (s.new ≡ s.old) }
{
    sets::grow(s, n).map_err(Fault::from)
}
