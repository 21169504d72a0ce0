//! Sets: their members ascend, so that two of them are walked through side by side.

#![tactic(auto)]

ghost use Rattle.std.specs.Prelude.{◌≡◌, ℕ, ◌+◌, ◌-◌, ◌<◌, ◌≤◌, true, List, [], ◌∷◌, ◌++◌, length, take, ℤ, IfOk, IfSome, if◌then◌else◌, MatchResult, OnErr};
ghost use Rattle.syntax.specs.declared.Collection.{Collection};
ghost use Rattle.syntax.specs.declared.Collection.TheVariants.{Set};
ghost use Rattle.tables.specs.Items.{items, room, loan};
ghost use Rattle.values.specs.Value.{Value, past, cells, row, of, code};
ghost use Rattle.values.specs.Operators.{grown};
ghost use Rattle.values.specs.Lawful.{ascending};
ghost use Rattle.values.specs.Sets.{member, every, insert, gathered};
ghost use Rattle.sets.specs.Walk.{keeps as keeps_at, side as side_of, taken as taken_of, merge, blended, Placed};
ghost use Rattle.sets.specs.Laws.{Order, Membership};

use std::cmp::Ordering;
use tables::{Full, Table};
use values::Kind;

/// The order of values is total, and tells them apart.
pub fn order_laws()
    ensures { Order }
{}

/// Sets are known by their members.
pub fn membership_laws()
    ensures { Membership }
{}

/// Which members of two sets stay. An enum, and no closure, since the promise is for these three only.
#[derive(Clone, Copy, Debug, PartialEq, Eq)]
pub enum Blend {
    Union,
    Inter,
    Difference,
}

/// Whether a member stays, by where it is: in the first alone, in both, in the second alone.
fn keeps(op: Blend, o: Ordering) -> bool
    ensures { result ≡ keeps_at op o }
{
    match op {
        Blend::Union => true,
        Blend::Inter => o.is_eq(),
        Blend::Difference => o.is_lt(),
    }
}

/// Which of two rows of members has the next member, by their first members: none where a row is at its end.
fn side(x: &[i32], y: &[i32]) -> Ordering
    ensures { result ≡ side_of x.now y.now }
{
    if y.is_empty() {
        Ordering::Less
    } else if x.is_empty() {
        Ordering::Greater
    } else {
        values::compare(x, y)
    }
}

/// The one or the other. With two `if`s in its place each goal of a walk falls into nine cases.
fn choose<'a>(first: bool, x: &'a [i32], y: &'a [i32]) -> &'a [i32]
    ensures { result.now ≡ (if first then x.now else y.now) }
{
    if first { x } else { y }
}

/// The next member, if it stays.
fn taken<'a>(keep: bool, o: Ordering, x: &'a [i32], y: &'a [i32]) -> &'a [i32]
    ensures { result.now ≡ taken_of keep o x.now y.now }
{
    match (keep, o) {
        (false, _) => &[],
        (true, Ordering::Greater) => y,
        (true, _) => x,
    }
}

/// Adds the members that stay behind the items of the table. Says how many they are.
fn weave(op: Blend, a: &[i32], b: &[i32], table: &mut Table<'_, i32>) -> Result<usize, Full>
    ensures inside { IfOk result (λ m. m ≤ length a.now + length b.now) }
    ensures made { (us ts : List Value) → a.now ≡ row us → b.now ≡ row ts → MatchResult result (λ m. (items table.new ≡ items table.old ++ row (merge (keeps_at op) us ts)) × (m ≡ length (merge (keeps_at op) us ts))) (λ _. room table.old < length (items table.old) + length (row (merge (keeps_at op) us ts))) }
    ensures room { room table.new ≡ room table.old }
    ensures lent { loan table.new ≡ loan table.old }
{
    let mut x = a;
    let mut y = b;
    let mut made: usize = 0;
    while !x.is_empty() || !y.is_empty() {
        let (u, us) = values::split(x);
        let (t, ts) = values::split(y);
        let o = side(u, t);
        let keep = keeps(op, o);
        table.extend_from_slice(taken(keep, o, u, t))?;
        made += usize::from(keep);
        x = choose(o.is_le(), us, x);
        y = choose(o.is_ge(), ts, y);
    }
    Ok(made)
}

/// Union, intersection or difference of two sets of at most 200 cells.
pub fn combine(op: Blend, a: &[i32], b: &[i32], out: &mut [i32]) -> Result<usize, Full>
    ensures inside { IfOk result (λ n. n ≤ length out.old) }
    ensures made { (us ts : List Value) → a.now ≡ cells (of Set us) → b.now ≡ cells (of Set ts) → length a.now ≤ 200 → length b.now ≤ 200 → ascending us ≡ true → ascending ts ≡ true → MatchResult result (λ n. take n out.new ≡ cells (of Set (blended op us ts))) (λ _. length out.old < length (cells (of Set (blended op us ts)))) }
{
    if a.len() > 200 || b.len() > 200 {
        return Err(Full);
    }
    let mut table = Table::make(out);
    values::begin(&mut table, Kind::Set, 0)?;
    let made = weave(op, values::inner(a), values::inner(b), &mut table)?;
    table.set(1, made as i32);
    Ok(table.len())
}

/// Whether each value of the ascending row `a` is one of the ascending row `b`.
pub fn subset(a: &[i32], b: &[i32]) -> bool
    ensures { (us ts : List Value) → a.now ≡ row us → b.now ≡ row ts → ascending us ≡ true → ascending ts ≡ true → result ≡ every us ts }
{
    let mut x = a;
    let mut y = b;
    while !x.is_empty() {
        let (u, us) = values::split(x);
        let (t, ts) = values::split(y);
        let o = side(u, t);
        if o.is_lt() {
            return false;
        }
        x = choose(o.is_le(), us, x);
        y = choose(o.is_ge(), ts, y);
    }
    true
}

/// Where `x` goes in a row of ascending values: nowhere, if it is one of them.
fn seek(members: &[i32], x: &[i32]) -> Option<usize>
    ensures inside { IfSome result (λ p. p ≤ length members.now) }
    ensures placed { (us : List Value) (v : Value) → members.now ≡ row us → x.now ≡ cells v → Placed (insert v us) us v result }
{
    let mut rest = members;
    while !rest.is_empty() {
        let (y, more) = values::split(rest);
        match values::compare(x, y) {
            Ordering::Greater => rest = more,
            Ordering::Equal => return None,
            Ordering::Less => break,
        }
    }
    Some(members.len() - rest.len())
}

/// Whether `x` is a value of the ascending row `s`.
pub fn contains(s: &[i32], x: &[i32]) -> bool
    ensures { (vs : List Value) (v : Value) → s.now ≡ row vs → x.now ≡ cells v → ascending vs ≡ true → result ≡ member v vs }
{
    seek(s, x).is_none()
}

/// Where a new member goes: to its place in a set, unless it is there, else behind the others. The kind is a cell as it came.
fn locate(kind: i32, members: &[i32], x: &[i32]) -> Option<usize>
    ensures inside { IfSome result (λ p. p ≤ length members.now) }
    ensures placed { (k : Collection) (us : List Value) (v : Value) → kind ≡ code k → members.now ≡ row us → x.now ≡ cells v → Placed (grown k us v) us v result }
{
    if kind == Kind::Set as i32 {
        seek(members, x)
    } else {
        Some(members.len())
    }
}

/// The last `k` cells go behind the first `p`.
fn turn(s: &mut [i32], p: usize, k: usize)
    requires { p + k ≤ length s.old }
    ensures { (t w c : List ℤ) → s.old ≡ (t ++ w) ++ c → length t ≡ p → length c ≡ k → s.new ≡ t ++ (c ++ w) }
{
    s[p..].rotate_right(k);
}

/// A growing collection in the first `n` cells takes the value behind them as a member. Says how many cells it has then; where they would be over 200, nothing changes.
pub fn grow(s: &mut [i32], n: usize) -> Result<usize, Full>
    ensures inside { IfOk result (λ m. m ≤ length s.old) }
    ensures made { (k : Collection) (us : List Value) (v : Value) → s.old ≡ cells (of k us) ++ cells v → length (cells (of k us)) ≡ n → n ≤ 200 → MatchResult result (λ m. (take m s.new ≡ cells (of k (grown k us v))) × (m ≤ 200)) (λ _. 200 < length (cells (of k (grown k us v)))) }
    ensures unchanged { OnErr result (s.new ≡ s.old) }
{
    if n < 2 || n > s.len() {
        return Err(Full);
    }
    let whole = &s[..];
    let Some(p) = locate(whole[0], &whole[2..n], &whole[n..]) else {
        return Ok(n);
    };
    if s.len() > 200 || s[1] > 200 {
        return Err(Full);
    }
    s[1] += 1;
    turn(s, 2 + p, s.len() - n);
    Ok(s.len())
}

/// The set of the values of a row. Room for them all, repeated ones too, and for a pair of cells suffices.
pub fn gather(s: &[i32], out: &mut [i32]) -> Result<usize, Full>
    ensures inside { IfOk result (λ n. n ≤ length out.old) }
    ensures made { (vs : List Value) → s.now ≡ row vs → 2 + length s.now ≤ 200 → 2 + length s.now ≤ length out.old → MatchResult result (λ n. (take n out.new ≡ cells (of Set (gathered [] vs))) × (n ≤ 2 + length s.now)) (λ _. ⊥) }
{
    let mut table = Table::make(out);
    values::begin(&mut table, Kind::Set, 0)?;
    let mut n = table.len();
    let mut rest = s;
    while !rest.is_empty() {
        let (x, more) = values::split(rest);
        let m = values::append(out, n, x)?;
        n = grow(&mut out[0..m], n)?;
        rest = more;
    }
    Ok(n)
}
