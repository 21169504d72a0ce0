//! Which cells are a lawful value.

#![tactic(auto)]

ghost use Rattle.std.specs.Prelude.{◌≡◌, ℕ, ◌≤◌, true, length};
ghost use Rattle.values.specs.Value.{Value, cells};
ghost use Rattle.values.specs.Lawful.{Lawful};
ghost use Rattle.lawful.specs.Shape.{valid as valid_pair, shape as shape_of, ascends as ascends_of, members as members_of, sorted as sorted_of};

use values::{Kind, NoKind};

/// How many cells a value has at most.
const MOST_CELLS: usize = 200;

/// Whether a pair of cells can begin a value. The kind is a cell as it came: any number.
fn valid(kind: i32, content: i32) -> bool
    ensures { result ≡ valid_pair kind content }
{
    match Kind::try_from(kind) {
        Ok(Kind::Number) => content != i32::MIN,
        Ok(Kind::Truth) => content == 0 || content == 1,
        Ok(Kind::Set | Kind::Sequence | Kind::Tuple) => content >= 0,
        Err(NoKind) => false,
    }
}

/// Whether the cells are one value, but for the order in sets.
fn shape(s: &[i32]) -> bool
    ensures { result ≡ shape_of 1 s.now }
{
    let mut rest = s;
    let mut pending: usize = 1;
    while let [kind, content, more @ ..] = rest {
        // none is to come, or more than there are cells
        if pending == 0 || pending > rest.len() {
            return false;
        }
        if !valid(*kind, *content) {
            return false;
        }
        pending = pending - 1 + values::members(*kind, *content);
        rest = more;
    }
    pending == 0 && rest.is_empty()
}

/// Whether the first `n` values of `s` ascend.
fn ascends(n: usize, s: &[i32]) -> bool
    ensures { result ≡ ascends_of n s.now }
{
    let mut rest = s;
    for _ in 1..n {
        let (x, more) = values::split(rest);
        let (y, _) = values::split(more);
        if !values::compare(x, y).is_lt() {
            return false;
        }
        rest = more;
    }
    true
}

/// Whether the members behind a pair of cells, taken as they came, are in the order that it asks for.
fn in_order(kind: i32, content: i32, s: &[i32]) -> bool
    ensures { result ≡ members_of kind content s.now }
{
    kind != Kind::Set as i32 || ascends(values::members(kind, content), s)
}

/// Whether each set in the cells ascends.
fn sorted(s: &[i32]) -> bool
    ensures { result ≡ sorted_of s.now }
{
    let mut rest = s;
    while let [kind, content, more @ ..] = rest {
        if !in_order(*kind, *content, more) {
            return false;
        }
        rest = more;
    }
    true
}

/// Whether the cells are a lawful value.
pub fn lawful(s: &[i32]) -> bool
    ensures value { result ≡ true → (v : Value) × (s.now ≡ cells v) × Lawful v }
    ensures every { (v : Value) → s.now ≡ cells v → Lawful v → result ≡ true }
{
    s.len() <= MOST_CELLS && shape(s) && sorted(s)
}
