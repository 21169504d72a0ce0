// What a token does between two operands, and in front of one.
ghost use Rattle.std.specs.Prelude.{◌≡◌, ◌≢◌, Some, MatchOption};
ghost use Rattle.grammar.specs.Grammar.{infix_of_mark, prefix_of_mark};
ghost use Rattle.grammar.specs.Steps.{joins, relates, leads, operation, infix_at, relation_of, unary_of, prefix_at};
ghost use Rattle.reading.specs.Signs.{left_of, lead_of, operation_of, infix_of, prefix_of, Tells};

use syntax::{Binary, Connective, Unary};
use tokens::{Kind, Mark};

// The levels whose signs group to the left, loosest first.
#[derive(Clone, Copy, Debug, PartialEq, Eq)]
pub enum Left {
    Iff,
    Or,
    And,
    Sum,
    Product,
}

// The levels of prefix signs.
#[derive(Clone, Copy, Debug, PartialEq, Eq)]
pub enum Lead {
    Not,
    Minus,
}

#[derive(Clone, Copy, Debug, PartialEq, Eq)]
pub enum Operation {
    Strict(Binary),
    Deciding(Connective),
}

#[derive(Clone, Copy, Debug, PartialEq, Eq)]
enum Infix {
    Chains(Left, Operation),
    Implies,
    Relates(Binary),
}

fn strict(level: Left, op: Binary) -> Option<Infix>
    ensures { result ≡ Some (Infix.Chains level (Operation.Strict op)) }
{
    Some(Infix::Chains(level, Operation::Strict(op)))
}

fn deciding(level: Left, op: Connective) -> Option<Infix>
    ensures { result ≡ Some (Infix.Chains level (Operation.Deciding op)) }
{
    Some(Infix::Chains(level, Operation::Deciding(op)))
}

// What a mark does between two operands.
fn between(mark: Mark) -> Option<Infix>
    ensures { infix_of result ≡ infix_of_mark mark }
{
    match mark {
        Mark::Iff => strict(Left::Iff, Binary::Iff),
        Mark::Implies => Some(Infix::Implies),
        Mark::Or => deciding(Left::Or, Connective::Or),
        Mark::And => deciding(Left::And, Connective::And),
        Mark::Equal => Some(Infix::Relates(Binary::Equal)),
        Mark::NotEqual => Some(Infix::Relates(Binary::NotEqual)),
        Mark::Less => Some(Infix::Relates(Binary::Less)),
        Mark::LessEqual => Some(Infix::Relates(Binary::LessEqual)),
        Mark::Greater => Some(Infix::Relates(Binary::Greater)),
        Mark::GreaterEqual => Some(Infix::Relates(Binary::GreaterEqual)),
        Mark::Subset => Some(Infix::Relates(Binary::Subset)),
        Mark::Psubset => Some(Infix::Relates(Binary::ProperSubset)),
        Mark::Plus => strict(Left::Sum, Binary::Plus),
        Mark::Minus => strict(Left::Sum, Binary::Minus),
        Mark::Union => strict(Left::Sum, Binary::Union),
        Mark::Backslash => strict(Left::Sum, Binary::Difference),
        Mark::Caret => strict(Left::Sum, Binary::Concat),
        Mark::Star => strict(Left::Product, Binary::Times),
        Mark::Div => strict(Left::Product, Binary::Div),
        Mark::Rem => strict(Left::Product, Binary::Rem),
        Mark::Mod => strict(Left::Product, Binary::Mod),
        Mark::Inter => strict(Left::Product, Binary::Inter),
        _ => None,
    }
}

// What a mark does in front of an operand.
fn before(mark: Mark) -> Option<(Lead, Unary)>
    ensures { prefix_of result ≡ prefix_of_mark mark }
{
    match mark {
        Mark::Not => Some((Lead::Not, Unary::Not)),
        Mark::Minus => Some((Lead::Minus, Unary::Negate)),
        Mark::Abs => Some((Lead::Minus, Unary::Abs)),
        Mark::Card => Some((Lead::Minus, Unary::Card)),
        Mark::Len => Some((Lead::Minus, Unary::Len)),
        Mark::Hd => Some((Lead::Minus, Unary::Hd)),
        Mark::Tl => Some((Lead::Minus, Unary::Tl)),
        Mark::Elems => Some((Lead::Minus, Unary::Elems)),
        Mark::Inds => Some((Lead::Minus, Unary::Inds)),
        _ => None,
    }
}

// The mark that a token is, if it is one.
fn mark_of(kind: Kind) -> Option<Mark>
    ensures { MatchOption result ((m : Mark) → kind ≢ Kind.Mark m) (λ m. kind ≡ Kind.Mark m) }
{
    match kind {
        Kind::Mark(mark) => Some(mark),
        Kind::Name | Kind::Numeral => None,
    }
}

// The operation of a sign of this level.
pub(crate) fn chain_sign(level: Left, kind: Kind) -> Option<Operation>
    ensures { Tells kind (joins (left_of level)) (λ s o. operation_of o ≡ operation (infix_at s)) result }
{
    match between(mark_of(kind)?)? {
        Infix::Chains(found, op) if found == level => Some(op),
        _ => None,
    }
}

// The operation of a relation.
pub(crate) fn relation_sign(kind: Kind) -> Option<Binary>
    ensures { Tells kind relates (λ s o. o ≡ relation_of (infix_at s)) result }
{
    match between(mark_of(kind)?)? {
        Infix::Relates(op) => Some(op),
        _ => None,
    }
}

// The operation of a prefix sign of this level.
pub(crate) fn lead_sign(level: Lead, kind: Kind) -> Option<Unary>
    ensures { Tells kind (leads (lead_of level)) (λ s o. o ≡ unary_of (prefix_at s)) result }
{
    let (found, op) = before(mark_of(kind)?)?;
    (found == level).then_some(op)
}
