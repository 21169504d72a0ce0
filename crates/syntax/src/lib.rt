//! The operators of the rule language, grouped by how they are evaluated, and what a refusal tells.

#![tactic(auto)]

mod printed;

/// A refusal as it is told: its number, and its place where it has one.
#[derive(Clone, Copy, Debug, PartialEq, Eq)]
pub struct Refused {
    pub number: u8,
    pub place: Option<usize>,
}

/// Takes one value.
#[derive(Clone, Copy, Debug, PartialEq, Eq)]
pub enum Unary {
    Not,
    Negate,
    Abs,
    Card,
    Len,
    Hd,
    Tl,
    Elems,
    Inds,
}

/// Takes two values, the left one first.
#[derive(Clone, Copy, Debug, PartialEq, Eq)]
pub enum Binary {
    Iff,
    Equal,
    NotEqual,
    Less,
    LessEqual,
    Greater,
    GreaterEqual,
    Subset,
    ProperSubset,
    InSet,
    NotInSet,
    Plus,
    Minus,
    Union,
    Difference,
    Concat,
    Times,
    Div,
    Rem,
    Mod,
    Inter,
    Apply,
}

/// One side alone may decide it.
#[derive(Clone, Copy, Debug, PartialEq, Eq)]
pub enum Connective {
    Implies,
    Or,
    And,
}

#[derive(Clone, Copy, Debug, PartialEq, Eq)]
pub enum Quantifier {
    Forall,
    Exists,
}

/// What is made of members or parts.
#[derive(Clone, Copy, Debug, PartialEq, Eq)]
pub enum Collection {
    Set,
    Sequence,
    Tuple,
}
