// The tree as entries of a table.
use syntax::{Binary, Collection, Connective, Quantifier, Unary};

/// A part of the text: a name or a numeral.
#[derive(Clone, Copy, Debug, Default, PartialEq, Eq)]
pub struct Span {
    pub place: usize,
    pub len: usize,
}

/// A node of the tree. A part is named by the index of its entry; members, parts and alternatives are lists.
// Indices and not boxes: no heap is used on the way of a rule, and the entries stand in slots that are lent.
#[derive(Clone, Copy, Debug, PartialEq, Eq)]
pub enum Entry {
    Empty,
    Numeral(Span),
    Truth {
        place: usize,
        value: bool,
    },
    Name(Span),
    Unary {
        place: usize,
        op: Unary,
        operand: usize,
    },
    Binary {
        place: usize,
        op: Binary,
        left: usize,
        right: usize,
    },
    Connective {
        place: usize,
        op: Connective,
        left: usize,
        right: usize,
    },
    If {
        place: usize,
        test: usize,
        then: usize,
        otherwise: usize,
    },
    Let {
        place: usize,
        name: Span,
        value: usize,
        body: usize,
    },
    LetBe {
        place: usize,
        name: Span,
        set: usize,
        condition: usize,
        body: usize,
    },
    Cases {
        place: usize,
        subject: usize,
        first: usize,
        others: Option<usize>,
    },
    Quantifier {
        place: usize,
        op: Quantifier,
        name: Span,
        set: usize,
        body: usize,
    },
    Collection {
        place: usize,
        kind: Collection,
        first: Option<usize>,
    },
    Range {
        place: usize,
        start: usize,
        end: usize,
    },
    Comprehension {
        place: usize,
        kind: Collection,
        member: usize,
        name: Span,
        set: usize,
        condition: Option<usize>,
    },
    Selection {
        place: usize,
        tuple: usize,
        part: Span,
    },
    /// One of several members, and the next.
    Item {
        node: usize,
        next: Option<usize>,
    },
    /// An alternative of `cases`, and the next.
    Alternative {
        pattern: usize,
        right: usize,
        next: Option<usize>,
    },
    AnyPattern {
        place: usize,
    },
    NamePattern(Span),
    NumeralPattern(Span),
    TruthPattern {
        place: usize,
        value: bool,
    },
    PartsPattern {
        place: usize,
        kind: Collection,
        first: Option<usize>,
    },
}
