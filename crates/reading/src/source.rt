// The reader, and how it looks at what it reads.
ghost use Rattle.std.specs.Prelude.{◌≡◌, ℕ, List, MatchBool, MatchOption, MatchResult};
ghost use Rattle.grammar.specs.Steps.{is as is_mark, is_name, is_numeral, is_truth, is_quantifier, joins, relates, leads, operation, infix_at, relation_of, unary_of, prefix_at};
ghost use Rattle.grammar.specs.Steps.{next as next_of};
ghost use Rattle.tokens.specs.Lexeme.{symbol};
ghost use Rattle.grammar.specs.Grammar.{closing as closing_of, kind as kind_of};
ghost use Rattle.reading.specs.Sources.{place_at, Takes, Leaves, Both, Alone, Found, TakesTold, IsName, IsNumeral, IsTruth, IsQuantifier, Follows, Took, Puts, Fits, limit_of, bracket_of};
ghost use Rattle.reading.specs.Signs.{left_of, lead_of, operation_of};

use crate::signs::{Lead, Left, Operation, chain_sign, lead_sign, relation_sign};
use crate::{Entry, Span};
use syntax::{Binary, Collection, Quantifier, Unary};
use tables::Table;
use tokens::{Kind, Mark, Token};

// A text, its tokens that are not yet read, and the entries of what was read.
#[derive(Drop)]
pub struct Reader<'a, 't> {
    pub text: &'a [u8],
    pub rest: &'a [Token],
    pub table: Table<'t, Entry>,
}

// The next token, or the end where there is none, continues no sentence's beginning.
#[derive(Clone, Copy, Debug, PartialEq, Eq)]
pub struct Bad;

// A bind: its name, and the entry of its set.
#[derive(Clone, Copy, Debug, PartialEq, Eq)]
pub struct Binding {
    pub name: Span,
    pub set: usize,
}

// The first alternative, and the right side of `others`.
#[derive(Clone, Copy, Debug, PartialEq, Eq)]
pub struct Branches {
    pub first: usize,
    pub others: Option<usize>,
}

// The brackets of sets and sequences.
#[derive(Clone, Copy, Debug, PartialEq, Eq)]
pub enum Bracket {
    Brace,
    Square,
}

impl Bracket {
    pub(crate) fn closing(self) -> Mark
        ensures { result ≡ closing_of (bracket_of self) }
    {
        match self {
            Bracket::Brace => Mark::CloseBrace,
            Bracket::Square => Mark::CloseBracket,
        }
    }

    pub(crate) fn kind(self) -> Collection
        ensures { result ≡ kind_of (bracket_of self) }
    {
        match self {
            Bracket::Brace => Collection::Set,
            Bracket::Square => Collection::Sequence,
        }
    }
}

// How many parts: any number, at most so many and one more, or two to eight.
#[derive(Clone, Copy, Debug, PartialEq, Eq)]
pub enum Limit {
    Any,
    Most(u8),
    Several,
}

// Whether a token is this mark. By a `match`: what `==` of two kinds says, with the marks inside, is not found by the proofs.
fn is_mark(kind: Kind, mark: Mark) -> bool
    ensures { (bytes : List ℕ) → result ≡ is_mark mark (symbol kind bytes) }
{
    match kind {
        Kind::Mark(here) => here == mark,
        _ => false,
    }
}

impl From<Token> for Span {
    ghost from_gives = { λ token span. span ≡ record { place = token.place; len = token.len } };

    // The part of the text that a token takes.
    fn from(token: Token) -> Span {
        Span {
            place: token.place,
            len: token.len,
        }
    }
}

impl Reader<'_, '_> {
    // The place of the next token, or the text's length where there is none.
    pub(crate) fn place(&self) -> usize
        ensures { result ≡ place_at self.now }
    {
        match self.rest.first() {
            Some(token) => token.place,
            None => self.text.len(),
        }
    }

    // Takes this mark, if it comes next.
    pub(crate) fn accept(&mut self, mark: Mark) -> bool
        ensures { MatchBool result (Takes self.old self.new (is_mark mark)) (Leaves self.old self.new (is_mark mark)) }
    {
        match self.rest.split_first() {
            Some((token, rest)) if is_mark(token.kind, mark) => {
                self.rest = rest;
                true
            }
            _ => false,
        }
    }

    // Takes this mark, which has to come next.
    pub(crate) fn want(&mut self, mark: Mark) -> Result<(), Bad>
        ensures { MatchResult result (λ _. Takes self.old self.new (is_mark mark)) (λ _. Leaves self.old self.new (is_mark mark)) }
    {
        if self.accept(mark) { Ok(()) } else { Err(Bad) }
    }

    // Takes both marks, if they come next.
    pub(crate) fn accept_both(&mut self, first: Mark, second: Mark) -> bool
        ensures { MatchBool result (Both self.old self.new (is_mark first) (is_mark second)) (Alone self.old self.new (is_mark first) (is_mark second)) }
    {
        let rest = self.rest;
        if self.accept(first) {
            if self.accept(second) {
                return true;
            }
            self.rest = rest;
        }
        false
    }

    // Takes the next token, if something is told of it.
    fn take<A, F: FnOnce(Token) -> Option<A>>(&mut self, tells: F) -> Option<A>
        requires { F.IsAlwaysCallable tells }
        ensures { TakesTold (F.post tells) self.old self.new result }
    {
        let (token, rest) = self.rest.split_first()?;
        let told = tells(*token)?;
        self.rest = rest;
        Some(told)
    }

    pub(crate) fn name(&mut self) -> Option<Span>
        ensures { Found self.old self.new is_name (IsName self.old.text.now) result }
    {
        self.take(|token| matches!(token.kind, Kind::Name).then_some(Span::from(token)))
    }

    pub(crate) fn numeral(&mut self) -> Option<Span>
        ensures { Found self.old self.new is_numeral (IsNumeral self.old.text.now) result }
    {
        self.take(|token| matches!(token.kind, Kind::Numeral).then_some(Span::from(token)))
    }

    pub(crate) fn truth(&mut self) -> Option<bool>
        ensures { Found self.old self.new is_truth IsTruth result }
    {
        if self.accept(Mark::True) {
            Some(true)
        } else if self.accept(Mark::False) {
            Some(false)
        } else {
            None
        }
    }

    pub(crate) fn quantifier(&mut self) -> Option<Quantifier>
        ensures { Found self.old self.new is_quantifier IsQuantifier result }
    {
        if self.accept(Mark::Forall) {
            Some(Quantifier::Forall)
        } else if self.accept(Mark::Exists) {
            Some(Quantifier::Exists)
        } else {
            None
        }
    }

    // The operation of a sign of this level.
    pub(crate) fn chained(&mut self, level: Left) -> Option<Operation>
        ensures { Found self.old self.new (joins (left_of level)) (λ x o. operation_of o ≡ operation (infix_at x.symbol)) result }
    {
        self.take(|token| chain_sign(level, token.kind))
    }

    // The operation of a relation.
    pub(crate) fn relating(&mut self) -> Option<Binary>
        ensures { Found self.old self.new relates (λ x o. o ≡ relation_of (infix_at x.symbol)) result }
    {
        self.take(|token| relation_sign(token.kind))
    }

    // The operation of a prefix sign of this level.
    pub(crate) fn leading(&mut self, level: Lead) -> Option<Unary>
        ensures { Found self.old self.new (leads (lead_of level)) (λ x o. o ≡ unary_of (prefix_at x.symbol)) result }
    {
        self.take(|token| lead_sign(level, token.kind))
    }

    // Takes the comma behind a part, and says how many parts come then. There is none where the list ends.
    pub(crate) fn comma(&mut self, limit: Limit) -> Result<Option<Limit>, Bad>
        ensures follows { Follows (next_of (limit_of limit)) self.old self.new result }
        ensures took { Took self.old self.new result }
    {
        match limit {
            Limit::Any => Ok(self.accept(Mark::Comma).then_some(Limit::Any)),
            Limit::Most(0) => Ok(None),
            Limit::Most(n) => Ok(self.accept(Mark::Comma).then_some(Limit::Most(n - 1))),
            Limit::Several => {
                self.want(Mark::Comma)?;
                Ok(Some(Limit::Most(6)))
            }
        }
    }

    // Adds an entry.
    pub(crate) fn put(&mut self, entry: Entry) -> usize
        requires { Fits 1 self.old }
        ensures { Puts self.old self.new entry result }
    {
        let node = self.table.len();
        self.table.push(entry).unwrap();
        node
    }
}
