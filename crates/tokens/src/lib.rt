//! Bytes to tokens: the longest each time, with separators and comments skipped.

#![tactic(auto)]

mod cut;
mod marks;

ghost use Rattle.std.specs.Prelude.{◌≡◌};
ghost use Rattle.tokens.specs.Refusals.{told as told_of};

pub use cut::tokenise;
pub use marks::spelling;
use syntax::Refused;

/// A reserved word or a sign.
#[derive(Clone, Copy, Debug, PartialEq, Eq)]
pub enum Mark {
    // reserved words
    Abs,
    And,
    Be,
    Card,
    Cases,
    Div,
    Elems,
    Else,
    Elseif,
    End,
    Exists,
    False,
    Forall,
    Hd,
    If,
    In,
    Inds,
    Inter,
    Len,
    Let,
    Mk,
    Mod,
    Not,
    Or,
    Others,
    Psubset,
    Rem,
    Set,
    St,
    Subset,
    Then,
    Tl,
    True,
    Union,
    // signs
    Iff,
    Implies,
    Equal,
    NotEqual,
    Less,
    LessEqual,
    Greater,
    GreaterEqual,
    Plus,
    Minus,
    Backslash,
    Caret,
    Star,
    OpenParen,
    CloseParen,
    OpenBracket,
    CloseBracket,
    OpenBrace,
    CloseBrace,
    Comma,
    Colon,
    Arrow,
    Ampersand,
    Bar,
    Ellipsis,
    Select,
}

/// What a token is.
#[derive(Clone, Copy, Debug, PartialEq, Eq)]
pub enum Kind {
    Mark(Mark),
    Name,
    Numeral,
}

/// A token: what it is, the place of its first byte, and how many bytes it has.
#[derive(Clone, Copy, Debug, PartialEq, Eq)]
pub struct Token {
    pub kind: Kind,
    pub place: usize,
    pub len: usize,
}

/// Why a text is not cut to its end.
#[derive(Clone, Copy, Debug, PartialEq, Eq)]
pub enum Refusal {
    /// It has more bytes than the table has slots left.
    TooLong,
    /// At this place no token begins, or a name breaks its rule.
    NoToken(usize),
}

impl Refusal {
    /// Its number and place.
    pub fn told(self) -> Refused
        ensures { result ≡ told_of self }
    {
        self.into()
    }
}

impl From<Refusal> for Refused {
    ghost from_gives = { λ refusal refused. refused ≡ told_of refusal };

    fn from(refusal: Refusal) -> Refused {
        match refusal {
            Refusal::TooLong => Refused {
                number: 1,
                place: None,
            },
            Refusal::NoToken(place) => Refused {
                number: 2,
                place: Some(place),
            },
        }
    }
}
