// The reserved words and signs.
ghost use Rattle.std.specs.Prelude.{◌≡◌, true, MatchOption, ◌≢◌};
ghost use Rattle.tokens.specs.Spelling.{spelling as spelling_of};
ghost use Rattle.tokens.specs.Lookup.{of_length, of_first, NoSign, LongestSign};
ghost use Rattle.tokens.specs.Pieces.{word as is_word};

use crate::Mark;

/// The bytes of a reserved word or sign.
pub fn spelling(mark: Mark) -> &'static [u8]
    ensures { result.now ≡ spelling_of mark }
{
    match mark {
        Mark::Abs => b"abs",
        Mark::And => b"and",
        Mark::Be => b"be",
        Mark::Card => b"card",
        Mark::Cases => b"cases",
        Mark::Div => b"div",
        Mark::Elems => b"elems",
        Mark::Else => b"else",
        Mark::Elseif => b"elseif",
        Mark::End => b"end",
        Mark::Exists => b"exists",
        Mark::False => b"false",
        Mark::Forall => b"forall",
        Mark::Hd => b"hd",
        Mark::If => b"if",
        Mark::In => b"in",
        Mark::Inds => b"inds",
        Mark::Inter => b"inter",
        Mark::Len => b"len",
        Mark::Let => b"let",
        Mark::Mk => b"mk_",
        Mark::Mod => b"mod",
        Mark::Not => b"not",
        Mark::Or => b"or",
        Mark::Others => b"others",
        Mark::Psubset => b"psubset",
        Mark::Rem => b"rem",
        Mark::Set => b"set",
        Mark::St => b"st",
        Mark::Subset => b"subset",
        Mark::Then => b"then",
        Mark::Tl => b"tl",
        Mark::True => b"true",
        Mark::Union => b"union",
        Mark::Iff => b"<=>",
        Mark::Implies => b"=>",
        Mark::Equal => b"=",
        Mark::NotEqual => b"<>",
        Mark::Less => b"<",
        Mark::LessEqual => b"<=",
        Mark::Greater => b">",
        Mark::GreaterEqual => b">=",
        Mark::Plus => b"+",
        Mark::Minus => b"-",
        Mark::Backslash => b"\\",
        Mark::Caret => b"^",
        Mark::Star => b"*",
        Mark::OpenParen => b"(",
        Mark::CloseParen => b")",
        Mark::OpenBracket => b"[",
        Mark::CloseBracket => b"]",
        Mark::OpenBrace => b"{",
        Mark::CloseBrace => b"}",
        Mark::Comma => b",",
        Mark::Colon => b":",
        Mark::Arrow => b"->",
        Mark::Ampersand => b"&",
        Mark::Bar => b"|",
        Mark::Ellipsis => b"...",
        Mark::Select => b".#",
    }
}

// The reserved words of this length.
fn of_length(len: usize) -> &'static [Mark]
    ensures { result.now ≡ of_length len }
{
    match len {
        2 => &[
            Mark::Be,
            Mark::Hd,
            Mark::If,
            Mark::In,
            Mark::Or,
            Mark::St,
            Mark::Tl,
        ],
        3 => &[
            Mark::Abs,
            Mark::And,
            Mark::Div,
            Mark::End,
            Mark::Len,
            Mark::Let,
            Mark::Mk,
            Mark::Mod,
            Mark::Not,
            Mark::Rem,
            Mark::Set,
        ],
        4 => &[Mark::Card, Mark::Else, Mark::Inds, Mark::Then, Mark::True],
        5 => &[
            Mark::Cases,
            Mark::Elems,
            Mark::False,
            Mark::Inter,
            Mark::Union,
        ],
        6 => &[
            Mark::Elseif,
            Mark::Exists,
            Mark::Forall,
            Mark::Others,
            Mark::Subset,
        ],
        7 => &[Mark::Psubset],
        _ => &[],
    }
}

// The reserved word that these bytes spell.
pub(crate) fn reserved(word: &[u8]) -> Option<Mark>
    ensures { MatchOption result ((m : Mark) → is_word (spelling_of m) ≡ true → spelling_of m ≢ word.now) (λ m. spelling_of m ≡ word.now) }
{
    of_length(word.len())
        .iter()
        .copied()
        .find(|mark| word == spelling(*mark))
}

// The signs whose first byte is this, longer ones first.
fn of_first(first: u8) -> &'static [Mark]
    ensures { result.now ≡ of_first first }
{
    match first {
        b'(' => &[Mark::OpenParen],
        b')' => &[Mark::CloseParen],
        b',' => &[Mark::Comma],
        b'=' => &[Mark::Implies, Mark::Equal],
        b'<' => &[Mark::Iff, Mark::LessEqual, Mark::NotEqual, Mark::Less],
        b'>' => &[Mark::GreaterEqual, Mark::Greater],
        b'+' => &[Mark::Plus],
        b'-' => &[Mark::Arrow, Mark::Minus],
        b'*' => &[Mark::Star],
        b'.' => &[Mark::Ellipsis, Mark::Select],
        b'[' => &[Mark::OpenBracket],
        b']' => &[Mark::CloseBracket],
        b'{' => &[Mark::OpenBrace],
        b'}' => &[Mark::CloseBrace],
        b'&' => &[Mark::Ampersand],
        b'|' => &[Mark::Bar],
        b':' => &[Mark::Colon],
        b'\\' => &[Mark::Backslash],
        b'^' => &[Mark::Caret],
        _ => &[],
    }
}

// The longest sign in front of a text.
pub(crate) fn sign(text: &[u8]) -> Option<Mark>
    ensures { MatchOption result (NoSign text.now) (LongestSign text.now) }
{
    of_first(*text.first()?)
        .iter()
        .copied()
        .find(|mark| text.starts_with(spelling(*mark)))
}
