// Cuts a text into tokens.
ghost use Rattle.std.specs.Prelude.{◌≡◌, ◌<◌, true, length, MatchBool, slice_index};
ghost use Rattle.tokens.specs.Pieces.{separates, letter};
ghost use Rattle.tokens.specs.Cutting.{NameRule, NoRun, IsPiece, Tokenised};

use crate::{Kind, Refusal, Token, marks};
use tables::Table;

// The most bytes that a name may have.
const NAME_MAX: usize = 32;

fn is_separator(b: u8) -> bool
    ensures { result ≡ separates b }
{
    matches!(b, b' ' | b'\t' | b'\n' | b'\r')
}

// What stands in front of a text.
enum Piece {
    // so many bytes that are no token
    Skip(usize),
    // a token of so many bytes
    Token(Kind, usize),
}

// A text that begins with a letter: a reserved word or a name. None where a name breaks its rule.
fn word(bytes: &[u8]) -> Option<Piece>
    requires { letter (slice_index bytes.now 0) ≡ true }
    ensures { IsPiece bytes.now result }
{
    let len = bytes
        .iter()
        .take_while(|b| b.is_ascii_alphanumeric() || **b == b'_')
        .count();
    let word = &bytes[..len];
    let kind = match marks::reserved(word) {
        Some(mark) => Kind::Mark(mark),
        None if obeys_rule(word) => Kind::Name,
        None => return None,
    };
    Some(Piece::Token(kind, len))
}

// Whether a word that is not reserved may be a name.
fn obeys_rule(word: &[u8]) -> bool
    ensures { MatchBool result (NameRule word.now) (NameRule word.now → ⊥) }
{
    word.len() <= NAME_MAX && !word.starts_with(b"mk_")
}

// A text that begins with neither a letter nor a digit nor a separator: a comment, a sign, or nothing of the language.
fn sign(bytes: &[u8]) -> Option<Piece>
    requires { (0 < length bytes.now) × (NoRun (slice_index bytes.now 0)) }
    ensures { IsPiece bytes.now result }
{
    if bytes.starts_with(b"--") {
        let len = bytes.iter().take_while(|b| **b != b'\n').count();
        return Some(Piece::Skip(len));
    }
    let mark = marks::sign(bytes)?;
    Some(Piece::Token(Kind::Mark(mark), marks::spelling(mark).len()))
}

// What stands in front of a text that is not empty. None where nothing of the language begins.
fn front(bytes: &[u8]) -> Option<Piece>
    requires { 0 < length bytes.now }
    ensures { IsPiece bytes.now result }
{
    let first = bytes[0];
    if is_separator(first) {
        Some(Piece::Skip(1))
    } else if first.is_ascii_alphabetic() {
        word(bytes)
    } else if first.is_ascii_digit() {
        let len = bytes.iter().take_while(|b| b.is_ascii_digit()).count();
        Some(Piece::Token(Kind::Numeral, len))
    } else {
        sign(bytes)
    }
}

/// Cuts `text` into tokens, which are added to the table.
///
/// Refuses a text that has more bytes than the table has slots left, and leaves the table as it was. Refuses a text at its first
/// bad place; the tokens before that place are then in the table.
pub fn tokenise(text: &[u8], tokens: &mut Table<'_, Token>) -> Result<(), Refusal>
    ensures { Tokenised text.now tokens.old tokens.new result }
{
    if text.len() > tokens.remaining() {
        return Err(Refusal::TooLong);
    }
    // a `while`, since a turn goes on by as many bytes as its piece has
    let mut place = 0;
    while place < text.len() {
        let Some(piece) = front(&text[place..]) else {
            return Err(Refusal::NoToken(place));
        };
        match piece {
            Piece::Skip(len) => place += len,
            Piece::Token(kind, len) => {
                tokens.push(Token { kind, place, len }).unwrap();
                place += len;
            }
        }
    }
    Ok(())
}
