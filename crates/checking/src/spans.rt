// Names and numerals, as parts of the text.
ghost use Rattle.std.specs.Prelude.{◌≡◌, ◌||◌, map, drop as dropped, nat_lt};
ghost use Rattle.tokens.specs.Lexeme.{decimal};
ghost use Rattle.syntax.specs.Names.{among as among_of};
ghost use Rattle.reading.specs.Entries.{spelled};

use reading::Span;

// The least and the most that a number may be. (No range of std: `1..=8` is a call, and a constant's value cannot be one yet.)
#[derive(Clone, Copy)]
pub struct Bounds {
    least: u32,
    most: u32,
}

impl Bounds {
    // Those of a numeral.
    pub(crate) const NUMERAL: Bounds = Bounds {
        least: 0,
        most: 2147483647,
    };

    // Those of a selection: a tuple has at most eight parts.
    pub(crate) const PART: Bounds = Bounds { least: 1, most: 8 };
}

// The bytes of a part of the text; of a part that reaches past the end, those that are there.
pub(crate) fn bytes(text: &[u8], span: Span) -> &[u8]
    ensures { result.now ≡ spelled text.now span }
{
    let rest = text.get(span.place..).unwrap_or_default();
    rest.get(..span.len).unwrap_or(rest)
}

// The names from number `from` on.
pub(crate) fn since(names: &[Span], from: usize) -> &[Span]
    ensures { result.now ≡ dropped from names.now }
{
    names.get(from..).unwrap_or_default()
}

// Whether one of the names is spelled like this one.
pub(crate) fn among(text: &[u8], names: &[Span], name: Span) -> bool
    ensures { result ≡ among_of (spelled text.now name) (map (spelled text.now) names.now) }
{
    let wanted = bytes(text, name);
    names.iter().any(|x| wanted == bytes(text, *x))
}

// Whether the number that the digits write is outside these bounds.
pub(crate) fn outside(digits: &[u8], bounds: Bounds) -> bool
    ensures { result ≡ (nat_lt (decimal 0 digits.now) bounds.least || nat_lt bounds.most (decimal 0 digits.now)) }
{
    let most = u64::from(bounds.most);
    let mut value: u64 = 0;
    // No fold: it ends early, before the value can overflow.
    for d in digits {
        if value > most {
            return true;
        }
        value = 10 * value + u64::from(d.saturating_sub(b'0'));
    }
    value < u64::from(bounds.least) || value > most
}
