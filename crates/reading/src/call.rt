// The call: a text becomes a draft.
ghost use Rattle.std.specs.Prelude.{◌≡◌, ◌≤◌, [], length, MatchResult};
ghost use Rattle.tables.specs.Items.{items, room};
ghost use Rattle.reading.specs.Sources.{Fits, Spends};
ghost use Rattle.reading.specs.Reading.{told as told_of, cut_short, Parsed, Built, Drafted, Undrafted};

use crate::Entry;
use crate::source::{Bad, Reader};
use syntax::Refused;
use tables::Table;
use tokens::{Kind, Token, tokenise};

// The most bytes of a text, and the fewest slots of a tree table.
const TEXT_MAX: usize = 2048;

const NO_TOKEN: Token = Token {
    kind: Kind::Name,
    place: 0,
    len: 0,
};

/// Why a text is not read.
#[derive(Clone, Copy, Debug, PartialEq, Eq)]
pub enum Refusal {
    /// It has over 2,048 bytes.
    TooLong,
    /// The table has under 2,048 slots.
    SmallTable,
    /// At this place no token begins, or a name breaks its rule.
    NoToken(usize),
    /// The token at this place continues no sentence's beginning; or the text, which has this length, ends too early.
    NoSentence(usize),
}

impl Refusal {
    /// Its number and place.
    pub fn told(self) -> Refused
        ensures { result ≡ told_of self }
    {
        self.into()
    }
}

impl From<Refusal> for Refused {
    ghost from_gives = { λ e r. r ≡ told_of e };

    fn from(refusal: Refusal) -> Refused {
        match refusal {
            Refusal::TooLong => Refused {
                number: 1,
                place: None,
            },
            Refusal::SmallTable => Refused {
                number: 4,
                place: None,
            },
            Refusal::NoToken(place) => Refused {
                number: 2,
                place: Some(place),
            },
            Refusal::NoSentence(place) => Refused {
                number: 3,
                place: Some(place),
            },
        }
    }
}

impl From<tokens::Refusal> for Refusal {
    ghost from_gives = { λ e r. r ≡ cut_short e };

    fn from(refusal: tokens::Refusal) -> Refusal {
        match refusal {
            tokens::Refusal::TooLong => Refusal::TooLong,
            tokens::Refusal::NoToken(place) => Refusal::NoToken(place),
        }
    }
}

/// A rule that was read and is not checked: its text, its tree as entries, and the index of the root's entry.
pub struct Draft<'t> {
    text: &'t [u8],
    entries: &'t [Entry],
    root: usize,
}

impl<'t> Draft<'t> {
    /// The text that it was read from.
    pub fn text(&self) -> &[u8]
        ensures { result.now ≡ self.now.text.now }
    {
        self.text
    }

    /// The entries of its tree; behind them every slot is empty.
    pub fn entries(&self) -> &[Entry]
        ensures { result.now ≡ self.now.entries.now }
    {
        self.entries
    }

    /// The index of the root's entry.
    pub fn root(&self) -> usize
        ensures { result ≡ self.now.root }
    {
        self.root
    }

    /// Ends it, and gives its slots back.
    pub fn release(self) -> &'t [Entry]
        ensures { result.now ≡ self.entry.entries.now }
    {
        let Draft {
            text: _,
            entries: slots,
            root: _,
        } = self;
        slots
    }
}

// Reads the tokens as one expression. A refusal is at the first bad token, or at the end.
fn parse(reader: &mut Reader<'_, '_>) -> Result<usize, Bad>
    requires { Fits 0 reader.old }
    ensures parsed { Parsed reader.old reader.new result }
    ensures spends { Spends 0 reader.old reader.new }
{
    let root = reader.expr(false)?;
    if !reader.rest.is_empty() {
        return Err(Bad);
    }
    Ok(root)
}

// Tokens and tree of a text, in slots that are enough.
fn build<'t>(text: &[u8], table: Table<'t, Entry>) -> (Result<usize, Refusal>, Table<'t, Entry>)
    requires { (length text.now ≤ 2048) × ((2048 ≤ room table) × (items table ≡ [])) }
    ensures { Built text.now table.entry result.1 result.0 }
{
    let mut slots = [NO_TOKEN; TEXT_MAX];
    let mut tokens = Table::make(&mut slots);
    if let Err(refusal) = tokenise(text, &mut tokens) {
        return (Err(refusal.into()), table);
    }
    let mut reader = Reader {
        text,
        rest: tokens.items(),
        table,
    };
    let root = parse(&mut reader);
    let place = reader.place();
    (root.map_err(|_| Refusal::NoSentence(place)), reader.table)
}

/// Reads a text into a draft, whose tree stands in the slots.
///
/// A refusal hands the slots back: as they were where the text is too long or the slots are too few, else all empty.
pub fn read<'t>(
    text: &'t [u8],
    slots: &'t mut [Entry],
) -> Result<Draft<'t>, (Refusal, &'t mut [Entry])>
    ensures { MatchResult result (Drafted text.now slots.old) (λ e. Undrafted text.now slots.old e.1.now e.0) }
{
    if text.len() > TEXT_MAX {
        return Err((Refusal::TooLong, slots));
    }
    if slots.len() < TEXT_MAX {
        return Err((Refusal::SmallTable, slots));
    }
    let (root, mut table) = build(text, Table::make(slots));
    match root {
        Ok(root) => {
            table.blank(Entry::Empty);
            Ok(Draft {
                text,
                entries: table.release(),
                root,
            })
        }
        Err(refusal) => {
            table.clear(Entry::Empty);
            Err((refusal, table.release()))
        }
    }
}
