//! What programs that show drafts share: input, and how a refusal and a tree are written.

#![tactic(auto)]

ghost use Rattle.std.specs.Prelude.{◌≤◌, length, IfOk};

use arrayvec::ArrayString;
use reading::{Draft, Entry, Span};
use std::fmt::Write as _;
use std::io::{Read, Write};
use std::{fmt, io};
use syntax::Refused;
use writing::write_refused;

/// The most levels that are shown.
const LEVELS: usize = 64;

/// The most bytes of a node's place and label: the place has up to twenty figures, the label up to sixteen bytes.
const HEAD_MAX: usize = 37;

/// The most bytes of a refusal's line: its number has up to three figures, its place up to twenty.
const REFUSAL_MAX: usize = 35;

/// How a tree is laid out.
// Two layouts, known here: a trait would spread the six arms of `indent`, `cut` and `node` over two impls.
#[derive(Clone, Copy, Debug, PartialEq, Eq)]
pub enum Layout {
    /// One node to a line, its parts two blanks further in.
    Lines,
    /// On one line, a node and its parts in parentheses.
    Nested,
}

// What a node is. A link of a list is nothing.
#[derive(Clone, Copy)]
struct Label(Entry);

impl fmt::Display for Label {
    fn fmt<W: fmt::Write>(&self, f: &mut fmt::Formatter<W>) -> fmt::Result {
        match self.0 {
            Entry::Empty | Entry::Item { .. } | Entry::Alternative { .. } => Ok(()),
            Entry::Numeral(_) => write!(f, "numeral"),
            Entry::Truth { value, .. } => write!(f, "{value}"),
            Entry::Name(_) => write!(f, "name"),
            Entry::Unary { op, .. } => write!(f, "{op}"),
            Entry::Binary { op, .. } => write!(f, "{op}"),
            Entry::Connective { op, .. } => write!(f, "{op}"),
            Entry::If { .. } => write!(f, "if"),
            Entry::Let { .. } => write!(f, "let"),
            Entry::LetBe { .. } => write!(f, "let be"),
            Entry::Cases { others: None, .. } => write!(f, "cases"),
            Entry::Cases { .. } => write!(f, "cases others"),
            Entry::Quantifier { op, .. } => write!(f, "{op}"),
            Entry::Collection { kind, .. } => write!(f, "{kind}"),
            Entry::Range { .. } => write!(f, "range"),
            Entry::Comprehension { kind, .. } => write!(f, "{kind} of"),
            Entry::Selection { .. } => write!(f, ".#"),
            Entry::AnyPattern { .. } => write!(f, "pattern -"),
            Entry::NamePattern(_) => write!(f, "pattern name"),
            Entry::NumeralPattern(_) => write!(f, "pattern numeral"),
            Entry::TruthPattern { value, .. } => write!(f, "pattern {value}"),
            Entry::PartsPattern { kind, .. } => write!(f, "pattern {kind}"),
        }
    }
}

// The place of a node. A link of a list has none.
fn place_of(entry: Entry) -> Option<usize> {
    match entry {
        Entry::Empty | Entry::Item { .. } | Entry::Alternative { .. } => None,
        Entry::Numeral(span)
        | Entry::Name(span)
        | Entry::NamePattern(span)
        | Entry::NumeralPattern(span) => Some(span.place),
        Entry::Truth { place, .. }
        | Entry::Unary { place, .. }
        | Entry::Binary { place, .. }
        | Entry::Connective { place, .. }
        | Entry::If { place, .. }
        | Entry::Let { place, .. }
        | Entry::LetBe { place, .. }
        | Entry::Cases { place, .. }
        | Entry::Quantifier { place, .. }
        | Entry::Collection { place, .. }
        | Entry::Range { place, .. }
        | Entry::Comprehension { place, .. }
        | Entry::Selection { place, .. }
        | Entry::AnyPattern { place }
        | Entry::TruthPattern { place, .. }
        | Entry::PartsPattern { place, .. } => Some(place),
    }
}

// The name or numeral that a node has.
fn spelling_of(entry: Entry) -> Option<Span> {
    match entry {
        Entry::Numeral(span)
        | Entry::Name(span)
        | Entry::NamePattern(span)
        | Entry::NumeralPattern(span)
        | Entry::Let { name: span, .. }
        | Entry::LetBe { name: span, .. }
        | Entry::Quantifier { name: span, .. }
        | Entry::Comprehension { name: span, .. }
        | Entry::Selection { part: span, .. } => Some(span),
        _ => None,
    }
}

// The entries of its parts, in order.
fn parts_of(entry: Entry) -> [Option<usize>; 3] {
    match entry {
        Entry::Unary { operand, .. } => [Some(operand), None, None],
        Entry::Binary { left, right, .. } | Entry::Connective { left, right, .. } => {
            [Some(left), Some(right), None]
        }
        Entry::If {
            test,
            then,
            otherwise,
            ..
        } => [Some(test), Some(then), Some(otherwise)],
        Entry::Let { value, body, .. } => [Some(value), Some(body), None],
        Entry::LetBe {
            set,
            condition,
            body,
            ..
        } => [Some(set), Some(condition), Some(body)],
        Entry::Cases {
            subject,
            first,
            others,
            ..
        } => [Some(subject), Some(first), others],
        Entry::Quantifier { set, body, .. } => [Some(set), Some(body), None],
        Entry::Collection { first, .. } | Entry::PartsPattern { first, .. } => [first, None, None],
        Entry::Range { start, end, .. } => [Some(start), Some(end), None],
        Entry::Comprehension {
            member,
            set,
            condition,
            ..
        } => [Some(member), Some(set), condition],
        Entry::Selection { tuple, .. } => [Some(tuple), None, None],
        Entry::Item { node, next } => [Some(node), next, None],
        Entry::Alternative {
            pattern,
            right,
            next,
        } => [Some(pattern), Some(right), next],
        _ => [None, None, None],
    }
}

// Writes the tree of a draft.
#[derive(Drop)]
struct TreeWriter<'d, W> {
    draft: &'d Draft<'d>,
    layout: Layout,
    out: W,
}

impl<'d, W: Write> TreeWriter<'d, W> {
    // The blanks in front of a node.
    fn indent(&mut self, level: usize) -> io::Result<()> {
        match self.layout {
            Layout::Lines => {
                for _ in 0..level {
                    write!(self.out, "  ")?;
                }
                Ok(())
            }
            Layout::Nested if level > 0 => write!(self.out, " "),
            Layout::Nested => Ok(()),
        }
    }

    // In place of a node that is too deep.
    fn cut(&mut self, level: usize) -> io::Result<()> {
        self.indent(level)?;
        match self.layout {
            Layout::Lines => writeln!(self.out, "..."),
            Layout::Nested => write!(self.out, "..."),
        }
    }

    // The line of a node, without its parts.
    fn head(&mut self, entry: Entry, place: usize) -> io::Result<()> {
        let label = Label(entry);
        // One piece, since each piece is a call of the system. Each head fits, so that this error is never returned.
        let mut line = ArrayString::<HEAD_MAX>::new();
        write!(line, "{place} {label}").map_err(|_| io::ErrorKind::WriteZero)?;
        self.out.write_all(line.as_bytes())?;
        if let Some(Span { place, len }) = spelling_of(entry) {
            if let Some(spelling) = self.draft.text().get(place..place.saturating_add(len)) {
                write!(self.out, " ")?;
                self.out.write_all(spelling)?;
            }
        }
        Ok(())
    }

    // A node and its parts; of a list, all its members. Goes at most `left` entries deeper.
    #[cycle(nodes)]
    fn node(&mut self, at: usize, level: usize, left: usize) -> io::Result<()> {
        let Some(&entry) = self.draft.entries().get(at) else {
            return Ok(());
        };
        let Some(place) = place_of(entry) else {
            return self.parts(entry, level, left);
        };
        if level >= LEVELS {
            return self.cut(level);
        }
        self.indent(level)?;
        match self.layout {
            Layout::Lines => {
                self.head(entry, place)?;
                writeln!(self.out)?;
                self.parts(entry, level + 1, left)
            }
            Layout::Nested => {
                write!(self.out, "(")?;
                self.head(entry, place)?;
                self.parts(entry, level + 1, left)?;
                write!(self.out, ")")
            }
        }
    }

    // The parts of an entry. Goes at most `left` entries deeper.
    #[cycle(nodes)]
    fn parts(&mut self, entry: Entry, level: usize, left: usize) -> io::Result<()> {
        if left > 0 {
            for part in parts_of(entry).into_iter().flatten() {
                self.node(part, level, left - 1)?;
            }
        }
        Ok(())
    }
}

/// Writes the tree of a draft: for each node its place, what it is, the name or numeral that it has, and its parts.
pub fn show(rt: &HostRuntime, draft: &Draft<'_>, layout: Layout) -> io::Result<()> {
    let mut tree = TreeWriter {
        draft,
        layout,
        out: rt.stdout(),
    };
    tree.node(draft.root(), 0, draft.entries().len())
}

/// Fills the buffer from standard input as far as there is input, and says how many bytes came.
pub fn read_text(rt: &HostRuntime, buffer: &mut [u8]) -> io::Result<usize>
    ensures { IfOk result (λ n. n ≤ length buffer.old) }
{
    let room = buffer.len();
    let mut rest = buffer;
    io::copy(&mut rt.stdin().take(room as u64), &mut rest)?;
    // No clause of the library says that `rest` only becomes shorter.
    Ok(room.saturating_sub(rest.len()))
}

/// Writes a refusal.
pub fn write_refusal(rt: &HostRuntime, refused: Refused) -> io::Result<()> {
    let mut line = [0; REFUSAL_MAX];
    // Each line fits, so that this error is never returned.
    let len = write_refused(refused, &mut line).map_err(|_| io::ErrorKind::WriteZero)?;
    rt.stdout().write_all(&line[..len])
}
