// The way through a draft's tree.
ghost use Rattle.std.specs.Prelude.{◌≡◌, [], take, slice_index_or};
ghost use Rattle.checking.specs.Walk.{unseen};
ghost use Rattle.checking.specs.Walked.{entry_at, in_sight, noted, Walked, Matched, node_on, number_within, name_at, name_bound, bound_from, pattern_at, patterns_at, tree_at, under_at, filter_at, optional_at, items_at, arms_at, side_at};
ghost use Rattle.reading.specs.declared.entry.Entry.TheVariants.{Empty};

use crate::depth::Depth;
use crate::findings::Findings;
use crate::spans::{Bounds, since};
use arrayvec::ArrayVec;
use reading::{Entry, Span};

// The most names that can be in sight: each has an expression or a pattern of its own.
const SIGHT_MAX: usize = 2048;

// A draft's text and entries.
#[derive(Clone, Copy)]
pub struct Source<'s> {
    pub text: &'s [u8],
    pub entries: &'s [Entry],
}

impl Source<'_> {
    // The entry at an index; past the end there are only empty ones.
    fn entry(&self, at: usize) -> Entry
        ensures { result ≡ slice_index_or self.now.entries.now at Empty }
    {
        self.entries.get(at).copied().unwrap_or(Entry::Empty)
    }

    // The entry that a link names; with no link, an empty one.
    fn linked(&self, link: Option<usize>) -> Entry
        ensures { result ≡ entry_at self.now.entries.now link }
    {
        link.and_then(|at| self.entries.get(at))
            .copied()
            .unwrap_or(Entry::Empty)
    }
}

// A walk through a draft: the names in sight, the nearest binding last, and what was found.
#[derive(Drop)]
pub struct Walk<'s> {
    pub src: Source<'s>,
    pub scope: ArrayVec<Span, SIGHT_MAX>,
    pub found: Findings,
}

// The names that are bound for a body: at its end, however it ends, those from before are in sight again.
struct Body<'w, 's> {
    walk: &'w mut Walk<'s>,
    from: usize,
}

impl Drop for Body<'_, '_> {
    fn drop(self)
        ensures src { self.exit.0.now.src ≡ self.entry.walk.now.src }
        ensures scope { self.exit.0.now.scope.items ≡ take self.entry.from self.entry.walk.now.scope.items }
        ensures found { self.exit.0.now.found ≡ self.entry.walk.now.found }
    {
        let Body { walk, from } = self;
        walk.scope.truncate(from);
    }
}

impl<'s> Walk<'s> {
    // Nothing is in sight, and nothing found.
    pub(crate) fn new(src: Source<'s>) -> Walk<'s>
        ensures src { result.src ≡ src.entry }
        ensures sight { in_sight result ≡ [] }
        ensures found { noted result ≡ unseen }
    {
        Walk {
            src,
            scope: ArrayVec::new(),
            found: Findings::default(),
        }
    }

    // An expression or pattern. (This and the next two say of the whole walk what `found` says of itself: inline, each arm that calls
    // them would have to show it anew.)
    fn node(&mut self, place: usize, level: usize)
        ensures { Walked self.old self.new (node_on place level) }
    {
        self.found.node(place, level);
    }

    // A number that the text states.
    fn number(&mut self, place: usize, digits: Span, bounds: Bounds)
        ensures { Walked self.old self.new (number_within place digits bounds) }
    {
        self.found.number(self.src.text, place, digits, bounds);
    }

    // A name as an expression.
    fn name(&mut self, name: Span)
        ensures { Walked self.old self.new (name_at name) }
    {
        self.found.name(self.src.text, &self.scope, name);
    }

    // One name more in sight, while there is room.
    fn bind(&mut self, name: Span)
        ensures { Matched self.old self.new (name_bound name) }
    {
        let _ = self.scope.try_push(name);
    }

    // A name of a pattern, whose names are in sight from number `from` on.
    fn pattern_name(&mut self, from: usize, name: Span)
        ensures { Matched self.old self.new (bound_from from name) }
    {
        let earlier = since(&self.scope, from);
        self.found.pattern_name(self.src.text, earlier, name);
        self.bind(name);
    }

    // A pattern, whose names are in sight from number `from` on.
    #[cycle(pattern)]
    fn pattern(&mut self, from: usize, at: usize, depth: Depth)
        ensures { Matched self.old self.new (pattern_at from at depth.fuel depth.level) }
    {
        let Some(inner) = depth.deeper() else {
            return;
        };
        match self.src.entry(at) {
            Entry::AnyPattern { place } | Entry::TruthPattern { place, .. } => {
                self.node(place, depth.level);
            }
            Entry::NamePattern(name) => {
                self.node(name.place, depth.level);
                self.pattern_name(from, name);
            }
            Entry::NumeralPattern(digits) => {
                self.node(digits.place, depth.level);
                self.number(digits.place, digits, Bounds::NUMERAL);
            }
            Entry::PartsPattern { place, first, .. } => {
                self.node(place, depth.level);
                self.patterns(from, first, inner);
            }
            _ => {}
        }
    }

    // The parts of a pattern, from a link on. (The twin of `items`: tried as one function that goes on through a trait, and the
    // proof did not close, since the trait's method leads back to it.)
    #[cycle(pattern)]
    fn patterns(&mut self, from: usize, link: Option<usize>, depth: Depth)
        ensures { Matched self.old self.new (patterns_at from link depth.fuel depth.level) }
    {
        let Some(rest) = depth.further() else {
            return;
        };
        let Entry::Item { node, next } = self.src.linked(link) else {
            return;
        };
        self.pattern(from, node, rest);
        self.patterns(from, next, rest);
    }

    // An expression.
    #[cycle(expression)]
    fn expression(&mut self, at: usize, depth: Depth)
        ensures { Walked self.old self.new (tree_at at depth.fuel depth.level) }
    {
        let Some(inner) = depth.deeper() else {
            return;
        };
        match self.src.entry(at) {
            Entry::Numeral(digits) => {
                self.node(digits.place, depth.level);
                self.number(digits.place, digits, Bounds::NUMERAL);
            }
            Entry::Truth { place, .. } => self.node(place, depth.level),
            Entry::Name(name) => {
                self.node(name.place, depth.level);
                self.name(name);
            }
            Entry::Unary { place, operand, .. } => {
                self.node(place, depth.level);
                self.expression(operand, inner);
            }
            Entry::Binary {
                place,
                left,
                right,
                ..
            }
            | Entry::Connective {
                place,
                left,
                right,
                ..
            }
            | Entry::Range {
                place,
                start: left,
                end: right,
            } => {
                self.node(place, depth.level);
                self.expression(left, inner);
                self.expression(right, inner);
            }
            Entry::If {
                place,
                test,
                then,
                otherwise,
            } => {
                self.node(place, depth.level);
                self.expression(test, inner);
                self.expression(then, inner);
                self.expression(otherwise, inner);
            }
            Entry::Let {
                place,
                name,
                value: given,
                body,
            }
            | Entry::Quantifier {
                place,
                name,
                set: given,
                body,
                ..
            } => {
                self.node(place, depth.level);
                self.expression(given, inner);
                self.under(name, body, inner);
            }
            Entry::LetBe {
                place,
                name,
                set,
                condition,
                body,
            } => {
                self.node(place, depth.level);
                self.expression(set, inner);
                self.under(name, condition, inner);
                self.under(name, body, inner);
            }
            Entry::Cases {
                place,
                subject,
                first,
                others,
            } => {
                self.node(place, depth.level);
                self.expression(subject, inner);
                self.arms(Some(first), inner);
                self.optional(others, inner);
            }
            Entry::Collection { place, first, .. } => {
                self.node(place, depth.level);
                self.items(first, inner);
            }
            Entry::Comprehension {
                place,
                member,
                name,
                set,
                condition,
                ..
            } => {
                self.node(place, depth.level);
                self.under(name, member, inner);
                self.expression(set, inner);
                self.filter(name, condition, inner);
            }
            Entry::Selection { place, tuple, part } => {
                self.node(place, depth.level);
                self.number(place, part, Bounds::PART);
                self.expression(tuple, inner);
            }
            _ => {}
        }
    }

    // An expression in which one more name is in sight.
    #[cycle(expression)]
    fn under(&mut self, name: Span, at: usize, depth: Depth)
        ensures { Walked self.old self.new (under_at name at depth.fuel depth.level) }
    {
        let from = self.scope.len();
        let body = Body { walk: self, from };
        body.walk.bind(name);
        body.walk.expression(at, depth);
    }

    // The condition of a comprehension, if it has one: the name is in sight there. (This and `optional`: inline, an arm would end in
    // two ways, and neither closes without a proof of its own.)
    #[cycle(expression)]
    fn filter(&mut self, name: Span, condition: Option<usize>, depth: Depth)
        ensures { Walked self.old self.new (filter_at name condition depth.fuel depth.level) }
    {
        if let Some(at) = condition {
            self.under(name, at, depth);
        }
    }

    // What may be absent.
    #[cycle(expression)]
    fn optional(&mut self, link: Option<usize>, depth: Depth)
        ensures { Walked self.old self.new (optional_at link depth.fuel depth.level) }
    {
        if let Some(at) = link {
            self.expression(at, depth);
        }
    }

    // Members or parts, from a link on.
    #[cycle(expression)]
    fn items(&mut self, link: Option<usize>, depth: Depth)
        ensures { Walked self.old self.new (items_at link depth.fuel depth.level) }
    {
        let Some(rest) = depth.further() else {
            return;
        };
        let Entry::Item { node, next } = self.src.linked(link) else {
            return;
        };
        self.expression(node, rest);
        self.items(next, rest);
    }

    // Alternatives, from a link on.
    #[cycle(expression)]
    fn arms(&mut self, link: Option<usize>, depth: Depth)
        ensures { Walked self.old self.new (arms_at link depth.fuel depth.level) }
    {
        let Some(rest) = depth.further() else {
            return;
        };
        let Entry::Alternative {
            pattern,
            right,
            next,
        } = self.src.linked(link)
        else {
            return;
        };
        self.side(pattern, right, rest);
        self.arms(next, rest);
    }

    // A pattern, and the right side, in which its names are in sight.
    #[cycle(expression)]
    fn side(&mut self, pattern: usize, right: usize, depth: Depth)
        ensures { Walked self.old self.new (side_at pattern right depth.fuel depth.level) }
    {
        let from = self.scope.len();
        let body = Body { walk: self, from };
        body.walk.pattern(from, pattern, depth);
        body.walk.expression(right, depth);
    }
}
