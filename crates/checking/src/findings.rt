// What check notes as it goes through a tree.
ghost use Rattle.std.specs.Prelude.{◌≡◌, ℕ, List, map};
ghost use Rattle.reading.specs.Entries.{spelled, valued};
ghost use Rattle.checking.specs.Sightings.{node as node_of, bound as bound_of};
ghost use Rattle.checking.specs.Walk.{lower, see_node, see_number, see_bound, see_name, occurrence};
ghost use Rattle.checking.specs.Found.{number_of, seen, decided};

use crate::call::Refusal;
use crate::spans::{Bounds, among, bytes, outside};
use arrayvec::ArrayVec;
use reading::Span;

// The level on which nothing may stand.
const LEVEL_BEYOND: usize = 17;

// The most free names of a rule.
const NAMES_MAX: usize = 16;

// The smaller of a place and one found before.
fn smaller(before: Option<usize>, place: usize) -> Option<usize>
    ensures { result ≡ lower before place }
{
    Some(before.map_or(place, |other| other.min(place)))
}

// The smallest places of three conditions, the free names, each where it first stands, and the place of the first one for which
// there was no room. It holds no reference, so that it can be moved into a checked rule: each method that reads names is given the text.
#[derive(Default, Drop)]
pub struct Findings {
    deep: Option<usize>,
    outside: Option<usize>,
    repeated: Option<usize>,
    free: ArrayVec<Span, NAMES_MAX>,
    next: Option<usize>,
}

impl Findings {
    // An expression or pattern.
    pub(crate) fn node(&mut self, place: usize, level: usize)
        ensures { (text : List ℕ) → seen text self.new ≡ see_node (node_of place level) (seen text self.old) }
    {
        if level == LEVEL_BEYOND {
            self.deep = smaller(self.deep, place);
        }
    }

    // A number that the text states.
    pub(crate) fn number(&mut self, text: &[u8], place: usize, digits: Span, bounds: Bounds)
        ensures { seen text.now self.new ≡ see_number (number_of place (valued text.now digits) bounds) (seen text.now self.old) }
    {
        if outside(bytes(text, digits), bounds) {
            self.outside = smaller(self.outside, place);
        }
    }

    // A name of a pattern, behind those that stand earlier in it.
    pub(crate) fn pattern_name(&mut self, text: &[u8], earlier: &[Span], name: Span)
        ensures { seen text.now self.new ≡ see_bound (bound_of name.place (spelled text.now name) (map (spelled text.now) earlier.now)) (seen text.now self.old) }
    {
        if among(text, earlier, name) {
            self.repeated = smaller(self.repeated, name.place);
        }
    }

    // A name as an expression, under the names in sight: a free one is noted, once.
    pub(crate) fn name(&mut self, text: &[u8], sight: &[Span], name: Span)
        ensures { seen text.now self.new ≡ see_name (map (spelled text.now) sight.now) (occurrence text.now name) (seen text.now self.old) }
    {
        if among(text, sight, name) || among(text, &self.free, name) {
            return;
        }
        if self.free.try_push(name).is_err() {
            self.next = self.next.or(Some(name.place));
        }
    }

    // The refusal, if there is one.
    pub(crate) fn refusal(&self) -> Option<Refusal>
        ensures { (text : List ℕ) → result ≡ decided (seen text self.now) }
    {
        self.deep
            .map(Refusal::TooDeep)
            .or(self.outside.map(Refusal::OutOfRange))
            .or(self.repeated.map(Refusal::Repeated))
            .or(self.next.map(Refusal::TooManyNames))
    }

    // The free names.
    pub(crate) fn free(self) -> ArrayVec<Span, NAMES_MAX>
        ensures { result ≡ self.free }
    {
        self.free
    }
}
