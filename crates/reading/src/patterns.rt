// Patterns. Each function reads what its comment says.
ghost use Rattle.std.specs.Prelude.{false};
ghost use Rattle.grammar.specs.Steps.{Job, body, sequence_tail};
ghost use Rattle.reading.specs.Sources.{limit_of, Fits, Spends, Came, PatternAt, PatternsAt};

use crate::Entry;
use crate::source::{Bad, Limit, Reader};
use syntax::Collection;
use tokens::Mark;

impl Reader<'_, '_> {
    // P = - | name | numeral | true | false | [ ] | [ P (, P)* ] | mk_ ( P , P ... )
    #[cycle(pattern)]
    pub(crate) fn pattern(&mut self) -> Result<usize, Bad>
        requires { Fits 0 self.old }
        ensures way { Came Job.pattern (body Job.pattern) self.old false self.new PatternAt result }
        ensures spends { Spends 0 self.old self.new }
    {
        let place = self.place();
        if self.accept(Mark::Minus) {
            return Ok(self.put(Entry::AnyPattern { place }));
        }
        if let Some(name) = self.name() {
            return Ok(self.put(Entry::NamePattern(name)));
        }
        if let Some(numeral) = self.numeral() {
            return Ok(self.put(Entry::NumeralPattern(numeral)));
        }
        if let Some(value) = self.truth() {
            return Ok(self.put(Entry::TruthPattern { place, value }));
        }
        if self.accept(Mark::OpenBracket) {
            return self.sequence(place);
        }
        self.want(Mark::Mk)?;
        self.want(Mark::OpenParen)?;
        let parts = self.patterns(Limit::Several)?;
        self.want(Mark::CloseParen)?;
        Ok(self.put(Entry::PartsPattern {
            place,
            kind: Collection::Tuple,
            first: Some(parts),
        }))
    }

    // [ ] | [ P (, P)* ], behind the `[` at this place
    #[cycle(pattern)]
    fn sequence(&mut self, place: usize) -> Result<usize, Bad>
        requires { Fits 1 self.old }
        ensures way { Came Job.pattern (sequence_tail place) self.old false self.new PatternAt result }
        ensures spends { Spends 1 self.old self.new }
    {
        if self.accept(Mark::CloseBracket) {
            return Ok(self.put(Entry::PartsPattern {
                place,
                kind: Collection::Sequence,
                first: None,
            }));
        }
        let parts = self.patterns(Limit::Any)?;
        self.want(Mark::CloseBracket)?;
        Ok(self.put(Entry::PartsPattern {
            place,
            kind: Collection::Sequence,
            first: Some(parts),
        }))
    }

    // P (, P)*
    #[cycle(pattern)]
    fn patterns(&mut self, limit: Limit) -> Result<usize, Bad>
        requires { Fits 1 self.old }
        ensures way { Came (Job.patterns (limit_of limit)) (body (Job.patterns (limit_of limit))) self.old false self.new PatternsAt result }
        ensures spends { Spends 1 self.old self.new }
    {
        let node = self.pattern()?;
        let Some(limit) = self.comma(limit)? else {
            return Ok(self.put(Entry::Item { node, next: None }));
        };
        let next = self.patterns(limit)?;
        Ok(self.put(Entry::Item {
            node,
            next: Some(next),
        }))
    }
}
