// Expressions. Each function reads what its comment says. The flag `inside` says that an `in` which ends what a `let` binds may follow.
ghost use Rattle.std.specs.Prelude.{◌≡◌, Bool, false};
ghost use Rattle.syntax.specs.Tree.{Tree};
ghost use Rattle.grammar.specs.Grammar.{Sort, under as under_of, under_lead};
ghost use Rattle.grammar.specs.Steps.{Job, body as program, let_tail, such_that, cases_tail, quantifier_tail, after_comma, after_bar, tuple_tail, right_side};
ghost use Rattle.grammar.specs.Steps.{bound as bound_of, collected as collected_of, members as members_of};
ghost use Rattle.reading.specs.Entries.{spelled, joined};
ghost use Rattle.reading.specs.Signs.{left_of, lead_of, operation_of};
ghost use Rattle.reading.specs.Sources.{limit_of, bracket_of, Fits, Spends, Came, TreeAt, TreesAt, BindAt, ArmsAt, in_parentheses, to_range_end};

use crate::signs::{Lead, Left, Operation};
use crate::source::{Bad, Binding, Bracket, Branches, Limit, Reader};
use crate::{Entry, Span};
use syntax::{Binary, Collection, Connective, Quantifier};
use tokens::Mark;

impl Reader<'_, '_> {
    // E = let .. | if .. | cases .. | forall .. | exists .. | C
    #[cycle(expression)]
    pub(crate) fn expr(&mut self, inside: bool) -> Result<usize, Bad>
        requires { Fits 0 self.old }
        ensures way { Came (Job.parse Sort.expr inside) (program (Job.parse Sort.expr inside)) self.old false self.new TreeAt result }
        ensures spends { Spends 0 self.old self.new }
    {
        let place = self.place();
        if self.accept(Mark::Let) {
            return self.lets(place, inside);
        }
        if self.accept(Mark::If) {
            return self.choice(place, inside);
        }
        if self.accept(Mark::Cases) {
            return self.cases(place);
        }
        if let Some(op) = self.quantifier() {
            return self.quant(place, op, inside);
        }
        self.chain(Left::Iff, inside)
    }

    // let name = E in E | let B be st E in E, behind `let`
    #[cycle(expression)]
    fn lets(&mut self, place: usize, inside: bool) -> Result<usize, Bad>
        requires { Fits 1 self.old }
        ensures way { Came (Job.parse Sort.expr inside) (let_tail inside place) self.old false self.new TreeAt result }
        ensures spends { Spends 1 self.old self.new }
    {
        let Some(name) = self.name() else {
            return Err(Bad);
        };
        if self.accept(Mark::Equal) {
            return self.bound(place, name, inside);
        }
        self.such(place, name, inside)
    }

    // E in E, behind `let name =`
    #[cycle(expression)]
    fn bound(&mut self, place: usize, name: Span, inside: bool) -> Result<usize, Bad>
        requires { Fits 1 self.old }
        ensures way { Came (Job.parse Sort.expr inside) (bound_of inside place (spelled self.old.text.now name)) self.old false self.new TreeAt result }
        ensures spends { Spends 1 self.old self.new }
    {
        let value = self.expr(true)?;
        self.want(Mark::In)?;
        let body = self.expr(inside)?;
        Ok(self.put(Entry::Let {
            place,
            name,
            value,
            body,
        }))
    }

    // in set C be st E in E, behind `let name`
    #[cycle(expression)]
    fn such(&mut self, place: usize, name: Span, inside: bool) -> Result<usize, Bad>
        requires { Fits 1 self.old }
        ensures way { Came (Job.parse Sort.expr inside) (such_that inside place (spelled self.old.text.now name)) self.old false self.new TreeAt result }
        ensures spends { Spends 1 self.old self.new }
    {
        self.want(Mark::In)?;
        self.want(Mark::Set)?;
        let set = self.chain(Left::Iff, false)?;
        self.want(Mark::Be)?;
        self.want(Mark::St)?;
        let condition = self.expr(true)?;
        self.want(Mark::In)?;
        let body = self.expr(inside)?;
        Ok(self.put(Entry::LetBe {
            place,
            name,
            set,
            condition,
            body,
        }))
    }

    // E then E (elseif ..| else E), behind `if` or `elseif`
    #[cycle(expression)]
    fn choice(&mut self, place: usize, inside: bool) -> Result<usize, Bad>
        requires { Fits 1 self.old }
        ensures way { Came (Job.parse (Sort.choice place) inside) (program (Job.parse (Sort.choice place) inside)) self.old false self.new TreeAt result }
        ensures spends { Spends 1 self.old self.new }
    {
        let test = self.expr(false)?;
        self.want(Mark::Then)?;
        let then = self.expr(false)?;
        let next = self.place();
        if self.accept(Mark::Elseif) {
            let otherwise = self.choice(next, inside)?;
            return Ok(self.put(Entry::If {
                place,
                test,
                then,
                otherwise,
            }));
        }
        self.want(Mark::Else)?;
        let otherwise = self.expr(inside)?;
        Ok(self.put(Entry::If {
            place,
            test,
            then,
            otherwise,
        }))
    }

    // E : A (, A)* (, others -> E)? end, behind `cases`
    #[cycle(expression)]
    fn cases(&mut self, place: usize) -> Result<usize, Bad>
        requires { Fits 1 self.old }
        ensures way { (f : Bool) → Came (Job.parse Sort.expr f) (cases_tail place) self.old false self.new TreeAt result }
        ensures spends { Spends 1 self.old self.new }
    {
        let subject = self.expr(false)?;
        self.want(Mark::Colon)?;
        let arms = self.arms()?;
        self.want(Mark::End)?;
        Ok(self.put(Entry::Cases {
            place,
            subject,
            first: arms.first,
            others: arms.others,
        }))
    }

    // A (, A)* (, others -> E)?, where A = P -> E
    #[cycle(expression)]
    fn arms(&mut self) -> Result<Branches, Bad>
        requires { Fits 0 self.old }
        ensures way { Came Job.arms (program Job.arms) self.old false self.new ArmsAt result }
        ensures spends { Spends 0 self.old self.new }
    {
        let pattern = self.pattern()?;
        self.want(Mark::Arrow)?;
        let right = self.expr(false)?;
        if !self.accept(Mark::Comma) {
            let first = self.put(Entry::Alternative {
                pattern,
                right,
                next: None,
            });
            return Ok(Branches {
                first,
                others: None,
            });
        }
        if !self.accept(Mark::Others) {
            let more = self.arms()?;
            let first = self.put(Entry::Alternative {
                pattern,
                right,
                next: Some(more.first),
            });
            return Ok(Branches {
                first,
                others: more.others,
            });
        }
        self.want(Mark::Arrow)?;
        let others = self.expr(false)?;
        let first = self.put(Entry::Alternative {
            pattern,
            right,
            next: None,
        });
        Ok(Branches {
            first,
            others: Some(others),
        })
    }

    // B & E, behind `forall` or `exists`
    #[cycle(expression)]
    fn quant(&mut self, place: usize, op: Quantifier, inside: bool) -> Result<usize, Bad>
        requires { Fits 1 self.old }
        ensures way { Came (Job.parse Sort.expr inside) (quantifier_tail inside place op) self.old false self.new TreeAt result }
        ensures spends { Spends 1 self.old self.new }
    {
        let bind = self.bind()?;
        self.want(Mark::Ampersand)?;
        let body = self.expr(inside)?;
        Ok(self.put(Entry::Quantifier {
            place,
            op,
            name: bind.name,
            set: bind.set,
            body,
        }))
    }

    // B = name in set C
    #[cycle(expression)]
    fn bind(&mut self) -> Result<Binding, Bad>
        requires { Fits 0 self.old }
        ensures way { Came Job.bind (program Job.bind) self.old false self.new BindAt result }
        ensures spends { Spends 0 self.old self.new }
    {
        let Some(name) = self.name() else {
            return Err(Bad);
        };
        self.want(Mark::In)?;
        self.want(Mark::Set)?;
        let set = self.chain(Left::Iff, false)?;
        Ok(Binding { name, set })
    }

    // A level whose signs group to the left.
    #[cycle(expression)]
    fn chain(&mut self, level: Left, inside: bool) -> Result<usize, Bad>
        requires { Fits 0 self.old }
        ensures way { Came (Job.parse (Sort.left (left_of level)) inside) (program (Job.parse (Sort.left (left_of level)) inside)) self.old false self.new TreeAt result }
        ensures spends { Spends 0 self.old self.new }
    {
        let first = self.under(level, inside)?;
        self.more(level, first, inside)
    }

    // The level below.
    #[cycle(expression)]
    fn under(&mut self, level: Left, inside: bool) -> Result<usize, Bad>
        requires { Fits 0 self.old }
        ensures way { Came (Job.parse (under_of (left_of level)) inside) (program (Job.parse (under_of (left_of level)) inside)) self.old false self.new TreeAt result }
        ensures spends { Spends 0 self.old self.new }
    {
        match level {
            Left::Iff => self.imply(inside),
            Left::Or => self.chain(Left::And, inside),
            Left::And => self.lead(Lead::Not, inside),
            Left::Sum => self.chain(Left::Product, inside),
            Left::Product => self.lead(Lead::Minus, inside),
        }
    }

    // What follows an operand of such a level.
    #[cycle(expression)]
    fn more(&mut self, level: Left, left: usize, inside: bool) -> Result<usize, Bad>
        requires { Fits 0 self.old }
        ensures way { (a : Tree) (far : Bool) → TreeAt self.old left a → Came (Job.more (left_of level) inside a) (program (Job.more (left_of level) inside a)) self.old far self.new TreeAt result }
        ensures spends { Spends 0 self.old self.new }
    {
        let place = self.place();
        let Some(op) = self.chained(level) else {
            return Ok(left);
        };
        let right = self.under(level, inside)?;
        let node = self.put(join(op, place, left, right));
        self.more(level, node, inside)
    }

    // or-level (=> implication)?
    #[cycle(expression)]
    fn imply(&mut self, inside: bool) -> Result<usize, Bad>
        requires { Fits 0 self.old }
        ensures way { Came (Job.parse Sort.implication inside) (program (Job.parse Sort.implication inside)) self.old false self.new TreeAt result }
        ensures spends { Spends 0 self.old self.new }
    {
        let left = self.chain(Left::Or, inside)?;
        let place = self.place();
        if !self.accept(Mark::Implies) {
            return Ok(left);
        }
        let right = self.imply(inside)?;
        Ok(self.put(Entry::Connective {
            place,
            op: Connective::Implies,
            left,
            right,
        }))
    }

    // Prefix signs.
    #[cycle(expression)]
    fn lead(&mut self, level: Lead, inside: bool) -> Result<usize, Bad>
        requires { Fits 0 self.old }
        ensures way { Came (Job.parse (Sort.lead (lead_of level)) inside) (program (Job.parse (Sort.lead (lead_of level)) inside)) self.old false self.new TreeAt result }
        ensures spends { Spends 0 self.old self.new }
    {
        let place = self.place();
        let Some(op) = self.leading(level) else {
            return self.bare(level, inside);
        };
        let operand = self.lead(level, inside)?;
        Ok(self.put(Entry::Unary { place, op, operand }))
    }

    // The level below.
    #[cycle(expression)]
    fn bare(&mut self, level: Lead, inside: bool) -> Result<usize, Bad>
        requires { Fits 0 self.old }
        ensures way { Came (Job.parse (under_lead (lead_of level)) inside) (program (Job.parse (under_lead (lead_of level)) inside)) self.old false self.new TreeAt result }
        ensures spends { Spends 0 self.old self.new }
    {
        match level {
            Lead::Not => self.relation(inside),
            Lead::Minus => self.postfix(),
        }
    }

    // One relation at most.
    #[cycle(expression)]
    fn relation(&mut self, inside: bool) -> Result<usize, Bad>
        requires { Fits 0 self.old }
        ensures way { Came (Job.parse Sort.relation inside) (program (Job.parse Sort.relation inside)) self.old false self.new TreeAt result }
        ensures spends { Spends 0 self.old self.new }
    {
        let left = self.chain(Left::Sum, false)?;
        let place = self.place();
        if let Some(op) = self.relating() {
            return self.side(place, op, left);
        }
        if self.accept(Mark::Not) {
            self.want(Mark::In)?;
            self.want(Mark::Set)?;
            return self.side(place, Binary::NotInSet, left);
        }
        if inside {
            if !self.accept_both(Mark::In, Mark::Set) {
                return Ok(left);
            }
            return self.side(place, Binary::InSet, left);
        }
        if !self.accept(Mark::In) {
            return Ok(left);
        }
        self.want(Mark::Set)?;
        self.side(place, Binary::InSet, left)
    }

    // The right side of a relation.
    #[cycle(expression)]
    fn side(&mut self, place: usize, op: Binary, left: usize) -> Result<usize, Bad>
        requires { Fits 1 self.old }
        ensures way { (f : Bool) (a : Tree) → TreeAt self.old left a → Came (Job.parse Sort.relation f) (right_side place op a) self.old false self.new TreeAt result }
        ensures spends { Spends 1 self.old self.new }
    {
        let right = self.chain(Left::Sum, false)?;
        Ok(self.put(Entry::Binary {
            place,
            op,
            left,
            right,
        }))
    }

    // An atom, applied and selected from.
    #[cycle(expression)]
    fn postfix(&mut self) -> Result<usize, Bad>
        requires { Fits 0 self.old }
        ensures way { (f : Bool) → Came (Job.parse Sort.postfix f) (program (Job.parse Sort.postfix f)) self.old false self.new TreeAt result }
        ensures spends { Spends 0 self.old self.new }
    {
        let first = self.atom()?;
        self.applied(first)
    }

    // ( E ) and .# numeral, any number of times
    #[cycle(expression)]
    fn applied(&mut self, left: usize) -> Result<usize, Bad>
        requires { Fits 0 self.old }
        ensures way { (a : Tree) (far : Bool) → TreeAt self.old left a → Came (Job.applied a) (program (Job.applied a)) self.old far self.new TreeAt result }
        ensures spends { Spends 0 self.old self.new }
    {
        let place = self.place();
        if self.accept(Mark::OpenParen) {
            let right = self.expr(false)?;
            self.want(Mark::CloseParen)?;
            let node = self.put(Entry::Binary {
                place,
                op: Binary::Apply,
                left,
                right,
            });
            return self.applied(node);
        }
        if !self.accept(Mark::Select) {
            return Ok(left);
        }
        let Some(part) = self.numeral() else {
            return Err(Bad);
        };
        let node = self.put(Entry::Selection {
            place,
            tuple: left,
            part,
        });
        self.applied(node)
    }

    // numeral | name | true | false | ( E ) | a set, a sequence, a tuple
    #[cycle(expression)]
    fn atom(&mut self) -> Result<usize, Bad>
        requires { Fits 0 self.old }
        ensures way { Came (Job.parse Sort.atom false) (program (Job.parse Sort.atom false)) self.old false self.new TreeAt result }
        ensures spends { Spends 0 self.old self.new }
    {
        let place = self.place();
        if let Some(numeral) = self.numeral() {
            return Ok(self.put(Entry::Numeral(numeral)));
        }
        if let Some(name) = self.name() {
            return Ok(self.put(Entry::Name(name)));
        }
        if let Some(value) = self.truth() {
            return Ok(self.put(Entry::Truth { place, value }));
        }
        if self.accept(Mark::OpenParen) {
            return self.paren();
        }
        if self.accept(Mark::OpenBrace) {
            return self.collect(Bracket::Brace, place);
        }
        if self.accept(Mark::OpenBracket) {
            return self.collect(Bracket::Square, place);
        }
        self.want(Mark::Mk)?;
        self.tuple(place)
    }

    // E ), behind `(`
    #[cycle(expression)]
    fn paren(&mut self) -> Result<usize, Bad>
        requires { Fits 0 self.old }
        ensures way { Came (Job.parse Sort.atom false) in_parentheses self.old false self.new TreeAt result }
        ensures spends { Spends 0 self.old self.new }
    {
        let inner = self.expr(false)?;
        self.want(Mark::CloseParen)?;
        Ok(inner)
    }

    // ( E , E ... ), behind `mk_`
    #[cycle(expression)]
    fn tuple(&mut self, place: usize) -> Result<usize, Bad>
        requires { Fits 1 self.old }
        ensures way { Came (Job.parse Sort.atom false) (tuple_tail place) self.old false self.new TreeAt result }
        ensures spends { Spends 1 self.old self.new }
    {
        self.want(Mark::OpenParen)?;
        let parts = self.items(Limit::Several)?;
        self.want(Mark::CloseParen)?;
        Ok(self.put(Entry::Collection {
            place,
            kind: Collection::Tuple,
            first: Some(parts),
        }))
    }

    // A set or a sequence, behind its opening bracket.
    #[cycle(expression)]
    fn collect(&mut self, bracket: Bracket, place: usize) -> Result<usize, Bad>
        requires { Fits 1 self.old }
        ensures way { Came (Job.parse Sort.atom false) (collected_of (bracket_of bracket) place) self.old false self.new TreeAt result }
        ensures spends { Spends 1 self.old self.new }
    {
        if self.accept(bracket.closing()) {
            return Ok(self.put(Entry::Collection {
                place,
                kind: bracket.kind(),
                first: None,
            }));
        }
        let node = self.expr(false)?;
        if self.accept(Mark::Bar) {
            return self.compre(bracket, place, node);
        }
        if self.accept(Mark::Comma) {
            return self.after_comma(bracket, place, node);
        }
        self.want(bracket.closing())?;
        let item = self.put(Entry::Item { node, next: None });
        Ok(self.put(Entry::Collection {
            place,
            kind: bracket.kind(),
            first: Some(item),
        }))
    }

    // More members, or the end of a range, behind the first and its comma.
    #[cycle(expression)]
    fn after_comma(&mut self, bracket: Bracket, place: usize, first: usize) -> Result<usize, Bad>
        requires { Fits 2 self.old }
        ensures way { (a : Tree) → TreeAt self.old first a → Came (Job.parse Sort.atom false) (after_comma (bracket_of bracket) place a) self.old false self.new TreeAt result }
        ensures spends { Spends 2 self.old self.new }
    {
        match bracket {
            Bracket::Brace => {
                if self.accept(Mark::Ellipsis) {
                    self.range(place, first)
                } else {
                    self.members(bracket, place, first)
                }
            }
            Bracket::Square => self.members(bracket, place, first),
        }
    }

    // More members, behind the first and its comma.
    #[cycle(expression)]
    fn members(&mut self, bracket: Bracket, place: usize, node: usize) -> Result<usize, Bad>
        requires { Fits 2 self.old }
        ensures way { (a : Tree) → TreeAt self.old node a → Came (Job.parse Sort.atom false) (members_of (bracket_of bracket) place a) self.old false self.new TreeAt result }
        ensures spends { Spends 2 self.old self.new }
    {
        let next = self.items(Limit::Any)?;
        self.want(bracket.closing())?;
        let item = self.put(Entry::Item {
            node,
            next: Some(next),
        });
        Ok(self.put(Entry::Collection {
            place,
            kind: bracket.kind(),
            first: Some(item),
        }))
    }

    // , E }, behind `{ E , ...`
    #[cycle(expression)]
    fn range(&mut self, place: usize, start: usize) -> Result<usize, Bad>
        requires { Fits 1 self.old }
        ensures way { (a : Tree) → TreeAt self.old start a → Came (Job.parse Sort.atom false) (to_range_end place a) self.old false self.new TreeAt result }
        ensures spends { Spends 1 self.old self.new }
    {
        self.want(Mark::Comma)?;
        let end = self.expr(false)?;
        self.want(Mark::CloseBrace)?;
        Ok(self.put(Entry::Range { place, start, end }))
    }

    // B or B & E, behind the member and `|`
    #[cycle(expression)]
    fn compre(&mut self, bracket: Bracket, place: usize, member: usize) -> Result<usize, Bad>
        requires { Fits 1 self.old }
        ensures way { (a : Tree) → TreeAt self.old member a → Came (Job.parse Sort.atom false) (after_bar (bracket_of bracket) place a) self.old false self.new TreeAt result }
        ensures spends { Spends 1 self.old self.new }
    {
        let bind = self.bind()?;
        if !self.accept(Mark::Ampersand) {
            self.want(bracket.closing())?;
            return Ok(self.put(Entry::Comprehension {
                place,
                kind: bracket.kind(),
                member,
                name: bind.name,
                set: bind.set,
                condition: None,
            }));
        }
        let condition = self.expr(false)?;
        self.want(bracket.closing())?;
        Ok(self.put(Entry::Comprehension {
            place,
            kind: bracket.kind(),
            member,
            name: bind.name,
            set: bind.set,
            condition: Some(condition),
        }))
    }

    // E (, E)*, as `patterns` has it of patterns: one function of any parts, over a trait, would recur through that trait, and such
    // a cycle of calls gets no generated proof.
    #[cycle(expression)]
    fn items(&mut self, limit: Limit) -> Result<usize, Bad>
        requires { Fits 1 self.old }
        ensures way { Came (Job.items (limit_of limit)) (program (Job.items (limit_of limit))) self.old false self.new TreesAt result }
        ensures spends { Spends 1 self.old self.new }
    {
        let node = self.expr(false)?;
        let Some(limit) = self.comma(limit)? else {
            return Ok(self.put(Entry::Item { node, next: None }));
        };
        let next = self.items(limit)?;
        Ok(self.put(Entry::Item {
            node,
            next: Some(next),
        }))
    }
}

fn join(op: Operation, place: usize, left: usize, right: usize) -> Entry
    ensures { result ≡ joined (operation_of op) place left right }
{
    match op {
        Operation::Strict(op) => Entry::Binary {
            place,
            op,
            left,
            right,
        },
        Operation::Deciding(op) => Entry::Connective {
            place,
            op,
            left,
            right,
        },
    }
}
