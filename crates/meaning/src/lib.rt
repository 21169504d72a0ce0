//! What a rule means: the evaluation of its tree under facts and a chooser. There is nothing to run here: each function's contract is a theorem.

#![tactic(auto)]

ghost use Rattle.meaning.specs.Examples.{Examples};
ghost use Rattle.meaning.specs.Laws.{Choosing, Assigning, Naming, Beginning, Ordering, Matching, Casing, Connecting, Quantifying, Letting, Comprehending, Duality, Vacuous, Lawfulness};

/// The outcome under any chooser is allowed, and choices with one candidate leave nothing open.
pub fn choosing()
    ensures { Choosing }
{}

/// An assignment need not be told the candidates: place and names in sight settle them.
pub fn assigning()
    ensures { Assigning }
{}

/// The evaluation depends on the facts at the free names only.
pub fn naming()
    ensures { Naming }
{}

/// The list begins with the whole expression, and the place of a fault is in it.
pub fn beginning()
    ensures { Beginning }
{}

/// Parts are evaluated from left to right up to the first fault, and own tests come afterwards.
pub fn ordering()
    ensures { Ordering }
{}

/// What each pattern matches.
pub fn matching()
    ensures { Matching }
{}

/// `cases` takes the first alternative that matches.
pub fn casing()
    ensures { Casing }
{}

/// The tables of `or`, `and` and `=>`, and when their right side is begun.
pub fn connecting()
    ensures { Connecting }
{}

/// A member that decides makes up for the others; else the first that fails is the outcome.
pub fn quantifying()
    ensures { Quantifying }
{}

/// The condition of a `let be` is evaluated for every member; those for which it is true are the candidates.
pub fn letting()
    ensures { Letting }
{}

/// A comprehension's value is made of the results for the members for which its condition is true, each condition before its result.
pub fn comprehending()
    ensures { Comprehending }
{}

/// `and` is `or`, and `forall` is `exists`, with true and false exchanged.
pub fn duality()
    ensures { Duality }
{}

/// Over `{}`, `exists` is false and `forall` is true, wherever they stand.
pub fn vacuous()
    ensures { Vacuous }
{}

/// Under lawful facts, a rule with numerals in range tells lawful values only.
pub fn lawfulness()
    ensures { Lawfulness }
{}

/// The worked examples: texts, cut, read and evaluated.
pub fn examples()
    ensures { Examples }
{}
