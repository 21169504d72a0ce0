//! The grammar of the rule language: which tokens make a rule, and which tree it has.
//!
//! `specs/Grammar.antt` has the grammar, `specs/Steps.antt` the program that a reader follows, with one token of look-ahead and two at `in`.
//! The functions below do nothing: each has a theorem for its contract.

#![tactic(auto)]

ghost use Rattle.grammar.specs.Sentences.{OneTree, OneOutcome, Complete, Sound, FirstBad};
ghost use Rattle.grammar.specs.Examples.{Examples, OrderExamples};
ghost use Rattle.grammar.specs.Places.{OwnPlaces};
ghost use Rattle.grammar.specs.Order.{TextOrder};

/// Two derivations of the same tokens have the same tree.
pub fn has_one_tree()
    ensures { OneTree }
{}

/// The program has one outcome.
pub fn has_one_outcome()
    ensures { OneOutcome }
{}

/// Whatever the grammar derives, the program reads to its end, with that tree.
pub fn reads_every_sentence()
    ensures { Complete }
{}

/// What the program reads to its end is derived.
pub fn reads_sentences_only()
    ensures { Sound }
{}

/// Where the program refuses, or leaves tokens, stands the first token with which no sentence begins, or the text ends.
pub fn finds_first_bad()
    ensures { FirstBad }
{}

/// Small rules with their trees or their first bad tokens.
pub fn has_examples()
    ensures { Examples }
{}

/// Each expression and pattern of a tree has a token of its own: there are at most as many as tokens, and no two have the same place.
pub fn has_own_places()
    ensures { OwnPlaces }
{}

/// The free names of a tree are listed in the order of the text.
pub fn has_text_order()
    ensures laws { TextOrder }
    ensures examples { OrderExamples }
{}
