//! Tests of the crates below, on examples and on bad input.

#![tactic(auto)]

#[cfg(test)]
mod table;
#[cfg(test)]
mod token;
