//! Texts to drafts: the tree of a rule, as entries of a table.

#![tactic(auto)]

mod call;
mod entry;
mod expressions;
mod patterns;
mod signs;
mod source;

pub use call::{Draft, Refusal, read};
pub use entry::{Entry, Span};
