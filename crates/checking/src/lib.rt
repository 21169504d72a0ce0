//! Drafts to checked rules: the walk that looks for what is refused.

#![tactic(auto)]

mod call;
mod depth;
mod findings;
mod spans;
mod walk;

pub use call::Refusal;
