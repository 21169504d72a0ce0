//! A table of `T` over memory that is lent to it: its items stand in the first `len` slots, in the order in which they were pushed.
//!
//! It allocates nothing. Tokens, tree entries, instructions and cells all stand in such tables.

#![tactic(auto)]

mod ops;

pub use ops::Full;

// No heap: the slots are lent. No ghost field: it is moved into other types. No `impl Model`: it would be `items` and `spare` of
// specs/ again, and shorten no clause or proof. Each function is right at every `len`: past the slots it counts as full.
#[derive(Drop)]
pub struct Table<'a, T> {
    slots: &'a mut [T],
    len: usize,
}
