ghost use Rattle.std.specs.Prelude.{◌≡◌, ◌+◌, ◌<◌, ◌≤◌, false, [], ◌∷◌, ◌++◌, length, drop, set as replaced, replicate, is_ok, if◌then◌else◌, MatchOption, nat_lt, nat_le, slice_index_or};
ghost use Rattle.tables.specs.Items.{slots as slots_of, items as items_of, spare, room, loan};

use crate::Table;

/// No slot is left.
#[derive(Clone, Copy, Debug, PartialEq, Eq)]
pub struct Full;

impl<'a, T: Copy> Table<'a, T> {
    /// A table with no items over these slots, which stay as they are.
    pub fn make(slots: &'a mut [T]) -> Table<'a, T>
        ensures items { items_of result ≡ [] }
        ensures spare { spare result ≡ slots.old }
        ensures room { room result ≡ length slots.old }
        ensures lent { loan result ≡ slots.entry.ghost_name }
    {
        Table { slots, len: 0 }
    }

    /// How many items there is room for.
    pub fn capacity(&self) -> usize
        ensures { result ≡ room self.now }
    {
        self.slots.len()
    }

    /// How many items it has.
    pub fn len(&self) -> usize
        ensures { result ≡ length (items_of self.now) }
    {
        self.len.min(self.capacity())
    }

    /// How many slots are left.
    pub fn remaining(&self) -> usize
        ensures { result ≡ length (spare self.now) }
    {
        self.capacity().saturating_sub(self.len)
    }

    /// Adds `x` behind the items. Refuses, and leaves the table as it was, where no slot is left.
    pub fn push(&mut self, x: T) -> Result<(), Full>
        ensures test { is_ok result ≡ nat_lt (length (items_of self.old)) (room self.old) }
        ensures items { items_of self.new ≡ (if is_ok result then items_of self.old ++ x ∷ [] else items_of self.old) }
        ensures spare { spare self.new ≡ (if is_ok result then drop 1 (spare self.old) else spare self.old) }
        ensures len { length (items_of self.new) ≡ (if is_ok result then length (items_of self.old) + 1 else length (items_of self.old)) }
        ensures room { room self.new ≡ room self.old }
        ensures same { is_ok result ≡ false → self.new ≡ self.old }
        ensures lent { loan self.new ≡ loan self.old }
    {
        if self.len < self.slots.len() {
            self.slots[self.len] = x;
            self.len += 1;
            Ok(())
        } else {
            Err(Full)
        }
    }

    /// Adds `xs` behind the items. Refuses, and leaves the table as it was, where fewer slots are left.
    #[tactic(auto, using(std::proofs::lemmas::Slice::overwrites))]
    pub fn extend_from_slice(&mut self, xs: &[T]) -> Result<(), Full>
        ensures test { is_ok result ≡ nat_le (length (items_of self.old) + length xs.now) (room self.old) }
        ensures items { items_of self.new ≡ (if is_ok result then items_of self.old ++ xs.now else items_of self.old) }
        ensures spare { spare self.new ≡ (if is_ok result then drop (length xs.now) (spare self.old) else spare self.old) }
        ensures len { length (items_of self.new) ≡ (if is_ok result then length (items_of self.old) + length xs.now else length (items_of self.old)) }
        ensures room { room self.new ≡ room self.old }
        ensures same { is_ok result ≡ false → self.new ≡ self.old }
        ensures lent { loan self.new ≡ loan self.old }
    {
        let start = self.len();
        if xs.len() > self.slots.len() - start {
            return Err(Full);
        }
        let end = start + xs.len();
        self.slots[start..end].copy_from_slice(xs);
        self.len = end;
        Ok(())
    }

    /// The items as a slice.
    pub fn items(&self) -> &[T]
        ensures { result.now ≡ items_of self.now }
    {
        &self.slots[..self.len()]
    }

    /// The item at `i`.
    pub fn get(&self, i: usize) -> Option<T>
        ensures { MatchOption result (length (items_of self.now) ≤ i) (λ x. (i < length (items_of self.now)) × (x ≡ slice_index_or (items_of self.now) i x)) }
    {
        self.items().get(i).copied()
    }

    /// Replaces the item at `i`. Says whether there is one, and changes nothing where there is none. (A plain answer, as
    /// `HashSet::insert` gives: no reason and no value goes with it.)
    pub fn set(&mut self, i: usize, x: T) -> bool
        ensures test { result ≡ nat_lt i (length (items_of self.old)) }
        ensures items { items_of self.new ≡ (if result then replaced (items_of self.old) i x else items_of self.old) }
        ensures spare { spare self.new ≡ spare self.old }
        ensures same { result ≡ false → self.new ≡ self.old }
        ensures lent { loan self.new ≡ loan self.old }
    {
        if i < self.len() {
            self.slots[i] = x;
            true
        } else {
            false
        }
    }

    /// Removes the items, and writes `empty` into every slot.
    pub fn clear(&mut self, empty: T)
        ensures items { items_of self.new ≡ [] }
        ensures slots { slots_of self.new ≡ replicate (room self.old) empty }
        ensures lent { loan self.new ≡ loan self.old }
    {
        self.slots.fill_with(|| empty);
        self.len = 0;
    }

    /// Writes `empty` into every slot that is left.
    #[tactic(auto, using(std::proofs::lemmas::Slice::overwrites))]
    pub fn blank(&mut self, empty: T)
        ensures items { items_of self.new ≡ items_of self.old }
        ensures spare { spare self.new ≡ replicate (length (spare self.old)) empty }
        ensures lent { loan self.new ≡ loan self.old }
    {
        let start = self.len();
        self.slots[start..].fill_with(|| empty);
    }

    /// Gives the slots back.
    pub fn release(self) -> &'a mut [T]
        ensures { result.now ≡ slots_of self.entry }
    {
        let Table { slots, len: _ } = self;
        slots
    }
}
