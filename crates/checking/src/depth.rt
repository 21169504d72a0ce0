// How deep the walk is, and how many entries further it may go.
ghost use Rattle.std.specs.Prelude.{◌≡◌, ◌+◌, ◌≤◌, IfSome, IfNone};

// A level of the tree, and the fuel. Where the entries are those of a tree, the fuel is never used up.
#[derive(Clone, Copy)]
pub struct Depth {
    pub level: usize,
    pub fuel: usize,
    ghost bounded: { level + fuel ≤ 4097 },
}

impl Depth {
    // One entry further on the same level, while there is fuel.
    pub(crate) fn further(self) -> Option<Depth>
        ensures none { IfNone result (self.fuel ≡ 0) }
        ensures some { IfSome result (λ d. (self.fuel ≡ d.fuel + 1) × (d.level ≡ self.level)) }
    {
        let fuel = self.fuel.checked_sub(1)?;
        Some(Depth {
            level: self.level,
            fuel,
        })
    }

    // One entry further, a level deeper, while there is fuel.
    pub(crate) fn deeper(self) -> Option<Depth>
        ensures none { IfNone result (self.fuel ≡ 0) }
        ensures some { IfSome result (λ d. (self.fuel ≡ d.fuel + 1) × (d.level ≡ self.level + 1)) }
    {
        let next = self.further()?;
        Some(Depth {
            level: next.level + 1,
            fuel: next.fuel,
        })
    }
}
