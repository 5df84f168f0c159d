// Sets of ways.
ghost use Rattle.std.specs.Prelude.{◌≡◌, ℕ, false, ◌&&◌, ◌||◌, Some, MatchOption, ◌==◌, nat_lt};
ghost use Rattle.std.specs.Iterator.{at_most};
ghost use Rattle.masks.specs.Members.{how_many};
ghost use Rattle.network.specs.Ways.{has_way, SplitOff};

/// A set of ways: bit k is 1 where way k is in the set.
// No `Mask` of another size: a set over any word would speak of its width in every contract, for three shared functions: `none`, `with`, and the one that splits off the least.
#[derive(Clone, Copy)]
pub struct WaySet {
    bits: u64,
}

impl WaySet {
    /// The empty set.
    pub fn none() -> WaySet
        ensures { (k : ℕ) → has_way result k ≡ false }
    {
        WaySet { bits: 0 }
    }

    /// The set and one way; what is no way changes nothing.
    pub fn with(self, way: usize) -> WaySet
        ensures { (k : ℕ) → has_way result k ≡ (has_way self k || (nat_lt k 48 && k == way)) }
    {
        if way < 48 {
            WaySet {
                bits: self.bits | (1 << way),
            }
        } else {
            self
        }
    }

    /// The way of the smallest number, and the set of the others.
    pub fn split(self) -> Option<(usize, WaySet)>
        ensures { MatchOption result ((k : ℕ) → has_way self k ≡ false) (λ parts. SplitOff self (Some parts.0) parts.1) }
    {
        let way = self.bits.trailing_zeros() as usize;
        if way >= 48 {
            return None;
        }
        Some((
            way,
            WaySet {
                bits: self.bits ^ (self.bits & (1 << way)),
            },
        ))
    }
}

/// The ways of a set, the smallest number first.
impl IntoIterator for WaySet {
    type Item = usize;

    type IntoIter = Ways;

    ghost into_iter_gives = { λ set ways. ways.rest ≡ set };

    fn into_iter(self) -> Ways {
        Ways { rest: self }
    }
}

/// The ways of a set that are still to come.
#[derive(Clone, Copy)]
pub struct Ways {
    rest: WaySet,
}

impl Iterator for Ways {
    type Item = usize;

    ghost next_gives = { λ ways way later. SplitOff ways.rest way later.rest };

    ghost remaining = { λ ways. at_most (how_many (has_way ways.rest) 48) };

    fn next(&mut self) -> Option<usize> {
        let (way, rest) = self.rest.split()?;
        self.rest = rest;
        Some(way)
    }
}
