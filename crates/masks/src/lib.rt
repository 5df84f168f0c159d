// Sets of options, one bit for each of the options 0 to 15.
#![tactic(auto)]

ghost use Rattle.std.specs.Prelude.{◌≡◌, ℕ, ◌+◌, ◌^◌, ◌<◌, ◌≤◌, true, false, not, ◌&&◌, ◌||◌, if◌then◌else◌, Decides, ◌==◌, nat_lt};
ghost use Rattle.masks.specs.Members.{is_option, bit_of, has, size, Least, SplitLeast, IsFigure, SameMembers};

/// A set of options: bit k is 1 where option k is in the set.
#[derive(Clone, Copy)]
pub struct Mask {
    bits: u16,
}

/// The bit of an option; no bit for what is no option.
fn bit(option: u8) -> u16
    ensures { result ≡ (if is_option option then 2 ^ option else 0) }
{
    if option < 16 { 1 << option } else { 0 }
}

impl Mask {
    /// The empty set.
    pub fn none() -> Mask
        ensures { (k : ℕ) → has result k ≡ false }
    {
        Mask { bits: 0 }
    }

    /// The options below a number: all sixteen from 16 on.
    pub fn first(count: u8) -> Mask
        ensures { (k : ℕ) → has result k ≡ (is_option k && nat_lt k count) }
    {
        if count < 16 {
            Mask {
                bits: (1 << count) - 1,
            }
        } else {
            Mask { bits: 65535 }
        }
    }

    /// The set of one option; empty for what is no option.
    pub fn only(option: u8) -> Mask
        ensures { (k : ℕ) → has result k ≡ (is_option k && k == option) }
    {
        Mask { bits: bit(option) }
    }

    /// Whether an option is in the set.
    pub fn has(self, option: u8) -> bool
        ensures { result ≡ has self option }
    {
        option < 16 && (self.bits >> option) % 2 == 1
    }

    /// The set and one option.
    pub fn with(self, option: u8) -> Mask
        ensures { (k : ℕ) → has result k ≡ (has self k || (is_option k && k == option)) }
    {
        Mask {
            bits: self.bits | bit(option),
        }
    }

    /// The set less one option.
    pub fn without(self, option: u8) -> Mask
        ensures members { (k : ℕ) → has result k ≡ (has self k && not (k == option)) }
        ensures fewer { has self option ≡ true → size result < size self }
    {
        self.minus(Mask::only(option))
    }

    /// The options of both sets.
    pub fn both(self, other: Mask) -> Mask
        ensures { (k : ℕ) → has result k ≡ (has self k && has other k) }
    {
        Mask {
            bits: self.bits & other.bits,
        }
    }

    /// The options of either set.
    pub fn either(self, other: Mask) -> Mask
        ensures { (k : ℕ) → has result k ≡ (has self k || has other k) }
    {
        Mask {
            bits: self.bits | other.bits,
        }
    }

    /// The options of this set that the other lacks.
    pub fn minus(self, other: Mask) -> Mask
        ensures { (k : ℕ) → has result k ≡ (has self k && not (has other k)) }
    {
        Mask {
            bits: self.bits ^ (self.bits & other.bits),
        }
    }

    /// Whether the set has no option.
    pub fn is_empty(self) -> bool
        ensures { Decides result ((k : ℕ) → has self k ≡ false) }
    {
        self.bits == 0
    }

    /// The options that pass a test.
    pub fn matching<F: Fn(u8) -> bool>(test: F) -> Mask
        requires { (k : ℕ) → k < 16 → F.pre test k }
        ensures { (k : ℕ) → k < 16 → F.post test k (has result k) }
    {
        // Without a branch: `with` under an `if` made a network take twice as long to build.
        let mut bits = 0;
        for option in 0..16 {
            bits |= u16::from(test(option)) << option;
        }
        Mask { bits }
    }

    /// The option of the smallest number in the set.
    pub fn least(self) -> Option<u8>
        ensures { Least (has self) result }
    {
        if self.bits == 0 {
            None
        } else {
            Some(self.bits.trailing_zeros() as u8)
        }
    }

    /// The option of the smallest number in the set, and the set without it.
    pub fn split_least(self) -> Option<(u8, Mask)>
        ensures { SplitLeast self result }
    {
        let least = self.least()?;
        // One less than a figure has its lowest 1 turned to 0, and the same bits above it.
        let rest = Mask {
            bits: self.bits & (self.bits - 1),
        };
        Some((least, rest))
    }

    /// How many options are in the set.
    pub fn count(self) -> u8
        ensures { result ≡ size self }
    {
        self.bits.count_ones() as u8
    }

    /// Two sets of the same options are the same set; answers true.
    pub fn sets_by_members() -> bool
        ensures members { SameMembers }
        ensures answer { result ≡ true }
    {
        true
    }
}

/// The set whose options are the bits of a figure that are 1.
impl From<u16> for Mask {
    ghost from_gives = { IsFigure };

    fn from(bits: u16) -> Mask {
        Mask { bits }
    }
}

/// The figure whose bits that are 1 are the options of the set.
impl From<Mask> for u16 {
    ghost from_gives = { λ set bits. IsFigure bits set };

    fn from(set: Mask) -> u16 {
        set.bits
    }
}

#[cfg(test)]
mod tests;
