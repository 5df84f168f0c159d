// Pair rules.
use masks::Mask;

/// A pair rule: for each option of its first line, the options that its second line may have beside it.
#[derive(Clone, Copy)]
pub struct PairRule {
    pub first: u8,
    pub second: u8,
    pub table: [Mask; 16],
}
