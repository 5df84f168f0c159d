// Rankings: for each line, under the entries above it, the order of its options.
#![tactic(auto)]

ghost use Rattle.std.specs.Prelude.{◌≡◌, ℕ, Bool, List};
ghost use Rattle.ranking.specs.Orders.{IsRanking, ArePlacesOf};

pub mod condition;
pub mod conditional;
mod fill;
pub mod list;
mod lists;
pub mod questions;
pub mod refusal;
#[cfg(test)]
mod tests;

/// A ranking. Its meaning is, for each line and each choice of entries above it, a strict order of the options 0 to 15.
pub trait Ranking {
    /// The letter of the kind.
    const LETTER: u8;

    /// The number that the letter is.
    ghost LETTER: { ℕ };

    /// Whether, on a line and under the entries above it, the first of two options goes before the second.
    ghost before: { Self → ℕ → List ℕ → ℕ → ℕ → Bool };

    // The questions take a line and the entries above it apart: entries of another number are a question too, and get no.

    /// Whether, on a line and under the entries above it, option a goes before option b; no for anything else.
    fn goes_before(&self, line: usize, above: &[u8], a: u8, b: u8) -> bool
        ensures { result ≡ before self.now line above.now a b };

    /// Figures for all sixteen options of a line, under the entries above it, that rise as the ranking orders them: the places of the options. All 0 for anything else.
    fn places(&self, line: usize, above: &[u8]) -> [u8; 16]
        ensures { ArePlacesOf (before self.now) line above.now result };

    ghost ranks: { (x : Self) → IsRanking (before x) };
}
