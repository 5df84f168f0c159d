// House rules: which rows pass as a whole, and which options cannot be part of a passing row.
#![tactic(auto)]

ghost use Rattle.std.specs.Prelude.{◌≡◌, ℕ, Bool, true, false, List, ◌≢◌, slice_index};
ghost use Rattle.house.specs.Questions.{is_judged, is_open_line};
ghost use Rattle.masks.specs.Members.{has};
ghost use Rattle.rows.specs.Rows.{Agrees};

use masks::Mask;

pub mod both;
pub mod free;
pub mod holds;
mod questions;
pub mod refusal;

/// A house rule. Its meaning is, for each number of lines from 1 to 16, the set of the rows that pass.
pub trait HouseRule {
    /// The letter of the kind.
    const LETTER: u8;

    /// The number that the letter is.
    ghost LETTER: { ℕ };

    /// Whether a row of n lines passes.
    ghost passing: { Self → ℕ → List ℕ → Bool };

    /// Whether an option of an open line is struck beside the chosen entries of a partial row of n lines.
    ghost striking: { Self → ℕ → List ℕ → ℕ → ℕ → Bool };

    // The questions take n and the row apart: a row of another length is a question too, and gets no.

    /// Whether a row of n lines passes; no for anything else.
    fn passes(&self, n: usize, row: &[u8]) -> bool
        ensures { result ≡ passing self.now n row.now };

    /// The struck options of an open line; none for anything else.
    fn strikes(&self, n: usize, row: &[u8], line: usize) -> Mask
        ensures { (k : ℕ) → has result k ≡ striking self.now n row.now line k };

    /// Only rows of 1 to 16 options pass.
    ghost judged: { (x : Self) (n : ℕ) (row : List ℕ) → passing x n row ≡ true → is_judged n row ≡ true };

    /// Nothing is struck unless the line is an open one of a partial row.
    ghost quiet: { (x : Self) (n : ℕ) (partial : List ℕ) (line option : ℕ) → striking x n partial line option ≡ true → is_open_line n partial line ≡ true };

    /// No passing row that agrees with the chosen entries has a struck option on that line.
    ghost sound: { (x : Self) (n : ℕ) (partial : List ℕ) (line option : ℕ) → striking x n partial line option ≡ true → (row : List ℕ) → passing x n row ≡ true → Agrees n partial row → slice_index row line ≢ option };
}

#[cfg(test)]
mod tests;
