// Walls: lines with their options, pair rules and bars; and the order of the plans of a wall.
#![tactic(auto)]

ghost use Rattle.std.specs.Prelude.{◌≡◌, true};
ghost use Rattle.wall.specs.Theorems.{RowsInOrder, OneBest, OnePlace, OwnPlace};

pub mod bars;
pub mod refusal;
pub mod rule;
#[cfg(test)]
mod tests;
pub mod wall;

/// Going before is a strict total order of the rows of a wall, for every ranking; answers true.
pub fn rows_are_in_order() -> bool
    ensures order { RowsInOrder }
    ensures answer { result ≡ true }
{
    true
}

/// The best plan is unique; answers true.
pub fn best_is_unique() -> bool
    ensures one { OneBest }
    ensures answer { result ≡ true }
{
    true
}

/// A plan has one place, and no two plans have the same; answers true.
pub fn places_are_unique() -> bool
    ensures one { OnePlace }
    ensures own { OwnPlace }
    ensures answer { result ≡ true }
{
    true
}
