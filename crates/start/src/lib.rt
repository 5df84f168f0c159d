// What a search begins with: the free options of each line.
#![tactic(auto)]

ghost use Rattle.std.specs.Prelude.{◌≡◌, ℕ, ◌<◌};
ghost use Rattle.masks.specs.Members.{has};
ghost use Rattle.start.specs.Starts.{is_free, AreFree};

use masks::Mask;
use wall::bars::Bars;
use wall::wall::Wall;

pub mod problem;
#[cfg(test)]
mod tests;

// A wall and its bars stay two parameters: a trial copies and restores the bars alone.
/// The options of a line of the wall that are not barred; none of what is no line.
fn free_on(wall: &Wall, bars: &Bars, line: usize) -> Mask
    requires { line < 16 }
    ensures { (o : ℕ) → has result o ≡ is_free wall.now bars.now line o }
{
    wall.count(line).map_or(Mask::none(), |count| {
        Mask::first(count).minus(bars.masks[line])
    })
}

/// The options of each line of the wall that are not barred.
pub fn free_options(wall: &Wall, bars: &Bars) -> [Mask; 16]
    ensures { AreFree wall.now bars.now result }
{
    std::array::from_fn(|line| free_on(wall, bars, line))
}
