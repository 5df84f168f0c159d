// Choices on the way of a search: what each leaves, and which choices are to blame where nothing is left.
#![tactic(auto)]

ghost use Rattle.choices.specs.Steps.{Chose};
ghost use Rattle.forward.specs.Fits.{rules_of};

use forward::{Choice, Level, Rulebook};
use house::HouseRule;
use masks::Mask;

/// After a choice: its line keeps just the option, and the open lines what goes with it. If one of them then has nothing left, the error is the chosen lines that took its options. What is no choice of the row changes nothing.
pub fn narrow<H: HouseRule>(
    rules: &Rulebook<H>,
    row: &[u8; 16],
    choice: Choice,
    level: &mut Level,
) -> Result<(), Mask>
    ensures { Chose (rules_of rules.now.lines rules.now.net.now (H.HouseRule.passing rules.now.house.now)) row.now choice level.old level.new result }
{
    if !choice.stands_in(rules.lines, row) {
        return Ok(());
    }
    level.masks[choice.line] = Mask::only(choice.option);
    rules
        .check_forward(row, choice, level)
        .map_err(|dead| level.causes[dead])
}
