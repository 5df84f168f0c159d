// Search 1: lines by importance, options by ranking, and the first full row that passes is the answer.
#![tactic(auto)]

ghost use Rattle.std.specs.Prelude.{◌≡◌, ℕ, ◌<◌, ◌≤◌, get_or, slice_index_or};
ghost use Rattle.choices.specs.Steps.{FitsWithin, no_level, rules_in, Unmoved};
ghost use Rattle.forward.specs.Fits.{Left};
ghost use Rattle.lexical.specs.Ends.{Reached, Judged, Ends, Followed};
ghost use Rattle.wall.specs.Plans.{Finds};

use choices::narrow;
use forward::{Choice, Level, Rulebook, chosen_lines};
use house::HouseRule;
use masks::Mask;
use places::first_by_places;
use ranking::Ranking;
use rows::OPEN;
use start::problem::Problem;

/// The first of the rows that fit a problem and a house rule and lie within the masks, filled up with 255.
pub fn first_within<H: HouseRule, R: Ranking>(
    problem: &Problem,
    house: &H,
    ranking: &R,
    masks: [Mask; 16],
) -> Option<[u8; 16]>
    ensures { Finds problem.now.lines (R.Ranking.before ranking.now) (FitsWithin (rules_in problem.now (H.HouseRule.passing house.now)) masks) result }
{
    let search = Search {
        problem,
        house,
        ranking,
    };
    let level = Level {
        masks,
        causes: [Mask::none(); 16],
    };
    search.descend(0, [OPEN; 16], &mut [level; 17]).ok()
}

/// What a search works on, and what it asks. Its steps answer the first row, or else chosen lines to which no row goes.
// The levels are an array beside the depth: each choice has its own copy of the option sets, in the level below it.
#[derive(Drop)]
struct Search<'a, H, R> {
    problem: &'a Problem,
    house: &'a H,
    ranking: &'a R,
}

impl<'a, H: HouseRule, R: Ranking> Search<'a, H, R> {
    /// Puts a row with every line chosen to the house rule.
    fn judge(&self, row: [u8; 16]) -> Result<[u8; 16], Mask>
        ensures { Judged (H.HouseRule.passing self.now.house.now) self.now.problem.now.lines row result }
    {
        let lines = self.problem.lines;
        if self.house.passes(lines, &row[..lines]) {
            Ok(row)
        } else {
            Err(chosen_lines(lines, &row))
        }
    }

    /// The first row that has what is chosen on the lines above.
    #[cycle(descend_follow)]
    fn descend(
        &self,
        depth: usize,
        row: [u8; 16],
        levels: &mut [Level; 17],
    ) -> Result<[u8; 16], Mask>
        requires within { depth ≤ self.now.problem.now.lines }
        requires reached { Reached (rules_in self.now.problem.now (H.HouseRule.passing self.now.house.now)) depth (slice_index_or levels.old depth no_level) row }
        ensures ends { Ends (rules_in self.now.problem.now (H.HouseRule.passing self.now.house.now)) (R.Ranking.before self.now.ranking.now) (slice_index_or levels.old depth no_level) row result }
        ensures unmoved { Unmoved depth levels.old levels.new }
    {
        if depth == self.problem.lines {
            return self.judge(row);
        }
        let line = depth as u8;
        let places = self.ranking.places(depth, &row[..depth]);
        let mut left = levels[depth].masks[depth];
        let mut blame = levels[depth].causes[depth];
        while let Some(option) = first_by_places(&places, left) {
            left = left.without(option);
            match self.follow(depth, row, option, levels) {
                Ok(found) => return Ok(found),
                Err(conflict) => {
                    if !conflict.has(line) {
                        return Err(conflict);
                    }
                    blame = blame.either(conflict.without(line));
                }
            }
        }
        Err(blame)
    }

    /// Chooses an option on a line, and goes on to the line below it.
    #[cycle(descend_follow)]
    fn follow(
        &self,
        depth: usize,
        mut row: [u8; 16],
        option: u8,
        levels: &mut [Level; 17],
    ) -> Result<[u8; 16], Mask>
        requires within { depth < self.now.problem.now.lines }
        requires reached { Reached (rules_in self.now.problem.now (H.HouseRule.passing self.now.house.now)) depth (slice_index_or levels.old depth no_level) row }
        requires left { Left (get_or levels.old depth no_level).masks depth option }
        ensures followed { Followed (rules_in self.now.problem.now (H.HouseRule.passing self.now.house.now)) (R.Ranking.before self.now.ranking.now) (slice_index_or levels.old depth no_level) row depth option result }
        ensures unmoved { Unmoved depth levels.old levels.new }
    {
        row[depth] = option;
        let rules = Rulebook {
            lines: self.problem.lines,
            net: &self.problem.net,
            house: self.house,
        };
        let choice = Choice {
            line: depth,
            option,
        };
        let mut next = levels[depth];
        narrow(&rules, &row, choice, &mut next)?;
        levels[depth + 1] = next;
        self.descend(depth + 1, row, levels)
    }
}
