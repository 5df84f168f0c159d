// The forward check: after a choice, pair rules and strikes shrink the options of each open line.
#![tactic(auto)]

ghost use Rattle.std.specs.Prelude.{◌≡◌, ℕ, ◌<◌, ◌≤◌, true, false, not, ◌&&◌, nat_lt, slice_index, slice_index_or, slice_set};
ghost use Rattle.forward.specs.Causes.{is_choice, Checked, Sweeps, Blame, Settled};
ghost use Rattle.forward.specs.Fits.{rules_of};
ghost use Rattle.masks.specs.Members.{has};
ghost use Rattle.rows.specs.Rows.{is_open};
ghost use Rattle.wall.specs.Rules.{no_options};

use house::HouseRule;
use masks::Mask;
use network::Network;
use rows::OPEN;

/// The options that a line has left, and the chosen lines that took the others.
#[derive(Clone, Copy)]
pub struct Share {
    pub left: Mask,
    pub causes: Mask,
}

/// What so many choices leave: the options of each line, and for each line the chosen lines that took the others.
// Two arrays, as every choice works on its own copy of sixteen option sets.
#[derive(Clone, Copy)]
pub struct Level {
    pub masks: [Mask; 16],
    pub causes: [Mask; 16],
}

/// An option of a line.
#[derive(Clone, Copy)]
pub struct Choice {
    pub line: usize,
    pub option: u8,
}

// n and the row stay apart, as where rows are asked about.
impl Choice {
    /// Whether a row of n lines, at most sixteen, has the option on the line.
    pub fn stands_in(self, n: usize, row: &[u8; 16]) -> bool
        ensures { result ≡ is_choice n row.now self.line self.option }
    {
        n <= 16 && self.line < n && self.option < 16 && row[self.line] == self.option
    }
}

/// What a row has to fit: so many lines, the ways between them, and a house rule.
#[derive(Drop)]
pub struct Rulebook<'a, H> {
    pub lines: usize,
    pub net: &'a Network,
    pub house: &'a H,
}

/// The lines that are chosen in a row of n lines.
pub fn chosen_lines(n: usize, row: &[u8; 16]) -> Mask
    ensures { (line : ℕ) → has result line ≡ (nat_lt line 16 && (nat_lt line n && not (is_open (slice_index row.now line)))) }
{
    Mask::matching(|line| (line as usize) < n && row[line as usize] != OPEN)
}

/// The causes, with more lines where something was taken.
fn blame(causes: Mask, before: Mask, after: Mask, more: Mask) -> Mask
    ensures { Blame causes before after more result }
{
    if before.minus(after).is_empty() {
        causes
    } else {
        causes.either(more)
    }
}

// That a line is below sixteen is asked here and in `settle`: a type for it would be checked at every number that arrives.
impl Level {
    /// What a line has left.
    fn share(&self, line: usize) -> Share
        requires { line < 16 }
        ensures { (result.left ≡ slice_index_or self.now.masks line no_options) × (result.causes ≡ slice_index_or self.now.causes line no_options) }
    {
        Share {
            left: self.masks[line],
            causes: self.causes[line],
        }
    }

    /// Writes what a line has left in place of what it had.
    fn put(&mut self, line: usize, share: Share)
        requires { line < 16 }
        ensures { (self.new.masks ≡ slice_set self.old.masks line share.left) × (self.new.causes ≡ slice_set self.old.causes line share.causes) }
    {
        self.masks[line] = share.left;
        self.causes[line] = share.causes;
    }
}

// A row, a choice and a level stay three parameters: the row is read, the level written, and both are the caller's own.
impl<'a, H: HouseRule> Rulebook<'a, H> {
    /// The forward check: after a choice, takes from each open line what does not go with it, and stops at the first that has nothing left, which is the error. What is no choice of the row changes nothing.
    pub fn check_forward(
        &self,
        row: &[u8; 16],
        choice: Choice,
        level: &mut Level,
    ) -> Result<(), usize>
        ensures { Checked (rules_of self.now.lines self.now.net.now (H.HouseRule.passing self.now.house.now)) row.now choice level.old level.new result }
    {
        if choice.stands_in(self.lines, row) {
            self.sweep(row, choice, level)
        } else {
            Ok(())
        }
    }

    /// The same of a choice of the row.
    fn sweep(&self, row: &[u8; 16], choice: Choice, level: &mut Level) -> Result<(), usize>
        requires few { self.now.lines ≤ 16 }
        requires line { choice.line < self.now.lines }
        requires option { choice.option < 16 }
        requires chosen { slice_index row.now choice.line ≡ choice.option }
        ensures { Sweeps (rules_of self.now.lines self.now.net.now (H.HouseRule.passing self.now.house.now)) row.now choice level.old level.new result }
    {
        let Choice { line, option } = choice;
        // One label over both loops: the dead line is the value that leaves them.
        'sweep: {
            for (other, entry) in row[..self.lines].iter().enumerate() {
                if *entry == OPEN {
                    let was = level.share(other);
                    let mut ruled = was.left;
                    for way in self.net.between(line, other) {
                        ruled = ruled.both(self.net.left(way, option));
                        if ruled.is_empty() {
                            let causes = was.causes.with(line as u8);
                            level.put(
                                other,
                                Share {
                                    left: ruled,
                                    causes,
                                },
                            );
                            break 'sweep Err(other);
                        }
                    }
                    let share = self.settle(row, line, other, was, ruled);
                    level.put(other, share);
                    if share.left.is_empty() {
                        break 'sweep Err(other);
                    }
                }
            }
            Ok(())
        }
    }

    /// What the house rule leaves of an open line after the pair rules have left `ruled` of it, and who took the others.
    fn settle(&self, row: &[u8; 16], line: usize, other: usize, was: Share, ruled: Mask) -> Share
        requires few { self.now.lines ≤ 16 }
        requires line { line < 16 }
        ensures { Settled (H.HouseRule.passing self.now.house.now) self.now.lines row.now line other was.left was.causes ruled result.left result.causes }
    {
        let struck = self.house.strikes(self.lines, &row[..self.lines], other);
        let left = ruled.minus(struck);
        let by_rules = blame(was.causes, was.left, ruled, Mask::only(line as u8));
        Share {
            left,
            causes: blame(by_rules, ruled, left, chosen_lines(self.lines, row)),
        }
    }
}

#[cfg(test)]
mod tests;
