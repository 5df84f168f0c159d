// The lines of a wall and the pair rules between them.
ghost use Rattle.std.specs.Prelude.{◌≡◌, ℕ, ◌-◌, ◌<◌, ◌≤◌, true, false, length, None, IfErr, IfOk, SomeIff, slice_index, slice_index_or};
ghost use Rattle.wall.specs.Rules.{is_count, is_filed, is_number};

use crate::refusal::WallRefusal;
use crate::rule::PairRule;

/// The lines, the most important first, by how many options each has; and the pair rules 1 to 24.
#[derive(Clone, Copy)]
pub struct Wall {
    // A wall is Copy and an `ArrayVec` is not, so the number of lines stands beside the counts.
    lines: usize,
    counts: [u8; 16],
    rules: [Option<PairRule>; 24],
    ghost few: { lines ≤ 16 },
    ghost sixteen: { length counts ≡ 16 },
    ghost numbers: { length rules ≡ 24 },
    ghost counted: { (line : ℕ) → line < lines → is_count (slice_index counts line) ≡ true },
    ghost filed: { (k : ℕ) → is_filed lines (slice_index_or rules k None) ≡ true },
}

impl Wall {
    ghost use Rattle.wall.specs.Acts.{LineAdded, RuleSet};
    ghost use Rattle.wall.specs.Refusals.{against_number, against_rule};

    /// A wall without lines and rules.
    pub fn blank() -> Wall
        ensures lines { result.lines ≡ 0 }
        ensures rules { (k : ℕ) → slice_index_or result.rules k None ≡ None }
    {
        Wall {
            lines: 0,
            counts: [0; 16],
            rules: [None; 24],
        }
    }

    /// How many lines there are.
    pub fn lines(&self) -> usize
        ensures lines { result ≡ self.now.lines }
        ensures few { result ≤ 16 }
    {
        self.lines
    }

    /// How many options a line has; none of what is no line.
    pub fn count(&self, line: usize) -> Option<u8>
        ensures { SomeIff result (line < self.now.lines) (slice_index self.now.counts line) }
    {
        self.counts[..self.lines].get(line).copied()
    }

    /// The rules under the numbers 1 to 24, the first at index 0.
    pub fn rules(&self) -> &[Option<PairRule>]
        ensures { result.now ≡ self.now.rules }
    {
        &self.rules
    }

    /// The rule under a number; none where the number is free or no number of a rule.
    pub fn rule(&self, number: u32) -> Option<PairRule>
        ensures filed { is_number number ≡ true → result ≡ slice_index_or self.now.rules (number - 1) None }
        ensures none { is_number number ≡ false → result ≡ None }
    {
        self.rules[rule_index(number).ok()?]
    }

    /// Adds a least important line with 1 to 16 options and answers its number; refused, and nothing changes, for another count or on a wall of sixteen lines.
    pub fn add_line(&mut self, count: u32) -> Result<usize, WallRefusal>
        ensures { LineAdded count self.old self.new result }
    {
        if !(1..=16).contains(&count) {
            return Err(WallRefusal::OptionCount);
        }
        let line = self.lines;
        if line >= 16 {
            return Err(WallRefusal::TooManyLines);
        }
        self.counts[line] = count as u8;
        self.lines = line + 1;
        Ok(line)
    }

    /// Puts a rule under a number, in place of any that stands there; refused, and nothing changes, if it does not join two lines of the wall or the number is none of 1 to 24.
    pub fn put_rule(&mut self, number: u32, rule: PairRule) -> Result<(), WallRefusal>
        ensures { RuleSet (against_rule self.old.lines number rule) number (Some rule) self.old self.new result }
    {
        let PairRule { first, second, .. } = rule;
        if first as usize >= self.lines || second as usize >= self.lines {
            return Err(WallRefusal::NoSuchLine);
        }
        let index = rule_index(number)?;
        if first == second {
            return Err(WallRefusal::OneLine);
        }
        self.rules[index] = Some(rule);
        Ok(())
    }

    /// Takes away the rule under a number, if any; refused, and nothing changes, if the number is none of 1 to 24.
    pub fn take_rule(&mut self, number: u32) -> Result<(), WallRefusal>
        ensures { RuleSet (against_number number) number None self.old self.new result }
    {
        let index = rule_index(number)?;
        self.rules[index] = None;
        Ok(())
    }
}

/// The index of the rule with a number.
fn rule_index(number: u32) -> Result<usize, WallRefusal>
    ensures index { IfOk result (λ index. (is_number number ≡ true) × (index ≡ number - 1)) }
    ensures refused { IfErr result (λ refusal. (is_number number ≡ false) × (refusal ≡ WallRefusal.RuleNumber)) }
{
    if !(1..=24).contains(&number) {
        return Err(WallRefusal::RuleNumber);
    }
    Ok(number as usize - 1)
}
