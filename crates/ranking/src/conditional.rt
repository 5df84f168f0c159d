// The ranking by a list for each option of a parent line.
ghost use Rattle.std.specs.Prelude.{◌≡◌, ℕ, ◌<◌, true, false, ◌&&◌, [], get_or, slice_index_or, slice_set};
ghost use Rattle.ranking.specs.Conditions.{is_condition, is_above, agrees_with, parent_of, option_in, option_under, slot, in_force};
ghost use Rattle.ranking.specs.Lists.{is_list, filled};
ghost use Rattle.ranking.specs.Orders.{is_line, is_under, by_lists};
ghost use Rattle.ranking.specs.Refusals.{Taken};
ghost use Rattle.ranking.specs.declared.condition.Parent.TheVariants.{Unsettled};
ghost use Rattle.ranking.specs.Ranks.{ranks_by_lists, slot_below};

use crate::Ranking;
use crate::condition::{Condition, Parent, Settled, is_above};
use crate::fill::{fill_up, options_of};
use crate::lists::Lists;
use crate::questions::{is_asked, is_under};
use crate::refusal::RankingRefusal;

/// A list for each line and each option of its parent line, or one list for a line without a parent.
#[derive(Clone, Copy)]
pub struct ConditionalRanking {
    parents: [Parent; 16],
    lists: Lists<256>,
}

impl ConditionalRanking {
    /// No line has a parent yet, and each list rises.
    pub fn new() -> ConditionalRanking
        ensures parents { (line : ℕ) → line < 16 → slice_index_or result.parents line Unsettled ≡ Unsettled }
        ensures lists { (k : ℕ) → k < 256 → slice_index_or result.lists.rows k [] ≡ filled [] }
    {
        ConditionalRanking {
            parents: [Parent::Unsettled; 16],
            lists: Lists::rising(),
        }
    }

    /// Gives a line a list, filled up, under a parent option or for whatever stands above, in place of the one that it had there.
    pub fn set_list(
        &mut self,
        line: u32,
        condition: Option<Condition>,
        list: &[u32],
    ) -> Result<(), RankingRefusal>
        ensures { Taken (is_line line && (is_condition condition && is_list list.now)) (is_above condition line && agrees_with (slice_index_or self.old.parents line Unsettled) condition) ((self.new.parents ≡ slice_set self.old.parents line (parent_of condition)) × (self.new.lists.rows ≡ slice_set self.old.lists.rows (slot line (option_in condition)) (filled list.now))) self.old self.new result }
    {
        if line >= 16 {
            return Err(RankingRefusal::OutOfRange);
        }
        let settled = Settled::try_from(condition)?;
        let options = options_of(list)?;
        let k = line as usize;
        if !is_above(condition, line) || !self.parents[k].allows(settled.parent) {
            return Err(RankingRefusal::OtherParent);
        }
        self.parents[k] = settled.parent;
        // Filled up last: a row kept while the parent is looked at was copied in pieces, which took a third longer.
        self.lists.replace(slot(k, usize::from(settled.option)), fill_up(list, options));
        Ok(())
    }

    /// Which of the lists is in force on a line, under the entries above it.
    #[tactic(auto, using(crate::specs::Ranks::slot_below))]
    fn slot_under(&self, line: usize, above: &[u8]) -> usize
        requires { is_under line above.now ≡ true }
        ensures slot { result ≡ slot line (option_under (slice_index_or self.now.parents line Unsettled) above.now) }
        ensures within { result < 256 }
    {
        slot(line, self.parents[line].option_under(above))
    }
}

/// Which of the lists is that of a line under a parent option.
// One table and this sum: sixteen tables of sixteen would need what holds of each list said for each of them.
fn slot(line: usize, option: usize) -> usize
    requires line { line < 16 }
    requires option { option < 16 }
    ensures { result ≡ slot line option }
{
    line * 16 + option
}

impl Ranking for ConditionalRanking {
    const LETTER: u8 = b'C';

    ghost LETTER = { 67 };

    ghost before = { λ x. by_lists (in_force x.parents x.lists.rows) };

    ghost ranks = { λ x.
        ranks_by_lists (in_force x.parents x.lists.rows) (λ line above h.
        let parent = get_or x.parents line Unsettled in
        x.lists.whole (slot line (option_under parent above)) (slot_below parent line above h)) };

    // Both answers are ListRanking's but for the list in force: a helper that is passed its number saves no line.
    fn goes_before(&self, line: usize, above: &[u8], a: u8, b: u8) -> bool {
        is_asked(line, above, a, b) && self.lists.stands_before(self.slot_under(line, above), a, b)
    }

    #[tactic(auto, using(crate::specs::Ranks::places_by_lists, crate::specs::Ranks::slot_below))]
    fn places(&self, line: usize, above: &[u8]) -> [u8; 16] {
        if is_under(line, above) {
            self.lists.places_of(self.slot_under(line, above))
        } else {
            [0; 16]
        }
    }
}
