// The ranking by one list for each line.
ghost use Rattle.std.specs.Prelude.{◌≡◌, ℕ, ◌<◌, true, false, ◌&&◌, [], get_or, MatchOption, slice_index_or, slice_set};
ghost use Rattle.ranking.specs.Lists.{is_list, filled};
ghost use Rattle.ranking.specs.Orders.{is_line, by_lists};
ghost use Rattle.ranking.specs.Refusals.{Taken};
ghost use Rattle.ranking.specs.Ranks.{ranks_by_lists, under_parts};

use crate::Ranking;
use crate::fill::fill;
use crate::lists::Lists;
use crate::questions::{is_asked, is_under};
use crate::refusal::RankingRefusal;

/// One list for each line, whatever stands above.
#[derive(Clone, Copy)]
pub struct ListRanking {
    lists: Lists<16>,
}

impl ListRanking {
    /// Each line's list rises.
    pub fn new() -> ListRanking
        ensures { (line : ℕ) → line < 16 → slice_index_or result.lists.rows line [] ≡ filled [] }
    {
        ListRanking {
            lists: Lists::rising(),
        }
    }

    /// The list of a line, all sixteen options, the best first; none of what is no line.
    pub fn list(&self, line: u32) -> Option<[u8; 16]>
        ensures { MatchOption result (is_line line ≡ false) (λ row. (is_line line ≡ true) × (row ≡ slice_index_or self.now.lists.rows line [])) }
    {
        self.lists.row(line as usize)
    }

    /// Gives a line a list, filled up, in place of the one that it had.
    pub fn set_list(&mut self, line: u32, list: &[u32]) -> Result<(), RankingRefusal>
        ensures { Taken (is_line line && is_list list.now) true (self.new.lists.rows ≡ slice_set self.old.lists.rows line (filled list.now)) self.old self.new result }
    {
        if line >= 16 {
            return Err(RankingRefusal::OutOfRange);
        }
        self.lists.replace(line as usize, fill(list)?);
        Ok(())
    }
}

impl Ranking for ListRanking {
    const LETTER: u8 = b'L';

    ghost LETTER = { 76 };

    ghost before = { λ x. by_lists (λ line _. get_or x.lists.rows line []) };

    ghost ranks = { λ x. ranks_by_lists (λ line _. get_or x.lists.rows line []) (λ line above h. x.lists.whole line (under_parts line above h).0) };

    fn goes_before(&self, line: usize, above: &[u8], a: u8, b: u8) -> bool {
        is_asked(line, above, a, b) && self.lists.stands_before(line, a, b)
    }

    #[tactic(auto, using(crate::specs::Ranks::places_by_lists, crate::specs::Ranks::under_parts))]
    fn places(&self, line: usize, above: &[u8]) -> [u8; 16] {
        if is_under(line, above) {
            self.lists.places_of(line)
        } else {
            [0; 16]
        }
    }
}
