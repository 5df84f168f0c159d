// The house rule of a limit on the holds that the options of a row need together.
ghost use Rattle.std.specs.Prelude.{◌≡◌, ℕ, ◌+◌, ◌*◌, ◌≤◌, true, false, ◌&&◌, List, length, MatchOption, nat_lt};
ghost use Rattle.house.specs.Loads.{holds_of, load, is_within, is_over, is_card, is_count, is_limit, OneChanged};
ghost use Rattle.house.specs.Refusals.{Taken};
ghost use Rattle.masks.specs.Members.{is_option, has};
ghost use Rattle.house.specs.Sums.{over_sound};
ghost use Rattle.std.proofs.Common.{rules, arith};

use crate::HouseRule;
use crate::questions::{is_judged, is_open_line};
use crate::refusal::HouseRefusal;
use masks::Mask;

/// The holds of each card, which is an option of a line, and the limit on what a row needs.
#[derive(Clone, Copy)]
pub struct Holds {
    counts: [[u16; 16]; 16],
    limit: u16,
    ghost few: { (line option : ℕ) → holds_of counts line option ≤ 999 },
    ghost bounded: { limit ≤ 16000 },
}

impl Holds {
    /// No card needs holds, and the limit is the largest.
    pub fn new() -> Holds
        ensures counts { (line option : ℕ) → holds_of result.counts line option ≡ 0 }
        ensures limit { result.limit ≡ 16000 }
    {
        Holds {
            counts: [[0; 16]; 16],
            limit: 16000,
        }
    }

    /// The holds of a card; none of what is no card.
    pub fn holds(&self, line: u32, option: u32) -> Option<u16>
        ensures { MatchOption result (is_card line option ≡ false) (λ figure. (is_card line option ≡ true) × (figure ≡ holds_of self.now.counts line option)) }
    {
        self.counts
            .get(line as usize)?
            .get(option as usize)
            .copied()
    }

    /// The limit.
    pub fn limit(&self) -> u16
        ensures { result ≡ self.now.limit }
    {
        self.limit
    }

    /// Sets the holds of a card in place of the figure that it had.
    pub fn set_holds(&mut self, line: u32, option: u32, figure: u32) -> Result<(), HouseRefusal>
        ensures { Taken (is_card line option && is_count figure) (OneChanged self.old.counts self.new.counts line option figure × (self.new.limit ≡ self.old.limit)) self.old self.new result }
    {
        // Plain tests: by `get_mut` the figure's own test would still stand apart.
        if line >= 16 || option >= 16 || figure > 999 {
            return Err(HouseRefusal::OutOfRange);
        }
        self.counts[line as usize][option as usize] = figure as u16;
        Ok(())
    }

    /// Sets the limit in place of the one that was.
    pub fn set_limit(&mut self, figure: u32) -> Result<(), HouseRefusal>
        ensures { Taken (is_limit figure) ((self.new.limit ≡ figure) × (self.new.counts ≡ self.old.counts)) self.old self.new result }
    {
        if figure > 16000 {
            return Err(HouseRefusal::OutOfRange);
        }
        self.limit = figure as u16;
        Ok(())
    }

    /// What the chosen entries of a row of at most sixteen lines add up to.
    fn load(&self, row: &[u8]) -> u32
        requires { length row.now ≤ 16 }
        ensures sum { result ≡ load self.now.counts row.now (length row.now) }
        ensures small { result ≤ 999 * 16 }
    {
        // By a loop: `zip` and `sum` took two fifths longer. By a test: so did `get` with a default.
        let mut sum = 0;
        for (line, entry) in row.iter().enumerate() {
            if *entry < 16 {
                sum += u32::from(self.counts[line][usize::from(*entry)]);
            }
        }
        sum
    }

    /// The options of a line whose holds exceed what is left of the limit beside a load.
    fn over(&self, line: usize, load: u32) -> Mask
        requires { (line ≤ 15) × (load ≤ 999 * 16) }
        ensures { (k : ℕ) → has result k ≡ (is_option k && nat_lt self.now.limit (load + holds_of self.now.counts line k)) }
    {
        let counts = &self.counts[line];
        Mask::matching(|option| load + u32::from(counts[option as usize]) > u32::from(self.limit))
    }
}

impl HouseRule for Holds {
    const LETTER: u8 = b'H';

    ghost LETTER = { 72 };

    ghost passing = { λ x n row. is_within x.counts x.limit n row };

    ghost striking = { λ x n partial line option. is_over x.counts x.limit n partial line option };

    ghost judged = { Prim.search rules };

    ghost quiet = { Prim.search rules };

    // A row adds up to at least what is chosen of it and one option more.
    ghost sound = { λ x n partial line option struck row passes agrees at. over_sound x.counts n partial row agrees x.limit line option struck passes at };

    fn passes(&self, n: usize, row: &[u8]) -> bool {
        is_judged(n, row) && self.load(row) <= u32::from(self.limit)
    }

    fn strikes(&self, n: usize, row: &[u8], line: usize) -> Mask {
        if is_open_line(n, row, line) {
            self.over(line, self.load(row))
        } else {
            Mask::none()
        }
    }
}
