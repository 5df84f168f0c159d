// The pair rules of a wall, ready for look-ups either way.
#![tactic(auto)]

ghost use Rattle.std.specs.Prelude.{◌≡◌, ℕ, ◌<◌, ◌&&◌, [], length, nat_lt, slice_index_or};
ghost use Rattle.masks.specs.Members.{is_option, has};
ghost use Rattle.network.specs.Ways.{has_way, no_ways, IsNetwork, RulePut};
ghost use Rattle.wall.specs.Rules.{no_options};

use masks::Mask;
use wall::rule::PairRule;
use wall::wall::Wall;
use ways::WaySet;

#[cfg(test)]
mod tests;
pub mod ways;

/// For each two lines the ways between them, and for each way and each option of the line where it starts the options that it leaves to the other.
#[derive(Clone, Copy)]
pub struct Network {
    ways: [[WaySet; 16]; 16],
    tables: [[Mask; 16]; 48],
    // Each row has sixteen entries, so that a write into one is known to be in it.
    ghost rows: { (line : ℕ) → line < 16 → length (slice_index_or ways line []) ≡ 16 },
}

/// The options of the first line that a table allows beside an option of the second.
fn column(table: &[Mask; 16], option: u8) -> Mask
    ensures { (x : ℕ) → has result x ≡ (is_option x && has (slice_index_or table.now x no_options) option) }
{
    Mask::matching(|first| table[first as usize].has(option))
}

/// A table the other way round.
fn transposed(table: &[Mask; 16]) -> [Mask; 16]
    ensures { (y x : ℕ) → y < 16 → has (slice_index_or result y no_options) x ≡ (is_option x && has (slice_index_or table.now x no_options) y) }
{
    std::array::from_fn(|option| column(table, option as u8))
}

impl Network {
    /// The network of a wall's pair rules.
    #[tactic(auto, using(crate::proofs::NetLaws::net_more, crate::proofs::NetLaws::net_skip))]
    pub fn of(wall: &Wall) -> Network
        ensures { IsNetwork wall.now.rules result.ways result.tables }
    {
        let mut net = Network::empty();
        for (k, rule) in wall.rules().iter().enumerate() {
            if let Some(rule) = rule {
                net.put(k, *rule);
            }
        }
        net
    }

    /// The ways from one line to another; none where one of them is no line.
    pub fn between(&self, line: usize, other: usize) -> WaySet
        ensures { (way : ℕ) → has_way result way ≡ ((nat_lt line 16 && nat_lt other 16) && has_way (slice_index_or (slice_index_or self.now.ways line []) other no_ways) way) }
    {
        // `self.ways.get(line).and_then(|row| row.get(other))` and a default are no plainer.
        if line < 16 && other < 16 {
            self.ways[line][other]
        } else {
            WaySet::none()
        }
    }

    /// The options that a way leaves beside an option of the line where it starts; none where one of them is none.
    pub fn left(&self, way: usize, option: u8) -> Mask
        ensures { (y : ℕ) → has result y ≡ ((nat_lt way 48 && is_option option) && has (slice_index_or (slice_index_or self.now.tables way []) option no_options) y) }
    {
        // The same chain of `get`s and a default are no plainer here.
        if way < 48 && option < 16 {
            self.tables[way][option as usize]
        } else {
            Mask::none()
        }
    }

    /// No ways.
    fn empty() -> Network
        ensures { IsNetwork [] result.ways result.tables }
    {
        Network {
            ways: [[WaySet::none(); 16]; 16],
            tables: [[Mask::none(); 16]; 48],
        }
    }

    /// Adds the two ways of the rule at index k.
    fn put(&mut self, k: usize, rule: PairRule)
        requires index { k < 24 }
        requires first { rule.first < 16 }
        requires second { rule.second < 16 }
        ensures { RulePut k rule self.old.ways self.new.ways self.old.tables self.new.tables }
    {
        let a = rule.first as usize;
        let b = rule.second as usize;
        self.ways[a][b] = self.ways[a][b].with(k);
        self.ways[b][a] = self.ways[b][a].with(24 + k);
        self.tables[k] = rule.table;
        self.tables[24 + k] = transposed(&rule.table);
    }
}
