// The places that a ranking gives to options and rows, and what is best by them.
#![tactic(auto)]

ghost use Rattle.std.specs.Prelude.{◌≡◌, ℕ, ◌<◌, true, false, Decides, MatchOption};
ghost use Rattle.masks.specs.Members.{has};
ghost use Rattle.places.specs.Entries.{RanksRow, PlacesOptions, is_pair, FirstBy, FirstByPlace, BestOption};
ghost use Rattle.ranking.specs.Orders.{place_of, is_under, RowBefore};

use arrayvec::ArrayVec;
use entries::{RankedOption, RankedRow};
use masks::Mask;
use order::first_of;
use ranking::Ranking;
use ranking::questions::is_under;
use rows::OPEN;

pub mod entries;
#[cfg(test)]
mod tests;

// A line and the entries above it stay two parameters here and below, as in a ranking's own questions.

/// The place of an option on a line, under the entries above it: how many options go before it.
pub fn place_of<R: Ranking>(ranking: &R, line: usize, above: &[u8], option: u8) -> u8
    ensures { result ≡ place_of (R.Ranking.before ranking.now) line above.now option }
{
    Mask::matching(|other| ranking.goes_before(line, above, other, option)).count()
}

/// A row with the places of its entries; none of what is no row of at most sixteen lines.
pub fn ranked_row<R: Ranking>(ranking: &R, row: &[u8]) -> Option<RankedRow>
    ensures { MatchOption result (is_pair row.now row.now ≡ false) (λ ranks. (is_pair row.now row.now ≡ true) × RanksRow (R.Ranking.before ranking.now) row.now ranks.entries) }
{
    if row.len() > 16 || !rows::is_row(row.len(), row) {
        return None;
    }
    let mut entries = [RankedOption {
        place: 0,
        option: OPEN,
    }; 16];
    for (line, option) in row.iter().enumerate() {
        entries[line] = RankedOption {
            place: place_of(ranking, line, &row[..line], *option),
            option: *option,
        };
    }
    Some(RankedRow { entries })
}

/// Whether the first row goes before the second: on the first line where they differ, under the entries that both have above, the ranking puts its option before the other's. No for what are no two rows of one wall.
pub fn row_goes_before<R: Ranking>(ranking: &R, first: &[u8], second: &[u8]) -> bool
    ensures { Decides result ((is_pair first.now second.now ≡ true) × RowBefore (R.Ranking.before ranking.now) first.now second.now) }
{
    if first.len() != second.len() {
        return false;
    }
    // One after the other: the second row is not ranked where the first is none.
    let Some(better) = ranked_row(ranking, first) else {
        return false;
    };
    let Some(worse) = ranked_row(ranking, second) else {
        return false;
    };
    // Not by `<`: one function finds the first of every kind of entry, options and rows alike.
    first_of(&[worse, better]) == Some(1)
}

/// The options of a set, each with the place that it is given.
fn group_of<F: Fn(u8) -> u8>(options: Mask, place: F) -> ArrayVec<RankedOption, 16>
    requires { (o : ℕ) → o < 16 → F.pre place o }
    ensures { PlacesOptions (F.post place) (has options) result.items }
{
    let mut group = ArrayVec::new();
    // An iterator over sets of options would serve this loop alone.
    let mut left = options;
    while let Some((option, rest)) = left.split_least() {
        left = rest;
        group.push(RankedOption {
            place: place(option),
            option,
        });
    }
    group
}

/// The option of a set that is given the least place, of those with the same the lowest numbered.
fn first_by<F: Fn(u8) -> u8>(options: Mask, place: F) -> Option<u8>
    requires { (o : ℕ) → o < 16 → F.pre place o }
    ensures { FirstBy (F.post place) (has options) result }
{
    let group = group_of(options, place);
    let first = first_of(&group)?;
    Some(group[first].option)
}

/// The option of a set that has the least figure, of those with the same the lowest numbered.
pub fn first_by_places(places: &[u8; 16], options: Mask) -> Option<u8>
    ensures { FirstByPlace places.now (has options) result }
{
    first_by(options, |option| places[option as usize])
}

/// The option of a set that goes before every other one in it, on a line and under the entries above it.
pub fn best_option<R: Ranking>(ranking: &R, line: usize, above: &[u8], options: Mask) -> Option<u8>
    ensures { BestOption (R.Ranking.before ranking.now) line above.now (has options) result }
{
    if !is_under(line, above) {
        return None;
    }
    first_by(options, |option| place_of(ranking, line, above, option))
}
