// Filling a list up to all sixteen options.
ghost use Rattle.std.specs.Prelude.{◌≡◌, ℕ, ◌≤◌, true, false, take, IfErr, IfOk};
ghost use Rattle.masks.specs.Members.{has};
ghost use Rattle.ranking.specs.Lists.{stands, is_list, filled, is_permutation, are_places};

use crate::refusal::RankingRefusal;
use masks::Mask;

/// The options of a list; refused if it has an option twice or a number that is no option.
#[tactic(auto, using(crate::specs::ListLaws::too_long))]
pub fn options_of(list: &[u32]) -> Result<Mask, RankingRefusal>
    ensures taken { IfOk result (λ options. (is_list list.now ≡ true) × ((o : ℕ) → has options o ≡ stands o list.now)) }
    ensures refused { IfErr result (λ refusal. (is_list list.now ≡ false) × (refusal ≡ RankingRefusal.OutOfRange)) }
{
    // At once, since what is longer has a number that is none or stands twice.
    if list.len() > 16 {
        return Err(RankingRefusal::OutOfRange);
    }
    let mut options = Mask::none();
    for number in list {
        if *number >= 16 || options.has(*number as u8) {
            return Err(RankingRefusal::OutOfRange);
        }
        options = options.with(*number as u8);
    }
    Ok(options)
}

/// A row whose first entries are a list, with the options that the list lacks behind them, rising.
fn complete(mut row: [u8; 16], count: usize, options: Mask) -> [u8; 16]
    requires short { count ≤ 16 }
    requires list { is_list (take count row) ≡ true }
    requires all { (o : ℕ) → has options o ≡ stands o (take count row) }
    ensures { result ≡ filled (take count row) }
{
    let mut end = count;
    // No chain of the options that pass a filter: an empty list took half as long again to fill by one.
    for option in 0..16 {
        if !options.has(option) {
            row[end] = option;
            end += 1;
        }
    }
    row
}

/// A list whose options are known, filled up with those that it lacks, rising.
pub fn fill_up(list: &[u32], options: Mask) -> [u8; 16]
    requires list { is_list list.now ≡ true }
    requires all { (o : ℕ) → has options o ≡ stands o list.now }
    ensures row { result ≡ filled list.now }
    ensures whole { is_permutation result ≡ true }
{
    let mut row = [0; 16];
    for (place, option) in list.iter().enumerate() {
        row[place] = *option as u8;
    }
    complete(row, list.len(), options)
}

/// A list filled up with the options that it lacks, rising; refused if it has an option twice or a number that is no option.
pub fn fill(list: &[u32]) -> Result<[u8; 16], RankingRefusal>
    ensures taken { IfOk result (λ row. (is_list list.now ≡ true) × (row ≡ filled list.now)) }
    ensures whole { IfOk result (λ row. is_permutation row ≡ true) }
    ensures refused { IfErr result (λ refusal. (is_list list.now ≡ false) × (refusal ≡ RankingRefusal.OutOfRange)) }
{
    Ok(fill_up(list, options_of(list)?))
}

/// The place of each option in a whole list.
pub fn places_in(row: &[u8; 16]) -> [u8; 16]
    requires { is_permutation row.now ≡ true }
    ensures { are_places 16 result row.now ≡ true }
{
    let mut places = [0; 16];
    for (place, option) in row.iter().enumerate() {
        places[usize::from(*option)] = place as u8;
    }
    places
}
