// Ranking lists, each with all sixteen options.
ghost use Rattle.std.specs.Prelude.{◌≡◌, ℕ, ◌<◌, true, false, [], MatchOption, nat_lt, slice_index_or, slice_set};
ghost use Rattle.ranking.specs.Lists.{is_permutation, filled, place_in, are_places};

use crate::fill::places_in;

/// N ranking lists: each row has all sixteen options, the best first, and beside it the place of each option in it.
// Two arrays side by side, of bare rows: every ranking list is a plain row of sixteen options in its own array.
#[derive(Clone, Copy)]
pub struct Lists<const N: usize> {
    rows: [[u8; 16]; N],
    places: [[u8; 16]; N],
    ghost whole: { (k : ℕ) → k < N → is_permutation (slice_index_or rows k []) ≡ true },
    ghost placed: { (k : ℕ) → k < N → are_places 16 (slice_index_or places k []) (slice_index_or rows k []) ≡ true },
}

// The number of a list is the crate's own, so these methods ask that it is one of N.
impl<const N: usize> Lists<N> {
    /// Every list rises from option 0 to option 15.
    pub fn rising() -> Lists<N>
        ensures { (k : ℕ) → k < N → slice_index_or result.rows k [] ≡ filled [] }
    {
        let row = [0, 1, 2, 3, 4, 5, 6, 7, 8, 9, 10, 11, 12, 13, 14, 15];
        Lists {
            rows: [row; N],
            places: [row; N],
        }
    }

    /// A whole list; none of what is no list's number.
    pub fn row(&self, k: usize) -> Option<[u8; 16]>
        ensures { MatchOption result (nat_lt k N ≡ false) (λ row. (nat_lt k N ≡ true) × (row ≡ slice_index_or self.now.rows k [])) }
    {
        self.rows.get(k).copied()
    }

    /// The place of each option in a list.
    pub fn places_of(&self, k: usize) -> [u8; 16]
        requires { k < N }
        ensures { are_places 16 result (slice_index_or self.now.rows k []) ≡ true }
    {
        self.places[k]
    }

    /// Whether option a stands before option b in a list.
    #[tactic(auto, using(crate::specs::Permutations::places_at))]
    pub fn stands_before(&self, k: usize, a: u8, b: u8) -> bool
        requires within { k < N }
        requires first { a < 16 }
        requires second { b < 16 }
        ensures { result ≡ nat_lt (place_in a (slice_index_or self.now.rows k [])) (place_in b (slice_index_or self.now.rows k [])) }
    {
        self.places[k][usize::from(a)] < self.places[k][usize::from(b)]
    }

    /// Writes a whole list in the place of another.
    pub fn replace(&mut self, k: usize, row: [u8; 16])
        requires within { k < N }
        requires whole { is_permutation row ≡ true }
        ensures { self.new.rows ≡ slice_set self.old.rows k row }
    {
        self.rows[k] = row;
        self.places[k] = places_in(&row);
    }
}
