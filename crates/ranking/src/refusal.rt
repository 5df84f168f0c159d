// Why a ranking refuses a list.
ghost use Rattle.ranking.specs.Refusals.{number_of};
ghost use Rattle.std.specs.Prelude.{◌≡◌};

/// What a ranking answers to a list that it does not take.
#[derive(Clone, Copy, PartialEq, Eq, Debug)]
pub enum RankingRefusal {
    /// A line or an option above 15, or an option twice.
    OutOfRange,
    /// A parent line that is not above its line, or not as in the line's first list.
    OtherParent,
}

/// The number of the refusal.
impl From<RankingRefusal> for u8 {
    ghost from_gives = { λ refusal number. number ≡ number_of refusal };

    fn from(refusal: RankingRefusal) -> u8 {
        match refusal {
            RankingRefusal::OutOfRange => 20,
            RankingRefusal::OtherParent => 21,
        }
    }
}
