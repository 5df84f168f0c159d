// Why a change of a wall is refused.
ghost use Rattle.std.specs.Prelude.{◌≡◌};
ghost use Rattle.wall.specs.Refusals.{number_of};

/// What a wall answers to a change that it does not take: of all that applies, what has the smallest number.
#[derive(Clone, Copy, PartialEq, Eq, Debug)]
pub enum WallRefusal {
    /// There is no such line.
    NoSuchLine,
    /// A line has 1 to 16 options.
    OptionCount,
    /// A pair rule has a number from 1 to 24.
    RuleNumber,
    /// Both ends of the rule are on one line.
    OneLine,
    /// The wall has sixteen lines.
    TooManyLines,
}

/// The number of a refusal.
impl From<WallRefusal> for u8 {
    ghost from_gives = { λ refusal number. number ≡ number_of refusal };

    fn from(refusal: WallRefusal) -> u8 {
        match refusal {
            WallRefusal::NoSuchLine => 1,
            WallRefusal::OptionCount => 3,
            WallRefusal::RuleNumber => 4,
            WallRefusal::OneLine => 5,
            WallRefusal::TooManyLines => 10,
        }
    }
}
