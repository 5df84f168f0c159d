// Why a house rule's table refuses a figure.
ghost use Rattle.house.specs.Refusals.{number_of};
ghost use Rattle.std.specs.Prelude.{◌≡◌};

/// What a house rule's table answers to a figure that it does not take.
#[derive(Clone, Copy, PartialEq, Eq, Debug)]
pub enum HouseRefusal {
    /// A line or an option above 15, or a figure over its limit.
    OutOfRange,
}

/// The number of a refusal.
impl From<HouseRefusal> for u8 {
    ghost from_gives = { λ refusal number. number ≡ number_of refusal };

    fn from(refusal: HouseRefusal) -> u8 {
        match refusal {
            HouseRefusal::OutOfRange => 23,
        }
    }
}
