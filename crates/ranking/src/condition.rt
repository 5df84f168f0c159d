// What a line's list may depend on.
ghost use Rattle.std.specs.Prelude.{◌≡◌, ◌<◌, true, false, MatchResult};
ghost use Rattle.ranking.specs.Conditions.{is_condition, is_above, agrees_with, parent_of, option_in, option_under};
ghost use Rattle.ranking.specs.declared.refusal.RankingRefusal.TheVariants.{OutOfRange};

use crate::refusal::RankingRefusal;

/// A parent line with one of its options: numbers of any size, as a person gives them.
#[derive(Clone, Copy)]
pub struct Condition {
    pub parent: u32,
    pub option: u32,
}

/// What the first list of a line settles: whether the line has a parent, and which.
#[derive(Clone, Copy, PartialEq, Eq)]
pub enum Parent {
    /// No list was given yet.
    Unsettled,
    /// One list serves, whatever stands above.
    Alone,
    /// There is a list for each option of this line.
    Line(u8),
}

/// What a list settles for its line, and the parent option under which it holds.
#[derive(Clone, Copy)]
pub(crate) struct Settled {
    pub(crate) parent: Parent,
    pub(crate) option: u8,
    ghost in_range: { option < 16 },
}

/// Whether the parent that a condition names is above a line.
pub(crate) fn is_above(condition: Option<Condition>, line: u32) -> bool
    ensures { result ≡ is_above condition line }
{
    condition.is_none_or(|c| c.parent < line)
}

impl Parent {
    /// Whether a line that has this parent may be given a list that settles another.
    pub(crate) fn allows(self, other: Parent) -> bool
        ensures { (condition : _) → other ≡ parent_of condition → result ≡ agrees_with self condition }
    {
        self == Parent::Unsettled || self == other
    }

    /// The parent option that stands above a line.
    pub(crate) fn option_under(self, above: &[u8]) -> usize
        ensures { result ≡ option_under self above.now }
    {
        match self {
            Parent::Line(p) => above
                .get(usize::from(p))
                .map_or(0, |option| usize::from(*option)),
            Parent::Unsettled | Parent::Alone => 0,
        }
    }
}

impl TryFrom<Option<Condition>> for Settled {
    type Error = RankingRefusal;

    ghost try_from_gives = { λ condition result.
        MatchResult result
        (λ settled. (is_condition condition ≡ true) × (settled.parent ≡ parent_of condition) × (settled.option ≡ option_in condition))
        (λ refusal. (is_condition condition ≡ false) × (refusal ≡ OutOfRange)) };

    fn try_from(condition: Option<Condition>) -> Result<Settled, RankingRefusal> {
        match condition {
            None => Ok(Settled {
                parent: Parent::Alone,
                option: 0,
            }),
            Some(c) if c.parent < 16 && c.option < 16 => Ok(Settled {
                parent: Parent::Line(c.parent as u8),
                option: c.option as u8,
            }),
            Some(_) => Err(RankingRefusal::OutOfRange),
        }
    }
}
