// Options and rows as plain entries of a group, each with its places in a ranking.
ghost use Rattle.order.specs.Firsts.{before_by};
ghost use Rattle.order.specs.Orders.{InOrder, list_before};
ghost use Rattle.places.specs.Entries.{entry_before};
ghost use Rattle.places.specs.EntryOrders.{entry_one, row_one};
ghost use Rattle.std.specs.Prelude.{◌≡◌, true};

use order::Ordered;

/// An option and its place in a ranking: how many options go before it. The smaller place is less, and at one place the smaller number.
#[derive(Clone, Copy, Default, PartialEq, Eq, PartialOrd, Ord)]
pub struct RankedOption {
    pub place: u8,
    pub option: u8,
}

impl Ordered for RankedOption {
    ghost one = { entry_one };
}

/// The entries of a row, the most important line first, each with its place in a ranking. The first line on which two rows differ decides which is less.
#[derive(Clone, Copy, PartialEq, Eq, PartialOrd, Ord)]
pub struct RankedRow {
    // Sixteen whatever the row's length, as the format of rows has it: the lines that it does not have are open.
    pub entries: [RankedOption; 16],
}

impl Ordered for RankedRow {
    ghost one = { row_one };
}

/// Options and rows with their places are in strict total order: options by place and number, rows by the first line where they differ; answers true.
pub fn entries_are_in_order() -> bool
    ensures options { InOrder (before_by ⟦<RankedOption as Ord>⟧.cmp) }
    ensures by_place { (a b : RankedOption) → before_by ⟦<RankedOption as Ord>⟧.cmp a b ≡ entry_before a b }
    ensures rows { InOrder (before_by ⟦<RankedRow as Ord>⟧.cmp) }
    ensures by_line { (a b : RankedRow) → before_by ⟦<RankedRow as Ord>⟧.cmp a b ≡ list_before entry_before a.entries b.entries }
    ensures answer { result ≡ true }
{
    true
}
