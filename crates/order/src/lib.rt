// The first of a group of entries, for every kind of entry with a total order; which kinds and which lists are in strict order.
#![tactic(auto)]

ghost use Rattle.order.specs.Firsts.{FirstOf, before_by};
ghost use Rattle.order.specs.Orders.{InOrder, list_before};
ghost use Rattle.std.specs.Prelude.{◌≡◌, ◌≢◌, Bool, true, not};

/// A kind of entry of which any two different ones are in order.
pub trait Ordered: Ord {
    /// Of two different entries exactly one goes before the other.
    ghost one: { (a b : Self) → (a ≢ b) → before_by Self.cmp a b ≡ not (before_by Self.cmp b a) };
}

/// The index of the first of a group: of entries that are alike the one that stands earliest.
pub fn first_of<T: Ord>(group: &[T]) -> Option<usize>
    ensures { FirstOf (before_by T.cmp) group.now result }
{
    // The library's `min_by_key` does not promise the earliest of those alike.
    let (mut best, rest) = group.split_first()?;
    let mut first = 0;
    for (i, entry) in rest.iter().enumerate() {
        if entry < best {
            best = entry;
            first = i + 1;
        }
    }
    Some(first)
}

/// Where any two different entries of a kind are in order, the kind is in strict total order; answers true.
pub fn kind_is_in_order<T: Ordered>() -> bool
    ensures laws { InOrder (before_by T.cmp) }
    ensures answer { result ≡ true }
{
    true
}

/// Lists of entries in strict total order are in strict total order themselves, by the first place where they differ, whatever test is the order; answers true.
pub fn lists_are_in_order<T>() -> bool
    ensures lists { (before : T → T → Bool) → InOrder before → InOrder (list_before before) }
    ensures answer { result ≡ true }
{
    true
}

#[cfg(test)]
mod tests;
