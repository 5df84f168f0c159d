// The first of small groups of figures, the smaller figure first.
ghost use Rattle.std.proofs.Common.{rules};

use crate::{Ordered, first_of, kind_is_in_order, lists_are_in_order};

/// An entry whose place is its figure.
#[derive(Clone, Copy, PartialEq, Eq, PartialOrd, Ord)]
struct Figure {
    figure: u8,
}

impl Ordered for Figure {
    ghost one = { Prim.search rules };
}

fn entry(figure: u8) -> Figure {
    Figure { figure }
}

#[test]
fn none_of_no_entries(rt: HostRuntime) {
    let none: [Figure; 0] = [];
    assert_eq!(rt; first_of(&none), None);
}

#[test]
fn the_best_wherever_it_stands(rt: HostRuntime) {
    assert_eq!(rt;
        [
            first_of(&[entry(7)]),
            first_of(&[entry(7), entry(2), entry(9)]),
            first_of(&[entry(7), entry(9), entry(2)]),
        ],
        [Some(0), Some(1), Some(2)]
    );
}

#[test]
fn the_earliest_of_those_alike(rt: HostRuntime) {
    assert_eq!(rt;
        [
            first_of(&[entry(4), entry(2), entry(2)]),
            first_of(&[entry(4), entry(4)]),
        ],
        [Some(1), Some(0)]
    );
}

#[test]
fn a_kind_of_entry_is_in_order(rt: HostRuntime) {
    assert!(rt; kind_is_in_order::<Figure>());
}

#[test]
fn lists_of_ordered_entries_are_in_order(rt: HostRuntime) {
    assert!(rt; lists_are_in_order::<u8>());
    assert!(rt; lists_are_in_order::<Figure>());
}
