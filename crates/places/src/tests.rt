// Places, best options and rows in order.
use crate::entries::{RankedOption, RankedRow, entries_are_in_order};
use crate::{best_option, first_by_places, place_of, ranked_row, row_goes_before};
use masks::Mask;
use order::kind_is_in_order;
use ranking::condition::Condition;
use ranking::conditional::ConditionalRanking;
use ranking::list::ListRanking;

#[test]
fn the_best_of_a_set(rt: HostRuntime) {
    let mut ranking = ListRanking::new();
    assert_eq!(rt; ranking.set_list(1, &[5, 2]), Ok(()));
    assert_eq!(rt;
        [
            place_of(&ranking, 1, &[0], 5),
            place_of(&ranking, 1, &[0], 2),
            place_of(&ranking, 1, &[0], 0),
            place_of(&ranking, 1, &[0], 15),
        ],
        [0, 1, 2, 15]
    );
    assert_eq!(rt; best_option(&ranking, 1, &[0], Mask::first(3)), Some(2));
    assert_eq!(rt; best_option(&ranking, 1, &[0], Mask::none()), None);
    assert_eq!(rt; best_option(&ranking, 1, &[16], Mask::first(3)), None);
}

#[test]
fn the_least_figure_of_a_set(rt: HostRuntime) {
    let figures = [9, 4, 7, 4, 2, 0, 0, 0, 0, 0, 0, 0, 0, 0, 0, 0];
    assert_eq!(rt; first_by_places(&figures, Mask::first(5)), Some(4));
    assert_eq!(rt; first_by_places(&figures, Mask::first(4)), Some(1));
    assert_eq!(rt; first_by_places(&figures, Mask::first(16)), Some(5));
    assert_eq!(rt; first_by_places(&figures, Mask::none()), None);
}

#[test]
fn the_parent_orders_the_rows(rt: HostRuntime) {
    let mut ranking = ConditionalRanking::new();
    assert_eq!(rt;
        ranking.set_list(
            1,
            Some(Condition {
                parent: 0,
                option: 0,
            }),
            &[1],
        ),
        Ok(())
    );
    assert!(rt; row_goes_before(&ranking, &[0, 1], &[0, 0]));
    assert!(rt; row_goes_before(&ranking, &[0, 0], &[1, 0]));
    assert!(rt; row_goes_before(&ranking, &[1, 0], &[1, 1]));
    assert_eq!(rt;
        [
            row_goes_before(&ranking, &[0, 0], &[0, 1]),
            row_goes_before(&ranking, &[1, 0], &[1, 0]),
            row_goes_before(&ranking, &[0, 1], &[0]),
        ],
        [false, false, false]
    );
}

#[test]
fn the_place_orders_the_entries(rt: HostRuntime) {
    assert!(rt; entries_are_in_order());
    let ahead = RankedOption {
        place: 1,
        option: 9,
    };
    let behind = RankedOption {
        place: 2,
        option: 0,
    };
    assert!(rt; ahead < behind);
    assert!(rt;
        ahead
            < RankedOption {
                option: 10,
                ..ahead
            }
    );
    let ranking = ListRanking::new();
    assert!(rt; ranked_row(&ranking, &[0, 5]) < ranked_row(&ranking, &[1, 0]));
    assert!(rt; ranked_row(&ranking, &[0, 5]) < ranked_row(&ranking, &[0, 6]));
    assert!(rt; ranked_row(&ranking, &[16]).is_none());
}

#[test]
fn both_kinds_are_in_order(rt: HostRuntime) {
    assert!(rt; kind_is_in_order::<RankedOption>());
    assert!(rt; kind_is_in_order::<RankedRow>());
}
