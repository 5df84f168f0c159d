// Lists filled up, refused and conditional.
use crate::Ranking;
use crate::condition::Condition;
use crate::conditional::ConditionalRanking;
use crate::list::ListRanking;
use crate::refusal::RankingRefusal;

const RISING: [u8; 16] = [0, 1, 2, 3, 4, 5, 6, 7, 8, 9, 10, 11, 12, 13, 14, 15];

#[test]
fn a_short_list_is_filled_up(rt: HostRuntime) {
    let mut ranking = ListRanking::new();
    assert_eq!(rt; ranking.list(0), Some(RISING));
    assert_eq!(rt; ranking.set_list(15, &[3, 15]), Ok(()));
    assert_eq!(rt;
        ranking.list(15),
        Some([3, 15, 0, 1, 2, 4, 5, 6, 7, 8, 9, 10, 11, 12, 13, 14])
    );
    assert_eq!(rt; ranking.set_list(15, &[]), Ok(()));
    assert_eq!(rt; ranking.list(15), Some(RISING));
    assert_eq!(rt; ranking.list(16), None);
}

#[test]
fn a_bad_list_changes_nothing(rt: HostRuntime) {
    let mut ranking = ListRanking::new();
    assert_eq!(rt; ranking.set_list(2, &[1]), Ok(()));
    assert_eq!(rt; ranking.set_list(16, &[1]), Err(RankingRefusal::OutOfRange));
    assert_eq!(rt;
        ranking.set_list(2, &[0, 16]),
        Err(RankingRefusal::OutOfRange)
    );
    assert_eq!(rt;
        ranking.set_list(2, &[4, 2, 4]),
        Err(RankingRefusal::OutOfRange)
    );
    assert_eq!(rt;
        ranking.list(2),
        Some([1, 0, 2, 3, 4, 5, 6, 7, 8, 9, 10, 11, 12, 13, 14, 15])
    );
    assert_eq!(rt;
        [
            u8::from(RankingRefusal::OutOfRange),
            u8::from(RankingRefusal::OtherParent),
        ],
        [20, 21]
    );
}

#[test]
fn the_question_has_a_domain(rt: HostRuntime) {
    let mut ranking = ListRanking::new();
    assert_eq!(rt; ranking.set_list(1, &[1]), Ok(()));
    assert_eq!(rt;
        [
            ranking.goes_before(1, &[15], 1, 0),
            ranking.goes_before(1, &[15], 0, 1),
        ],
        [true, false]
    );
    assert_eq!(rt;
        [
            ranking.goes_before(1, &[16], 1, 0),
            ranking.goes_before(1, &[], 1, 0),
            ranking.goes_before(1, &[15], 1, 16),
        ],
        [false, false, false]
    );
    assert_eq!(rt;
        [ListRanking::LETTER, ConditionalRanking::LETTER],
        [b'L', b'C']
    );
}

#[test]
fn the_parent_decides(rt: HostRuntime) {
    let mut ranking = ConditionalRanking::new();
    assert_eq!(rt;
        ranking.set_list(
            1,
            Some(Condition {
                parent: 0,
                option: 0,
            }),
            &[1],
        ),
        Ok(())
    );
    assert_eq!(rt;
        ranking.set_list(
            1,
            Some(Condition {
                parent: 0,
                option: 1,
            }),
            &[0],
        ),
        Ok(())
    );
    assert_eq!(rt;
        [
            ranking.goes_before(1, &[0], 1, 0),
            ranking.goes_before(1, &[1], 1, 0),
            ranking.goes_before(1, &[2], 1, 0),
        ],
        [true, false, false]
    );
}

#[test]
fn the_places_of_a_line(rt: HostRuntime) {
    let liked = [1, 0, 2, 3, 4, 5, 6, 7, 8, 9, 10, 11, 12, 13, 14, 15];
    let mut ranking = ConditionalRanking::new();
    let zero = Condition {
        parent: 0,
        option: 0,
    };
    assert_eq!(rt; ranking.set_list(1, Some(zero), &[1]), Ok(()));
    assert_eq!(rt; ranking.places(1, &[0]), liked);
    assert_eq!(rt; ranking.places(1, &[2]), RISING);
    assert_eq!(rt; ranking.places(1, &[]), [0; 16]);
    let mut lists = ListRanking::new();
    assert_eq!(rt; lists.set_list(1, &[1]), Ok(()));
    assert_eq!(rt; lists.places(1, &[2]), liked);
    assert_eq!(rt; lists.places(16, &[0; 16]), [0; 16]);
}

#[test]
fn the_first_list_settles_the_parent(rt: HostRuntime) {
    let mut ranking = ConditionalRanking::new();
    let itself = Some(Condition {
        parent: 3,
        option: 0,
    });
    let above = Some(Condition {
        parent: 2,
        option: 0,
    });
    assert_eq!(rt;
        ranking.set_list(3, itself, &[1]),
        Err(RankingRefusal::OtherParent)
    );
    assert_eq!(rt;
        ranking.set_list(3, itself, &[1, 1]),
        Err(RankingRefusal::OutOfRange)
    );
    assert_eq!(rt; ranking.set_list(3, above, &[1]), Ok(()));
    assert_eq!(rt;
        ranking.set_list(3, None, &[1]),
        Err(RankingRefusal::OtherParent)
    );
    assert_eq!(rt;
        ranking.set_list(
            3,
            Some(Condition {
                parent: 1,
                option: 0,
            }),
            &[1],
        ),
        Err(RankingRefusal::OtherParent)
    );
    assert_eq!(rt;
        ranking.set_list(
            3,
            Some(Condition {
                parent: 2,
                option: 16,
            }),
            &[1],
        ),
        Err(RankingRefusal::OutOfRange)
    );
}
