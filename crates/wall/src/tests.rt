// Walls at the edges of their numbers.
use crate::bars::Bars;
use crate::refusal::WallRefusal;
use crate::rule::PairRule;
use crate::wall::Wall;
use crate::{best_is_unique, places_are_unique, rows_are_in_order};
use masks::Mask;

#[test]
fn sixteen_lines_of_sixteen_options(rt: HostRuntime) {
    let mut wall = Wall::blank();
    assert_eq!(rt;
        [wall.add_line(0), wall.add_line(17)],
        [Err(WallRefusal::OptionCount); 2]
    );
    for line in 0..16 {
        assert_eq!(rt; wall.add_line(16), Ok(line));
    }
    assert_eq!(rt; wall.add_line(1), Err(WallRefusal::TooManyLines));
    assert_eq!(rt; wall.lines(), 16);
    assert_eq!(rt; [wall.count(15), wall.count(16)], [Some(16), None]);
}

#[test]
fn rules_join_two_lines(rt: HostRuntime) {
    let mut wall = Wall::blank();
    assert_eq!(rt; [wall.add_line(3), wall.add_line(2)], [Ok(0), Ok(1)]);
    let table = [Mask::first(2); 16];
    let rule = PairRule {
        first: 0,
        second: 1,
        table,
    };
    assert_eq!(rt;
        [
            wall.put_rule(0, rule),
            wall.put_rule(25, rule),
            wall.put_rule(24, rule),
        ],
        [
            Err(WallRefusal::RuleNumber),
            Err(WallRefusal::RuleNumber),
            Ok(())
        ]
    );
    assert_eq!(rt;
        wall.put_rule(
            1,
            PairRule {
                first: 1,
                second: 1,
                table,
            },
        ),
        Err(WallRefusal::OneLine)
    );
    assert_eq!(rt;
        wall.put_rule(
            1,
            PairRule {
                first: 0,
                second: 2,
                table,
            },
        ),
        Err(WallRefusal::NoSuchLine)
    );
    assert_eq!(rt;
        [wall.rule(24).is_some(), wall.rule(1).is_some()],
        [true, false]
    );
    assert_eq!(rt; wall.take_rule(24), Ok(()));
    assert_eq!(rt; wall.rule(24).is_some(), false);
    assert_eq!(rt; wall.take_rule(25), Err(WallRefusal::RuleNumber));
}

/// A refusal of a smaller number goes before one of a larger.
#[test]
fn the_smallest_refusal_answers(rt: HostRuntime) {
    let mut wall = Wall::blank();
    let rule = PairRule {
        first: 0,
        second: 0,
        table: [Mask::none(); 16],
    };
    assert_eq!(rt; wall.put_rule(0, rule), Err(WallRefusal::NoSuchLine));
    assert_eq!(rt; wall.add_line(1), Ok(0));
    assert_eq!(rt; wall.put_rule(0, rule), Err(WallRefusal::RuleNumber));
    assert_eq!(rt; wall.put_rule(1, rule), Err(WallRefusal::OneLine));
    for line in 1..16 {
        assert_eq!(rt; wall.add_line(1), Ok(line));
    }
    assert_eq!(rt; wall.add_line(17), Err(WallRefusal::OptionCount));
}

#[test]
fn numbers_of_refusals(rt: HostRuntime) {
    assert_eq!(rt;
        [
            u8::from(WallRefusal::NoSuchLine),
            u8::from(WallRefusal::OptionCount),
            u8::from(WallRefusal::RuleNumber),
            u8::from(WallRefusal::OneLine),
            u8::from(WallRefusal::TooManyLines),
        ],
        [1, 3, 4, 5, 10]
    );
}

#[test]
fn rules_by_their_numbers(rt: HostRuntime) {
    let mut wall = Wall::blank();
    assert_eq!(rt; [wall.add_line(3), wall.add_line(2)], [Ok(0), Ok(1)]);
    let rule = PairRule {
        first: 1,
        second: 0,
        table: [Mask::none(); 16],
    };
    assert_eq!(rt; wall.put_rule(3, rule), Ok(()));
    let rules = wall.rules();
    assert_eq!(rt;
        [rules[1].is_some(), rules[2].is_some(), rules[3].is_some()],
        [false, true, false]
    );
}

#[test]
fn bars_come_and_go(rt: HostRuntime) {
    let mut bars = Bars::none();
    bars.bar(2, 15);
    bars.bar(16, 1);
    bars.bar(2, 16);
    assert_eq!(rt;
        [
            bars.is_barred(2, 15),
            bars.is_barred(3, 15),
            bars.is_barred(16, 1),
            bars.is_barred(2, 16),
        ],
        [true, false, false, false]
    );
    bars.clear(2, 15);
    assert_eq!(rt; bars.is_barred(2, 15), false);
}

#[test]
fn theorems_hold(rt: HostRuntime) {
    assert_eq!(rt;
        [rows_are_in_order(), best_is_unique(), places_are_unique()],
        [true; 3]
    );
}
