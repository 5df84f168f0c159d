// The forward check on a wall of three lines.
use crate::{Choice, Level, Rulebook};
use house::free::Free;
use masks::Mask;
use network::Network;
use wall::rule::PairRule;
use wall::wall::Wall;

#[test]
fn a_choice_shrinks_the_lines_it_is_joined_to(rt: HostRuntime) {
    let mut wall = Wall::blank();
    assert_eq!(rt;
        [wall.add_line(3), wall.add_line(2), wall.add_line(2)],
        [Ok(0), Ok(1), Ok(2)]
    );
    let mut table = [Mask::none(); 16];
    table[0] = Mask::only(1);
    assert_eq!(rt;
        wall.put_rule(
            1,
            PairRule {
                first: 0,
                second: 2,
                table,
            },
        ),
        Ok(())
    );
    let rules = Rulebook {
        lines: 3,
        net: &Network::of(&wall),
        house: &Free,
    };
    let mut level = Level {
        masks: [Mask::first(2); 16],
        causes: [Mask::none(); 16],
    };
    let mut row = [255; 16];
    row[0] = 0;
    assert_eq!(rt;
        rules.check_forward(&row, Choice { line: 0, option: 0 }, &mut level),
        Ok(())
    );
    assert_eq!(rt;
        [
            u16::from(level.masks[1]),
            level.masks[2].into(),
            level.causes[1].into(),
            level.causes[2].into(),
        ],
        [3, 2, 0, 1]
    );
    row[0] = 1;
    assert_eq!(rt;
        rules.check_forward(&row, Choice { line: 0, option: 1 }, &mut level),
        Err(2)
    );
    assert_eq!(rt;
        rules.check_forward(&row, Choice { line: 0, option: 0 }, &mut level),
        Ok(())
    );
}
