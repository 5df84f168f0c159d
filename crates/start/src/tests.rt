// What a search of a small wall begins with.
use crate::free_options;
use crate::problem::Problem;
use masks::Mask;
use wall::bars::Bars;
use wall::rule::PairRule;
use wall::wall::Wall;

#[test]
fn a_wall_with_a_bar_and_a_rule(rt: HostRuntime) {
    let mut wall = Wall::blank();
    assert_eq!(rt; [wall.add_line(3), wall.add_line(2)], [Ok(0), Ok(1)]);
    let rule = PairRule {
        first: 0,
        second: 1,
        table: [Mask::only(1); 16],
    };
    assert_eq!(rt; wall.put_rule(24, rule), Ok(()));
    let mut bars = Bars::none();
    bars.bar(0, 1);
    let free = free_options(&wall, &bars);
    assert_eq!(rt;
        [u16::from(free[0]), u16::from(free[1]), u16::from(free[2])],
        [5, 3, 0]
    );
    let problem = Problem::of(&wall, &bars);
    assert_eq!(rt; problem.lines, 2);
    assert_eq!(rt;
        [
            u16::from(problem.free[0]),
            u16::from(problem.net.left(23, 2)),
            u16::from(problem.net.left(47, 1)),
        ],
        [5, 2, 65535]
    );
}
