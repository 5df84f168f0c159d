// A rule followed both ways, and a set of ways taken apart.
use crate::Network;
use crate::ways::WaySet;
use masks::Mask;
use wall::rule::PairRule;
use wall::wall::Wall;

#[test]
fn a_rule_leads_there_and_back(rt: HostRuntime) {
    let mut wall = Wall::blank();
    assert_eq!(rt; [wall.add_line(3), wall.add_line(2)], [Ok(0), Ok(1)]);
    let mut table = [Mask::none(); 16];
    table[0] = Mask::only(0);
    table[1] = Mask::first(2);
    table[2] = Mask::only(1);
    assert_eq!(rt;
        wall.put_rule(
            3,
            PairRule {
                first: 0,
                second: 1,
                table,
            },
        ),
        Ok(())
    );
    let net = Network::of(&wall);
    assert_eq!(rt;
        [
            u16::from(net.left(2, 0)),
            net.left(2, 1).into(),
            net.left(26, 0).into(),
            net.left(26, 1).into(),
            net.left(48, 0).into(),
        ],
        [1, 3, 3, 6, 0]
    );
    let mut back = net.between(1, 0).into_iter();
    assert_eq!(rt;
        [back.next(), back.next(), back.next()],
        [Some(26), None, None]
    );
}

#[test]
fn the_smallest_way_comes_off(rt: HostRuntime) {
    let ways = WaySet::none().with(30).with(47).with(7);
    assert_eq!(rt;
        ways.split().map(|(way, rest)| {
            let mut others = rest.into_iter();
            (way, [others.next(), others.next(), others.next()])
        }),
        Some((7, [Some(30), Some(47), None]))
    );
    assert!(rt; WaySet::none().split().is_none());
}
