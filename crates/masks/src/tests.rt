// Sets at the edges of the sixteen options.
use crate::Mask;

#[test]
fn options_go_in_and_out(rt: HostRuntime) {
    let edges = Mask::only(0).with(15).with(16);
    assert_eq!(rt;
        [edges.has(0), edges.has(1), edges.has(15), edges.has(16)],
        [true, false, true, false]
    );
    assert_eq!(rt;
        [
            u16::from(edges),
            edges.without(15).into(),
            edges.without(16).into(),
            Mask::only(16).into(),
        ],
        [32769, 1, 32769, 0]
    );
}

#[test]
fn the_first_options(rt: HostRuntime) {
    assert_eq!(rt;
        [
            u16::from(Mask::first(0)),
            Mask::first(1).into(),
            Mask::first(15).into(),
            Mask::first(16).into(),
            Mask::first(17).into(),
        ],
        [0, 1, 32767, 65535, 65535]
    );
}

#[test]
fn sets_together(rt: HostRuntime) {
    let low = Mask::first(3);
    let odd = Mask::from(43690);
    assert_eq!(rt;
        [
            u16::from(low.both(odd)),
            low.either(odd).into(),
            low.minus(odd).into(),
        ],
        [2, 43695, 5]
    );
}

#[test]
fn the_options_that_pass(rt: HostRuntime) {
    let odd = Mask::matching(|option| option % 2 == 1);
    let edges = Mask::matching(|option| option == 0 || option >= 15);
    assert_eq!(rt; [u16::from(odd), edges.into()], [43690, 32769]);
}

#[test]
fn least_and_count(rt: HostRuntime) {
    assert_eq!(rt;
        [
            Mask::none().least(),
            Mask::first(16).least(),
            Mask::only(15).least(),
        ],
        [None, Some(0), Some(15)]
    );
    assert_eq!(rt;
        [
            Mask::none().count(),
            Mask::only(15).count(),
            Mask::first(16).count(),
        ],
        [0, 1, 16]
    );
}

/// A set split in its least option and the rest, which is written as a figure.
fn split(set: Mask) -> Option<(u8, u16)> {
    let (least, rest) = set.split_least()?;
    Some((least, rest.into()))
}

#[test]
fn the_least_split_off(rt: HostRuntime) {
    assert_eq!(rt;
        [
            split(Mask::none()),
            split(Mask::only(15)),
            split(Mask::from(32776)),
            split(Mask::first(16)),
        ],
        [None, Some((15, 0)), Some((3, 32768)), Some((0, 65534))]
    );
}

#[test]
fn the_theorem_holds(rt: HostRuntime) {
    assert!(rt; Mask::sets_by_members());
}
