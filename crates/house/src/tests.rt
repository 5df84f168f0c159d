// House rules at the edges of their figures and of what they judge.
ghost use Rattle.std.specs.Prelude.{◌≡◌};

use crate::HouseRule;
use crate::both::Both;
use crate::free::Free;
use crate::holds::Holds;
use crate::refusal::HouseRefusal;
use rows::OPEN;
use std::test::Fail;

/// The limit 10, and cards of 4, 6 and 7 holds.
fn ten() -> Result<Holds, HouseRefusal> {
    let mut table = Holds::new();
    table.set_limit(10)?;
    table.set_holds(0, 3, 4)?;
    table.set_holds(1, 5, 6)?;
    table.set_holds(1, 6, 7)?;
    Ok(table)
}

/// The letter of any kind, as generic code asks for it.
fn letter_of<R: HouseRule>() -> u8
    ensures { result ≡ R.LETTER }
{
    R::LETTER
}

#[test]
fn figures_at_their_edges(rt: HostRuntime) -> Result<(), Fail> {
    let mut table = Holds::new();
    table.set_holds(15, 15, 999)?;
    table.set_limit(0)?;
    table.set_limit(16000)?;
    let refused = Err(HouseRefusal::OutOfRange);
    assert_eq!(rt;
        [
            table.set_holds(16, 15, 1),
            table.set_holds(15, 16, 1),
            table.set_holds(15, 15, 1000),
            table.set_limit(16001),
        ],
        [refused, refused, refused, refused]
    );
    assert_eq!(rt;
        [
            table.holds(15, 15),
            table.holds(0, 0),
            table.holds(16, 15),
            table.holds(15, 16),
        ],
        [Some(999), Some(0), None, None]
    );
    assert!(rt; table.limit() == 16000 && u8::from(HouseRefusal::OutOfRange) == 23);
    Ok(())
}

#[test]
fn up_to_the_limit(rt: HostRuntime) -> Result<(), Fail> {
    let table = ten()?;
    assert!(rt; table.passes(2, &[3, 5]) && !table.passes(2, &[3, 6]));
    assert_eq!(rt;
        [
            u16::from(table.strikes(2, &[3, OPEN], 1)),
            table.strikes(2, &[OPEN, 6], 0).into(),
        ],
        [64, 8]
    );
    Ok(())
}

#[test]
fn only_what_can_be_judged(rt: HostRuntime) {
    let free = Free;
    assert_eq!(rt;
        [
            free.passes(16, &[15; 16]),
            free.passes(17, &[15; 17]),
            free.passes(1, &[16]),
            free.passes(0, &[]),
            free.passes(2, &[0]),
        ],
        [true, false, false, false, false]
    );
}

#[test]
fn only_open_lines(rt: HostRuntime) -> Result<(), Fail> {
    let mut table = ten()?;
    table.set_limit(0)?;
    assert_eq!(rt;
        [
            u16::from(table.strikes(2, &[3, OPEN], 0)),
            table.strikes(2, &[16, OPEN], 1).into(),
            table.strikes(17, &[OPEN; 17], 1).into(),
            table.strikes(0, &[], 0).into(),
            table.strikes(3, &[3, OPEN], 1).into(),
            table.strikes(2, &[3, OPEN], 2).into(),
        ],
        [0; 6]
    );
    Ok(())
}

#[test]
fn rules_together(rt: HostRuntime) -> Result<(), Fail> {
    let mut strict = ten()?;
    strict.set_limit(9)?;
    let rule = Both {
        first: Both {
            first: ten()?,
            second: strict,
        },
        second: Free,
    };
    assert!(rt; rule.passes(2, &[3, 4]) && !rule.passes(2, &[3, 5]));
    assert_eq!(rt;
        [
            u16::from(rule.strikes(2, &[3, OPEN], 1)),
            rule.strikes(2, &[3, 5], 1).into(),
        ],
        [96, 0]
    );
    assert_eq!(rt;
        [
            Free::LETTER,
            letter_of::<Holds>(),
            letter_of::<Both<Free, Holds>>(),
            Both::<Free, Holds>::LETTER,
        ],
        [b'F', b'H', b'B', b'B']
    );
    Ok(())
}
