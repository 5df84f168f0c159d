// Rows at the edges of what an entry may be.
use crate::{OPEN, is_partial, is_row};

#[test]
fn entries_of_a_row(rt: HostRuntime) {
    assert_eq!(rt;
        [
            is_row(2, &[0, 15]),
            is_row(2, &[0, 16]),
            is_row(2, &[0, OPEN]),
            is_row(0, &[]),
        ],
        [true, false, false, true]
    );
}

#[test]
fn entries_of_a_partial_row(rt: HostRuntime) {
    assert_eq!(rt;
        [
            is_partial(2, &[15, OPEN]),
            is_partial(2, &[0, 16]),
            is_partial(2, &[0, 254]),
        ],
        [true, false, false]
    );
}

#[test]
fn as_many_entries_as_lines(rt: HostRuntime) {
    assert_eq!(rt;
        [
            is_row(1, &[0, 15]),
            is_row(3, &[0, 15]),
            is_partial(1, &[0, OPEN]),
            is_partial(3, &[0, OPEN]),
        ],
        [false; 4]
    );
}
