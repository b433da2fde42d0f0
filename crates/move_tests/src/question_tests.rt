//! The questions of a move, in their order, with their numbers.
use crate::tables::{
    ANY, DROP, EXECUTE, FETCH, HALT, INSERT, LOWER, Line, RAISE, READ, RETIRE, TOP, shows,
};
use crate::told::{KILLED, LIVE, News, Work};
use std::test::Fail;

const KINDS_AND_PLACES: [Line; 26] = [
    Line::Refused(0, 0, 31),
    Line::Refused(9, 0, 31),
    Line::Refused(255, 255, 31),
    Line::Fetches(Some(0)),
    Line::Refused(FETCH, 1, 32),
    Line::Refused(FETCH, 255, 32),
    Line::Refused(RAISE, 1, 32),
    Line::Refused(RAISE, 255, 32),
    Line::Refused(LOWER, 0, 32),
    Line::Refused(LOWER, 2, 32),
    Line::Refused(EXECUTE, 2, 32),
    Line::Refused(INSERT, 2, 32),
    Line::Refused(READ, 16, 32),
    Line::Refused(READ, 255, 32),
    Line::Refused(RETIRE, 1, 32),
    Line::Refused(DROP, 1, 32),
    Line::Fetches(Some(0)),
    Line::Refused(RAISE, 0, 33),
    Line::Refused(LOWER, 1, 33),
    Line::Refused(EXECUTE, 0, 33),
    Line::Refused(EXECUTE, 1, 33),
    Line::Refused(INSERT, 0, 33),
    Line::Refused(INSERT, 1, 33),
    Line::Refused(RETIRE, 0, 33),
    Line::Refused(DROP, 0, 33),
    Line::Fetches(Some(0)),
];

/// Kinds that are none, and places that are wrong for two stages, whatever stands there; then moves
/// that find nothing.
#[test]
fn kinds_and_places(rt: HostRuntime) -> Result<(), Fail> {
    shows(
        &rt,
        rt.alloc(),
        (0, &[HALT]),
        &[ANY, TOP],
        &KINDS_AND_PLACES,
    )
}

const CLOSED_FETCH: [Line; 31] = [
    Line::Made(FETCH, 0),
    Line::Made(RAISE, 0),
    Line::Made(FETCH, 0),
    Line::Refused(FETCH, 0, 34),
    Line::Holds(
        0,
        Some((5, LIVE, Work::Owes(News::Trap(1)), [None, None])),
        None,
    ),
    Line::Holds(1, Some((0, LIVE, Work::Done, [None, None])), None),
    Line::Fetches(None),
    Line::Refused(RAISE, 0, 35),
    Line::Made(RAISE, 1),
    Line::Made(RAISE, 0),
    Line::Refused(FETCH, 0, 34),
    Line::Retired(0, 0, 0, 0),
    Line::Made(RAISE, 1),
    Line::Refused(RETIRE, 0, 36),
    Line::Made(INSERT, 2),
    Line::Retired(5, 3, 15, 196613),
    Line::Made(LOWER, 2),
    Line::Made(LOWER, 1),
    Line::Refused(FETCH, 0, 34),
    Line::Holds(0, None, Some(News::Trap(1))),
    Line::Holds(1, None, None),
    Line::Made(DROP, 0),
    Line::Made(FETCH, 0),
    Line::Refused(FETCH, 0, 34),
    Line::Made(RAISE, 0),
    Line::Refused(FETCH, 0, 34),
    Line::Made(RAISE, 1),
    Line::Refused(EXECUTE, 2, 36),
    Line::Refused(INSERT, 2, 36),
    Line::Holds(0, None, None),
    Line::Holds(2, Some((1, LIVE, Work::Done, [None, None])), None),
];

/// A place past the end closes fetch, its trap opens it at the handler, and a halt closes it again.
#[test]
fn closed_fetch(rt: HostRuntime) -> Result<(), Fail> {
    shows(
        &rt,
        rt.alloc(),
        (1, &[(1, 0, 0, 0, 5), HALT]),
        &[ANY, ANY, TOP],
        &CLOSED_FETCH,
    )
}

const FULL_SLOTS: [Line; 25] = [
    Line::Made(FETCH, 0),
    Line::Refused(FETCH, 0, 35),
    Line::Made(RAISE, 0),
    Line::Made(FETCH, 0),
    Line::Refused(RAISE, 0, 35),
    Line::Refused(FETCH, 0, 35),
    Line::Holds(0, Some((1, LIVE, Work::Waiting, [None, None])), None),
    Line::Holds(1, Some((0, LIVE, Work::Waiting, [None, None])), None),
    Line::Fetches(Some(2)),
    Line::Made(READ, 3),
    Line::Made(EXECUTE, 1),
    Line::Refused(INSERT, 1, 35),
    Line::Refused(READ, 3, 35),
    Line::Made(LOWER, 1),
    Line::Made(INSERT, 1),
    Line::Made(EXECUTE, 0),
    Line::Refused(INSERT, 0, 35),
    Line::Refused(LOWER, 1, 35),
    Line::Refused(INSERT, 1, 35),
    Line::Made(DROP, 0),
    Line::Made(INSERT, 0),
    Line::Refused(INSERT, 0, 35),
    Line::Refused(LOWER, 1, 35),
    Line::Holds(
        0,
        Some((1, LIVE, Work::Done, [None, None])),
        Some(News::Value(2, 6)),
    ),
    Line::Holds(
        1,
        Some((0, LIVE, Work::Done, [None, None])),
        Some(News::Value(1, 5)),
    ),
];

/// No move puts anything into a slot that is full.
#[test]
fn full_slots(rt: HostRuntime) -> Result<(), Fail> {
    shows(
        &rt,
        rt.alloc(),
        (0, &[(2, 1, 0, 0, 5), (2, 2, 0, 0, 6), HALT]),
        &[ANY, TOP],
        &FULL_SLOTS,
    )
}

const WRONG_STATES: [Line; 45] = [
    Line::Made(FETCH, 0),
    Line::Made(RAISE, 0),
    Line::Made(FETCH, 0),
    Line::Made(RAISE, 1),
    Line::Refused(RETIRE, 0, 36),
    Line::Refused(INSERT, 2, 36),
    Line::Made(READ, 0),
    Line::Made(LOWER, 2),
    Line::Made(EXECUTE, 2),
    Line::Refused(EXECUTE, 2, 36),
    Line::Refused(RETIRE, 0, 36),
    Line::Made(EXECUTE, 0),
    Line::Refused(EXECUTE, 0, 36),
    Line::Made(RAISE, 0),
    Line::Made(LOWER, 1),
    Line::Made(DROP, 0),
    Line::Made(FETCH, 0),
    Line::Holds(0, Some((2, LIVE, Work::Waiting, [None, None])), None),
    Line::Holds(
        1,
        Some((1, LIVE, Work::Owes(News::Value(1, 5)), [None, None])),
        None,
    ),
    Line::Holds(
        2,
        Some((0, LIVE, Work::Owes(News::WrongBranch(3)), [Some(0), None])),
        None,
    ),
    Line::Fetches(Some(3)),
    Line::Made(INSERT, 2),
    Line::Refused(INSERT, 2, 35),
    Line::Made(LOWER, 2),
    Line::Made(LOWER, 1),
    Line::Holds(
        0,
        Some((2, KILLED, Work::Waiting, [None, None])),
        Some(News::WrongBranch(3)),
    ),
    Line::Holds(
        1,
        Some((1, KILLED, Work::Owes(News::Value(1, 5)), [None, None])),
        None,
    ),
    Line::Holds(2, Some((0, LIVE, Work::Done, [Some(0), None])), None),
    Line::Refused(INSERT, 2, 36),
    Line::Refused(INSERT, 1, 36),
    Line::Refused(INSERT, 0, 35),
    Line::Refused(EXECUTE, 1, 36),
    Line::Refused(EXECUTE, 0, 36),
    Line::Retired(0, 0, 0, 0),
    Line::Made(RAISE, 1),
    Line::Made(RETIRE, 0),
    Line::Made(DROP, 0),
    Line::Refused(INSERT, 0, 36),
    Line::Made(RAISE, 0),
    Line::Made(RAISE, 1),
    Line::Made(RETIRE, 0),
    Line::Made(READ, 1),
    Line::Holds(0, None, None),
    Line::Holds(1, None, None),
    Line::Holds(2, None, Some(News::Value(1, 0))),
];

/// Executed packets are not executed, packets that owe nothing insert nothing, waiting and owing
/// ones do not retire; killed ones are not executed, insert nothing, and leave without a record.
#[test]
fn wrong_states(rt: HostRuntime) -> Result<(), Fail> {
    shows(
        &rt,
        rt.alloc(),
        (
            0,
            &[(3, 0, 0, 0, 3), (2, 1, 0, 0, 5), (2, 2, 0, 0, 6), HALT],
        ),
        &[ANY, ANY, TOP],
        &WRONG_STATES,
    )
}

const SOURCES_AND_STAGES: [Line; 27] = [
    Line::Made(FETCH, 0),
    Line::Refused(RAISE, 0, 38),
    Line::Made(EXECUTE, 0),
    Line::Made(RAISE, 0),
    Line::Made(FETCH, 0),
    Line::Refused(EXECUTE, 0, 37),
    Line::Refused(RAISE, 0, 35),
    Line::Made(RAISE, 1),
    Line::Made(RAISE, 0),
    Line::Refused(EXECUTE, 1, 37),
    Line::Refused(RAISE, 1, 35),
    Line::Holds(1, Some((1, LIVE, Work::Waiting, [None, Some(1)])), None),
    Line::Holds(
        2,
        Some((0, LIVE, Work::Owes(News::Value(1, 7)), [None, None])),
        None,
    ),
    Line::Fetches(Some(2)),
    Line::Made(INSERT, 2),
    Line::Made(LOWER, 2),
    Line::Retired(0, 1, 1, 7),
    Line::Made(LOWER, 1),
    Line::Made(FETCH, 0),
    Line::Refused(EXECUTE, 0, 38),
    Line::Refused(RAISE, 1, 38),
    Line::Refused(RAISE, 0, 35),
    Line::Made(EXECUTE, 1),
    Line::Holds(
        0,
        Some((2, LIVE, Work::Waiting, [Some(7), Some(7)])),
        Some(News::Value(1, 7)),
    ),
    Line::Holds(
        1,
        Some((1, LIVE, Work::Owes(News::Value(2, 8)), [Some(7), Some(1)])),
        None,
    ),
    Line::Holds(2, None, None),
    Line::Fetches(Some(3)),
];

/// A packet is executed once its words have come, in a stage that can; it does not climb past the
/// last such stage before.
#[test]
fn sources_and_stages(rt: HostRuntime) -> Result<(), Fail> {
    shows(
        &rt,
        rt.alloc(),
        (
            0,
            &[(2, 1, 0, 0, 7), (16, 2, 1, 16, 1), (16, 3, 1, 1, 0), HALT],
        ),
        &[4, 65536, 0],
        &SOURCES_AND_STAGES,
    )
}

const AFTER_THE_HALT: [Line; 25] = [
    Line::Made(FETCH, 0),
    Line::Made(EXECUTE, 0),
    Line::Made(RAISE, 0),
    Line::Made(INSERT, 1),
    Line::Retired(0, 1, 1, 9),
    Line::Made(FETCH, 0),
    Line::Made(RAISE, 0),
    Line::Retired(1, 4, 0, 0),
    Line::Holds(1, None, Some(News::Value(1, 9))),
    Line::Fetches(None),
    Line::Refused(FETCH, 0, 30),
    Line::Refused(RAISE, 0, 30),
    Line::Refused(LOWER, 1, 30),
    Line::Refused(EXECUTE, 0, 30),
    Line::Refused(INSERT, 0, 30),
    Line::Refused(READ, 1, 30),
    Line::Refused(RETIRE, 0, 30),
    Line::Refused(DROP, 0, 30),
    Line::Refused(0, 0, 30),
    Line::Refused(9, 0, 30),
    Line::Refused(FETCH, 1, 30),
    Line::Refused(RAISE, 1, 30),
    Line::Refused(255, 255, 30),
    Line::Holds(1, None, Some(News::Value(1, 9))),
    Line::Fetches(None),
];

/// Behind a halt that has retired every move is turned away, and nothing changes.
#[test]
fn after_the_halt(rt: HostRuntime) -> Result<(), Fail> {
    shows(
        &rt,
        rt.alloc(),
        (0, &[(2, 1, 0, 0, 9), HALT]),
        &[ANY, TOP],
        &AFTER_THE_HALT,
    )
}
