//! Branches, traps and the memory, from fetch to retirement.
use crate::tables::{
    ANY, DROP, EXECUTE, FETCH, HALT, INSERT, LOWER, Line, RAISE, READ, RETIRE, TOP, shows,
    shows_over,
};
use crate::told::{KILLED, LIVE, News, Work};
use std::test::Fail;

const JUMP_REGISTER: [Line; 32] = [
    Line::Made(FETCH, 0),
    Line::Made(EXECUTE, 0),
    Line::Made(RAISE, 0),
    Line::Made(INSERT, 1),
    Line::Made(FETCH, 0),
    Line::Made(LOWER, 1),
    Line::Retired(0, 1, 1, 2),
    Line::Made(DROP, 0),
    Line::Made(RAISE, 0),
    Line::Made(EXECUTE, 1),
    Line::Holds(1, Some((1, LIVE, Work::Done, [Some(2), None])), None),
    Line::Fetches(Some(2)),
    Line::Retired(1, 0, 0, 0),
    Line::Made(FETCH, 0),
    Line::Made(RAISE, 0),
    Line::Made(FETCH, 0),
    Line::Made(READ, 1),
    Line::Made(EXECUTE, 1),
    Line::Holds(0, Some((3, LIVE, Work::Done, [None, None])), None),
    Line::Holds(
        1,
        Some((2, LIVE, Work::Owes(News::WrongBranch(2)), [Some(2), None])),
        Some(News::Value(1, 2)),
    ),
    Line::Fetches(None),
    Line::Made(LOWER, 1),
    Line::Made(DROP, 0),
    Line::Made(INSERT, 1),
    Line::Retired(2, 0, 0, 0),
    Line::Made(LOWER, 1),
    Line::Refused(FETCH, 0, 34),
    Line::Made(DROP, 0),
    Line::Refused(FETCH, 0, 35),
    Line::Holds(0, Some((3, KILLED, Work::Done, [None, None])), None),
    Line::Holds(1, None, None),
    Line::Fetches(Some(2)),
];

/// A guess of JumpRegister that is right owes nothing; one that is wrong kills what was fetched
/// behind it, and fetch goes on at the target.
#[test]
fn jump_register(rt: HostRuntime) -> Result<(), Fail> {
    shows(
        &rt,
        rt.alloc(),
        (
            0,
            &[(2, 1, 0, 0, 2), (4, 0, 1, 0, 2), (4, 0, 1, 0, 3), HALT],
        ),
        &[ANY, TOP],
        &JUMP_REGISTER,
    )
}

const BRANCHES: [Line; 61] = [
    Line::Made(FETCH, 0),
    Line::Made(EXECUTE, 0),
    Line::Made(RAISE, 0),
    Line::Made(INSERT, 1),
    Line::Made(LOWER, 1),
    Line::Made(DROP, 0),
    Line::Retired(0, 1, 1, 1),
    Line::Made(FETCH, 0),
    Line::Made(RAISE, 0),
    Line::Made(READ, 0),
    Line::Made(EXECUTE, 1),
    Line::Holds(
        1,
        Some((1, LIVE, Work::Done, [Some(0), None])),
        Some(News::Value(0, 0)),
    ),
    Line::Fetches(Some(3)),
    Line::Made(LOWER, 1),
    Line::Made(DROP, 0),
    Line::Retired(1, 0, 0, 0),
    Line::Made(FETCH, 0),
    Line::Made(RAISE, 0),
    Line::Made(READ, 1),
    Line::Made(EXECUTE, 1),
    Line::Holds(
        1,
        Some((3, LIVE, Work::Done, [Some(1), None])),
        Some(News::Value(1, 1)),
    ),
    Line::Fetches(Some(4)),
    Line::Made(LOWER, 1),
    Line::Made(DROP, 0),
    Line::Retired(3, 0, 0, 0),
    Line::Made(FETCH, 0),
    Line::Made(RAISE, 0),
    Line::Made(FETCH, 0),
    Line::Made(READ, 0),
    Line::Made(EXECUTE, 1),
    Line::Holds(0, Some((5, LIVE, Work::Done, [None, None])), None),
    Line::Holds(
        1,
        Some((4, LIVE, Work::Owes(News::WrongBranch(6)), [Some(0), None])),
        Some(News::Value(0, 0)),
    ),
    Line::Fetches(None),
    Line::Made(LOWER, 1),
    Line::Made(DROP, 0),
    Line::Made(INSERT, 1),
    Line::Made(LOWER, 1),
    Line::Made(DROP, 0),
    Line::Retired(4, 0, 0, 0),
    Line::Made(RAISE, 0),
    Line::Made(RETIRE, 0),
    Line::Made(FETCH, 0),
    Line::Made(RAISE, 0),
    Line::Made(FETCH, 0),
    Line::Made(READ, 1),
    Line::Made(EXECUTE, 1),
    Line::Holds(0, Some((0, LIVE, Work::Waiting, [None, None])), None),
    Line::Holds(
        1,
        Some((6, LIVE, Work::Owes(News::WrongBranch(7)), [Some(1), None])),
        Some(News::Value(1, 1)),
    ),
    Line::Fetches(Some(1)),
    Line::Made(LOWER, 1),
    Line::Refused(DROP, 0, 33),
    Line::Made(INSERT, 1),
    Line::Made(LOWER, 1),
    Line::Made(DROP, 0),
    Line::Retired(6, 0, 0, 0),
    Line::Made(RAISE, 0),
    Line::Made(RETIRE, 0),
    Line::Made(FETCH, 0),
    Line::Holds(0, Some((7, LIVE, Work::Done, [None, None])), None),
    Line::Holds(1, None, None),
    Line::Fetches(None),
];

/// BranchZero with either hint, right and wrong.
#[test]
fn branches(rt: HostRuntime) -> Result<(), Fail> {
    shows(
        &rt,
        rt.alloc(),
        (
            0,
            &[
                (2, 1, 0, 0, 1),
                (3, 1, 0, 0, 3),
                HALT,
                (3, 0, 1, 0, 0),
                (3, 0, 0, 0, 6),
                HALT,
                (3, 1, 1, 0, 0),
                HALT,
            ],
        ),
        &[ANY, TOP],
        &BRANCHES,
    )
}

const TRAP_IN_FLIGHT: [Line; 54] = [
    Line::Made(FETCH, 0),
    Line::Made(RAISE, 0),
    Line::Made(RAISE, 1),
    Line::Made(FETCH, 0),
    Line::Made(EXECUTE, 0),
    Line::Made(RAISE, 0),
    Line::Made(FETCH, 0),
    Line::Made(READ, 1),
    Line::Made(LOWER, 2),
    Line::Made(LOWER, 1),
    Line::Made(DROP, 0),
    Line::Made(READ, 2),
    Line::Made(LOWER, 2),
    Line::Made(LOWER, 1),
    Line::Made(DROP, 0),
    Line::Made(EXECUTE, 2),
    Line::Holds(0, Some((2, LIVE, Work::Done, [None, None])), None),
    Line::Holds(
        1,
        Some((1, LIVE, Work::Owes(News::Value(3, 5)), [None, None])),
        None,
    ),
    Line::Holds(
        2,
        Some((0, LIVE, Work::Owes(News::Trap(3)), [Some(0), Some(0)])),
        None,
    ),
    Line::Fetches(None),
    Line::Made(INSERT, 2),
    Line::Made(LOWER, 2),
    Line::Made(LOWER, 1),
    Line::Holds(
        0,
        Some((2, KILLED, Work::Done, [None, None])),
        Some(News::Trap(3)),
    ),
    Line::Holds(
        1,
        Some((1, KILLED, Work::Owes(News::Value(3, 5)), [None, None])),
        None,
    ),
    Line::Holds(2, Some((0, LIVE, Work::Done, [Some(0), Some(0)])), None),
    Line::Refused(FETCH, 0, 34),
    Line::Made(DROP, 0),
    Line::Retired(0, 3, 15, 1114112),
    Line::Made(RAISE, 1),
    Line::Made(RETIRE, 0),
    Line::Made(RAISE, 0),
    Line::Made(RAISE, 1),
    Line::Made(RETIRE, 0),
    Line::Holds(0, None, None),
    Line::Holds(1, None, None),
    Line::Holds(2, None, None),
    Line::Fetches(Some(3)),
    Line::Made(FETCH, 0),
    Line::Made(RAISE, 0),
    Line::Made(RAISE, 1),
    Line::Made(READ, 15),
    Line::Made(EXECUTE, 2),
    Line::Made(LOWER, 2),
    Line::Made(LOWER, 1),
    Line::Made(DROP, 0),
    Line::Made(INSERT, 2),
    Line::Retired(3, 1, 4, 1114112),
    Line::Made(FETCH, 0),
    Line::Made(RAISE, 0),
    Line::Made(RAISE, 1),
    Line::Retired(4, 4, 0, 0),
    Line::Holds(2, None, Some(News::Value(4, 1114112))),
    Line::Fetches(None),
];

/// A quotient by 0 kills what was fetched behind it, a halt among them, which then never halts;
/// dropped, it opens fetch at the handler.
#[test]
fn trap_in_flight(rt: HostRuntime) -> Result<(), Fail> {
    shows(
        &rt,
        rt.alloc(),
        (
            3,
            &[
                (24, 3, 1, 2, 0),
                (2, 3, 0, 0, 5),
                HALT,
                (16, 4, 15, 16, 0),
                HALT,
            ],
        ),
        &[ANY, ANY, TOP],
        &TRAP_IN_FLIGHT,
    )
}

const LOAD_BEHIND_STORE: [Line; 44] = [
    Line::Made(FETCH, 0),
    Line::Made(EXECUTE, 0),
    Line::Made(RAISE, 0),
    Line::Made(INSERT, 1),
    Line::Made(FETCH, 0),
    Line::Made(LOWER, 1),
    Line::Retired(0, 1, 1, 7),
    Line::Made(DROP, 0),
    Line::Made(RAISE, 0),
    Line::Made(FETCH, 0),
    Line::Refused(EXECUTE, 1, 37),
    Line::Made(READ, 0),
    Line::Made(LOWER, 1),
    Line::Refused(EXECUTE, 0, 38),
    Line::Made(EXECUTE, 1),
    Line::Holds(
        0,
        Some((2, LIVE, Work::Waiting, [Some(0), None])),
        Some(News::Value(0, 0)),
    ),
    Line::Holds(1, Some((1, LIVE, Work::Done, [Some(0), Some(7)])), None),
    Line::Fetches(Some(3)),
    Line::Word(3, 0),
    Line::Retired(1, 2, 3, 7),
    Line::Word(3, 7),
    Line::Made(DROP, 0),
    Line::Made(RAISE, 0),
    Line::Made(EXECUTE, 1),
    Line::Holds(0, None, None),
    Line::Holds(
        1,
        Some((2, LIVE, Work::Owes(News::Value(2, 7)), [Some(0), None])),
        None,
    ),
    Line::Made(INSERT, 1),
    Line::Made(LOWER, 1),
    Line::Made(DROP, 0),
    Line::Retired(2, 1, 2, 7),
    Line::Made(FETCH, 0),
    Line::Made(RAISE, 0),
    Line::Made(READ, 0),
    Line::Made(LOWER, 1),
    Line::Made(DROP, 0),
    Line::Made(READ, 1),
    Line::Made(EXECUTE, 1),
    Line::Holds(
        1,
        Some((3, LIVE, Work::Owes(News::Trap(0)), [Some(0), Some(7)])),
        Some(News::Value(1, 7)),
    ),
    Line::Fetches(Some(4)),
    Line::Made(LOWER, 1),
    Line::Made(DROP, 0),
    Line::Made(INSERT, 1),
    Line::Retired(3, 3, 15, 131075),
    Line::Holds(1, None, Some(News::Trap(0))),
];

/// A Load behind a Store takes the stored word; a Store outside the memory traps.
#[test]
fn load_behind_store(rt: HostRuntime) -> Result<(), Fail> {
    shows(
        &rt,
        rt.alloc(),
        (
            0,
            &[
                (2, 1, 0, 0, 7),
                (6, 0, 0, 1, 3),
                (5, 2, 0, 0, 3),
                (6, 0, 0, 1, 4),
            ],
        ),
        &[ANY, TOP],
        &LOAD_BEHIND_STORE,
    )
}

const SIXTEEN_STAGES: [Line; 52] = [
    Line::Refused(RAISE, 15, 32),
    Line::Refused(RAISE, 16, 32),
    Line::Refused(LOWER, 0, 32),
    Line::Refused(LOWER, 16, 32),
    Line::Refused(EXECUTE, 16, 32),
    Line::Refused(INSERT, 16, 32),
    Line::Refused(READ, 16, 32),
    Line::Refused(RAISE, 14, 33),
    Line::Refused(LOWER, 15, 33),
    Line::Refused(EXECUTE, 15, 33),
    Line::Refused(INSERT, 15, 33),
    Line::Made(FETCH, 0),
    Line::Made(RAISE, 0),
    Line::Made(RAISE, 1),
    Line::Made(RAISE, 2),
    Line::Made(RAISE, 3),
    Line::Made(RAISE, 4),
    Line::Made(RAISE, 5),
    Line::Made(RAISE, 6),
    Line::Made(RAISE, 7),
    Line::Made(RAISE, 8),
    Line::Made(RAISE, 9),
    Line::Made(RAISE, 10),
    Line::Made(RAISE, 11),
    Line::Made(RAISE, 12),
    Line::Made(RAISE, 13),
    Line::Made(RAISE, 14),
    Line::Refused(RAISE, 15, 32),
    Line::Made(EXECUTE, 15),
    Line::Made(INSERT, 15),
    Line::Made(FETCH, 0),
    Line::Holds(0, Some((1, LIVE, Work::Waiting, [None, Some(3)])), None),
    Line::Holds(
        15,
        Some((0, LIVE, Work::Done, [None, None])),
        Some(News::Value(1, 5)),
    ),
    Line::Fetches(Some(2)),
    Line::Retired(0, 1, 1, 5),
    Line::Made(LOWER, 15),
    Line::Made(LOWER, 14),
    Line::Made(LOWER, 13),
    Line::Made(LOWER, 12),
    Line::Made(LOWER, 11),
    Line::Made(LOWER, 10),
    Line::Made(LOWER, 9),
    Line::Made(LOWER, 8),
    Line::Made(LOWER, 7),
    Line::Made(LOWER, 6),
    Line::Made(LOWER, 5),
    Line::Made(LOWER, 4),
    Line::Made(LOWER, 3),
    Line::Made(LOWER, 2),
    Line::Made(LOWER, 1),
    Line::Holds(
        0,
        Some((1, LIVE, Work::Waiting, [Some(5), Some(3)])),
        Some(News::Value(1, 5)),
    ),
    Line::Holds(15, None, None),
];

/// The longest pipeline: a packet climbs to stage 15, and its value comes down to stage 0.
#[test]
fn sixteen_stages(rt: HostRuntime) -> Result<(), Fail> {
    shows(
        &rt,
        rt.alloc(),
        (0, &[(2, 1, 0, 0, 5), (16, 2, 1, 16, 3), HALT]),
        &[0, 0, 0, 0, 0, 0, 0, 0, 0, 0, 0, 0, 0, 0, 0, 65540],
        &SIXTEEN_STAGES,
    )
}

/// The memory handed in at RETIRE is smaller than the one at EXECUTE: the Store leaves with its
/// record, and no word changes.
#[test]
fn store_into_a_smaller_memory(rt: HostRuntime) -> Result<(), Fail> {
    let mut words = [1, 2, 3, 4];
    let mut fewer = [8, 9];
    shows_over(
        &rt,
        rt.alloc(),
        (0, &[(6, 0, 0, 0, 3), HALT]),
        &[ANY, TOP],
        &mut words,
        &[
            Line::Made(FETCH, 0),
            Line::Made(RAISE, 0),
            Line::Made(READ, 0),
            Line::Made(EXECUTE, 1),
        ],
        &mut fewer,
        &[
            Line::Retired(0, 2, 3, 0),
            Line::Holds(1, None, Some(News::Value(0, 0))),
            Line::Made(FETCH, 0),
        ],
    )?;
    assert_eq!(rt; (words, fewer), ([1, 2, 3, 4], [8, 9]), "no word changes");
    Ok(())
}
