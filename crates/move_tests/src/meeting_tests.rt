//! What accepted moves leave: what goes where, and what becomes of a packet and a result that meet.
use crate::tables::{
    ANY, DROP, EXECUTE, FETCH, HALT, INSERT, LOWER, Line, RAISE, READ, TOP, shows,
};
use crate::told::{KILLED, LIVE, News, Work, told_stage};
use effect::Fetched;
use instruction::{Instruction, Register};
use memory::OwnWords;
use packets::{Packet, PipeResult, Stage};
use std::test::Fail;
use unit::WholeNumber;

const EVERY_MOVE: [Line; 19] = [
    Line::Made(FETCH, 0),
    Line::Holds(0, Some((0, LIVE, Work::Waiting, [None, None])), None),
    Line::Fetches(Some(1)),
    Line::Made(RAISE, 0),
    Line::Holds(0, None, None),
    Line::Holds(1, Some((0, LIVE, Work::Waiting, [None, None])), None),
    Line::Made(EXECUTE, 1),
    Line::Holds(
        1,
        Some((0, LIVE, Work::Owes(News::Value(1, 5)), [None, None])),
        None,
    ),
    Line::Made(INSERT, 1),
    Line::Holds(
        1,
        Some((0, LIVE, Work::Done, [None, None])),
        Some(News::Value(1, 5)),
    ),
    Line::Retired(0, 1, 1, 5),
    Line::Holds(1, None, Some(News::Value(1, 5))),
    Line::Made(LOWER, 1),
    Line::Holds(0, None, Some(News::Value(1, 5))),
    Line::Holds(1, None, None),
    Line::Made(DROP, 0),
    Line::Holds(0, None, None),
    Line::Made(READ, 1),
    Line::Holds(1, None, Some(News::Value(1, 5))),
];

/// Each of the eight moves, and what it leaves.
#[test]
fn every_move(rt: HostRuntime) -> Result<(), Fail> {
    shows(
        &rt,
        rt.alloc(),
        (0, &[(2, 1, 0, 0, 5), HALT]),
        &[4, 4],
        &EVERY_MOVE,
    )
}

const VALUES_ON_THEIR_WAY: [Line; 29] = [
    Line::Made(FETCH, 0),
    Line::Made(RAISE, 0),
    Line::Made(RAISE, 1),
    Line::Made(FETCH, 0),
    Line::Made(RAISE, 0),
    Line::Made(FETCH, 0),
    Line::Holds(0, Some((2, LIVE, Work::Waiting, [None, None])), None),
    Line::Holds(1, Some((1, LIVE, Work::Waiting, [None, None])), None),
    Line::Holds(2, Some((0, LIVE, Work::Waiting, [None, Some(9)])), None),
    Line::Fetches(Some(3)),
    Line::Made(READ, 1),
    Line::Made(LOWER, 2),
    Line::Made(LOWER, 1),
    Line::Holds(
        0,
        Some((2, LIVE, Work::Waiting, [Some(0), None])),
        Some(News::Value(1, 0)),
    ),
    Line::Holds(2, Some((0, LIVE, Work::Waiting, [Some(0), Some(9)])), None),
    Line::Made(DROP, 0),
    Line::Made(READ, 2),
    Line::Made(LOWER, 2),
    Line::Holds(0, Some((2, LIVE, Work::Waiting, [Some(0), None])), None),
    Line::Holds(
        1,
        Some((1, LIVE, Work::Waiting, [Some(0), Some(0)])),
        Some(News::Value(2, 0)),
    ),
    Line::Made(LOWER, 1),
    Line::Refused(DROP, 0, 33),
    Line::Made(READ, 3),
    Line::Refused(LOWER, 2, 33),
    Line::Holds(0, Some((2, LIVE, Work::Waiting, [Some(0), Some(0)])), None),
    Line::Holds(1, Some((1, LIVE, Work::Waiting, [Some(0), Some(0)])), None),
    Line::Made(EXECUTE, 2),
    Line::Made(READ, 3),
    Line::Holds(
        2,
        Some((0, LIVE, Work::Owes(News::Value(3, 9)), [Some(0), Some(9)])),
        Some(News::Value(3, 9)),
    ),
];

/// A value is taken by first, by second, by both; it passes who does not write it, vanishes at a
/// waiting writer, and takes the word of an executed one.
#[test]
fn values_on_their_way(rt: HostRuntime) -> Result<(), Fail> {
    shows(
        &rt,
        rt.alloc(),
        (
            0,
            &[(16, 3, 1, 16, 9), (16, 4, 2, 2, 0), (16, 2, 1, 2, 0), HALT],
        ),
        &[ANY, ANY, TOP],
        &VALUES_ON_THEIR_WAY,
    )
}

const A_TRAPPED_WRITER: [Line; 23] = [
    Line::Made(FETCH, 0),
    Line::Made(RAISE, 0),
    Line::Made(READ, 15),
    Line::Made(LOWER, 1),
    Line::Made(DROP, 0),
    Line::Made(READ, 1),
    Line::Made(LOWER, 1),
    Line::Made(DROP, 0),
    Line::Made(READ, 3),
    Line::Refused(LOWER, 1, 33),
    Line::Holds(1, Some((0, LIVE, Work::Waiting, [Some(0), None])), None),
    Line::Fetches(Some(1)),
    Line::Made(READ, 2),
    Line::Made(LOWER, 1),
    Line::Made(DROP, 0),
    Line::Made(EXECUTE, 1),
    Line::Holds(
        1,
        Some((0, LIVE, Work::Owes(News::Trap(2)), [Some(0), Some(0)])),
        None,
    ),
    Line::Made(READ, 3),
    Line::Holds(
        1,
        Some((0, LIVE, Work::Owes(News::Trap(2)), [Some(0), Some(0)])),
        Some(News::Value(3, 0)),
    ),
    Line::Made(LOWER, 1),
    Line::Made(DROP, 0),
    Line::Made(READ, 15),
    Line::Holds(
        1,
        Some((0, LIVE, Work::Owes(News::Trap(2)), [Some(0), Some(0)])),
        Some(News::Value(15, 1114112)),
    ),
];

/// A packet that trapped writes r15 alone: a value of its destination passes, one of r15 takes the
/// word of the trap.
#[test]
fn a_trapped_writer(rt: HostRuntime) -> Result<(), Fail> {
    shows(
        &rt,
        rt.alloc(),
        (2, &[(24, 3, 1, 2, 0), HALT, HALT]),
        &[ANY, TOP],
        &A_TRAPPED_WRITER,
    )
}

const KILLED_PACKETS_DO_NOTHING: [Line; 26] = [
    Line::Made(FETCH, 0),
    Line::Made(RAISE, 0),
    Line::Made(RAISE, 1),
    Line::Made(FETCH, 0),
    Line::Made(RAISE, 0),
    Line::Made(FETCH, 0),
    Line::Made(READ, 0),
    Line::Made(LOWER, 2),
    Line::Made(LOWER, 1),
    Line::Made(DROP, 0),
    Line::Made(EXECUTE, 2),
    Line::Made(INSERT, 2),
    Line::Holds(0, Some((2, LIVE, Work::Waiting, [None, None])), None),
    Line::Holds(1, Some((1, LIVE, Work::Waiting, [None, Some(1)])), None),
    Line::Holds(
        2,
        Some((0, LIVE, Work::Done, [Some(0), None])),
        Some(News::WrongBranch(3)),
    ),
    Line::Fetches(Some(3)),
    Line::Made(LOWER, 2),
    Line::Holds(
        1,
        Some((1, KILLED, Work::Waiting, [None, Some(1)])),
        Some(News::WrongBranch(3)),
    ),
    Line::Holds(2, Some((0, LIVE, Work::Done, [Some(0), None])), None),
    Line::Made(LOWER, 1),
    Line::Retired(0, 0, 0, 0),
    Line::Made(READ, 1),
    Line::Made(LOWER, 2),
    Line::Holds(
        0,
        Some((2, KILLED, Work::Waiting, [None, None])),
        Some(News::WrongBranch(3)),
    ),
    Line::Holds(
        1,
        Some((1, KILLED, Work::Waiting, [None, Some(1)])),
        Some(News::Value(1, 0)),
    ),
    Line::Holds(2, None, None),
];

/// A wrong-branch result kills and stays; INSERT meets nobody, so the branch itself is live. A
/// value passes a killed packet, which neither takes it nor stops it.
#[test]
fn killed_packets_do_nothing(rt: HostRuntime) -> Result<(), Fail> {
    shows(
        &rt,
        rt.alloc(),
        (
            0,
            &[(3, 0, 0, 0, 3), (16, 1, 1, 16, 1), (2, 2, 0, 0, 6), HALT],
        ),
        &[ANY, ANY, TOP],
        &KILLED_PACKETS_DO_NOTHING,
    )
}

const ENTERING_BESIDE_A_RESULT: [Line; 41] = [
    Line::Made(READ, 5),
    Line::Made(FETCH, 0),
    Line::Made(RAISE, 0),
    Line::Made(RAISE, 1),
    Line::Holds(
        2,
        Some((0, LIVE, Work::Waiting, [Some(0), Some(4)])),
        Some(News::Value(5, 0)),
    ),
    Line::Fetches(Some(1)),
    Line::Made(LOWER, 2),
    Line::Made(LOWER, 1),
    Line::Made(DROP, 0),
    Line::Made(EXECUTE, 2),
    Line::Made(INSERT, 2),
    Line::Retired(0, 1, 4, 4),
    Line::Made(LOWER, 2),
    Line::Made(LOWER, 1),
    Line::Made(DROP, 0),
    Line::Made(FETCH, 0),
    Line::Made(RAISE, 0),
    Line::Made(RAISE, 1),
    Line::Made(FETCH, 0),
    Line::Made(READ, 0),
    Line::Made(LOWER, 2),
    Line::Made(LOWER, 1),
    Line::Made(DROP, 0),
    Line::Made(EXECUTE, 2),
    Line::Made(INSERT, 2),
    Line::Made(LOWER, 2),
    Line::Made(RAISE, 0),
    Line::Holds(
        1,
        Some((2, KILLED, Work::Waiting, [None, None])),
        Some(News::WrongBranch(4)),
    ),
    Line::Holds(2, Some((1, LIVE, Work::Done, [Some(0), None])), None),
    Line::Fetches(Some(3)),
    Line::Made(LOWER, 1),
    Line::Made(FETCH, 0),
    Line::Holds(
        0,
        Some((3, KILLED, Work::Waiting, [None, Some(1)])),
        Some(News::WrongBranch(4)),
    ),
    Line::Holds(1, Some((2, KILLED, Work::Waiting, [None, None])), None),
    Line::Fetches(Some(4)),
    Line::Made(DROP, 0),
    Line::Refused(INSERT, 0, 36),
    Line::Refused(EXECUTE, 0, 36),
    Line::Refused(FETCH, 0, 35),
    Line::Refused(RAISE, 0, 35),
    Line::Holds(0, Some((3, KILLED, Work::Waiting, [None, Some(1)])), None),
];

/// A packet that comes to a value takes it; one that comes to a wrong-branch result, by RAISE or by
/// FETCH, is killed.
#[test]
fn entering_beside_a_result(rt: HostRuntime) -> Result<(), Fail> {
    shows(
        &rt,
        rt.alloc(),
        (
            0,
            &[
                (16, 4, 5, 16, 4),
                (3, 0, 0, 0, 4),
                (2, 1, 0, 0, 5),
                (16, 2, 1, 16, 1),
                HALT,
            ],
        ),
        &[ANY, ANY, TOP],
        &ENTERING_BESIDE_A_RESULT,
    )
}

/// A source that has its word keeps it when another value of its register comes by.
#[test]
fn first_word_stays(rt: HostRuntime) {
    let base = Register::named(1);
    let stored = Register::named(2);
    let instruction = Instruction::Store {
        base,
        stored,
        offset: 0,
    };
    let fetched = Fetched {
        place: 7,
        instruction: Some(instruction),
    };
    let mut stage = Stage::vacant();
    stage.enter(Some(Packet::entering(fetched, 0, &WholeNumber, &OwnWords::new())));
    stage.receive(Some(PipeResult::Value {
        register: base,
        word: 5,
    }));
    stage.receive(Some(PipeResult::Value {
        register: base,
        word: 6,
    }));
    let packet = (7, LIVE, Work::Waiting, [Some(5), None]);
    assert_eq!(rt;
        told_stage(&stage),
        (Some(packet), Some(News::Value(1, 6))),
        "5 stays, 6 goes on"
    );
}
