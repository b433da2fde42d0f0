//! One image on different layouts, with moves in different orders.
use crate::jobs::{Line, Row, STAYS, UNUSED, job_of, leaves};
use std::alloc::Global;
use std::process::Abort;
use std::test::Fail;

/// Stores 6 at address 2 and loads it, takes a branch that was guessed wrong, divides by 0, and goes
/// on at the handler, which is 6.
const ROWS: [Row; 8] = [
    (2, 1, 0, 0, 6),
    (6, 0, 0, 1, 2),
    (5, 2, 0, 0, 2),
    (3, 0, 0, 0, 5),
    (0, 0, 0, 0, 0),
    (24, 3, 2, 0, 0),
    (16, 4, 15, 2, 0),
    (0, 0, 0, 0, 0),
];

/// What every order of moves logs, and a place behind.
const LINES: [Line; 8] = [
    (0, 1, 1, 6),
    (1, 2, 2, 6),
    (2, 1, 2, 6),
    (3, 0, 0, 0),
    (5, 3, 15, 1114117),
    (6, 1, 4, 1114123),
    (7, 4, 0, 0),
    STAYS,
];

const OF_TWO: [(u8, u8); 21] = [
    (8, 0),
    (3, 1),
    (7, 0),
    (5, 1),
    (5, 0),
    (4, 1),
    (4, 0),
    (2, 0),
    (1, 0),
    (6, 0),
    (3, 1),
    (8, 0),
    (6, 1),
    (3, 1),
    (8, 0),
    (6, 2),
    (3, 1),
    (8, 0),
    (6, 15),
    (3, 1),
    (8, 0),
];

const OF_THREE: [(u8, u8); 28] = [
    (1, 0),
    (4, 0),
    (2, 1),
    (2, 0),
    (4, 1),
    (4, 2),
    (5, 0),
    (5, 1),
    (5, 2),
    (7, 0),
    (3, 1),
    (3, 2),
    (8, 0),
    (6, 15),
    (3, 2),
    (3, 1),
    (8, 0),
    (6, 2),
    (3, 2),
    (3, 1),
    (8, 0),
    (6, 1),
    (3, 2),
    (3, 1),
    (8, 0),
    (6, 0),
    (3, 2),
    (3, 1),
];

const OF_FOUR: [(u8, u8); 31] = [
    (1, 0),
    (2, 2),
    (2, 1),
    (2, 0),
    (3, 3),
    (3, 2),
    (3, 1),
    (8, 0),
    (4, 3),
    (5, 3),
    (7, 0),
    (3, 3),
    (3, 2),
    (3, 1),
    (8, 0),
    (6, 0),
    (3, 3),
    (3, 2),
    (3, 1),
    (8, 0),
    (6, 1),
    (3, 3),
    (3, 2),
    (3, 1),
    (8, 0),
    (6, 2),
    (3, 3),
    (3, 2),
    (3, 1),
    (8, 0),
    (6, 15),
];

/// The image on these stages, with so many rounds of moves, halts after these figures, with the lines
/// and the stored word.
fn agrees(
    rt: &impl Abort,
    heap: Global,
    sets: &[u32],
    (times, round): (u16, &[(u8, u8)]),
    moves: u16,
    figures: (usize, usize, usize),
) -> Result<(), Fail> {
    let bytes = job_of(heap, (6, &ROWS), sets, times, round)?;
    let mut words = [9; 4];
    let mut places = [UNUSED; 24];
    let told = (Ok(((8, sets.len(), moves), figures, true)), 7);
    leaves(rt, &bytes, &mut words, &mut places, 0, told, &LINES);
    assert_eq!(rt; words, [9, 9, 6, 9], "address 2 takes 6");
    Ok(())
}

/// Every stage can execute all that it may.
#[test]
fn two_stages(rt: HostRuntime) -> Result<(), Fail> {
    let sets = [4294901788, 4294901884];
    agrees(&rt, rt.alloc(), &sets, (16, &OF_TWO), 336, (205, 131, 7))
}

/// Each operation has one stage, and the moves go from the bottom to the top.
#[test]
fn three_stages(rt: HostRuntime) -> Result<(), Fail> {
    let sets = [4, 16777240, 65632];
    agrees(&rt, rt.alloc(), &sets, (10, &OF_THREE), 280, (180, 100, 7))
}

/// Only the top executes.
#[test]
fn four_stages(rt: HostRuntime) -> Result<(), Fail> {
    let sets = [0, 0, 0, 4294901884];
    agrees(&rt, rt.alloc(), &sets, (13, &OF_FOUR), 403, (311, 92, 7))
}

/// A log with one place too few: no word is stored, and no place changes.
#[test]
fn refused_for_its_log(rt: HostRuntime) -> Result<(), Fail> {
    let sets = [4294901788, 4294901884];
    let bytes = job_of(rt.alloc(), (6, &ROWS), &sets, 16, &OF_TWO)?;
    let mut words = [9; 4];
    leaves(
        &rt,
        &bytes,
        &mut words,
        &mut [UNUSED; 15],
        0,
        (Err((27, 0)), 0),
        &[STAYS; 15],
    );
    assert_eq!(rt; words, [9; 4], "no word is stored");
    Ok(())
}
