//! Whole jobs: what they answer, and what they leave in the log.
use crate::jobs::{JOB, KEPT, STAYS, UNUSED, job_of, leaves};
use std::alloc::Global;
use std::process::Abort;
use std::test::Fail;

/// The job's figures and records, in a log with just as many places as the list has retirements; the
/// place behind the records stays.
#[test]
fn just_enough_places(rt: HostRuntime) {
    let told = (Ok(((3, 2, 16), (14, 2, 3), true)), 3);
    let lines = [(0, 1, 1, 5), (1, 1, 2, 8), (2, 4, 0, 0), STAYS];
    leaves(&rt, &JOB, &mut [0; 256], &mut [UNUSED; 4], 0, told, &lines);
}

/// A log with entries keeps them, and what stands behind the new ones stays.
#[test]
fn entries_before_a_job(rt: HostRuntime) {
    let told = (Ok(((3, 2, 16), (14, 2, 3), true)), 5);
    let lines = [
        KEPT,
        KEPT,
        (0, 1, 1, 5),
        (1, 1, 2, 8),
        (2, 4, 0, 0),
        STAYS,
        STAYS,
    ];
    leaves(&rt, &JOB, &mut [], &mut [UNUSED; 7], 2, told, &lines);
}

/// One place fewer than retirements: the job is refused, also where its records would have fitted.
#[test]
fn too_few_places(rt: HostRuntime) {
    let lines = [KEPT, KEPT, STAYS, STAYS, STAYS];
    leaves(
        &rt,
        &JOB,
        &mut [],
        &mut [UNUSED; 3],
        0,
        (Err((27, 0)), 0),
        &[STAYS; 3],
    );
    leaves(
        &rt,
        &JOB,
        &mut [],
        &mut [UNUSED; 5],
        2,
        (Err((27, 0)), 2),
        &lines,
    );
}

/// Three bytes of the job that are changed, and the refusal.
type Case = ([(usize, u8); 3], (u8, usize));

/// A refusal of each part, then of a byte left over, of a record without a stage, of one that the unit
/// does not know, and of the log, which is asked for last.
const REFUSED: [Case; 15] = [
    ([(0, 66); 3], (2, 0)),
    ([(4, 2); 3], (3, 3)),
    ([(8, 3); 3], (5, 7)),
    ([(17, 7); 3], (7, 17)),
    ([(33, 0); 3], (11, 33)),
    ([(38, 1); 3], (13, 38)),
    ([(42, 32); 3], (16, 39)),
    ([(47, 0); 3], (18, 47)),
    ([(53, 17); 3], (21, 86)),
    ([(54, 9); 3], (22, 54)),
    ([(55, 1); 3], (23, 55)),
    ([(53, 15); 3], (24, 84)),
    ([(44, 0); 3], (25, 17)),
    ([(17, 26), (43, 4), (44, 0)], (26, 17)),
    ([(0, 67); 3], (27, 0)),
];

fn changed(changes: [(usize, u8); 3]) -> [u8; 86] {
    let mut bytes = JOB;
    for (at, byte) in changes {
        if at < 86 {
            bytes[at] = byte;
        }
    }
    bytes
}

/// The changed job is refused, and changes neither words nor log.
fn refuses(rt: &impl Abort, changes: [(usize, u8); 3], refusal: (u8, usize)) {
    let bytes = changed(changes);
    let mut words = [1, 2, 3];
    let mut places = [UNUSED; 4];
    let lines = [KEPT, STAYS, STAYS, STAYS];
    leaves(
        rt,
        &bytes,
        &mut words,
        &mut places,
        1,
        (Err(refusal), 1),
        &lines,
    );
    assert_eq!(rt; words, [1, 2, 3], "no word changes");
}

#[test]
fn refused_jobs(rt: HostRuntime) {
    for (changes, refusal) in REFUSED {
        refuses(&rt, changes, refusal);
    }
}

/// A job of one record, which sets r1, and so many moves that fetch; no log is needed.
fn fetches(
    rt: &impl Abort,
    heap: Global,
    times: u16,
    figures: (usize, usize, usize),
) -> Result<(), Fail> {
    let bytes = job_of(heap, (0, &[(2, 1, 0, 0, 5)]), &[4, 0], times, &[(1, 0)])?;
    let expected = Ok(((1, 2, times), figures, false));
    leaves(rt, &bytes, &mut [], &mut [], 0, (expected, 0), &[]);
    Ok(())
}

#[test]
fn no_move(rt: HostRuntime) -> Result<(), Fail> {
    fetches(&rt, rt.alloc(), 0, (0, 0, 0))
}

/// Only the first of as many moves as may be finds stage 0 empty.
#[test]
fn most_moves(rt: HostRuntime) -> Result<(), Fail> {
    fetches(&rt, rt.alloc(), 16000, (1, 15999, 0))
}
