//! Runs on one pipeline, one after the other.
use crate::jobs::{JOB, KEPT, STAYS, UNUSED, add_moves, begin, places_hold};
use bounded_log::Log;
use effect::Retirement;
use fit::fit;
use image::read_image;
use layout::read_layout;
use memory::OwnWords;
use moves::read_moves;
use pipeline::Pipeline;
use std::alloc::Global;
use std::process::Abort;
use std::test::Fail;
use unit::WholeNumber;

/// The moves of the job.
const MOVES: [(u8, u8); 16] = [
    (1, 0),
    (4, 0),
    (2, 0),
    (1, 0),
    (7, 0),
    (5, 1),
    (7, 0),
    (3, 1),
    (2, 0),
    (4, 1),
    (1, 0),
    (5, 1),
    (7, 0),
    (2, 0),
    (7, 0),
    (8, 0),
];

/// The moves from one up to another, and what a run of them answers: how many were accepted, turned
/// away and live, or the number of the refusal.
type Turn = (usize, usize, Result<(usize, usize, usize), u8>);

/// A list of the moves from one up to another.
fn list_of(heap: Global, from: usize, to: usize) -> Result<Vec<u8>, Fail> {
    let mut part = Vec::new(heap);
    for (index, next) in MOVES.iter().enumerate() {
        if from <= index && index < to {
            part.push(*next)?;
        }
    }
    let mut bytes = Vec::new(heap);
    add_moves(&mut bytes, 1, &part)?;
    Ok(bytes)
}

/// A run of the list has this answer.
fn answer(
    pipeline: &mut Pipeline<'_>,
    list: &[u8],
    log: &mut Log<'_, Retirement>,
) -> Result<Result<(usize, usize, usize), u8>, Fail> {
    let (moves, _) = read_moves(list)?;
    match pipeline.run(&moves, &WholeNumber, &mut OwnWords::new(), log) {
        Ok(figures) => Ok(Ok((figures.accepted, figures.turned_away, figures.live))),
        Err(fault) => Ok(Err(fault.number())),
    }
}

/// The runs in turn, with one entry in the log before.
fn turns_are(
    rt: &impl Abort,
    heap: Global,
    pipeline: &mut Pipeline<'_>,
    log: &mut Log<'_, Retirement>,
    table: &[Turn],
) -> Result<(), Fail> {
    begin(log, 1);
    for (from, to, expected) in table {
        let list = list_of(heap, *from, *to)?;
        let found = answer(pipeline, &list, log)?;
        assert_eq!(rt;
            (*from, *to, found),
            (*from, *to, *expected),
            "a run of these moves"
        );
    }
    Ok(())
}

/// The same on a fresh pipeline of the image and the layout, with a log of these places.
fn built<'a>(
    rt: &impl Abort,
    heap: Global,
    image: &'a [u8],
    layout: &'a [u8],
    places: &mut [Retirement],
    table: &[Turn],
) -> Result<(), Fail> {
    let (image, _) = read_image(image)?;
    let (layout, _) = read_layout(layout)?;
    let mut pipeline = Pipeline::build(fit::<WholeNumber>(image, layout)?);
    turns_are(rt, heap, &mut pipeline, &mut Log::new(places), table)
}

/// Three places are free: four retirements are refused, and nothing has changed for the runs that
/// follow. The last of them meet a pipeline that has halted: they are refused for the log alone, and
/// every move is turned away.
#[test]
fn refused_and_halted(rt: HostRuntime) -> Result<(), Fail> {
    let mut places = [UNUSED; 4];
    built(
        &rt,
        rt.alloc(),
        &JOB[0..33],
        &JOB[33..47],
        &mut places,
        &[
            (0, 16, Err(27)),
            (0, 0, Ok((0, 0, 0))),
            (0, 12, Ok((11, 1, 1))),
            (12, 16, Ok((3, 1, 2))),
            (0, 5, Err(27)),
            (0, 4, Ok((0, 4, 0))),
        ],
    )?;
    places_hold(
        &rt,
        &places,
        &[KEPT, (0, 1, 1, 5), (1, 1, 2, 8), (2, 4, 0, 0)],
    );
    Ok(())
}

/// With places enough, a halted pipeline turns every move of the list away, and logs nothing.
#[test]
fn all_turned_away(rt: HostRuntime) -> Result<(), Fail> {
    let mut places = [UNUSED; 9];
    built(
        &rt,
        rt.alloc(),
        &JOB[0..33],
        &JOB[33..47],
        &mut places,
        &[
            (0, 16, Ok((14, 2, 3))),
            (0, 16, Ok((0, 16, 0))),
            (0, 0, Ok((0, 0, 0))),
        ],
    )?;
    let lines = [
        KEPT,
        (0, 1, 1, 5),
        (1, 1, 2, 8),
        (2, 4, 0, 0),
        STAYS,
        STAYS,
        STAYS,
        STAYS,
        STAYS,
    ];
    places_hold(&rt, &places, &lines);
    Ok(())
}
