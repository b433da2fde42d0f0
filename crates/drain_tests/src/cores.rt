//! Cores to drain, and how their moves and drains are compared.
use bounded_log::Log;
use fit::fit;
use image::read_image;
use layout::read_layout;
use memory::LentWords;
use moves::{Move, MoveKind};
use pipeline::Pipeline;
use std::alloc::Global;
use std::process::Abort;
use std::test::Fail;
use unit::WholeNumber;

pub(crate) const FETCH: u8 = 1;

pub(crate) const RAISE: u8 = 2;

pub(crate) const LOWER: u8 = 3;

pub(crate) const EXECUTE: u8 = 4;

pub(crate) const INSERT: u8 = 5;

pub(crate) const READ: u8 = 6;

pub(crate) const RETIRE: u8 = 7;

pub(crate) const DROP: u8 = 8;

/// A record of an image: operation, destination, first, second, literal.
pub(crate) type Row = (u8, u8, u8, u8, u32);

/// A record of a retirement: place, kind, target, word.
pub(crate) type Told = (u32, u8, u32, u32);

/// A place of a move log that holds no move yet.
pub(crate) const FREE: Move = Move {
    kind: MoveKind::Fetch,
    place: 0,
};

/// A core: the image of the rows, and a layout of so many stages, each of which can execute all that
/// it may.
// Other crates of tests make an image of rows too: a library for it would make a public call of it.
pub(crate) fn core_of(
    heap: Global,
    handler: u16,
    rows: &[Row],
    stages: u8,
) -> Result<(Vec<u8>, Vec<u8>), Fail> {
    let [c1, c0] = u16::try_from(rows.len())?.to_be_bytes();
    let [h1, h0] = handler.to_be_bytes();
    let mut image = [67, 70, 80, 0, 1, c1, c0, h1, h0].to_vec(heap)?;
    for (operation, destination, first, second, literal) in rows {
        let [l3, l2, l1, l0] = literal.to_be_bytes();
        let record = [*operation, *destination, *first, *second, l3, l2, l1, l0];
        image.extend_from_slice(&record)?;
    }
    let mut layout = [67, 70, 76, 0, 1, stages].to_vec(heap)?;
    for _ in 1..stages {
        layout.extend_from_slice(&4294901788u32.to_be_bytes())?;
    }
    layout.extend_from_slice(&4294901884u32.to_be_bytes())?;
    Ok((image, layout))
}

/// The fresh pipeline of a core.
pub(crate) fn built<'a>(image: &'a [u8], layout: &'a [u8]) -> Result<Pipeline<'a>, Fail> {
    let (image, _) = read_image(image)?;
    let (layout, _) = read_layout(layout)?;
    Ok(Pipeline::build(fit::<WholeNumber>(image, layout)?))
}

/// Makes a move that is accepted, with this record or none.
pub(crate) fn gives(
    rt: &impl Abort,
    pipeline: &mut Pipeline<'_>,
    (kind, place): (u8, u8),
    expected: Option<Told>,
) {
    let found = pipeline
        .make_move(kind, place, &WholeNumber, &mut LentWords::new(&mut [0; 4]))
        .map(|given| {
            given.map(|record| (record.place, record.kind(), record.target(), record.word()))
        })
        .map_err(|fault| fault.number());
    assert_eq!(rt;
        (kind, place, found),
        (kind, place, Ok(expected)),
        "a move, and what it answers"
    );
}

/// Makes a move that is accepted, without a record.
pub(crate) fn makes(rt: &impl Abort, pipeline: &mut Pipeline<'_>, kind: u8, place: u8) {
    gives(rt, pipeline, (kind, place), None);
}

/// Drains: this record is given, by as many moves as are logged, and by no more than the bound.
pub(crate) fn drains(rt: &impl Abort, pipeline: &mut Pipeline<'_>, expected: Told) {
    let mut places = [FREE; 584];
    let mut log = Log::new(&mut places);
    let stages = pipeline.stages();
    let bound = 2 * stages * stages + 4 * stages + 8;
    let found = pipeline
        .drain(&WholeNumber, &mut LentWords::new(&mut [0; 4]), &mut log)
        .map(|drain| {
            let record = drain.retirement;
            let told = (record.place, record.kind(), record.target(), record.word());
            (told, drain.moves, drain.moves <= bound)
        })
        .map_err(|refusal| refusal.number());
    assert_eq!(rt;
        found,
        Ok((expected, log.count(), true)),
        "a drain's record, its moves, and that the bound holds"
    );
}
