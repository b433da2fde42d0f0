//! Tables of moves, and how they are tried on a pipeline.
use crate::told::{News, ToldPacket, told_stage};
use fit::fit;
use image::read_image;
use layout::read_layout;
use memory::LentWords;
use pipeline::Pipeline;
use std::alloc::Global;
use std::process::Abort;
use std::test::Fail;
use unit::WholeNumber;

pub(crate) const FETCH: u8 = 1;

pub(crate) const RAISE: u8 = 2;

pub(crate) const LOWER: u8 = 3;

pub(crate) const EXECUTE: u8 = 4;

pub(crate) const INSERT: u8 = 5;

pub(crate) const READ: u8 = 6;

pub(crate) const RETIRE: u8 = 7;

pub(crate) const DROP: u8 = 8;

/// A record: operation, destination, first, second, literal.
pub(crate) type Row = (u8, u8, u8, u8, u32);

pub(crate) const HALT: Row = (0, 0, 0, 0, 0);

/// Every operation that a stage below the top may have.
pub(crate) const ANY: u32 = 4294901788;

/// Every operation that the top stage may have.
pub(crate) const TOP: u32 = 4294901884;

/// A line of a table: a move with its answer, or what is seen in between.
#[derive(Clone, Copy)]
pub(crate) enum Line {
    /// A move's kind and place: accepted, without a record.
    Made(u8, u8),
    /// RETIRE answers a record: place, kind, target, word.
    Retired(u32, u8, u32, u32),
    /// A move's kind and place: turned away, with this number.
    Refused(u8, u8, u8),
    /// A stage holds this packet and this result.
    Holds(usize, Option<ToldPacket>, Option<News>),
    /// Fetch is open at this place, or closed.
    Fetches(Option<u32>),
    /// The memory has this word at this address.
    Word(usize, u32),
}

/// The image of the rows.
// Other crates of tests have this and the next one too: a library for them would make public calls
// of them, with contracts.
fn image_of(heap: Global, handler: u16, rows: &[Row]) -> Result<Vec<u8>, Fail> {
    let [c1, c0] = u16::try_from(rows.len())?.to_be_bytes();
    let [h1, h0] = handler.to_be_bytes();
    let mut bytes = [67, 70, 80, 0, 1, c1, c0, h1, h0].to_vec(heap)?;
    for (operation, destination, first, second, literal) in rows {
        let [l3, l2, l1, l0] = literal.to_be_bytes();
        let record = [*operation, *destination, *first, *second, l3, l2, l1, l0];
        bytes.extend_from_slice(&record)?;
    }
    Ok(bytes)
}

/// The layout of the sets, stage 0 first.
fn layout_of(heap: Global, sets: &[u32]) -> Result<Vec<u8>, Fail> {
    let mut bytes = [67, 70, 76, 0, 1, u8::try_from(sets.len())?].to_vec(heap)?;
    for set in sets {
        bytes.extend_from_slice(&set.to_be_bytes())?;
    }
    Ok(bytes)
}

/// The answer to a move: a record or none, or the number of the refusal.
type Answer = Result<Option<(u32, u8, u32, u32)>, u8>;

fn answer(pipeline: &mut Pipeline<'_>, words: &mut [u32], kind: u8, place: u8) -> Answer {
    let given = pipeline
        .make_move(kind, place, &WholeNumber, &mut LentWords::new(words))
        .map_err(|fault| fault.number())?;
    Ok(given.map(|record| (record.place, record.kind(), record.target(), record.word())))
}

/// Makes a move, and compares the answer.
fn answers(
    rt: &impl Abort,
    pipeline: &mut Pipeline<'_>,
    words: &mut [u32],
    kind: u8,
    place: u8,
    expected: Answer,
) {
    let found = answer(pipeline, words, kind, place);
    assert_eq!(rt;
        (kind, place, found),
        (kind, place, expected),
        "kind, place, answer"
    );
}

/// Compares what a stage holds.
fn holds(
    rt: &impl Abort,
    pipeline: &Pipeline<'_>,
    number: usize,
    packet: Option<ToldPacket>,
    news: Option<News>,
) {
    let found = pipeline
        .stage(number)
        .map_or((None, None), |stage| told_stage(&stage));
    assert_eq!(rt;
        (number, found),
        (number, (packet, news)),
        "a stage, and what it holds"
    );
}

/// Compares where fetch is open.
fn fetches(rt: &impl Abort, pipeline: &Pipeline<'_>, expected: Option<u32>) {
    assert_eq!(rt; pipeline.fetch(), expected, "where fetch is open");
}

/// Compares the word at an address.
fn has_word(rt: &impl Abort, words: &[u32], address: usize, expected: u32) {
    let found = words.get(address).copied();
    assert_eq!(rt;
        (address, found),
        (address, Some(expected)),
        "an address, and its word"
    );
}

/// Tries a line of a table.
fn line_agrees(rt: &impl Abort, pipeline: &mut Pipeline<'_>, words: &mut [u32], line: Line) {
    match line {
        Line::Made(kind, place) => answers(rt, pipeline, words, kind, place, Ok(None)),
        Line::Retired(place, kind, target, word) => {
            let record = (place, kind, target, word);
            answers(rt, pipeline, words, RETIRE, 0, Ok(Some(record)));
        }
        Line::Refused(kind, place, number) => {
            answers(rt, pipeline, words, kind, place, Err(number));
        }
        Line::Holds(number, packet, result) => holds(rt, pipeline, number, packet, result),
        Line::Fetches(place) => fetches(rt, pipeline, place),
        Line::Word(address, word) => has_word(rt, words, address, word),
    }
}

/// Tries the lines of a table in turn.
fn lines_agree(rt: &impl Abort, pipeline: &mut Pipeline<'_>, words: &mut [u32], table: &[Line]) {
    for line in table {
        line_agrees(rt, pipeline, words, *line);
    }
}

/// Builds a fresh pipeline, and tries one table over some words, then another over others.
fn built<'a>(
    rt: &impl Abort,
    image: &'a [u8],
    layout: &'a [u8],
    words: &mut [u32],
    table: &[Line],
    others: &mut [u32],
    later: &[Line],
) -> Result<(), Fail> {
    let (image, _) = read_image(image)?;
    let (layout, _) = read_layout(layout)?;
    let mut pipeline = Pipeline::build(fit::<WholeNumber>(image, layout)?);
    lines_agree(rt, &mut pipeline, words, table);
    lines_agree(rt, &mut pipeline, others, later);
    Ok(())
}

/// A fresh pipeline of the rows and the sets follows one table over some words, and then another
/// over others.
pub(crate) fn shows_over(
    rt: &impl Abort,
    heap: Global,
    (handler, rows): (u16, &[Row]),
    sets: &[u32],
    words: &mut [u32],
    table: &[Line],
    others: &mut [u32],
    later: &[Line],
) -> Result<(), Fail> {
    let image = image_of(heap, handler, rows)?;
    let layout = layout_of(heap, sets)?;
    built(rt, &image, &layout, words, table, others, later)
}

/// The same of one table, over four words that are 0.
pub(crate) fn shows(
    rt: &impl Abort,
    heap: Global,
    program: (u16, &[Row]),
    sets: &[u32],
    table: &[Line],
) -> Result<(), Fail> {
    shows_over(rt, heap, program, sets, &mut [0; 4], table, &mut [], &[])
}
