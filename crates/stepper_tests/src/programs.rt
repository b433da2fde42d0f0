//! Programs to try, and how their executions are compared.
use bounded_log::Log;
use effect::{Action, Retirement};
use execution::execute;
use std::alloc::Global;
use std::process::Abort;
use std::test::Fail;
use unit::WholeNumber;

/// A record: operation, destination, first, second, literal.
pub(crate) type Row = (u8, u8, u8, u8, u32);

/// A retirement record: place, kind, target, word.
pub(crate) type Line = (u32, u8, u32, u32);

/// What a log holds before an execution.
pub(crate) const UNUSED: Retirement = Retirement {
    place: 4242,
    action: Action::Trap { word: 24 },
};

pub(crate) const HALT: Row = (0, 0, 0, 0, 0);

pub(crate) fn line_of(record: Retirement) -> Line {
    (record.place, record.kind(), record.target(), record.word())
}

/// The image of the rows.
pub(crate) fn image_of(heap: Global, handler: u16, rows: &[Row]) -> Result<Vec<u8>, Fail> {
    let [c1, c0] = u16::try_from(rows.len())?.to_be_bytes();
    let [h1, h0] = handler.to_be_bytes();
    let mut bytes = [67, 70, 80, 0, 1, c1, c0, h1, h0].to_vec(heap)?;
    for (operation, destination, first, second, literal) in rows {
        let [l3, l2, l1, l0] = literal.to_be_bytes();
        let record = [*operation, *destination, *first, *second, l3, l2, l1, l0];
        bytes.extend_from_slice(&record)?;
    }
    Ok(bytes)
}

/// The first place at which the log holds another line than is expected, with both; none where it
/// holds these lines.
fn difference(log: &[Retirement], lines: &[Line]) -> Option<(Line, Line)> {
    log.iter()
        .zip(lines)
        .map(|(record, line)| (line_of(*record), *line))
        .find(|(found, line)| found != line)
}

/// The bytes, executed over the words, make so many steps, halt or not, and leave these lines.
pub(crate) fn leaves(
    rt: &impl Abort,
    text: &str,
    bytes: &[u8],
    words: &mut [u32],
    log: &mut [Retirement],
    told: (usize, bool),
    lines: &[Line],
) -> Result<(), Fail> {
    let execution = execute(bytes, &WholeNumber, words, &mut Log::new(log))?;
    let (steps, halted) = told;
    let found = (execution.steps, execution.halted, difference(log, lines));
    assert_eq!(rt;
        found,
        (steps, halted, None),
        "steps, halted, another line than is expected: {text}"
    );
    Ok(())
}

/// The same of the image of the rows.
pub(crate) fn rows_leave(
    rt: &impl Abort,
    text: &str,
    heap: Global,
    (handler, rows): (u16, &[Row]),
    words: &mut [u32],
    log: &mut [Retirement],
    told: (usize, bool),
    lines: &[Line],
) -> Result<(), Fail> {
    let bytes = image_of(heap, handler, rows)?;
    leaves(rt, text, &bytes, words, log, told, lines)
}

/// The rows, executed over sixteen words that are 0, halt after these lines.
pub(crate) fn yields(
    rt: &impl Abort,
    text: &str,
    heap: Global,
    handler: u16,
    rows: &[Row],
    lines: &[Line],
) -> Result<(), Fail> {
    let told = (lines.len(), true);
    rows_leave(
        rt,
        text,
        heap,
        (handler, rows),
        &mut [0; 16],
        &mut [UNUSED; 32],
        told,
        lines,
    )
}
