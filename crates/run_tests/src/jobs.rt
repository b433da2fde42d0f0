//! Jobs to run, and how what they leave is compared.
use bounded_log::Log;
use effect::{Action, Retirement};
use fields::Refusal;
use running::{JobRun, JobRunFault, run_job};
use std::alloc::Global;
use std::process::Abort;
use std::test::Fail;
use unit::WholeNumber;

/// A record: operation, destination, first, second, literal.
pub(crate) type Row = (u8, u8, u8, u8, u32);

/// A retirement record: place, kind, target, word.
pub(crate) type Line = (u32, u8, u32, u32);

/// Records, stages and moves; how many moves were accepted, turned away and live; whether it halted.
/// Or the number and the byte place of a refusal.
pub(crate) type Answer = Result<((u16, usize, u16), (usize, usize, usize), bool), (u8, usize)>;

/// What the places of a log hold before.
pub(crate) const UNUSED: Retirement = Retirement {
    place: 4242,
    action: Action::Trap { word: 24 },
};

/// A place of the log that no run has filled.
pub(crate) const STAYS: Line = (4242, 3, 15, 24);

/// An entry that a log has before a run.
pub(crate) const EARLIER: Retirement = Retirement {
    place: 77,
    action: Action::Nothing,
};

pub(crate) const KEPT: Line = (77, 0, 0, 0);

/// Set r1 to 5, r2 takes r1 + 3, Halt; two stages; sixteen moves, four of them retirements. The layout
/// begins at byte 33, the list at 47.
pub(crate) const JOB: [u8; 86] =
    *b"CFP\0\x01\0\x03\0\x02\x02\x01\0\0\0\0\0\x05\x10\x02\x01\x10\0\0\0\x03\0\0\0\0\0\0\0\0CFL\0\x01\x02\0\0\0\x04\0\x01\0\0CFM\0\x01\0\x10\x01\0\x04\0\x02\0\x01\0\x07\0\x05\x01\x07\0\x03\x01\x02\0\x04\x01\x01\0\x05\x01\x07\0\x02\0\x07\0\x08\0";

fn line_of(record: Retirement) -> Line {
    (record.place, record.kind(), record.target(), record.word())
}

/// The first place at which the log holds another line than is expected, with both.
fn difference(log: &[Retirement], lines: &[Line]) -> Option<(Line, Line)> {
    for (record, line) in log.iter().zip(lines) {
        let found = line_of(*record);
        if found != *line {
            return Some((found, *line));
        }
    }
    None
}

/// The first places of the log hold these lines.
pub(crate) fn places_hold(rt: &impl Abort, log: &[Retirement], lines: &[Line]) {
    assert_eq!(rt;
        difference(log, lines),
        None,
        "a line, and what is expected instead"
    );
}

/// Gives the log so many earlier entries.
pub(crate) fn begin(log: &mut Log<'_, Retirement>, earlier: usize) {
    for _ in 0..earlier {
        let _ = log.add(EARLIER);
    }
}

fn told(answer: Result<JobRun, JobRunFault>) -> Answer {
    match answer {
        Ok(JobRun { job, run, halted }) => Ok((
            (job.records, job.stages, job.moves),
            (run.accepted, run.turned_away, run.live),
            halted,
        )),
        Err(fault) => {
            let refusal = Refusal::from(fault);
            Err((refusal.number, refusal.place))
        }
    }
}

/// The job, run over the words and with so many entries in the log before, has this answer, and so
/// many entries after; the first places of the log hold these lines.
pub(crate) fn leaves(
    rt: &impl Abort,
    bytes: &[u8],
    words: &mut [u32],
    places: &mut [Retirement],
    earlier: usize,
    expected: (Answer, usize),
    lines: &[Line],
) {
    let mut log = Log::new(places);
    begin(&mut log, earlier);
    let answer = run_job(bytes, &WholeNumber, words, &mut log);
    let found = (told(answer), log.count());
    assert_eq!(rt; found, expected, "the answer, and entries after it");
    places_hold(rt, places, lines);
}

fn add_image(bytes: &mut Vec<u8>, handler: u16, rows: &[Row]) -> Result<(), Fail> {
    let [c1, c0] = u16::try_from(rows.len())?.to_be_bytes();
    let [h1, h0] = handler.to_be_bytes();
    bytes.extend_from_slice(&[67, 70, 80, 0, 1, c1, c0, h1, h0])?;
    for (operation, destination, first, second, literal) in rows {
        let [l3, l2, l1, l0] = literal.to_be_bytes();
        let record = [*operation, *destination, *first, *second, l3, l2, l1, l0];
        bytes.extend_from_slice(&record)?;
    }
    Ok(())
}

fn add_layout(bytes: &mut Vec<u8>, sets: &[u32]) -> Result<(), Fail> {
    bytes.extend_from_slice(&[67, 70, 76, 0, 1, u8::try_from(sets.len())?])?;
    for set in sets {
        bytes.extend_from_slice(&set.to_be_bytes())?;
    }
    Ok(())
}

/// A list that makes the moves of a round so many times.
pub(crate) fn add_moves(bytes: &mut Vec<u8>, times: u16, round: &[(u8, u8)]) -> Result<(), Fail> {
    let [c1, c0] = times
        .wrapping_mul(u16::try_from(round.len())?)
        .to_be_bytes();
    bytes.extend_from_slice(&[67, 70, 77, 0, 1, c1, c0])?;
    for _ in 0..times {
        for (kind, place) in round {
            bytes.extend_from_slice(&[*kind, *place])?;
        }
    }
    Ok(())
}

/// The job of an image, a layout and the rounds of moves.
pub(crate) fn job_of(
    heap: Global,
    (handler, rows): (u16, &[Row]),
    sets: &[u32],
    times: u16,
    round: &[(u8, u8)],
) -> Result<Vec<u8>, Fail> {
    let mut bytes = Vec::new(heap);
    add_image(&mut bytes, handler, rows)?;
    add_layout(&mut bytes, sets)?;
    add_moves(&mut bytes, times, round)?;
    Ok(bytes)
}
