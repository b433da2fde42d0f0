//! Pipelines that moves have led into a corner: each drains to the next record all the same.
use crate::cores::{
    DROP, EXECUTE, FETCH, INSERT, LOWER, RAISE, READ, RETIRE, Row, built, core_of, drains, gives,
    makes,
};
use pipeline::Pipeline;
use std::process::Abort;
use std::test::Fail;

const HALT: Row = (0, 0, 0, 0, 0);

/// r1 takes 4; a jump to r1 is guessed to go to 2; a halt and a setting of r3 stand on the wrong path;
/// at 4 r2 takes 9.
const WRONG_PATH: [Row; 6] = [
    (2, 1, 0, 0, 4),
    (4, 0, 1, 0, 2),
    HALT,
    (2, 3, 0, 0, 1),
    (2, 2, 0, 0, 9),
    HALT,
];

/// The same jump, guessed to go to 2, where r3 is set again and again.
const FILLED_PATH: [Row; 5] = [
    (2, 1, 0, 0, 4),
    (4, 0, 1, 0, 2),
    (2, 3, 0, 0, 1),
    (1, 0, 0, 0, 2),
    HALT,
];

/// Fetches, and raises what was fetched to a stage.
fn fetches_to(rt: &impl Abort, pipeline: &mut Pipeline<'_>, stage: u8) {
    makes(rt, pipeline, FETCH, 0);
    for below in 0..stage {
        makes(rt, pipeline, RAISE, below);
    }
}

/// Lowers what stands in the top's result slot to a stage.
fn lowers_to(rt: &impl Abort, pipeline: &mut Pipeline<'_>, top: u8, stage: u8) {
    for above in (stage..top).rev() {
        makes(rt, pipeline, LOWER, above.saturating_add(1));
    }
}

/// The halt on the wrong path has closed fetch behind a jump that waits for its word.
fn closed_behind_a_halt(rt: &impl Abort, pipeline: &mut Pipeline<'_>, top: u8) {
    drains(rt, pipeline, (0, 1, 1, 4));
    fetches_to(rt, pipeline, top);
    makes(rt, pipeline, FETCH, 0);
    assert_eq!(rt; pipeline.fetch(), None, "fetch is closed behind the halt");
    drains(rt, pipeline, (1, 0, 0, 0));
    drains(rt, pipeline, (4, 1, 2, 9));
    drains(rt, pipeline, (5, 4, 0, 0));
}

/// Each result slot holds the word of r1, which nobody takes.
fn full_result_pipe(rt: &impl Abort, pipeline: &mut Pipeline<'_>, top: u8) {
    drains(rt, pipeline, (0, 1, 1, 4));
    for stage in 0..=top {
        makes(rt, pipeline, READ, 1);
        lowers_to(rt, pipeline, top, stage);
    }
    drains(rt, pipeline, (1, 0, 0, 0));
    drains(rt, pipeline, (4, 1, 2, 9));
    drains(rt, pipeline, (5, 4, 0, 0));
}

/// The jump has retired, its result stands in stage 0, and kills what is fetched until every stage
/// holds a killed packet.
fn full_of_killed_packets(rt: &impl Abort, pipeline: &mut Pipeline<'_>, top: u8) {
    drains(rt, pipeline, (0, 1, 1, 4));
    fetches_to(rt, pipeline, top);
    makes(rt, pipeline, READ, 1);
    makes(rt, pipeline, EXECUTE, top);
    lowers_to(rt, pipeline, top, 0);
    makes(rt, pipeline, DROP, 0);
    makes(rt, pipeline, INSERT, top);
    lowers_to(rt, pipeline, top, 0);
    gives(rt, pipeline, (RETIRE, 0), Some((1, 0, 0, 0)));
    for below in 0..=top {
        fetches_to(rt, pipeline, top.saturating_sub(below));
    }
    drains(rt, pipeline, (4, 4, 0, 0));
}

/// Every packet has trapped and inserted its news where it stands: only the oldest retires, and the
/// handler follows.
fn control_in_every_slot(rt: &impl Abort, pipeline: &mut Pipeline<'_>, top: u8) {
    for below in 0..=top {
        fetches_to(rt, pipeline, top.saturating_sub(below));
    }
    makes(rt, pipeline, READ, 0);
    lowers_to(rt, pipeline, top, 0);
    makes(rt, pipeline, DROP, 0);
    for stage in 0..=top {
        makes(rt, pipeline, EXECUTE, stage);
        makes(rt, pipeline, INSERT, stage);
    }
    drains(rt, pipeline, (0, 3, 15, 1114112));
    drains(rt, pipeline, (16, 4, 0, 0));
}

/// Sixteen quotients by 0, and the handler, which halts.
const TRAPS: [Row; 17] = [
    (24, 1, 0, 16, 0),
    (24, 1, 0, 16, 0),
    (24, 1, 0, 16, 0),
    (24, 1, 0, 16, 0),
    (24, 1, 0, 16, 0),
    (24, 1, 0, 16, 0),
    (24, 1, 0, 16, 0),
    (24, 1, 0, 16, 0),
    (24, 1, 0, 16, 0),
    (24, 1, 0, 16, 0),
    (24, 1, 0, 16, 0),
    (24, 1, 0, 16, 0),
    (24, 1, 0, 16, 0),
    (24, 1, 0, 16, 0),
    (24, 1, 0, 16, 0),
    (24, 1, 0, 16, 0),
    HALT,
];

#[test]
fn halts_on_wrong_paths(rt: HostRuntime) -> Result<(), Fail> {
    for stages in [2u8, 16] {
        let (image, layout) = core_of(rt.alloc(), 0, &WRONG_PATH, stages)?;
        let mut pipeline = built(&image, &layout)?;
        closed_behind_a_halt(&rt, &mut pipeline, stages.saturating_sub(1));
    }
    Ok(())
}

#[test]
fn full_result_pipes(rt: HostRuntime) -> Result<(), Fail> {
    for stages in [2u8, 16] {
        let (image, layout) = core_of(rt.alloc(), 0, &WRONG_PATH, stages)?;
        let mut pipeline = built(&image, &layout)?;
        full_result_pipe(&rt, &mut pipeline, stages.saturating_sub(1));
    }
    Ok(())
}

#[test]
fn killed_packets(rt: HostRuntime) -> Result<(), Fail> {
    for stages in [2u8, 16] {
        let (image, layout) = core_of(rt.alloc(), 0, &FILLED_PATH, stages)?;
        let mut pipeline = built(&image, &layout)?;
        full_of_killed_packets(&rt, &mut pipeline, stages.saturating_sub(1));
    }
    Ok(())
}

#[test]
fn control_results(rt: HostRuntime) -> Result<(), Fail> {
    for stages in [2u8, 16] {
        let (image, layout) = core_of(rt.alloc(), 16, &TRAPS, stages)?;
        let mut pipeline = built(&image, &layout)?;
        control_in_every_slot(&rt, &mut pipeline, stages.saturating_sub(1));
    }
    Ok(())
}
