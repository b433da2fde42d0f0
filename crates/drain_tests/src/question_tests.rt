//! The two questions of a drain, in their order.
use crate::cores::{FREE, Row, built, core_of, drains};
use bounded_log::Log;
use memory::LentWords;
use moves::Move;
use pipeline::Pipeline;
use std::process::Abort;
use std::test::Fail;
use unit::WholeNumber;

const ROWS: [Row; 2] = [(2, 1, 0, 0, 7), (0, 0, 0, 0, 0)];

/// A drain with these free places is refused so, and logs nothing.
fn refuses(rt: &impl Abort, pipeline: &mut Pipeline<'_>, places: &mut [Move], number: u8) {
    let mut log = Log::new(places);
    let found = pipeline
        .drain(&WholeNumber, &mut LentWords::new(&mut [0; 4]), &mut log)
        .map(|drain| drain.moves)
        .map_err(|refusal| refusal.number());
    assert_eq!(rt;
        (found, log.count()),
        (Err(number), 0),
        "a refusal, and how many moves are logged"
    );
}

/// Two stages ask for 24 places, sixteen for 584: with one place fewer the drain is refused, and has
/// changed nothing for the drains that follow. Behind the halt it is refused for that alone.
fn asks(rt: &impl Abort, pipeline: &mut Pipeline<'_>, short: &mut [Move]) {
    refuses(rt, pipeline, short, 39);
    drains(rt, pipeline, (0, 1, 1, 7));
    refuses(rt, pipeline, short, 39);
    drains(rt, pipeline, (1, 4, 0, 0));
    refuses(rt, pipeline, short, 30);
    refuses(rt, pipeline, &mut [FREE; 584], 30);
}

#[test]
fn two_stages(rt: HostRuntime) -> Result<(), Fail> {
    let (image, layout) = core_of(rt.alloc(), 0, &ROWS, 2)?;
    let mut pipeline = built(&image, &layout)?;
    asks(&rt, &mut pipeline, &mut [FREE; 23]);
    Ok(())
}

#[test]
fn sixteen_stages(rt: HostRuntime) -> Result<(), Fail> {
    let (image, layout) = core_of(rt.alloc(), 0, &ROWS, 16)?;
    let mut pipeline = built(&image, &layout)?;
    asks(&rt, &mut pipeline, &mut [FREE; 583]);
    Ok(())
}
