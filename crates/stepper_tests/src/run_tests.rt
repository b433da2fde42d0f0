//! Executions as a whole: how they end, and what they leave in words and log.
use crate::programs::{HALT, Line, UNUSED, leaves, rows_leave};
use bounded_log::Log;
use execution::execute;
use fields::Refusal;
use std::test::Fail;
use unit::WholeNumber;

/// Set r1 to 3, Halt.
const TWO: [u8; 25] = *b"CFP\0\x01\0\x02\0\0\x02\x01\0\0\0\0\0\x03\0\0\0\0\0\0\0\0";

/// A place of the log that no step has filled.
const STAYS: Line = (4242, 3, 15, 24);

#[test]
fn endless_loop(rt: HostRuntime) -> Result<(), Fail> {
    let bytes = b"CFP\0\x01\0\x01\0\0\x01\0\0\0\0\0\0\0";
    let lines = [(0, 0, 0, 0); 2000];
    leaves(
        &rt,
        "a jump to itself",
        bytes,
        &mut [],
        &mut [UNUSED; 2000],
        (2000, false),
        &lines,
    )
}

#[test]
fn log_beyond_the_steps(rt: HostRuntime) -> Result<(), Fail> {
    let lines = [(0, 1, 1, 3), (1, 4, 0, 0), STAYS, STAYS, STAYS];
    leaves(
        &rt,
        "three places stay",
        &TWO,
        &mut [],
        &mut [UNUSED; 5],
        (2, true),
        &lines,
    )
}

#[test]
fn length_of_the_log(rt: HostRuntime) -> Result<(), Fail> {
    let lines = [(0, 1, 1, 3), (1, 4, 0, 0)];
    leaves(&rt, "no place", &TWO, &mut [], &mut [], (0, false), &[])?;
    leaves(
        &rt,
        "one place",
        &TWO,
        &mut [],
        &mut [UNUSED],
        (1, false),
        &lines[0..1],
    )?;
    leaves(
        &rt,
        "two places",
        &TWO,
        &mut [],
        &mut [UNUSED; 2],
        (2, true),
        &lines,
    )
}

#[test]
fn words_after_an_execution(rt: HostRuntime) -> Result<(), Fail> {
    let rows = [(5, 1, 0, 0, 2), (6, 0, 0, 1, 0), (6, 0, 0, 1, 4), HALT];
    let lines = [(0, 1, 1, 7), (1, 2, 0, 7), (2, 3, 15, 131074), (3, 4, 0, 0)];
    let mut words = [5, 6, 7, 8];
    rows_leave(
        &rt,
        "address 4 is outside of four words",
        rt.alloc(),
        (3, &rows),
        &mut words,
        &mut [UNUSED; 4],
        (4, true),
        &lines,
    )?;
    assert_eq!(rt;
        words,
        [7, 6, 7, 8],
        "word 0 takes word 2, no other changes"
    );
    Ok(())
}

#[test]
fn bytes_after_the_image(rt: HostRuntime) -> Result<(), Fail> {
    let mut bytes = TWO;
    bytes[6] = 1;
    let lines = [(0, 1, 1, 3), (1, 3, 15, 196609), (0, 1, 1, 3)];
    leaves(
        &rt,
        "the Halt after the image is not executed",
        &bytes,
        &mut [],
        &mut [UNUSED; 3],
        (3, false),
        &lines,
    )
}

#[test]
fn refused_image(rt: HostRuntime) -> Result<(), Fail> {
    // Store r0 at 0, and a record that is no instruction
    let bytes = b"CFP\0\x01\0\x02\0\0\x06\0\0\0\0\0\0\0\x07\0\0\0\0\0\0\0";
    let mut words = [1, 2, 3];
    let mut log = [UNUSED; 2];
    let Err(fault) = execute(bytes, &WholeNumber, &mut words, &mut Log::new(&mut log)) else {
        return Err(Fail::new("operation 7 is not in the table"));
    };
    let refusal = Refusal::from(fault);
    assert_eq!(rt; (refusal.number, refusal.place), (7, 17), "record 1");
    assert_eq!(rt;
        (words, log),
        ([1, 2, 3], [UNUSED; 2]),
        "words and log stay"
    );
    Ok(())
}

#[test]
fn records_of_an_execution(rt: HostRuntime) -> Result<(), Fail> {
    let execution = execute(&TWO, &WholeNumber, &mut [], &mut Log::new(&mut []))?;
    assert_eq!(rt; execution.records, 2, "two records");
    Ok(())
}

#[test]
fn more_words_than_a_memory_has(rt: HostRuntime) -> Result<(), Fail> {
    let rows = [
        (2, 1, 0, 0, 9),
        (6, 0, 0, 1, 65535),
        (6, 0, 0, 1, 65536),
        HALT,
    ];
    let lines = [
        (0, 1, 1, 9),
        (1, 2, 65535, 9),
        (2, 3, 15, 131074),
        (3, 4, 0, 0),
    ];
    let mut words = [5; 65537];
    rows_leave(
        &rt,
        "address 65,536 is outside of 65,537 words",
        rt.alloc(),
        (3, &rows),
        &mut words,
        &mut [UNUSED; 4],
        (4, true),
        &lines,
    )?;
    assert_eq!(rt;
        &words[65534..65537],
        [5, 9, 5].as_slice(),
        "only word 65,535 changes"
    );
    Ok(())
}
