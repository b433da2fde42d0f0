//! Jobs: an image, a layout and a move list in a row, with every place counted from the job's first
//! byte.
use crate::told::{Told, add, add_noise, put, told};
use job::read_job;
use std::alloc::{AllocError, Global};
use std::process::Abort;
use std::test::Fail;

/// An image of one record at bytes 0 to 16, a layout of two stages at 17 to 30, with its sets at 23
/// and 27, and a list of two moves at 31 to 41, with its moves at 38 and 40.
const JOB: [u8; 42] =
    *b"CFP\0\x01\0\x01\0\0\0\0\0\0\0\0\0\0CFL\0\x01\x02\0\x01\0\x04\0\0\0\x60CFM\0\x01\0\x02\x01\0\x02\x0f";

fn refusal_of(bytes: &[u8]) -> Told {
    read_job(bytes).err().map(|fault| told(fault.into()))
}

/// The job, with one byte changed, has this answer.
fn changes_are(rt: &impl Abort, text: &str, table: &[(usize, u8, Told)]) {
    for (at, byte, expected) in table {
        let mut bytes = JOB;
        put(&mut bytes, *at, *byte);
        let case = (*at, *byte);
        assert_eq!(rt;
            (case, refusal_of(&bytes)),
            (case, *expected),
            "at, byte: {text}"
        );
    }
}

/// The bytes, with these changes made one after the other, have these answers.
fn answers_in_turn(rt: &impl Abort, text: &str, bytes: &mut [u8], table: &[(usize, u8, Told)]) {
    for (at, byte, expected) in table {
        put(bytes, *at, *byte);
        assert_eq!(rt;
            (*at, refusal_of(bytes)),
            (*at, *expected),
            "all changes so far: {text}"
        );
    }
}

/// The number of the question that misses bytes in a job of so many.
fn short(length: usize) -> u8 {
    if length < 9 {
        1
    } else if length < 17 {
        6
    } else if length < 23 {
        10
    } else if length < 31 {
        14
    } else if length < 38 {
        17
    } else {
        21
    }
}

#[test]
fn every_shorter_length(rt: HostRuntime) {
    for length in 0..42usize {
        let found = refusal_of(&JOB[0..length]);
        assert_eq!(rt;
            found,
            Some((short(length), length)),
            "the place is the length"
        );
    }
    assert_eq!(rt; refusal_of(&JOB), None, "nothing is missing");
}

#[test]
fn refusals_of_the_image(rt: HostRuntime) {
    changes_are(
        &rt,
        "the image begins at byte 0",
        &[
            (0, 66, Some((2, 0))),
            (2, 76, Some((2, 0))),
            (4, 2, Some((3, 3))),
            (6, 0, Some((4, 5))),
            (5, 16, Some((4, 5))),
            (8, 1, Some((5, 7))),
            (5, 1, Some((6, 42))),
            (9, 7, Some((7, 9))),
            (9, 2, None),
            (10, 1, Some((9, 10))),
            (16, 1, Some((9, 13))),
        ],
    );
}

#[test]
fn refusals_of_the_layout(rt: HostRuntime) {
    changes_are(
        &rt,
        "the layout begins at byte 17",
        &[
            (17, 66, Some((11, 17))),
            (19, 80, Some((11, 17))),
            (20, 1, Some((12, 20))),
            (21, 0, Some((12, 20))),
            (22, 1, Some((13, 22))),
            (22, 17, Some((13, 22))),
            (22, 16, Some((14, 42))),
            (26, 1, Some((15, 23))),
            (30, 2, Some((15, 27))),
            (29, 128, Some((15, 27))),
            (26, 32, Some((16, 23))),
            (26, 64, Some((16, 23))),
            (30, 32, None),
            (27, 255, None),
        ],
    );
}

#[test]
fn refusals_of_the_moves(rt: HostRuntime) {
    changes_are(
        &rt,
        "the list begins at byte 31",
        &[
            (31, 66, Some((18, 31))),
            (33, 76, Some((18, 31))),
            (34, 1, Some((19, 34))),
            (35, 2, Some((19, 34))),
            (36, 63, Some((20, 36))),
            (36, 62, Some((21, 42))),
            (37, 3, Some((21, 42))),
            (38, 0, Some((22, 38))),
            (40, 9, Some((22, 40))),
            (39, 1, Some((23, 39))),
            (41, 16, Some((23, 41))),
            (40, 8, Some((23, 41))),
            (41, 0, None),
        ],
    );
}

/// A part that claims more or fewer bytes moves the parts after it.
#[test]
fn other_sizes(rt: HostRuntime) {
    changes_are(
        &rt,
        "where the next part or nothing should be",
        &[
            (6, 2, Some((7, 17))),
            (22, 3, Some((16, 27))),
            (37, 1, Some((24, 40))),
            (37, 0, Some((24, 38))),
        ],
    );
}

/// The job with a byte after it.
fn longer(byte: u8) -> [u8; 43] {
    let mut bytes = [byte; 43];
    bytes[..42].copy_from_slice(&JOB);
    bytes
}

#[test]
fn one_byte_left_over(rt: HostRuntime) {
    for byte in 0..=255u8 {
        let found = refusal_of(&longer(byte));
        assert_eq!(rt;
            (byte, found),
            (byte, Some((24, 42))),
            "the first byte left over"
        );
    }
}

#[test]
fn first_part_decides(rt: HostRuntime) {
    let mut bytes = longer(1);
    answers_in_turn(
        &rt,
        "the last part first",
        &mut bytes,
        &[
            (41, 16, Some((23, 41))),
            (38, 0, Some((22, 38))),
            (35, 0, Some((19, 34))),
            (30, 1, Some((15, 27))),
            (26, 32, Some((16, 23))),
            (17, 0, Some((11, 17))),
            (16, 1, Some((9, 13))),
            (8, 1, Some((5, 7))),
            (0, 0, Some((2, 0))),
        ],
    );
}

#[test]
fn parts_in_another_order(rt: HostRuntime) {
    let found = [
        refusal_of(&JOB[17..42]),
        refusal_of(&JOB[31..42]),
        refusal_of(b"CFP\0\x01\0\x01\0\0\0\0\0\0\0\0\0\0CFM\0\x01\0\0"),
    ];
    let expected = [Some((2, 0)), Some((2, 0)), Some((11, 17))];
    assert_eq!(rt;
        found,
        expected,
        "layout first, moves first, moves after the image"
    );
}

#[test]
fn parts_of_a_job(rt: HostRuntime) -> Result<(), Fail> {
    let job = read_job(&JOB)?;
    let found = (job.image.count(), job.layout.stages(), job.moves.count());
    assert_eq!(rt; found, (1, 2, 2), "records, stages, moves");
    let able = (
        job.layout.last_able(16),
        job.layout.last_able(6),
        job.layout.last_able(3),
    );
    assert_eq!(rt;
        able,
        (Some(0), Some(1), None),
        "the last stages of 16, 6 and 3"
    );
    Ok(())
}

/// A job with as much as may be of everything: records that halt, empty sets, and moves that fetch.
/// The layout begins at byte 32,777, the list at 32,847.
fn greatest(heap: Global) -> Result<Vec<u8>, AllocError> {
    let mut bytes = b"CFP\0\x01\x10\0\0\0".to_vec(heap)?;
    add(&mut bytes, 4096, &[0; 8])?;
    bytes.extend_from_slice(b"CFL\0\x01\x10")?;
    bytes.extend_from_slice(&[0; 64])?;
    bytes.extend_from_slice(b"CFM\0\x01\x3e\x80")?;
    add(&mut bytes, 16000, &[1, 0])?;
    Ok(bytes)
}

#[test]
fn greatest_job(rt: HostRuntime) -> Result<(), Fail> {
    let mut bytes = greatest(rt.alloc())?;
    assert_eq!(rt;
        (bytes.len(), refusal_of(&bytes)),
        (64854, None),
        "as much as may be"
    );
    bytes.push(0)?;
    answers_in_turn(
        &rt,
        "the last byte first",
        &mut bytes,
        &[
            (64854, 1, Some((24, 64854))),
            (64853, 1, Some((23, 64853))),
            (64852, 9, Some((22, 64852))),
            (32853, 129, Some((20, 32852))),
            (32846, 1, Some((15, 32843))),
            (32842, 64, Some((16, 32839))),
            (32782, 17, Some((13, 32782))),
            (32769, 7, Some((7, 32769))),
        ],
    );
    Ok(())
}

#[test]
fn noise_after_each_part(rt: HostRuntime) -> Result<(), Fail> {
    let heap = rt.alloc();
    let table = [
        (0, Some((2, 0))),
        (17, Some((11, 17))),
        (31, Some((18, 31))),
        (38, Some((22, 38))),
        (42, Some((24, 42))),
    ];
    for (length, expected) in table {
        let mut bytes = begun(heap, length)?;
        add_noise(&mut bytes)?;
        assert_eq!(rt;
            (length, refusal_of(&bytes)),
            (length, expected),
            "60 begins nothing"
        );
    }
    Ok(())
}

/// So many of the job's bytes.
fn begun(heap: Global, length: usize) -> Result<Vec<u8>, AllocError> {
    JOB[..length.min(JOB.len())].to_vec(heap)
}
