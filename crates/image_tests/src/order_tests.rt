//! Where several questions have the answer no, the first decides.
use crate::images::{HALT, halts, heads_are, refusal_of, refused, refused_pairs, two};
use std::test::Fail;

#[test]
fn questions_of_the_head(rt: HostRuntime) {
    heads_are(
        &rt,
        "the lowest number decides",
        &[
            ([67, 70, 0, 0, 2, 0, 0, 0, 9], Some((2, 0))),
            ([67, 70, 80, 0, 2, 0, 0, 0, 9], Some((3, 3))),
            ([67, 70, 80, 0, 1, 0, 0, 0, 9], Some((4, 5))),
            ([67, 70, 80, 0, 1, 16, 1, 255, 255], Some((4, 5))),
            ([67, 70, 80, 0, 1, 0, 9, 0, 9], Some((5, 7))),
            ([67, 70, 80, 0, 1, 0, 9, 0, 8], Some((6, 17))),
        ],
    );
    assert_eq!(rt; refusal_of(&[0; 8]), Some((1, 8)), "1 before 2");
}

#[test]
fn length_before_records(rt: HostRuntime) {
    let bytes = two([255; 8], [255; 8]);
    assert_eq!(rt;
        refusal_of(&bytes[0..24]),
        Some((6, 24)),
        "a byte is missing"
    );
    assert_eq!(rt; refusal_of(&bytes), Some((7, 9)), "no byte is missing");
}

#[test]
fn operation_before_fields(rt: HostRuntime) {
    refused(
        &rt,
        "7 before 8 and 9",
        &[
            ([7, 255, 255, 255, 255, 255, 255, 255], 7, 9),
            ([15, 16, 0, 0, 0, 0, 0, 0], 7, 9),
            ([32, 16, 16, 17, 0, 0, 0, 1], 7, 9),
            ([255, 0, 0, 0, 0, 0, 0, 1], 7, 9),
        ],
    );
}

#[test]
fn ranges_before_zeros(rt: HostRuntime) {
    refused(
        &rt,
        "8 before 9, at whichever byte",
        &[
            ([2, 16, 1, 1, 0, 0, 0, 0], 8, 10),
            ([3, 2, 0, 1, 0, 0, 0, 0], 8, 10),
            ([3, 0, 16, 1, 0, 0, 0, 0], 8, 11),
            ([4, 1, 16, 0, 0, 0, 0, 0], 8, 11),
            ([4, 1, 16, 1, 0, 0, 0, 0], 8, 11),
            ([5, 0, 16, 1, 0, 0, 0, 0], 8, 11),
            ([6, 1, 16, 0, 0, 0, 0, 0], 8, 11),
            ([6, 1, 0, 16, 0, 0, 0, 0], 8, 12),
            ([16, 16, 0, 0, 0, 0, 0, 1], 8, 10),
            ([16, 0, 16, 0, 0, 0, 0, 1], 8, 11),
            ([16, 0, 0, 17, 0, 0, 0, 1], 8, 12),
        ],
    );
}

#[test]
fn lowest_field_out_of_range(rt: HostRuntime) {
    refused(
        &rt,
        "destination, then first, then second",
        &[
            ([3, 2, 16, 0, 0, 0, 0, 0], 8, 10),
            ([5, 16, 16, 0, 0, 0, 0, 0], 8, 10),
            ([6, 0, 16, 16, 0, 0, 0, 0], 8, 11),
            ([31, 16, 16, 17, 0, 0, 0, 0], 8, 10),
            ([31, 15, 16, 17, 0, 0, 0, 0], 8, 11),
            ([31, 15, 15, 17, 0, 0, 0, 0], 8, 12),
        ],
    );
}

#[test]
fn lowest_field_that_is_not_zero(rt: HostRuntime) {
    refused(
        &rt,
        "destination, then first, then second, then literal",
        &[
            ([0, 1, 1, 1, 0, 0, 0, 1], 9, 10),
            ([0, 0, 1, 1, 0, 0, 0, 1], 9, 11),
            ([0, 0, 0, 1, 0, 0, 0, 1], 9, 12),
            ([0, 0, 0, 0, 0, 0, 0, 1], 9, 13),
            ([1, 1, 1, 1, 0, 0, 0, 1], 9, 10),
            ([1, 0, 1, 1, 0, 0, 0, 1], 9, 11),
            ([2, 1, 1, 1, 0, 0, 0, 1], 9, 11),
            ([4, 1, 1, 1, 0, 0, 0, 1], 9, 10),
        ],
    );
}

#[test]
fn fault_in_the_second_record(rt: HostRuntime) {
    refused_pairs(
        &rt,
        "record 1 begins at byte 17",
        &[
            (HALT, [7, 0, 0, 0, 0, 0, 0, 0], 7, 17),
            (HALT, [2, 16, 0, 0, 0, 0, 0, 0], 8, 18),
            (HALT, [5, 0, 16, 0, 0, 0, 0, 0], 8, 19),
            (HALT, [6, 0, 0, 16, 0, 0, 0, 0], 8, 20),
            (HALT, [0, 1, 0, 0, 0, 0, 0, 0], 9, 18),
            (HALT, [1, 0, 1, 0, 0, 0, 0, 0], 9, 19),
            (HALT, [1, 0, 0, 1, 0, 0, 0, 0], 9, 20),
            (HALT, [0, 0, 0, 0, 0, 0, 0, 1], 9, 21),
        ],
    );
}

#[test]
fn lower_record_before_higher(rt: HostRuntime) {
    let unknown = [7, 0, 0, 0, 0, 0, 0, 0];
    let outside = [2, 16, 0, 0, 0, 0, 0, 0];
    let unspared = [0, 0, 0, 0, 0, 0, 0, 1];
    refused_pairs(
        &rt,
        "the lower record is named",
        &[
            (unknown, unspared, 7, 9),
            (outside, unknown, 8, 10),
            (unspared, unknown, 9, 13),
            (unspared, outside, 9, 13),
            (unspared, unspared, 9, 13),
        ],
    );
}

fn put(bytes: &mut [u8], at: usize, byte: u8) {
    if at < bytes.len() {
        bytes[at] = byte;
    }
}

#[test]
fn faults_at_the_end_of_most_records(rt: HostRuntime) -> Result<(), Fail> {
    let mut bytes = halts(rt.alloc(), 4096, 0, 4096)?;
    let table = [
        (32776, 1, Some((9, 32773))),
        (32769, 7, Some((7, 32769))),
        (32761, 32, Some((7, 32761))),
    ];
    for (at, byte, expected) in table {
        put(&mut bytes, at, byte);
        assert_eq!(rt;
            (at, refusal_of(&bytes)),
            (at, expected),
            "records 4,095 and 4,094"
        );
    }
    Ok(())
}
