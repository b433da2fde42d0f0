//! The questions of a record, asked of one that stands alone in an image, at bytes 9 to 16.
use crate::images::{accepted, one, refusal_of, refused};

#[test]
fn operations_at_both_ends(rt: HostRuntime) {
    accepted(
        &rt,
        "the first and the last of both ranges",
        &[
            [0, 0, 0, 0, 0, 0, 0, 0],
            [6, 0, 0, 0, 0, 0, 0, 0],
            [16, 0, 0, 0, 0, 0, 0, 0],
            [31, 0, 0, 0, 0, 0, 0, 0],
        ],
    );
    refused(
        &rt,
        "beside both ranges",
        &[
            ([7, 0, 0, 0, 0, 0, 0, 0], 7, 9),
            ([15, 0, 0, 0, 0, 0, 0, 0], 7, 9),
            ([32, 0, 0, 0, 0, 0, 0, 0], 7, 9),
            ([255, 0, 0, 0, 0, 0, 0, 0], 7, 9),
        ],
    );
}

#[test]
fn every_operation(rt: HostRuntime) {
    for operation in 0..=255u8 {
        let known = operation < 7 || (operation > 15 && operation < 32);
        let expected = if known { None } else { Some((7, 9)) };
        let told = refusal_of(&one([operation, 0, 0, 0, 0, 0, 0, 0]));
        assert_eq!(rt; (operation, told), (operation, expected), "every field 0");
    }
}

#[test]
fn register_15_in_each_field(rt: HostRuntime) {
    accepted(
        &rt,
        "15 is a register",
        &[
            [2, 15, 0, 0, 255, 255, 255, 255],
            [3, 0, 15, 0, 255, 255, 255, 255],
            [4, 0, 15, 0, 255, 255, 255, 255],
            [5, 15, 15, 0, 255, 255, 255, 255],
            [6, 0, 15, 15, 255, 255, 255, 255],
            [16, 15, 15, 15, 0, 0, 0, 0],
            [31, 15, 15, 15, 0, 0, 0, 0],
        ],
    );
}

#[test]
fn register_16_in_each_field(rt: HostRuntime) {
    refused(
        &rt,
        "16 is no register",
        &[
            ([2, 16, 0, 0, 0, 0, 0, 0], 8, 10),
            ([3, 0, 16, 0, 0, 0, 0, 0], 8, 11),
            ([4, 0, 16, 0, 0, 0, 0, 0], 8, 11),
            ([5, 16, 0, 0, 0, 0, 0, 0], 8, 10),
            ([5, 0, 16, 0, 0, 0, 0, 0], 8, 11),
            ([6, 0, 16, 0, 0, 0, 0, 0], 8, 11),
            ([6, 0, 0, 16, 0, 0, 0, 0], 8, 12),
            ([2, 255, 0, 0, 0, 0, 0, 0], 8, 10),
            ([4, 0, 255, 0, 0, 0, 0, 0], 8, 11),
            ([6, 0, 0, 255, 0, 0, 0, 0], 8, 12),
        ],
    );
}

#[test]
fn fields_of_every_unit_operation(rt: HostRuntime) {
    for operation in 16..32u8 {
        accepted(
            &rt,
            "second is a register or 16",
            &[
                [operation, 0, 0, 15, 0, 0, 0, 0],
                [operation, 15, 15, 16, 0, 0, 0, 0],
                [operation, 15, 15, 16, 255, 255, 255, 255],
            ],
        );
        refused(
            &rt,
            "a field out of range, or a literal that is not used",
            &[
                ([operation, 16, 0, 0, 0, 0, 0, 0], 8, 10),
                ([operation, 0, 16, 0, 0, 0, 0, 0], 8, 11),
                ([operation, 0, 0, 17, 0, 0, 0, 0], 8, 12),
                ([operation, 0, 0, 255, 0, 0, 0, 0], 8, 12),
                ([operation, 0, 0, 15, 0, 0, 0, 1], 9, 13),
                ([operation, 0, 0, 0, 1, 0, 0, 0], 9, 13),
            ],
        );
    }
}

#[test]
fn hints(rt: HostRuntime) {
    let known = [[3, 0, 0, 0, 0, 0, 0, 0], [3, 1, 0, 0, 0, 0, 0, 0]];
    accepted(&rt, "0 and 1 are hints", &known);
    refused(
        &rt,
        "2 is no hint",
        &[
            ([3, 2, 0, 0, 0, 0, 0, 0], 8, 10),
            ([3, 15, 0, 0, 0, 0, 0, 0], 8, 10),
            ([3, 255, 0, 0, 0, 0, 0, 0], 8, 10),
        ],
    );
}

#[test]
fn unused_fields(rt: HostRuntime) {
    refused(
        &rt,
        "an unused field is 0",
        &[
            ([0, 1, 0, 0, 0, 0, 0, 0], 9, 10),
            ([0, 0, 1, 0, 0, 0, 0, 0], 9, 11),
            ([0, 0, 0, 1, 0, 0, 0, 0], 9, 12),
            ([1, 1, 0, 0, 0, 0, 0, 0], 9, 10),
            ([1, 0, 1, 0, 0, 0, 0, 0], 9, 11),
            ([1, 0, 0, 1, 0, 0, 0, 0], 9, 12),
            ([2, 0, 1, 0, 0, 0, 0, 0], 9, 11),
            ([2, 0, 0, 1, 0, 0, 0, 0], 9, 12),
            ([3, 0, 0, 1, 0, 0, 0, 0], 9, 12),
            ([4, 1, 0, 0, 0, 0, 0, 0], 9, 10),
            ([4, 0, 0, 1, 0, 0, 0, 0], 9, 12),
            ([5, 0, 0, 1, 0, 0, 0, 0], 9, 12),
            ([6, 1, 0, 0, 0, 0, 0, 0], 9, 10),
            ([0, 16, 0, 0, 0, 0, 0, 0], 9, 10),
            ([0, 0, 0, 255, 0, 0, 0, 0], 9, 12),
            ([4, 255, 0, 0, 0, 0, 0, 0], 9, 10),
        ],
    );
}

#[test]
fn each_byte_of_an_unused_literal(rt: HostRuntime) {
    refused(
        &rt,
        "the literal begins at byte 13",
        &[
            ([0, 0, 0, 0, 1, 0, 0, 0], 9, 13),
            ([0, 0, 0, 0, 0, 1, 0, 0], 9, 13),
            ([0, 0, 0, 0, 0, 0, 1, 0], 9, 13),
            ([0, 0, 0, 0, 0, 0, 0, 1], 9, 13),
            ([16, 0, 0, 0, 0, 128, 0, 0], 9, 13),
            ([31, 0, 0, 15, 0, 0, 128, 0], 9, 13),
        ],
    );
}
