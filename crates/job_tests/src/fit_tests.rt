//! Fit: a stage for every record, then an operation that the unit knows.
use crate::told::{Told, add, put, told, two_stages};
use fit::fit;
use image::read_image;
use layout::read_layout;
use std::alloc::{AllocError, Global};
use std::process::Abort;
use std::test::Fail;
use unit::WholeNumber;

/// Every operation that a stage below the top may execute: 2 to 4 and 16 to 31.
const BELOW: u32 = 4294901788;

/// Load and store, 5 and 6, which only the top may execute.
const LOAD_AND_STORE: u32 = 96;

/// An image of three records: their operations, and 0 in every other field. They begin at bytes 9,
/// 17 and 25.
fn three(operations: [u8; 3]) -> [u8; 33] {
    let head = *b"CFP\0\x01\0\x03\0\0";
    let mut bytes = [0; 33];
    bytes[..9].copy_from_slice(&head);
    [bytes[9], bytes[17], bytes[25]] = operations;
    bytes
}

/// Whether an image and a layout fit, for the unit of whole numbers; none where they are not read.
fn refusal_of<'a>(image: &'a [u8], layout: &'a [u8]) -> Option<Told> {
    let (image, _) = read_image(image).ok()?;
    let (layout, _) = read_layout(layout).ok()?;
    let fault = fit::<WholeNumber>(image, layout).err();
    Some(fault.map(|fault| told(fault.into())))
}

/// Three operations, the sets of the bottom and the top, and the answer.
type Case = ([u8; 3], u32, u32, Told);

fn answers_are(rt: &impl Abort, text: &str, table: &[Case]) {
    for (operations, bottom, top, expected) in table {
        let case = (*operations, *bottom, *top);
        let found = refusal_of(&three(*operations), &two_stages(*bottom, *top));
        assert_eq!(rt;
            (case, found),
            (case, Some(*expected)),
            "operations, bottom, top: {text}"
        );
    }
}

#[test]
fn halt_and_jump_need_no_stage(rt: HostRuntime) {
    answers_are(
        &rt,
        "operations 0 and 1 need no stage",
        &[
            ([0, 0, 0], 0, 0, None),
            ([1, 1, 1], 0, 0, None),
            ([0, 1, 0], BELOW, LOAD_AND_STORE, None),
            ([0, 2, 1], 0, 0, Some((25, 17))),
        ],
    );
}

#[test]
fn one_stage_is_enough(rt: HostRuntime) {
    answers_are(
        &rt,
        "in the bottom, in the top, or in both",
        &[
            ([2, 3, 4], 28, 0, None),
            ([2, 3, 4], 0, 28, None),
            ([2, 3, 4], 20, 8, None),
            ([5, 6, 5], 0, 96, None),
            ([16, 2, 25], 65536, 33554436, None),
            ([16, 17, 25], 33751040, 0, None),
            ([2, 5, 16], 65540, 32, None),
        ],
    );
}

#[test]
fn no_stage(rt: HostRuntime) {
    answers_are(
        &rt,
        "one operation has no stage",
        &[
            ([2, 3, 4], 24, 0, Some((25, 9))),
            ([2, 3, 4], 4, 16, Some((25, 17))),
            ([2, 3, 4], 4, 8, Some((25, 25))),
            ([5, 6, 0], 0, 64, Some((25, 9))),
            ([5, 6, 0], 0, 32, Some((25, 17))),
            ([0, 1, 16], 4294836252, 96, Some((25, 25))),
            ([0, 1, 25], 4261347356, 96, Some((25, 25))),
        ],
    );
}

/// Every operation of a record that needs a stage.
const STAGED: [u8; 21] = [
    2, 3, 4, 5, 6, 16, 17, 18, 19, 20, 21, 22, 23, 24, 25, 26, 27, 28, 29, 30, 31,
];

#[test]
fn every_operation(rt: HostRuntime) {
    let every = two_stages(BELOW, LOAD_AND_STORE);
    for operation in STAGED {
        let image = three([0, operation, 1]);
        let others = !(1u32 << operation);
        let layout = two_stages(BELOW & others, LOAD_AND_STORE & others);
        let found = (refusal_of(&image, &every), refusal_of(&image, &layout));
        let known = if operation > 25 { Some((26, 17)) } else { None };
        let expected = (Some(known), Some(Some((25, 17))));
        assert_eq!(rt;
            (operation, found),
            (operation, expected),
            "with a stage, without one"
        );
    }
}

#[test]
fn unknown_operations(rt: HostRuntime) {
    answers_are(
        &rt,
        "the unit knows 16 to 25",
        &[
            ([25, 25, 25], BELOW, 0, None),
            ([26, 0, 0], BELOW, 0, Some((26, 9))),
            ([16, 26, 25], BELOW, 0, Some((26, 17))),
            ([2, 25, 26], BELOW, 0, Some((26, 25))),
            ([31, 16, 2], 0, BELOW, Some((26, 9))),
            ([1, 0, 31], 0, BELOW, Some((26, 25))),
        ],
    );
}

#[test]
fn stages_before_known_operations(rt: HostRuntime) {
    answers_are(
        &rt,
        "25 before 26",
        &[
            ([26, 0, 2], 67108864, 0, Some((25, 25))),
            ([2, 31, 0], 2147483648, 0, Some((25, 9))),
            ([31, 0, 0], 0, 0, Some((25, 9))),
            ([0, 0, 26], BELOW & 4227858431, 0, Some((25, 25))),
        ],
    );
}

/// 4,095 records that halt, and one of this operation.
fn most(heap: Global, operation: u8) -> Result<Vec<u8>, AllocError> {
    let mut bytes = b"CFP\0\x01\x10\0\0\0".to_vec(heap)?;
    add(&mut bytes, 4096, &[0; 8])?;
    put(&mut bytes, 32769, operation);
    Ok(bytes)
}

#[test]
fn the_last_of_most_records(rt: HostRuntime) -> Result<(), Fail> {
    let heap = rt.alloc();
    let table = [
        (0, None),
        (1, None),
        (4, None),
        (5, Some((25, 32769))),
        (25, None),
        (26, Some((26, 32769))),
    ];
    for (operation, expected) in table {
        let bytes = most(heap, operation)?;
        let found = refusal_of(&bytes, &two_stages(BELOW, 64));
        assert_eq!(rt;
            (operation, found),
            (operation, Some(expected)),
            "record 4,095"
        );
    }
    Ok(())
}
