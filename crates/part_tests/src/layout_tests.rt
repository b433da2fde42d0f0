//! Layouts: the six bytes that they begin with, the sets, and what a stage can execute.
use crate::told::{Told, told, two_stages};
use layout::read_layout;
use std::process::Abort;

fn refusal_of(bytes: &[u8]) -> Told {
    read_layout(bytes).err().map(|fault| told(fault.into()))
}

/// The layout of sixteen stages, of which one byte is not 0.
fn sixteen(at: usize, byte: u8) -> [u8; 70] {
    let mut bytes = headed(*b"CFL\0\x01\x10");
    if at < 70 {
        bytes[at] = byte;
    }
    bytes
}

/// A head, and sixteen empty sets.
fn headed(head: [u8; 6]) -> [u8; 70] {
    let mut bytes = [0; 70];
    bytes[..6].copy_from_slice(&head);
    bytes
}

/// Each head, before sixteen empty sets, has this answer.
fn heads_are(rt: &impl Abort, text: &str, table: &[([u8; 6], Told)]) {
    for (head, expected) in table {
        let found = refusal_of(&headed(*head));
        assert_eq!(rt;
            (*head, found),
            (*head, *expected),
            "a head, sixteen empty sets: {text}"
        );
    }
}

/// The sets of the bottom and the top of two stages have this answer.
fn sets_are(rt: &impl Abort, text: &str, table: &[(u32, u32, Told)]) {
    for (bottom, top, expected) in table {
        let case = (*bottom, *top);
        let found = refusal_of(&two_stages(*bottom, *top));
        assert_eq!(rt; (case, found), (case, *expected), "bottom, top: {text}");
    }
}

#[test]
fn every_shorter_length(rt: HostRuntime) {
    let bytes = headed(*b"CFL\0\x01\x10");
    for length in 0..70usize {
        let number = if length < 6 { 10 } else { 14 };
        let found = refusal_of(&bytes[0..length]);
        assert_eq!(rt; found, Some((number, length)), "the place is the length");
    }
    assert_eq!(rt; refusal_of(&bytes), None, "nothing is missing");
}

#[test]
fn each_letter_of_the_mark(rt: HostRuntime) {
    heads_are(
        &rt,
        "the place is 0, whichever letter is wrong",
        &[
            (*b"CFL\0\x01\x02", None),
            (*b"BFL\0\x01\x02", Some((11, 0))),
            (*b"cFL\0\x01\x02", Some((11, 0))),
            (*b"CEL\0\x01\x02", Some((11, 0))),
            (*b"CfL\0\x01\x02", Some((11, 0))),
            (*b"CFK\0\x01\x02", Some((11, 0))),
            (*b"CFM\0\x01\x02", Some((11, 0))),
            (*b"CFP\0\x01\x02", Some((11, 0))),
            (*b"LFC\0\x01\x02", Some((11, 0))),
            ([0; 6], Some((11, 0))),
            ([255; 6], Some((11, 0))),
        ],
    );
}

#[test]
fn first_question_decides(rt: HostRuntime) {
    heads_are(
        &rt,
        "mark, version, stages; 13 before 14",
        &[
            (*b"CFM\0\x02\x01", Some((11, 0))),
            (*b"CFL\0\x02\x01", Some((12, 3))),
            (*b"CFL\0\x01\x01", Some((13, 5))),
            (*b"CFL\0\x01\x12", Some((13, 5))),
            (*b"CFL\0\x01\xff", Some((13, 5))),
        ],
    );
}

#[test]
fn versions(rt: HostRuntime) {
    heads_are(
        &rt,
        "0, 1, 2, 256, 257 and 65,535",
        &[
            (*b"CFL\0\0\x02", Some((12, 3))),
            (*b"CFL\0\x01\x02", None),
            (*b"CFL\0\x02\x02", Some((12, 3))),
            (*b"CFL\x01\0\x02", Some((12, 3))),
            (*b"CFL\x01\x01\x02", Some((12, 3))),
            (*b"CFL\xff\xff\x02", Some((12, 3))),
        ],
    );
}

/// What a layout tells of an operation: how many stages there are, which of stages 0 to 3 and of
/// one far past the top can execute it, and the last that can.
type Abilities = (usize, [bool; 5], Option<usize>);

/// What the layout tells of the operation, and how many bytes follow it.
fn able(bytes: &[u8], operation: u8) -> Option<(Abilities, usize)> {
    let (layout, rest) = read_layout(bytes).ok()?;
    let stages = [
        layout.able(0, operation),
        layout.able(1, operation),
        layout.able(2, operation),
        layout.able(3, operation),
        layout.able(usize::MAX, operation),
    ];
    let abilities = (layout.stages(), stages, layout.last_able(operation));
    Some((abilities, rest.len()))
}

#[test]
fn numbers_of_stages(rt: HostRuntime) {
    for stages in 0..18u8 {
        let n = usize::from(stages);
        let expected = if n < 2 || n > 16 {
            (Some((13, 5)), None)
        } else {
            (None, Some(((n, [false; 5], None), 64 - 4 * n)))
        };
        let bytes = headed([67, 70, 76, 0, 1, stages]);
        assert_eq!(rt; (refusal_of(&bytes), able(&bytes, 2)), expected, "2 to 16");
    }
}

#[test]
fn head_before_length_before_sets(rt: HostRuntime) {
    let bytes = two_stages(1, 1);
    let found = (refusal_of(b"CFM\0\x02"), refusal_of(&bytes[0..13]));
    assert_eq!(rt;
        found,
        (Some((10, 5)), Some((14, 13))),
        "10 before 11, 14 before 15"
    );
}

#[test]
fn some_bits_of_the_bottom_set(rt: HostRuntime) {
    sets_are(
        &rt,
        "bits 0, 1, 2, 4, 5, 6, 7, 15, 16, 31 and several",
        &[
            (0, 0, None),
            (1, 0, Some((15, 6))),
            (2, 0, Some((15, 6))),
            (4, 0, None),
            (16, 0, None),
            (32, 0, Some((16, 6))),
            (64, 0, Some((16, 6))),
            (96, 0, Some((16, 6))),
            (128, 0, Some((15, 6))),
            (32768, 0, Some((15, 6))),
            (65536, 0, None),
            (2147483648, 0, None),
            (4294901788, 0, None),
            (4294967295, 0, Some((15, 6))),
        ],
    );
}

#[test]
fn some_bits_of_the_top_set(rt: HostRuntime) {
    sets_are(
        &rt,
        "bits 0, 1, 2, 5, 6, 7, 15, 16, 31 and several",
        &[
            (0, 1, Some((15, 10))),
            (0, 2, Some((15, 10))),
            (0, 4, None),
            (0, 32, None),
            (0, 64, None),
            (0, 128, Some((15, 10))),
            (0, 32768, Some((15, 10))),
            (0, 65536, None),
            (0, 2147483648, None),
            (0, 4294901884, None),
            (0, 4294967295, Some((15, 10))),
        ],
    );
}

/// May bit k of a set be 1: in the top stage, and below it?
fn allowed(bit: u32) -> (bool, bool) {
    let heard = (bit > 1 && bit < 7) || bit > 15;
    (heard, heard && bit != 5 && bit != 6)
}

#[test]
fn every_bit(rt: HostRuntime) {
    for bit in 0..32u32 {
        let set = 1u32 << bit;
        let found = (
            refusal_of(&two_stages(0, set)).is_none(),
            refusal_of(&two_stages(set, 0)).is_none(),
        );
        assert_eq!(rt; (bit, found), (bit, allowed(bit)), "top, bottom");
    }
}

#[test]
fn lower_stages_first(rt: HostRuntime) {
    sets_are(
        &rt,
        "for each stage 15, then 16",
        &[
            (33, 0, Some((15, 6))),
            (192, 0, Some((15, 6))),
            (0, 33, Some((15, 10))),
            (1, 1, Some((15, 6))),
            (32, 1, Some((16, 6))),
            (64, 128, Some((16, 6))),
            (32, 32, Some((16, 6))),
            (4, 96, None),
            (4, 97, Some((15, 10))),
        ],
    );
}

#[test]
fn sets_of_sixteen_stages(rt: HostRuntime) {
    let table = [
        (9, 32, Some((16, 6))),
        (13, 32, Some((16, 10))),
        (65, 32, Some((16, 62))),
        (65, 64, Some((16, 62))),
        (65, 33, Some((15, 62))),
        (69, 32, None),
        (69, 64, None),
        (69, 1, Some((15, 66))),
        (68, 128, Some((15, 66))),
        (67, 255, None),
        (66, 255, None),
    ];
    for (at, byte, expected) in table {
        let found = refusal_of(&sixteen(at, byte));
        assert_eq!(rt;
            (at, byte, found),
            (at, byte, expected),
            "stages 0, 1, 14 and 15"
        );
    }
}

/// Three stages: 2 and 16; 2, 3 and 31; 5.
const THREE: [u8; 18] = *b"CFL\0\x01\x03\0\x01\0\x04\x80\0\0\x0c\0\0\0\x20";

#[test]
fn able_stages(rt: HostRuntime) {
    let none = ([false; 5], None);
    let table = [
        (0, none),
        (1, none),
        (2, ([true, true, false, false, false], Some(1))),
        (3, ([false, true, false, false, false], Some(1))),
        (4, none),
        (5, ([false, false, true, false, false], Some(2))),
        (6, none),
        (15, none),
        (16, ([true, false, false, false, false], Some(0))),
        (17, none),
        (31, ([false, true, false, false, false], Some(1))),
        (32, none),
        (34, none),
        (255, none),
    ];
    for (operation, expected) in table {
        let (stages, last) = expected;
        let found = able(&THREE, operation);
        assert_eq!(rt;
            (operation, found),
            (operation, Some(((3, stages, last), 0))),
            "three"
        );
    }
}
