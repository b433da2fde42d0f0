//! Images to try, and how the reader's answer is compared.
use fields::Refusal;
use image::read_image;
use std::alloc::{AllocError, Global};
use std::process::Abort;

/// A record that halts.
pub(crate) const HALT: [u8; 8] = [0; 8];

/// The number and the byte place of the refusal; none where the bytes are read.
pub(crate) fn refusal_of(bytes: &[u8]) -> Option<(u8, usize)> {
    let fault = read_image(bytes).err()?;
    let Refusal { number, place } = fault.into();
    Some((number, place))
}

/// The image of one record, with handler 0. The record begins at byte 9.
pub(crate) fn one(record: [u8; 8]) -> [u8; 17] {
    let mut bytes = *b"CFP\0\x01\0\x01\0\0\0\0\0\0\0\0\0\0";
    bytes[9..].copy_from_slice(&record);
    bytes
}

/// The image of two records, with handler 1. They begin at bytes 9 and 17.
pub(crate) fn two(lower: [u8; 8], higher: [u8; 8]) -> [u8; 25] {
    let mut bytes = *b"CFP\0\x01\0\x02\0\x01\0\0\0\0\0\0\0\0\0\0\0\0\0\0\0\0";
    bytes[9..17].copy_from_slice(&lower);
    bytes[17..].copy_from_slice(&higher);
    bytes
}

/// A head with these numbers, and so many records that halt.
pub(crate) fn halts(
    heap: Global,
    count: u16,
    handler: u16,
    records: u16,
) -> Result<Vec<u8>, AllocError> {
    let [c1, c0] = count.to_be_bytes();
    let [h1, h0] = handler.to_be_bytes();
    let mut bytes = [67, 70, 80, 0, 1, c1, c0, h1, h0].to_vec(heap)?;
    for _ in 0..records {
        bytes.extend_from_slice(&HALT)?;
    }
    Ok(bytes)
}

/// A head, and one record that halts.
fn headed(head: [u8; 9]) -> [u8; 17] {
    let mut bytes = [0; 17];
    bytes[..9].copy_from_slice(&head);
    bytes
}

/// Each head, before one record that halts, has this answer.
pub(crate) fn heads_are(rt: &impl Abort, text: &str, table: &[([u8; 9], Option<(u8, usize)>)]) {
    for (head, expected) in table {
        assert_eq!(rt;
            (*head, refusal_of(&headed(*head))),
            (*head, *expected),
            "a head, one record: {text}"
        );
    }
}

/// Each record, alone in an image, is refused with this number and this byte place.
pub(crate) fn refused(rt: &impl Abort, text: &str, table: &[([u8; 8], u8, usize)]) {
    for (record, number, place) in table {
        let told = (*record, refusal_of(&one(*record)));
        assert_eq!(rt;
            told,
            (*record, Some((*number, *place))),
            "a record, alone: {text}"
        );
    }
}

/// Each two records, in an image, are refused with this number and this byte place.
pub(crate) fn refused_pairs(rt: &impl Abort, text: &str, table: &[([u8; 8], [u8; 8], u8, usize)]) {
    for (lower, higher, number, place) in table {
        let told = (*lower, *higher, refusal_of(&two(*lower, *higher)));
        let expected = (*lower, *higher, Some((*number, *place)));
        assert_eq!(rt; told, expected, "two records: {text}");
    }
}

/// Each record, alone in an image, is read.
pub(crate) fn accepted(rt: &impl Abort, text: &str, table: &[[u8; 8]]) {
    for record in table {
        assert_eq!(rt;
            (*record, refusal_of(&one(*record))),
            (*record, None),
            "a record, alone: {text}"
        );
    }
}
