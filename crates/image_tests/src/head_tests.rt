//! The nine bytes that an image begins with, and how many bytes there are.
use crate::images::{HALT, halts, heads_are, one, refusal_of, two};
use image::read_image;
use std::alloc::AllocError;
use std::test::Fail;

#[test]
fn no_bytes(rt: HostRuntime) {
    assert_eq!(rt; refusal_of(&[]), Some((1, 0)), "there are not nine bytes");
}

#[test]
fn every_shorter_length(rt: HostRuntime) {
    let bytes = one(HALT);
    for length in 0..17usize {
        let number = if length < 9 { 1 } else { 6 };
        let told = refusal_of(&bytes[0..length]);
        assert_eq!(rt; told, Some((number, length)), "the place is the length");
    }
    assert_eq!(rt; refusal_of(&bytes), None, "nothing is missing");
}

#[test]
fn every_shorter_length_of_two_records(rt: HostRuntime) {
    let bytes = two(HALT, HALT);
    for length in 9..25usize {
        let told = refusal_of(&bytes[0..length]);
        assert_eq!(rt; told, Some((6, length)), "the place is the length");
    }
    assert_eq!(rt; refusal_of(&bytes), None, "nothing is missing");
}

#[test]
fn each_letter_of_the_mark(rt: HostRuntime) {
    heads_are(
        &rt,
        "the place is 0, whichever letter is wrong",
        &[
            (*b"CFP\x00\x01\x00\x01\x00\x00", None),
            (*b"BFP\x00\x01\x00\x01\x00\x00", Some((2, 0))),
            (*b"DFP\x00\x01\x00\x01\x00\x00", Some((2, 0))),
            (*b"cFP\x00\x01\x00\x01\x00\x00", Some((2, 0))),
            (*b"CEP\x00\x01\x00\x01\x00\x00", Some((2, 0))),
            (*b"CGP\x00\x01\x00\x01\x00\x00", Some((2, 0))),
            (*b"CfP\x00\x01\x00\x01\x00\x00", Some((2, 0))),
            (*b"CFO\x00\x01\x00\x01\x00\x00", Some((2, 0))),
            (*b"CFQ\x00\x01\x00\x01\x00\x00", Some((2, 0))),
            (*b"CFp\x00\x01\x00\x01\x00\x00", Some((2, 0))),
            (*b"PFC\x00\x01\x00\x01\x00\x00", Some((2, 0))),
            ([0; 9], Some((2, 0))),
            ([255; 9], Some((2, 0))),
        ],
    );
}

#[test]
fn versions(rt: HostRuntime) {
    heads_are(
        &rt,
        "0, 1, 2, 256, 257 and 65,535",
        &[
            ([67, 70, 80, 0, 0, 0, 1, 0, 0], Some((3, 3))),
            ([67, 70, 80, 0, 1, 0, 1, 0, 0], None),
            ([67, 70, 80, 0, 2, 0, 1, 0, 0], Some((3, 3))),
            ([67, 70, 80, 1, 0, 0, 1, 0, 0], Some((3, 3))),
            ([67, 70, 80, 1, 1, 0, 1, 0, 0], Some((3, 3))),
            ([67, 70, 80, 255, 255, 0, 1, 0, 0], Some((3, 3))),
        ],
    );
}

#[test]
fn counts(rt: HostRuntime) {
    heads_are(
        &rt,
        "0, 1, 2, 4,096, 4,097 and 65,535",
        &[
            ([67, 70, 80, 0, 1, 0, 0, 0, 0], Some((4, 5))),
            ([67, 70, 80, 0, 1, 0, 1, 0, 0], None),
            ([67, 70, 80, 0, 1, 0, 2, 0, 0], Some((6, 17))),
            ([67, 70, 80, 0, 1, 16, 0, 0, 0], Some((6, 17))),
            ([67, 70, 80, 0, 1, 16, 1, 0, 0], Some((4, 5))),
            ([67, 70, 80, 0, 1, 255, 255, 0, 0], Some((4, 5))),
        ],
    );
}

#[test]
fn handlers(rt: HostRuntime) {
    heads_are(
        &rt,
        "beside the counts 1, 256 and 4,096",
        &[
            ([67, 70, 80, 0, 1, 0, 1, 0, 1], Some((5, 7))),
            ([67, 70, 80, 0, 1, 0, 1, 1, 0], Some((5, 7))),
            ([67, 70, 80, 0, 1, 0, 1, 255, 255], Some((5, 7))),
            ([67, 70, 80, 0, 1, 1, 0, 0, 255], Some((6, 17))),
            ([67, 70, 80, 0, 1, 1, 0, 1, 0], Some((5, 7))),
            ([67, 70, 80, 0, 1, 16, 0, 15, 255], Some((6, 17))),
            ([67, 70, 80, 0, 1, 16, 0, 16, 0], Some((5, 7))),
        ],
    );
}

#[test]
fn two_records_and_their_handler(rt: HostRuntime) {
    let mut bytes = two(HALT, HALT);
    assert_eq!(rt; refusal_of(&bytes), None, "handler 1 of 2 records");
    bytes[8] = 2;
    assert_eq!(rt; refusal_of(&bytes), Some((5, 7)), "handler 2 of 2 records");
}

#[test]
fn most_records(rt: HostRuntime) -> Result<(), Fail> {
    let bytes = halts(rt.alloc(), 4096, 4095, 4096)?;
    let (image, rest) = read_image(&bytes)?;
    let told = (image.version(), image.count(), image.handler());
    assert_eq!(rt;
        (told, rest.len()),
        ((1, 4096, 4095), 0),
        "the head, and what follows"
    );
    let last = (image.fetch(4095).is_some(), image.fetch(4096).is_some());
    assert_eq!(rt;
        last,
        (true, false),
        "the last place, and the place after it"
    );
    Ok(())
}

#[test]
fn most_records_short_or_too_many(rt: HostRuntime) -> Result<(), Fail> {
    let heap = rt.alloc();
    let table = [
        (4096, 0, 4096, None),
        (4096, 4095, 4095, Some((6, 32769))),
        (4096, 4096, 4096, Some((5, 7))),
        (4097, 4096, 4097, Some((4, 5))),
        (4097, 0, 4096, Some((4, 5))),
        (0, 0, 0, Some((4, 5))),
        (1, 0, 0, Some((6, 9))),
        (1, 0, 1, None),
        (1, 0, 4096, None),
    ];
    for (count, handler, records, expected) in table {
        let bytes = halts(heap, count, handler, records)?;
        let case = (count, handler, records);
        assert_eq!(rt;
            (case, refusal_of(&bytes)),
            (case, expected),
            "count, handler, records"
        );
    }
    Ok(())
}

#[test]
fn bytes_after_the_image(rt: HostRuntime) -> Result<(), Fail> {
    let bytes = b"CFP\0\x01\0\x01\0\0\0\0\0\0\0\0\0\0\xff\0C\x07";
    let (_, rest) = read_image(bytes)?;
    assert_eq!(rt;
        rest,
        [255u8, 0, 67, 7].as_slice(),
        "four bytes follow, unread"
    );
    Ok(())
}

#[test]
fn an_image_after_the_image(rt: HostRuntime) -> Result<(), Fail> {
    let bytes = b"CFP\0\x01\0\x01\0\0\0\0\0\0\0\0\0\0CFP\0\x01\0\x01\0\0\x01\0\0\0\0\0\0\x05";
    let (_, rest) = read_image(bytes)?;
    assert_eq!(rt;
        (rest.len(), refusal_of(rest)),
        (17, None),
        "the second image follows"
    );
    Ok(())
}

/// Adds 65,536 bytes of noise: the high bytes of x -> 1,664,525 x + 1,013,904,223 mod 2^32, from
/// x = 1. The first is 1,015,568,748 div 2^24 = 60.
// The tests of jobs have these lines too: a library for them would make a public call of them, with
// a contract.
fn add_noise(bytes: &mut Vec<u8>) -> Result<(), AllocError> {
    let mut x = 1u32;
    for _ in 0..65536 {
        x = x.wrapping_mul(1664525).wrapping_add(1013904223);
        let [high, _, _, _] = x.to_be_bytes();
        bytes.push(high)?;
    }
    Ok(())
}

#[test]
fn noise_has_no_mark(rt: HostRuntime) -> Result<(), Fail> {
    let mut bytes = Vec::new(rt.alloc());
    add_noise(&mut bytes)?;
    let told = (bytes.len(), refusal_of(&bytes));
    assert_eq!(rt; told, (65536, Some((2, 0))), "60 is no C");
    Ok(())
}

#[test]
fn noise_after_a_head(rt: HostRuntime) -> Result<(), Fail> {
    let mut bytes = halts(rt.alloc(), 4096, 0, 0)?;
    add_noise(&mut bytes)?;
    let told = (bytes.len(), refusal_of(&bytes));
    assert_eq!(rt; told, (65545, Some((7, 9))), "60 is no operation");
    Ok(())
}
