//! Move lists: the seven bytes that they begin with, the moves, and what is got from a list.
use crate::told::{Told, add, put, told};
use moves::read_moves;
use std::alloc::{AllocError, Global};
use std::process::Abort;
use std::test::Fail;

fn refusal_of(bytes: &[u8]) -> Told {
    read_moves(bytes).err().map(|fault| told(fault.into()))
}

/// The list of two moves, which begin at bytes 7 and 9.
fn two(moves: [u8; 4]) -> [u8; 11] {
    let mut bytes = *b"CFM\0\x01\0\x02\0\0\0\0";
    bytes[7..].copy_from_slice(&moves);
    bytes
}

/// A head with this count, and so many times the move.
fn many(heap: Global, count: u16, moves: u16, one: [u8; 2]) -> Result<Vec<u8>, AllocError> {
    let [c1, c0] = count.to_be_bytes();
    let mut bytes = [67, 70, 77, 0, 1, c1, c0].to_vec(heap)?;
    add(&mut bytes, moves, &one)?;
    Ok(bytes)
}

/// Each head, after which nothing follows, has this answer.
fn heads_are(rt: &impl Abort, text: &str, table: &[([u8; 7], Told)]) {
    for (head, expected) in table {
        assert_eq!(rt;
            (*head, refusal_of(head)),
            (*head, *expected),
            "a head alone: {text}"
        );
    }
}

/// Each two moves have this answer.
fn pairs_are(rt: &impl Abort, text: &str, table: &[([u8; 4], Told)]) {
    for (moves, expected) in table {
        let found = refusal_of(&two(*moves));
        assert_eq!(rt; (*moves, found), (*moves, *expected), "two moves: {text}");
    }
}

#[test]
fn every_shorter_length(rt: HostRuntime) {
    let bytes = two([1, 0, 8, 0]);
    for length in 0..11usize {
        let number = if length < 7 { 17 } else { 21 };
        let found = refusal_of(&bytes[0..length]);
        assert_eq!(rt; found, Some((number, length)), "the place is the length");
    }
    assert_eq!(rt; refusal_of(&bytes), None, "nothing is missing");
}

#[test]
fn each_letter_of_the_mark(rt: HostRuntime) {
    heads_are(
        &rt,
        "the place is 0, whichever letter is wrong",
        &[
            (*b"CFM\0\x01\0\0", None),
            (*b"BFM\0\x01\0\0", Some((18, 0))),
            (*b"cFM\0\x01\0\0", Some((18, 0))),
            (*b"CEM\0\x01\0\0", Some((18, 0))),
            (*b"CfM\0\x01\0\0", Some((18, 0))),
            (*b"CFL\0\x01\0\0", Some((18, 0))),
            (*b"CFN\0\x01\0\0", Some((18, 0))),
            (*b"CFP\0\x01\0\0", Some((18, 0))),
            (*b"MFC\0\x01\0\0", Some((18, 0))),
            ([0; 7], Some((18, 0))),
            ([255; 7], Some((18, 0))),
        ],
    );
}

#[test]
fn versions(rt: HostRuntime) {
    heads_are(
        &rt,
        "0, 1, 2, 256, 257 and 65,535",
        &[
            (*b"CFM\0\0\0\0", Some((19, 3))),
            (*b"CFM\0\x01\0\0", None),
            (*b"CFM\0\x02\0\0", Some((19, 3))),
            (*b"CFM\x01\0\0\0", Some((19, 3))),
            (*b"CFM\x01\x01\0\0", Some((19, 3))),
            (*b"CFM\xff\xff\0\0", Some((19, 3))),
        ],
    );
}

#[test]
fn counts(rt: HostRuntime) {
    heads_are(
        &rt,
        "0, 1, 256, 16,000, 16,001, 16,128 and 65,535",
        &[
            ([67, 70, 77, 0, 1, 0, 0], None),
            ([67, 70, 77, 0, 1, 0, 1], Some((21, 7))),
            ([67, 70, 77, 0, 1, 1, 0], Some((21, 7))),
            ([67, 70, 77, 0, 1, 62, 128], Some((21, 7))),
            ([67, 70, 77, 0, 1, 62, 129], Some((20, 5))),
            ([67, 70, 77, 0, 1, 63, 0], Some((20, 5))),
            ([67, 70, 77, 0, 1, 255, 255], Some((20, 5))),
        ],
    );
}

#[test]
fn first_question_decides(rt: HostRuntime) {
    heads_are(
        &rt,
        "mark, version, count; 20 before 21",
        &[
            (*b"CFL\0\x02\xff\xff", Some((18, 0))),
            (*b"CFM\0\x02\xff\xff", Some((19, 3))),
            (*b"CFM\0\x01\xff\xff", Some((20, 5))),
        ],
    );
    let bytes = two([0, 16, 0, 16]);
    let found = (refusal_of(b"CFL\0\x02\xff"), refusal_of(&bytes[0..10]));
    assert_eq!(rt;
        found,
        (Some((17, 6)), Some((21, 10))),
        "17 before 18, 21 before 22"
    );
}

#[test]
fn every_kind(rt: HostRuntime) {
    for kind in 0..=255u8 {
        let known = kind > 0 && kind < 9;
        let expected = if known { None } else { Some((22, 7)) };
        let found = refusal_of(&two([kind, 0, 1, 0]));
        assert_eq!(rt; (kind, found), (kind, expected), "the place is 0");
    }
}

#[test]
fn places_of_every_kind(rt: HostRuntime) {
    for kind in 1..9u8 {
        let most = if kind == 1 || kind > 6 { 0 } else { 15 };
        for place in 0..=255u8 {
            let expected = if place > most { Some((23, 10)) } else { None };
            let found = refusal_of(&two([1, 0, kind, place]));
            assert_eq!(rt;
                (kind, place, found),
                (kind, place, expected),
                "the second move"
            );
        }
    }
}

#[test]
fn bounds_of_moves(rt: HostRuntime) {
    pairs_are(
        &rt,
        "kinds 0, 1, 8, 9; places 0, 1, 15, 16",
        &[
            ([0, 0, 1, 0], Some((22, 7))),
            ([1, 0, 1, 0], None),
            ([1, 1, 1, 0], Some((23, 8))),
            ([2, 15, 3, 15], None),
            ([2, 16, 3, 15], Some((23, 8))),
            ([2, 15, 3, 16], Some((23, 10))),
            ([4, 15, 5, 15], None),
            ([4, 16, 5, 15], Some((23, 8))),
            ([4, 15, 5, 16], Some((23, 10))),
            ([6, 15, 6, 16], Some((23, 10))),
            ([7, 0, 8, 0], None),
            ([7, 1, 8, 0], Some((23, 8))),
            ([7, 0, 8, 1], Some((23, 10))),
            ([8, 0, 9, 0], Some((22, 9))),
        ],
    );
}

#[test]
fn lower_moves_first(rt: HostRuntime) {
    pairs_are(
        &rt,
        "for each move 22, then 23",
        &[
            ([9, 16, 1, 0], Some((22, 7))),
            ([0, 1, 0, 1], Some((22, 7))),
            ([2, 16, 9, 0], Some((23, 8))),
            ([1, 1, 0, 0], Some((23, 8))),
            ([1, 0, 9, 255], Some((22, 9))),
            ([8, 1, 8, 1], Some((23, 8))),
        ],
    );
}

/// The list's count, the kind's number and the place of a move, and how many bytes follow.
fn got(bytes: &[u8], index: u16) -> Option<(u16, Option<(u8, u8)>, usize)> {
    let (list, rest) = read_moves(bytes).ok()?;
    let found = list
        .get(index)
        .map(|found| (found.kind.number(), found.place));
    Some((list.count(), found, rest.len()))
}

#[test]
fn moves_are_got(rt: HostRuntime) {
    let bytes = b"CFM\0\x01\0\x08\x01\0\x02\x0f\x03\0\x04\x01\x05\x0e\x06\x07\x07\0\x08\0\x01";
    let table = [
        (0, Some((1, 0))),
        (1, Some((2, 15))),
        (2, Some((3, 0))),
        (3, Some((4, 1))),
        (4, Some((5, 14))),
        (5, Some((6, 7))),
        (6, Some((7, 0))),
        (7, Some((8, 0))),
        (8, None),
        (65535, None),
    ];
    for (index, expected) in table {
        assert_eq!(rt;
            got(bytes, index),
            Some((8, expected, 1)),
            "one byte follows"
        );
    }
    assert_eq!(rt;
        got(b"CFM\0\x01\0\0\x01\0\xff", 0),
        Some((0, None, 3)),
        "no moves"
    );
}

#[test]
fn most_moves(rt: HostRuntime) -> Result<(), Fail> {
    let bytes = many(rt.alloc(), 16000, 16000, [6, 15])?;
    let found = (got(&bytes, 15999), got(&bytes, 16000));
    let expected = (Some((16000, Some((6, 15)), 0)), Some((16000, None, 0)));
    assert_eq!(rt; found, expected, "the last move, and past it");
    Ok(())
}

#[test]
fn most_moves_short_or_too_many(rt: HostRuntime) -> Result<(), Fail> {
    let heap = rt.alloc();
    let table = [
        (16000, 16000, None),
        (16000, 16001, None),
        (16000, 15999, Some((21, 32005))),
        (16001, 16001, Some((20, 5))),
        (16001, 16000, Some((20, 5))),
        (65535, 16000, Some((20, 5))),
    ];
    for (count, moves, expected) in table {
        let bytes = many(heap, count, moves, [3, 0])?;
        let case = (count, moves);
        assert_eq!(rt;
            (case, refusal_of(&bytes)),
            (case, expected),
            "count, moves"
        );
    }
    Ok(())
}

#[test]
fn faults_at_the_end_of_most_moves(rt: HostRuntime) -> Result<(), Fail> {
    let mut bytes = many(rt.alloc(), 16000, 16000, [2, 15])?;
    let table = [
        (32006, 16, Some((23, 32006))),
        (32005, 9, Some((22, 32005))),
        (32004, 255, Some((23, 32004))),
        (32003, 0, Some((22, 32003))),
    ];
    for (at, byte, expected) in table {
        put(&mut bytes, at, byte);
        assert_eq!(rt;
            (at, refusal_of(&bytes)),
            (at, expected),
            "moves 15,999 and 15,998"
        );
    }
    Ok(())
}
