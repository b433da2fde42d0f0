//! The two memories, at both ends of their size.
use memory::{LentWords, Memory, OwnWords, Readable};
use std::process::Abort;

/// An access: the address, the word where it is a write, and the answer: the word that was read or
/// written, or the number of the refusal.
type Access = (u32, Option<u32>, Result<u32, u8>);

fn answer_of<M: Memory>(memory: &mut M, address: u32, written: Option<u32>) -> Result<u32, u8> {
    let answer = match written {
        Some(word) => memory.write(address, word).map(|()| word),
        None => memory.read(address),
    };
    answer.map_err(|fault| fault.number())
}

/// The memory has this size, before and after these accesses, which have these answers.
fn answers_are<M: Memory>(rt: &impl Abort, memory: &mut M, size: u32, table: &[Access]) {
    for (address, written, answer) in table {
        let told = (
            memory.size(),
            *address,
            answer_of(memory, *address, *written),
        );
        assert_eq!(rt; told, (size, *address, *answer), "size, address, answer");
    }
    assert_eq!(rt; memory.size(), size, "size");
}

/// Is every word of the memory 0?
fn all_zero(memory: &OwnWords) -> bool {
    (0..64).all(|address| memory.read(address) == Ok(0))
}

#[test]
fn own_words(rt: HostRuntime) {
    let mut memory = OwnWords::new();
    assert!(rt; all_zero(&memory), "every word is 0 at first");
    answers_are(
        &rt,
        &mut memory,
        64,
        &[
            (64, None, Err(44)),
            (4294967295, None, Err(44)),
            (0, Some(7), Ok(7)),
            (63, Some(4294967295), Ok(4294967295)),
            (0, None, Ok(7)),
            (1, None, Ok(0)),
            (62, None, Ok(0)),
            (63, None, Ok(4294967295)),
        ],
    );
}

#[test]
fn refused_writes(rt: HostRuntime) {
    let mut memory = OwnWords::new();
    let table = [
        (64, Some(9), Err(44)),
        (128, Some(9), Err(44)),
        (65536, Some(9), Err(44)),
        (4294967295, Some(9), Err(44)),
    ];
    answers_are(&rt, &mut memory, 64, &table);
    assert!(rt; all_zero(&memory), "a refused write changes nothing");
}

#[test]
fn lent_words(rt: HostRuntime) {
    let mut words = [1, 2, 3, 4];
    let table = [
        (0, None, Ok(1)),
        (3, None, Ok(4)),
        (4, None, Err(44)),
        (4294967295, None, Err(44)),
        (0, Some(10), Ok(10)),
        (3, Some(40), Ok(40)),
        (4, Some(50), Err(44)),
        (0, None, Ok(10)),
        (1, None, Ok(2)),
        (3, None, Ok(40)),
    ];
    answers_are(&rt, &mut LentWords::new(&mut words), 4, &table);
    assert_eq!(rt; words, [10, 2, 3, 40], "the caller's words");
}

#[test]
fn no_lent_words(rt: HostRuntime) {
    let table = [(0, None, Err(44)), (0, Some(1), Err(44))];
    answers_are(&rt, &mut LentWords::new(&mut []), 0, &table);
}

/// Accesses to a memory of 65,536 words that are 5.
const MOST: [Access; 8] = [
    (0, Some(6), Ok(6)),
    (65535, Some(7), Ok(7)),
    (65536, Some(8), Err(44)),
    (0, None, Ok(6)),
    (1, None, Ok(5)),
    (65534, None, Ok(5)),
    (65535, None, Ok(7)),
    (65536, None, Err(44)),
];

#[test]
fn as_many_lent_words_as_a_memory_has(rt: HostRuntime) {
    let mut words = [5; 65536];
    answers_are(&rt, &mut LentWords::new(&mut words), 65536, &MOST);
    assert_eq!(rt;
        &words[65534..65536],
        [5, 7].as_slice(),
        "the last two words"
    );
}

#[test]
fn one_lent_word_more(rt: HostRuntime) {
    let mut words = [5; 65537];
    answers_are(&rt, &mut LentWords::new(&mut words), 65536, &MOST);
    assert_eq!(rt;
        &words[65534..65537],
        [5, 7, 5].as_slice(),
        "the last word stays"
    );
}
