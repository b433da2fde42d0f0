//! Windows at both ends of their bounds, and what a write through one leaves below.
use memory::{Loan, Memory, OwnWords, Readable, Window};

/// The number of the check's refusal of a window over 64 words; 0 where it fits.
fn checked(base: u32, size: u32) -> u8 {
    match Window::check(&OwnWords::new(), base, size) {
        Ok(()) => 0,
        Err(fault) => fault.number(),
    }
}

fn read<M: Memory>(memory: &M, address: u32) -> Result<u32, u8> {
    memory.read(address).map_err(|fault| fault.number())
}

fn write<M: Memory>(memory: &mut M, address: u32, word: u32) -> Result<(), u8> {
    memory.write(address, word).map_err(|fault| fault.number())
}

#[test]
fn check_at_both_ends(rt: HostRuntime) {
    let rows = [
        (0, 64, 0),
        (0, 65, 42),
        (63, 1, 0),
        (63, 2, 42),
        (64, 1, 42),
        (0, 0, 42),
        (64, 0, 42),
        (4294967295, 1, 42),
        (1, 4294967295, 42),
    ];
    for (base, size, number) in rows {
        assert_eq!(rt; checked(base, size), number, "base and size over 64 words");
    }
}

#[test]
fn write_through_a_window(rt: HostRuntime) {
    let mut window = Window::new(OwnWords::new(), 10, 4);
    assert_eq!(rt; window.size(), 4, "its size");
    assert_eq!(rt; write(&mut window, 3, 7), Ok(()), "its last address");
    assert_eq!(rt; write(&mut window, 4, 9), Err(44), "past its end");
    assert_eq!(rt; read(&window, 3), Ok(7), "the word that was written");
    let below = window.into_below();
    assert_eq!(rt; read(&below, 13), Ok(7), "the same word below");
    assert_eq!(rt;
        (read(&below, 3), read(&below, 14)),
        (Ok(0), Ok(0)),
        "no other"
    );
}

#[test]
fn window_over_a_window(rt: HostRuntime) {
    let mut memory = OwnWords::new();
    {
        let outer = Window::new(Loan::new(&mut memory), 8, 16);
        let mut inner = Window::new(outer, 4, 2);
        assert_eq!(rt; write(&mut inner, 1, 5), Ok(()), "the last of two words");
        assert_eq!(rt; write(&mut inner, 2, 6), Err(44), "past both");
    }
    assert_eq!(rt;
        (read(&memory, 13), read(&memory, 5)),
        (Ok(5), Ok(0)),
        "8 + 4 + 1"
    );
}

#[test]
fn window_of_all_words(rt: HostRuntime) {
    let mut window = Window::new(OwnWords::new(), 0, 64);
    assert_eq!(rt; write(&mut window, 63, 1), Ok(()), "the last word below");
    assert_eq!(rt; read(&window, 64), Err(44), "past it");
}

#[test]
fn misfit_has_no_words(rt: HostRuntime) {
    let mut window = Window::new(OwnWords::new(), 63, 2);
    assert_eq!(rt; window.size(), 0, "one address too many");
    assert_eq!(rt; read(&window, 0), Err(44), "nothing to read");
    assert_eq!(rt; write(&mut window, 0, 1), Err(44), "nothing to write");
    assert_eq!(rt;
        read(&window.into_below(), 63),
        Ok(0),
        "nothing changed below"
    );
}
