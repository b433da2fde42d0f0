//! The table of the whole-number unit.
use std::process::Abort;
use unit::{Unit, WholeNumber};

/// An operation, its two words, and the outcome.
type Case = (u8, u32, u32, Result<u32, u8>);

/// The outcome as a word or the number of a fault.
fn asked(operation: u8, a: u32, b: u32) -> Result<u32, u8> {
    WholeNumber
        .ask(operation, a, b)
        .map_err(|fault| fault.number)
}

fn outcomes_are(rt: &impl Abort, table: &[Case]) {
    for (operation, a, b, outcome) in table {
        let case = (*operation, *a, *b);
        let told = asked(*operation, *a, *b);
        assert_eq!(rt; (case, told), (case, *outcome), "operation, a, b; outcome");
    }
}

#[test]
fn sums_and_differences(rt: HostRuntime) {
    outcomes_are(
        &rt,
        &[
            (0, 0, 0, Ok(0)),
            (0, 2, 3, Ok(5)),
            (0, 4294967295, 1, Ok(0)),
            (0, 4294967295, 4294967295, Ok(4294967294)),
            (0, 2147483648, 2147483648, Ok(0)),
            (1, 5, 3, Ok(2)),
            (1, 3, 3, Ok(0)),
            (1, 3, 5, Ok(4294967294)),
            (1, 0, 1, Ok(4294967295)),
            (1, 0, 4294967295, Ok(1)),
        ],
    );
}

#[test]
fn bit_by_bit(rt: HostRuntime) {
    outcomes_are(
        &rt,
        &[
            (2, 12, 10, Ok(8)),
            (2, 4294967295, 1234567, Ok(1234567)),
            (2, 2863311530, 1431655765, Ok(0)),
            (3, 12, 10, Ok(14)),
            (3, 2863311530, 1431655765, Ok(4294967295)),
            (3, 0, 0, Ok(0)),
            (4, 12, 10, Ok(6)),
            (4, 4294967295, 4294967295, Ok(0)),
            (4, 4294967295, 1, Ok(4294967294)),
        ],
    );
}

#[test]
fn shifts_left(rt: HostRuntime) {
    outcomes_are(
        &rt,
        &[
            (5, 2147483651, 0, Ok(2147483651)),
            (5, 2147483651, 1, Ok(6)),
            (5, 2147483651, 31, Ok(2147483648)),
            (5, 2147483651, 32, Ok(2147483651)),
            (5, 2147483651, 33, Ok(6)),
            (5, 2147483651, 4294967295, Ok(2147483648)),
            (5, 2, 31, Ok(0)),
        ],
    );
}

#[test]
fn shifts_right(rt: HostRuntime) {
    outcomes_are(
        &rt,
        &[
            (6, 3221225473, 0, Ok(3221225473)),
            (6, 3221225473, 1, Ok(1610612736)),
            (6, 3221225473, 31, Ok(1)),
            (6, 3221225473, 32, Ok(3221225473)),
            (6, 3221225473, 33, Ok(1610612736)),
            (6, 3221225473, 4294967295, Ok(1)),
            (6, 1, 1, Ok(0)),
        ],
    );
}

#[test]
fn rotations_left(rt: HostRuntime) {
    outcomes_are(
        &rt,
        &[
            (9, 2147483650, 0, Ok(2147483650)),
            (9, 2147483650, 1, Ok(5)),
            (9, 2147483650, 31, Ok(1073741825)),
            (9, 2147483650, 32, Ok(2147483650)),
            (9, 2147483650, 33, Ok(5)),
            (9, 2147483650, 4294967295, Ok(1073741825)),
            (9, 1, 31, Ok(2147483648)),
        ],
    );
}

#[test]
fn orders_and_quotients(rt: HostRuntime) {
    outcomes_are(
        &rt,
        &[
            (7, 1, 2, Ok(1)),
            (7, 2, 2, Ok(0)),
            (7, 3, 2, Ok(0)),
            (7, 0, 4294967295, Ok(1)),
            (7, 4294967295, 0, Ok(0)),
            (8, 7, 2, Ok(3)),
            (8, 1, 2, Ok(0)),
            (8, 4294967295, 1, Ok(4294967295)),
            (8, 4294967295, 4294967295, Ok(1)),
            (8, 0, 5, Ok(0)),
            (8, 7, 0, Err(1)),
            (8, 0, 0, Err(1)),
        ],
    );
}

#[test]
fn unknown_operations(rt: HostRuntime) {
    outcomes_are(
        &rt,
        &[
            (10, 1, 1, Err(15)),
            (11, 0, 0, Err(15)),
            (12, 1, 1, Err(15)),
            (13, 1, 1, Err(15)),
            (14, 1, 1, Err(15)),
            (15, 1, 1, Err(15)),
            (16, 1, 1, Err(15)),
            (24, 1, 0, Err(15)),
            (255, 4294967295, 4294967295, Err(15)),
        ],
    );
}

#[test]
fn known_operations(rt: HostRuntime) {
    assert_eq!(rt; WholeNumber::KNOWN, 1023, "bits 0 to 9");
}
