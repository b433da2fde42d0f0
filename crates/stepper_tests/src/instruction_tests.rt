//! Every instruction, by its retirement record.
use crate::programs::{HALT, yields};
use std::test::Fail;

#[test]
fn sets_and_halts(rt: HostRuntime) -> Result<(), Fail> {
    yields(
        &rt,
        "Set, Halt",
        rt.alloc(),
        0,
        &[(2, 0, 0, 0, 4294967295), (2, 15, 0, 0, 7), HALT],
        &[(0, 1, 0, 4294967295), (1, 1, 15, 7), (2, 4, 0, 0)],
    )
}

#[test]
fn jumps(rt: HostRuntime) -> Result<(), Fail> {
    yields(
        &rt,
        "Jump on and back, JumpRegister to r3",
        rt.alloc(),
        0,
        &[
            (1, 0, 0, 0, 3),
            (4, 0, 3, 0, 9),
            HALT,
            (2, 3, 0, 0, 2),
            (1, 0, 0, 0, 1),
        ],
        &[
            (0, 0, 0, 0),
            (3, 1, 3, 2),
            (4, 0, 0, 0),
            (1, 0, 0, 0),
            (2, 4, 0, 0),
        ],
    )
}

#[test]
fn branches(rt: HostRuntime) -> Result<(), Fail> {
    yields(
        &rt,
        "BranchZero taken, then not, with either hint",
        rt.alloc(),
        0,
        &[
            (3, 0, 4, 0, 2),
            HALT,
            (3, 1, 4, 0, 4),
            HALT,
            (2, 4, 0, 0, 1),
            (3, 0, 4, 0, 0),
            (3, 1, 4, 0, 0),
            HALT,
        ],
        &[
            (0, 0, 0, 0),
            (2, 0, 0, 0),
            (4, 1, 4, 1),
            (5, 0, 0, 0),
            (6, 0, 0, 0),
            (7, 4, 0, 0),
        ],
    )
}

#[test]
fn loads_and_stores(rt: HostRuntime) -> Result<(), Fail> {
    yields(
        &rt,
        "Store at 7, Load of 7 and 0, Store at 15, Load of 15",
        rt.alloc(),
        0,
        &[
            (2, 1, 0, 0, 5),
            (2, 2, 0, 0, 99),
            (6, 0, 1, 2, 2),
            (5, 3, 1, 0, 2),
            (5, 2, 0, 0, 0),
            (6, 0, 0, 3, 15),
            (5, 1, 1, 0, 10),
            HALT,
        ],
        &[
            (0, 1, 1, 5),
            (1, 1, 2, 99),
            (2, 2, 7, 99),
            (3, 1, 3, 99),
            (4, 1, 2, 0),
            (5, 2, 15, 99),
            (6, 1, 1, 99),
            (7, 4, 0, 0),
        ],
    )
}

#[test]
fn addresses_wrap(rt: HostRuntime) -> Result<(), Fail> {
    yields(
        &rt,
        "addresses 0, 0, 15 and 16",
        rt.alloc(),
        5,
        &[
            (2, 1, 0, 0, 4294967295),
            (6, 0, 1, 1, 1),
            (5, 2, 1, 0, 1),
            (6, 0, 1, 2, 16),
            (5, 3, 1, 0, 17),
            HALT,
        ],
        &[
            (0, 1, 1, 4294967295),
            (1, 2, 0, 4294967295),
            (2, 1, 2, 4294967295),
            (3, 2, 15, 4294967295),
            (4, 3, 15, 131076),
            (5, 4, 0, 0),
        ],
    )
}

#[test]
fn computes_with_registers(rt: HostRuntime) -> Result<(), Fail> {
    yields(
        &rt,
        "operations 16 to 25 on 20 and 6",
        rt.alloc(),
        0,
        &[
            (2, 1, 0, 0, 20),
            (2, 2, 0, 0, 6),
            (16, 3, 1, 2, 0),
            (17, 3, 2, 1, 0),
            (18, 3, 1, 2, 0),
            (19, 3, 1, 2, 0),
            (20, 3, 1, 2, 0),
            (21, 3, 1, 2, 0),
            (22, 3, 1, 2, 0),
            (23, 3, 1, 2, 0),
            (24, 3, 1, 2, 0),
            (25, 15, 1, 2, 0),
            HALT,
        ],
        &[
            (0, 1, 1, 20),
            (1, 1, 2, 6),
            (2, 1, 3, 26),
            (3, 1, 3, 4294967282),
            (4, 1, 3, 4),
            (5, 1, 3, 22),
            (6, 1, 3, 18),
            (7, 1, 3, 1280),
            (8, 1, 3, 0),
            (9, 1, 3, 0),
            (10, 1, 3, 3),
            (11, 1, 15, 1280),
            (12, 4, 0, 0),
        ],
    )
}

#[test]
fn computes_with_literals(rt: HostRuntime) -> Result<(), Fail> {
    yields(
        &rt,
        "a second of 16 is the literal",
        rt.alloc(),
        0,
        &[
            (16, 1, 1, 16, 4294967295),
            (16, 1, 1, 16, 3),
            (17, 2, 1, 16, 3),
            (23, 2, 1, 16, 3),
            (25, 1, 1, 16, 31),
            (16, 1, 1, 1, 0),
            HALT,
        ],
        &[
            (0, 1, 1, 4294967295),
            (1, 1, 1, 2),
            (2, 1, 2, 4294967295),
            (3, 1, 2, 1),
            (4, 1, 1, 1),
            (5, 1, 1, 2),
            (6, 4, 0, 0),
        ],
    )
}
