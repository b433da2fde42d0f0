//! Every cause of a trap: r15 takes 65,536 * cause + (place mod 65,536), and the handler is next.
use crate::programs::{HALT, yields};
use std::test::Fail;

#[test]
fn outside_the_memory(rt: HostRuntime) -> Result<(), Fail> {
    yields(
        &rt,
        "cause 2, at a Load of 16 and at a Store at 4,294,967,295",
        rt.alloc(),
        3,
        &[
            (5, 1, 0, 0, 16),
            HALT,
            (6, 0, 0, 1, 4294967295),
            (3, 0, 1, 0, 6),
            HALT,
            HALT,
            (2, 1, 0, 0, 1),
            (1, 0, 0, 0, 2),
        ],
        &[
            (0, 3, 15, 131072),
            (3, 0, 0, 0),
            (6, 1, 1, 1),
            (7, 0, 0, 0),
            (2, 3, 15, 131074),
            (3, 0, 0, 0),
            (4, 4, 0, 0),
        ],
    )
}

#[test]
fn past_the_count(rt: HostRuntime) -> Result<(), Fail> {
    let table = [
        (3, 196611),
        (4, 196612),
        (65535, 262143),
        (65536, 196608),
        (70000, 201072),
        (4294967295, 262143),
    ];
    for (target, word) in table {
        yields(
            &rt,
            "cause 3 after a Jump out of three records",
            rt.alloc(),
            2,
            &[(1, 0, 0, 0, target), HALT, HALT],
            &[(0, 0, 0, 0), (target, 3, 15, word), (2, 4, 0, 0)],
        )?;
    }
    Ok(())
}

#[test]
fn off_the_end(rt: HostRuntime) -> Result<(), Fail> {
    yields(
        &rt,
        "cause 3 at the place after the last record",
        rt.alloc(),
        0,
        &[(3, 0, 15, 0, 2), HALT, (2, 1, 0, 0, 1)],
        &[
            (0, 0, 0, 0),
            (2, 1, 1, 1),
            (3, 3, 15, 196611),
            (0, 0, 0, 0),
            (1, 4, 0, 0),
        ],
    )
}

#[test]
fn quotient_by_zero(rt: HostRuntime) -> Result<(), Fail> {
    yields(
        &rt,
        "cause 17 at place 4: r15 takes the word, r3 and r14 stay",
        rt.alloc(),
        6,
        &[
            (2, 3, 0, 0, 77),
            (2, 14, 0, 0, 14),
            (1, 0, 0, 0, 4),
            HALT,
            (24, 3, 3, 5, 0),
            HALT,
            (16, 4, 3, 16, 0),
            (16, 5, 15, 16, 0),
            (16, 6, 14, 16, 0),
            HALT,
        ],
        &[
            (0, 1, 3, 77),
            (1, 1, 14, 14),
            (2, 0, 0, 0),
            (4, 3, 15, 1114116),
            (6, 1, 4, 77),
            (7, 1, 5, 1114116),
            (8, 1, 6, 14),
            (9, 4, 0, 0),
        ],
    )
}

#[test]
fn unknown_unit_operations(rt: HostRuntime) -> Result<(), Fail> {
    for operation in 26..32u8 {
        yields(
            &rt,
            "cause 31 at place 2, and the destination stays",
            rt.alloc(),
            3,
            &[
                (1, 0, 0, 0, 2),
                HALT,
                (operation, 1, 0, 16, 8),
                (16, 1, 1, 16, 0),
                HALT,
            ],
            &[
                (0, 0, 0, 0),
                (2, 3, 15, 2031618),
                (3, 1, 1, 0),
                (4, 4, 0, 0),
            ],
        )?;
    }
    Ok(())
}

#[test]
fn trap_at_the_handler(rt: HostRuntime) -> Result<(), Fail> {
    yields(
        &rt,
        "the handler divides by r15, which is not 0 the second time",
        rt.alloc(),
        0,
        &[(24, 1, 0, 15, 0), HALT],
        &[(0, 3, 15, 1114112), (0, 1, 1, 0), (1, 4, 0, 0)],
    )
}
