//! Single steps, and the state between them.
use crate::programs::{HALT, Line, Row, image_of, line_of};
use image::read_image;
use instruction::Register;
use memory::{OwnWords, Readable};
use std::alloc::Global;
use std::process::Abort;
use std::test::Fail;
use stepper::Stepper;
use unit::WholeNumber;

/// The place, the halted mark, r1, r2 and r15, and the words at 0 and 63.
type State = (u32, bool, [u32; 3], [Option<u32>; 2]);

fn state_of(stepper: &Stepper<'_>, memory: &OwnWords) -> State {
    let registers = [
        stepper.register(Register::named(1)),
        stepper.register(Register::named(2)),
        stepper.register(Register::named(15)),
    ];
    let words = [memory.read(0).ok(), memory.read(63).ok()];
    (stepper.place(), stepper.halted(), registers, words)
}

/// The line of a step, or the number of its refusal.
fn line_or_refusal(stepper: &mut Stepper<'_>, memory: &mut OwnWords) -> Result<Line, u8> {
    stepper
        .step(&WholeNumber, memory)
        .map(line_of)
        .map_err(|fault| fault.number())
}

/// The state before each step of the rows, from the start, and the step's answer.
fn steps_are(
    rt: &impl Abort,
    heap: Global,
    (handler, rows): (u16, &[Row]),
    table: &[(State, Result<Line, u8>)],
) -> Result<(), Fail> {
    let bytes = image_of(heap, handler, rows)?;
    let (image, _) = read_image(&bytes)?;
    let mut stepper = Stepper::new(image);
    let mut memory = OwnWords::new();
    for row in table {
        let state = state_of(&stepper, &memory);
        let answer = line_or_refusal(&mut stepper, &mut memory);
        assert_eq!(rt;
            (state, answer),
            *row,
            "the state before a step, and the answer"
        );
    }
    Ok(())
}

#[test]
fn states_of_a_program(rt: HostRuntime) -> Result<(), Fail> {
    let rows = [
        (2, 1, 0, 0, 8),
        (6, 0, 1, 1, 55),
        (5, 2, 1, 0, 56),
        HALT,
        (5, 1, 0, 0, 63),
        HALT,
    ];
    let end = (6, true, [8, 0, 131074], [Some(0), Some(8)]);
    steps_are(
        &rt,
        rt.alloc(),
        (4, &rows),
        &[
            ((0, false, [0, 0, 0], [Some(0), Some(0)]), Ok((0, 1, 1, 8))),
            ((1, false, [8, 0, 0], [Some(0), Some(0)]), Ok((1, 2, 63, 8))),
            (
                (2, false, [8, 0, 0], [Some(0), Some(8)]),
                Ok((2, 3, 15, 131074)),
            ),
            (
                (4, false, [8, 0, 131074], [Some(0), Some(8)]),
                Ok((4, 1, 1, 8)),
            ),
            (
                (5, false, [8, 0, 131074], [Some(0), Some(8)]),
                Ok((5, 4, 0, 0)),
            ),
            (end, Err(30)),
            (end, Err(30)),
        ],
    )
}

#[test]
fn place_after_a_trap(rt: HostRuntime) -> Result<(), Fail> {
    let rows = [(1, 0, 0, 0, 70000), HALT, (6, 0, 0, 15, 0)];
    steps_are(
        &rt,
        rt.alloc(),
        (2, &rows),
        &[
            ((0, false, [0, 0, 0], [Some(0), Some(0)]), Ok((0, 0, 0, 0))),
            (
                (70000, false, [0, 0, 0], [Some(0), Some(0)]),
                Ok((70000, 3, 15, 201072)),
            ),
            (
                (2, false, [0, 0, 201072], [Some(0), Some(0)]),
                Ok((2, 2, 0, 201072)),
            ),
            (
                (3, false, [0, 0, 201072], [Some(201072), Some(0)]),
                Ok((3, 3, 15, 196611)),
            ),
            (
                (2, false, [0, 0, 196611], [Some(201072), Some(0)]),
                Ok((2, 2, 0, 196611)),
            ),
        ],
    )
}

#[test]
fn refused_after_the_halt(rt: HostRuntime) -> Result<(), Fail> {
    let halted = (1, true, [0; 3], [Some(0); 2]);
    steps_are(
        &rt,
        rt.alloc(),
        (0, &[HALT]),
        &[
            ((0, false, [0; 3], [Some(0); 2]), Ok((0, 4, 0, 0))),
            (halted, Err(30)),
            (halted, Err(30)),
        ],
    )
}

#[test]
fn every_register_is_0_at_the_start(rt: HostRuntime) -> Result<(), Fail> {
    let (image, _) = read_image(b"CFP\0\x01\0\x01\0\0\0\0\0\0\0\0\0\0")?;
    let stepper = Stepper::new(image);
    for number in 0..16u8 {
        assert_eq!(rt;
            (number, stepper.register(Register::named(number))),
            (number, 0)
        );
    }
    Ok(())
}
