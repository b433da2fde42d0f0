//! The instructions that records are.
use crate::images::{one, two};
use image::{Image, read_image};
use instruction::{Instruction, Operand, Register};
use record::Record;
use std::process::Abort;
use std::test::Fail;

/// A register as 0 and its number, a literal as 1 and the word.
fn operand_told(operand: Operand) -> (u8, u32) {
    match operand {
        Operand::Register(register) => (0, u32::from(register.number())),
        Operand::Literal(word) => (1, word),
    }
}

/// An instruction as numbers: its variant's place in the table, two small numbers, two operands.
// As numbers, so that a record and its instruction are one row of a table.
type Told = (u8, u8, u8, (u8, u32), (u8, u32));

fn told(instruction: Instruction) -> Told {
    let none = (0, 0);
    match instruction {
        Instruction::Halt => (0, 0, 0, none, none),
        Instruction::Jump { target } => (1, 0, 0, none, (1, target)),
        Instruction::Set { destination, word } => (2, destination.number(), 0, none, (1, word)),
        Instruction::BranchZero {
            hint,
            tested,
            target,
        } => (3, u8::from(hint), tested.number(), none, (1, target)),
        Instruction::JumpRegister { target, guess } => (4, 0, target.number(), none, (1, guess)),
        Instruction::Load {
            destination,
            base,
            offset,
        } => (5, destination.number(), base.number(), none, (1, offset)),
        Instruction::Store {
            base,
            stored,
            offset,
        } => (6, stored.number(), base.number(), none, (1, offset)),
        Instruction::Compute {
            operation,
            destination,
            first,
            second,
        } => (
            16,
            operation.number(),
            destination.number(),
            operand_told(first),
            operand_told(second),
        ),
    }
}

/// The instruction at a place, as numbers.
fn told_at(image: Image<'_>, place: u32) -> Option<Told> {
    image.fetch(place).map(told)
}

/// Each record, alone in an image, is fetched as this instruction.
fn instructions_are(rt: &impl Abort, table: &[([u8; 8], Told)]) -> Result<(), Fail> {
    for (record, expected) in table {
        let bytes = one(*record);
        let (image, _) = read_image(&bytes)?;
        let found = told_at(image, 0);
        assert_eq!(rt;
            (*record, found),
            (*record, Some(*expected)),
            "a record, alone"
        );
    }
    Ok(())
}

const NONE: (u8, u32) = (0, 0);

#[test]
fn instructions(rt: HostRuntime) -> Result<(), Fail> {
    instructions_are(
        &rt,
        &[
            ([0, 0, 0, 0, 0, 0, 0, 0], (0, 0, 0, NONE, NONE)),
            ([1, 0, 0, 0, 1, 2, 3, 4], (1, 0, 0, NONE, (1, 16909060))),
            (
                [2, 15, 0, 0, 255, 255, 255, 255],
                (2, 15, 0, NONE, (1, 4294967295)),
            ),
            ([3, 0, 9, 0, 0, 0, 1, 0], (3, 0, 9, NONE, (1, 256))),
            ([3, 1, 0, 0, 0, 1, 0, 0], (3, 1, 0, NONE, (1, 65536))),
            ([4, 0, 3, 0, 0, 0, 0, 7], (4, 0, 3, NONE, (1, 7))),
            ([5, 1, 2, 0, 0, 0, 0, 5], (5, 1, 2, NONE, (1, 5))),
            ([6, 0, 3, 4, 1, 0, 0, 0], (6, 4, 3, NONE, (1, 16777216))),
            ([6, 0, 15, 0, 0, 0, 0, 0], (6, 0, 15, NONE, (1, 0))),
        ],
    )
}

#[test]
fn unit_operations(rt: HostRuntime) -> Result<(), Fail> {
    instructions_are(
        &rt,
        &[
            ([16, 1, 2, 3, 0, 0, 0, 0], (16, 0, 1, (0, 2), (0, 3))),
            ([31, 15, 15, 15, 0, 0, 0, 0], (16, 15, 15, (0, 15), (0, 15))),
            ([24, 3, 2, 16, 0, 0, 0, 0], (16, 8, 3, (0, 2), (1, 0))),
            ([25, 0, 1, 16, 0, 0, 0, 31], (16, 9, 0, (0, 1), (1, 31))),
            (
                [17, 0, 0, 16, 255, 0, 0, 254],
                (16, 1, 0, (0, 0), (1, 4278190334)),
            ),
        ],
    )
}

#[test]
fn places(rt: HostRuntime) -> Result<(), Fail> {
    let bytes = two([1, 0, 0, 0, 0, 0, 0, 1], [2, 4, 0, 0, 0, 0, 0, 9]);
    let (image, _) = read_image(&bytes)?;
    let head = (image.version(), image.count(), image.handler());
    assert_eq!(rt; head, (1, 2, 1), "version, count, handler");
    let found = [
        told_at(image, 0),
        told_at(image, 1),
        told_at(image, 2),
        told_at(image, u32::MAX),
    ];
    let jump = (1, 0, 0, NONE, (1, 1));
    let set = (2, 4, 0, NONE, (1, 9));
    assert_eq!(rt;
        found,
        [Some(jump), Some(set), None, None],
        "places 0, 1, 2 and the highest"
    );
    let mut instructions = image.instructions().map(told);
    let in_turn = [
        instructions.next(),
        instructions.next(),
        instructions.next(),
    ];
    assert_eq!(rt;
        in_turn,
        [Some(jump), Some(set), None],
        "one after the other"
    );
    Ok(())
}

#[test]
fn needs_of_a_stage(rt: HostRuntime) {
    let register = Register::named(1);
    let found = [
        Instruction::Halt,
        Instruction::Jump { target: 1 },
        Instruction::Set {
            destination: register,
            word: 1,
        },
        Instruction::JumpRegister {
            target: register,
            guess: 1,
        },
    ]
    .map(Instruction::needs_stage);
    assert_eq!(rt;
        found,
        [false, false, true, true],
        "only a halt and a jump need none"
    );
}

/// The fields of the record that the bytes begin with, and how many bytes are left.
fn split_of(bytes: &[u8]) -> Option<([u8; 4], u32, usize)> {
    let (record, rest) = Record::split(bytes)?;
    let fields = [
        record.operation,
        record.destination,
        record.first,
        record.second,
    ];
    Some((fields, record.literal, rest.len()))
}

#[test]
fn records_split(rt: HostRuntime) {
    let bytes = [5, 1, 2, 3, 4, 5, 6, 7, 8, 9];
    let found = [
        split_of(&[]),
        split_of(&bytes[0..7]),
        split_of(&bytes[0..8]),
        split_of(&bytes),
    ];
    let fields = [5, 1, 2, 3];
    let expected = [
        None,
        None,
        Some((fields, 67438087, 0)),
        Some((fields, 67438087, 2)),
    ];
    assert_eq!(rt; found, expected, "0, 7, 8 and 10 bytes");
}

/// The number of a record's fault, and where the field begins in the record.
fn fault_of(record: Record) -> Option<(u8, u8)> {
    let fault = record.instruction().err()?;
    Some((fault.number(), fault.offset()))
}

#[test]
fn faults_of_a_record(rt: HostRuntime) {
    let table = [
        ((4, 0, 15, 0, 0), None),
        ((8, 0, 15, 0, 0), Some((7, 0))),
        ((4, 1, 15, 0, 0), Some((9, 1))),
        ((4, 0, 16, 0, 0), Some((8, 2))),
        ((4, 0, 15, 1, 0), Some((9, 3))),
        ((6, 0, 15, 16, 0), Some((8, 3))),
        ((0, 0, 0, 0, 1), Some((9, 4))),
    ];
    for (fields, expected) in table {
        let (operation, destination, first, second, literal) = fields;
        let record = Record {
            operation,
            destination,
            first,
            second,
            literal,
        };
        assert_eq!(rt;
            (fields, fault_of(record)),
            (fields, expected),
            "number, offset"
        );
    }
}
