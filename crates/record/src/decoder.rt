ghost use Rattle.std.specs.Prelude.{◌≡◌, ◌<◌, ◌≤◌, length, drop, None, Some, MatchOption};
ghost use Rattle.fields.specs.Scanning.{verdict};
ghost use Rattle.record.specs.Encoding.{DecodesExactly};
ghost use Rattle.record.specs.Decoding.{record_of, shape_of, shape_for, admits, spared, fault_of, computing_of, built_of, instruction_of};

use crate::faults::{Field, RecordFault};
use crate::records::Record;
use crate::shapes::FieldUse::{Hint, RegisterName, RegisterOrLiteral, Unused, Word};
use crate::shapes::{FieldUse, Shape};
use instruction::{Instruction, Operand, Register, UnitOp};

impl FieldUse {
    /// Is the value within the range of a field that is used so?
    fn admits(self, value: u8) -> bool
        ensures { result ≡ admits self value }
    {
        match self {
            Unused | Word => true,
            Hint => value < 2,
            RegisterName => value < 16,
            RegisterOrLiteral => value < 17,
        }
    }

    /// Is the value 0 where the field is unused?
    fn spared(self, value: u32) -> bool
        ensures { result ≡ spared self value }
    {
        value == 0 || !matches!(self, Unused)
    }
}

/// How an instruction uses the fields of its record.
fn shape_of(instruction: Instruction) -> Shape
    ensures { result ≡ shape_for instruction }
{
    let (destination, first, second, literal) = match instruction {
        Instruction::Halt => (Unused, Unused, Unused, Unused),
        Instruction::Jump { .. } => (Unused, Unused, Unused, Word),
        Instruction::Set { .. } => (RegisterName, Unused, Unused, Word),
        Instruction::BranchZero { .. } => (Hint, RegisterName, Unused, Word),
        Instruction::JumpRegister { .. } => (Unused, RegisterName, Unused, Word),
        Instruction::Load { .. } => (RegisterName, RegisterName, Unused, Word),
        Instruction::Store { .. } => (Unused, RegisterName, RegisterName, Word),
        Instruction::Compute { second, .. } => {
            let literal = if matches!(second, Operand::Literal(_)) {
                Word
            } else {
                Unused
            };
            (RegisterName, RegisterName, RegisterOrLiteral, literal)
        }
    };
    Shape {
        destination,
        first,
        second,
        literal,
    }
}

impl From<[u8; 8]> for Record {
    ghost from_gives = { λ bytes made. made ≡ record_of bytes };

    /// The fields in the order of their bytes.
    fn from(bytes: [u8; 8]) -> Record {
        let [operation, destination, first, second, l3, l2, l1, l0] = bytes;
        Record {
            operation,
            destination,
            first,
            second,
            literal: u32::from_be_bytes([l3, l2, l1, l0]),
        }
    }
}

impl Record {
    /// The record in the first eight bytes, and the bytes after it; none where there are fewer.
    pub fn split(bytes: &[u8]) -> Option<(Record, &[u8])>
        ensures { MatchOption result (length bytes.now < 8)
            (λ p. (8 ≤ length bytes.now) × (p.0 ≡ record_of bytes.now) ×
            (p.1.now ≡ drop 8 bytes.now)) }
    {
        let (record, rest) = bytes.split_first_chunk::<8>()?;
        Some((Record::from(*record), rest))
    }

    /// Is each field a use of its shape? If not, the first that is none: first those out of range,
    /// then those that should be 0.
    fn check(self, shape: Shape) -> Result<(), RecordFault>
        ensures { result ≡ verdict (fault_of shape self) }
    {
        if !shape.destination.admits(self.destination) {
            Err(RecordFault::OutOfRange(Field::Destination))
        } else if !shape.first.admits(self.first) {
            Err(RecordFault::OutOfRange(Field::First))
        } else if !shape.second.admits(self.second) {
            Err(RecordFault::OutOfRange(Field::Second))
        } else if !shape.destination.spared(u32::from(self.destination)) {
            Err(RecordFault::NotZero(Field::Destination))
        } else if !shape.first.spared(u32::from(self.first)) {
            Err(RecordFault::NotZero(Field::First))
        } else if !shape.second.spared(u32::from(self.second)) {
            Err(RecordFault::NotZero(Field::Second))
        } else if !shape.literal.spared(self.literal) {
            Err(RecordFault::NotZero(Field::Literal))
        } else {
            Ok(())
        }
    }

    /// The instruction of an operation of 16 to 31 and the fields.
    fn computing(self) -> Instruction
        ensures { result ≡ computing_of self }
    {
        let second = if self.second == 16 {
            Operand::Literal(self.literal)
        } else {
            Operand::Register(Register::named(self.second))
        };
        Instruction::Compute {
            operation: UnitOp::named(self.operation),
            destination: Register::named(self.destination),
            first: Operand::Register(Register::named(self.first)),
            second,
        }
    }

    /// The instruction of the operation and the fields, whether or not they are without fault; none
    /// where the operation is not in the table.
    fn built(self) -> Option<Instruction>
        ensures { MatchOption result (shape_of self.operation self.second ≡ None)
            (λ i. (i ≡ built_of self) ×
            (shape_of self.operation self.second ≡ Some (shape_for i))) }
    {
        let Record { literal, .. } = self;
        let destination = Register::named(self.destination);
        let first = Register::named(self.first);
        let second = Register::named(self.second);
        // A record's operation is a byte of the file, and here alone each byte gets its meaning.
        let instruction = match self.operation {
            0 => Instruction::Halt,
            1 => Instruction::Jump { target: literal },
            2 => Instruction::Set {
                destination,
                word: literal,
            },
            3 => Instruction::BranchZero {
                hint: self.destination == 1,
                tested: first,
                target: literal,
            },
            4 => Instruction::JumpRegister {
                target: first,
                guess: literal,
            },
            5 => Instruction::Load {
                destination,
                base: first,
                offset: literal,
            },
            6 => Instruction::Store {
                base: first,
                stored: second,
                offset: literal,
            },
            16..=31 => self.computing(),
            _ => return None,
        };
        Some(instruction)
    }

    /// The instruction that the record is, or its first fault.
    #[tactic(auto, using(crate::proofs::Inverse::decodes_exactly))]
    pub fn instruction(self) -> Result<Instruction, RecordFault>
        ensures value { result ≡ instruction_of self }
        ensures exact { (i : Instruction) → DecodesExactly self i }
    {
        let instruction = self.built().ok_or(RecordFault::UnknownOperation)?;
        self.check(shape_of(instruction))?;
        Ok(instruction)
    }
}
