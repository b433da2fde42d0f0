ghost use Rattle.std.specs.Prelude.{◌≡◌};
ghost use Rattle.unit.specs.Whole.{whole_of};

use crate::outcome::{Fault, Outcome};
use crate::traits::Unit;

/// The unit for whole numbers, which knows operations 0 to 9.
#[derive(Clone, Copy, Debug)]
pub struct WholeNumber;

impl Unit for WholeNumber {
    const KNOWN: u16 = 0b11_1111_1111;

    ghost KNOWN = { 1023 };

    ghost table = { λ _ operation a b. whole_of operation a b };

    fn ask(&self, operation: u8, a: u32, b: u32) -> Outcome {
        match operation {
            0 => Ok(a.wrapping_add(b)),
            1 => Ok(a.wrapping_sub(b)),
            2 => Ok(a & b),
            3 => Ok(a | b),
            4 => Ok(a ^ b),
            5 => Ok(a << (b % 32)),
            6 => Ok(a >> (b % 32)),
            7 => Ok(u32::from(a < b)),
            8 => a.checked_div(b).ok_or(Fault { number: 1 }),
            9 => Ok(a.rotate_left(b)),
            _ => Err(Fault { number: 15 }),
        }
    }
}
