ghost use Rattle.std.specs.Prelude.{◌≡◌};
ghost use Rattle.fields.specs.Numbers.{holds};

/// Does a set of operations hold one: is that bit of the number 1?
#[tactic(auto, using(crate::proofs::Bits::no_bit))]
pub fn holds(set: u32, operation: u8) -> bool
    ensures { result ≡ holds set operation }
{
    operation < 32 && (set >> operation) % 2 == 1
}
