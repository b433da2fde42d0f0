ghost use Rattle.std.specs.Prelude.{◌≡◌};
ghost use Rattle.effect.specs.Changes.{halts, registers_after, words_after};

use crate::actions::Action;
use memory::{Memory, Readable};

impl Action {
    /// Is it the halt?
    pub fn halts(self) -> bool
        ensures { result ≡ halts self }
    {
        matches!(self, Action::Halt)
    }

    /// Makes the change, in the registers or in the memory. A word whose address is outside is not
    /// written.
    pub fn apply<M: Memory>(self, registers: &mut [u32; 16], memory: &mut M)
        ensures registers { registers.new ≡ registers_after self registers.old }
        ensures words { M.Readable.words memory.new ≡
            words_after self (M.Readable.words memory.old) }
        ensures kept { M.Memory.kept memory.new ≡ M.Memory.kept memory.old }
    {
        match self {
            Action::Nothing | Action::Halt => {}
            Action::SetRegister { register, word } => registers[register.index()] = word,
            Action::StoreWord { address, word } => {
                let _ = memory.write(address, word);
            }
            Action::Trap { word } => registers[15] = word,
        }
    }
}
