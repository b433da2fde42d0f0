ghost use Rattle.std.specs.Prelude.{◌≡◌, ◌≤◌, length, slice_index};
ghost use Rattle.instruction.specs.Named.{register_number};
ghost use Rattle.pipes.specs.Moving.{fresh};
ghost use Rattle.pipeline.specs.Theorem.{NeverParted, AlwaysDrains};
ghost use Rattle.pipeline.specs.Views.{image_in, layout_in, pipes_in, stages_in, slot_of};

use crate::pipelines::Pipeline;
use fit::Fitted;
use image::Image;
use instruction::Register;
use layout::Layout;
use packets::Stage;
use pipes::Pipes;

impl<'a> Pipeline<'a> {
    /// The fresh pipeline of a fitted pair: empty slots, fetch open at 0, registers 0, not halted.
    /// No calls part it from another pipeline of the image, and it can always be drained.
    pub fn build(fitted: Fitted<'a>) -> Pipeline<'a>
        ensures image { image_in result ≡ fitted.entry.image }
        ensures layout { layout_in result ≡ fitted.entry.layout }
        ensures pipes { pipes_in result ≡ fresh }
        ensures parted { NeverParted (image_in result) (layout_in result) }
        ensures drains { AlwaysDrains (image_in result) (layout_in result) }
    {
        let Fitted { image, layout } = fitted;
        Pipeline {
            image,
            layout,
            pipes: Pipes {
                stages: [Stage::vacant(); 16],
                registers: [0; 16],
                fetch: Some(0),
                halted: false,
            },
        }
    }

    /// The image that it was built on.
    pub fn image(&self) -> Image<'a>
        ensures { result ≡ image_in self.now }
    {
        self.image
    }

    /// The layout that it was built on.
    pub fn layout(&self) -> Layout<'a>
        ensures { result ≡ layout_in self.now }
    {
        self.layout
    }

    /// Has a halt retired?
    pub fn halted(&self) -> bool
        ensures { result ≡ (pipes_in self.now).halted }
    {
        self.pipes.halted
    }

    pub fn register(&self, register: Register) -> u32
        ensures { result ≡ slice_index (pipes_in self.now).registers (register_number register) }
    {
        self.pipes.registers[register.index()]
    }

    /// The place at which fetch is open; none where it is closed.
    pub fn fetch(&self) -> Option<u32>
        ensures { result ≡ (pipes_in self.now).fetch }
    {
        self.pipes.fetch
    }

    /// How many stages it has: 2 to 16.
    pub fn stages(&self) -> usize
        ensures value { result ≡ length (stages_in self.now) }
        ensures low { 2 ≤ result }
        ensures high { result ≤ 16 }
    {
        self.layout.stages()
    }

    /// What stands in a stage; none at or past the top.
    pub fn stage(&self, stage: usize) -> Option<Stage>
        ensures { result ≡ slot_of self.now stage }
    {
        self.pipes.stages[..self.stages()].get(stage).copied()
    }
}
