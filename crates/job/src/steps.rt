ghost use Rattle.std.specs.Prelude.{◌≡◌, length, Ok, Err, IfOk};
ghost use Rattle.image.specs.Meaning.{told as imageTold};
ghost use Rattle.layout.specs.Meaning.{told as layoutTold};
ghost use Rattle.job.specs.Reading.{begin_of};
ghost use Rattle.job.specs.Meaning.{core_told, whole_told};
ghost use Rattle.job.specs.States.{bytes_in, image_total, image_read, image_left, layout_total, layout_image, layout_read, layout_left, image_next, layout_next, moves_next, core_next};

use crate::faults::JobFault;
use crate::states::{Core, Job, JobBytes, JobWithImage, JobWithLayout};
use image::read_image;
use layout::read_layout;
use moves::read_moves;

/// Where what is left of so many bytes begins.
fn begin_of(total: usize, rest: &[u8]) -> usize
    ensures { result ≡ begin_of total rest.now }
{
    total.saturating_sub(rest.len())
}

impl<'a> JobBytes<'a> {
    pub fn new(bytes: &'a [u8]) -> JobBytes<'a>
        ensures { bytes_in result ≡ bytes.now }
    {
        JobBytes { bytes }
    }

    /// Reads the image.
    pub fn image(self) -> Result<JobWithImage<'a>, JobFault>
        ensures value { elim result [
          | Ok s ↦ image_next self.entry ≡ Ok (imageTold (image_read s) (image_left s))
          | Err fault ↦ image_next self.entry ≡ Err fault
        ] }
        ensures kept { IfOk result (λ s. image_total s ≡ length (bytes_in self.entry)) }
    {
        let JobBytes { bytes } = self;
        let (image, rest) = read_image(bytes)?;
        Ok(JobWithImage {
            length: bytes.len(),
            image,
            rest,
        })
    }
}

impl<'a> JobWithImage<'a> {
    /// Reads the layout.
    pub fn layout(self) -> Result<JobWithLayout<'a>, JobFault>
        ensures value { elim result [
          | Ok s ↦ layout_next self.entry ≡ Ok (layoutTold (layout_read s) (layout_left s))
          | Err fault ↦ layout_next self.entry ≡ Err fault
        ] }
        ensures kept { IfOk result (λ s.
            (layout_total s ≡ image_total self.entry) × (layout_image s ≡ image_read self.entry)) }
    {
        let JobWithImage {
            length,
            image,
            rest,
        } = self;
        let at = begin_of(length, rest);
        let (layout, rest) = read_layout(rest).map_err(|fault| JobFault::Layout { at, fault })?;
        Ok(JobWithLayout {
            length,
            image,
            layout,
            rest,
        })
    }
}

impl<'a> JobWithLayout<'a> {
    /// Reads the moves, after which nothing may be left.
    pub fn moves(self) -> Result<Job<'a>, JobFault>
        ensures value { elim result [
          | Ok s ↦ moves_next self.entry ≡ Ok (whole_told s.moves)
          | Err fault ↦ moves_next self.entry ≡ Err fault
        ] }
        ensures kept { IfOk result (λ s. (s.layout ≡ layout_read self.entry)
            × (s.image ≡ layout_image self.entry)) }
    {
        let JobWithLayout {
            length,
            image,
            layout,
            rest,
        } = self;
        let at = begin_of(length, rest);
        let (moves, rest) = read_moves(rest).map_err(|fault| JobFault::Moves { at, fault })?;
        if !rest.is_empty() {
            return Err(JobFault::LeftOver {
                at: begin_of(length, rest),
            });
        }
        Ok(Job {
            image,
            layout,
            moves,
        })
    }

    /// Ends here: nothing may be left.
    pub fn without_moves(self) -> Result<Core<'a>, JobFault>
        ensures value { elim result [
          | Ok core ↦ core_next self.entry ≡ Ok (core_told core)
          | Err fault ↦ core_next self.entry ≡ Err fault
        ] }
    {
        let JobWithLayout {
            length,
            image,
            layout,
            rest,
        } = self;
        if !rest.is_empty() {
            let at = begin_of(length, rest);
            return Err(JobFault::LeftOver { at });
        }
        Ok(Core { image, layout })
    }
}
