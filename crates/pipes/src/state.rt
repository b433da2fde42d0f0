use packets::Stage;

/// All that moves change: the stages, stage 0 first, of which a layout uses the first n; the
/// register file; the place at which fetch is open, none behind a halt and behind the end of the
/// image; and the halted mark.
// Pipes are made with no allocator, so the stages are a table of sixteen, and the layout has their
// number.
#[derive(Clone, Copy)]
pub struct Pipes {
    pub stages: [Stage; 16],
    pub registers: [u32; 16],
    pub fetch: Option<u32>,
    pub halted: bool,
}
