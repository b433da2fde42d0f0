/// Why an image does not fit: one record that no stage can execute, or whose operation the unit
/// does not know.
#[derive(Clone, Copy, Debug, PartialEq)]
pub enum FitFault {
    NoStage { index: u16 },
    UnknownOperation { index: u16 },
}
