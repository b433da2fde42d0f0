use effect::Retirement;

/// Why a move is turned away: the first question whose answer is no.
#[derive(Clone, Copy, Debug, PartialEq)]
pub enum MoveRefusal {
    Halted = 30,
    UnknownKind = 31,
    WrongPlace = 32,
    NothingThere = 33,
    FetchClosed = 34,
    Occupied = 35,
    WrongState = 36,
    SourceMissing = 37,
    NoStage = 38,
}

/// How a run went: how many moves were accepted and turned away, and how many retirements were
/// live.
#[derive(Clone, Copy, Debug, PartialEq)]
pub struct RunFigures {
    pub accepted: usize,
    pub turned_away: usize,
    pub live: usize,
}

/// Why a run is refused: its list has more retirements than the log has free places.
#[derive(Clone, Copy, Debug, PartialEq)]
pub enum RunRefusal {
    ShortLog = 27,
}

/// What a drain did: how many moves it made, and the record of the instruction that retired.
#[derive(Clone, Copy, Debug, PartialEq)]
pub struct Drain {
    pub moves: usize,
    pub retirement: Retirement,
}

/// Why a drain is refused: the pipeline has halted, or the log has too few free places for its
/// moves.
#[derive(Clone, Copy, Debug, PartialEq)]
pub enum DrainRefusal {
    Halted = 30,
    ShortLog = 39,
}
