use fit::Fitted;
use moves::MoveList;

/// A job whose image fits its layout: the fitted pair, and the moves.
#[derive(Drop)]
pub struct FittedJob<'a> {
    pub fitted: Fitted<'a>,
    pub moves: MoveList<'a>,
}
