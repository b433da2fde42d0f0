ghost use Rattle.std.specs.Prelude.{◌≡◌, ◌+◌};
ghost use Rattle.fields.specs.Scanning.{verdict};
ghost use Rattle.layout.specs.Meaning.{sets_in};
ghost use Rattle.pipes.specs.Questions.{able_for, place_right, ask_fetch, ask_raise, ask_lower, ask_execute, ask_insert, ask_read, ask_retire, ask_drop, asked};

use layout::Layout;
use moves::{Move, MoveKind};
use packets::{Packet, Stage};
use pipes::{MoveRefusal, Pipes, some_able};

/// May a move of this kind name its place, with so many stages?
// A match beside the one of `moves`: a list is read without a layout, so that one knows no number of
// stages.
fn place_right(stages: usize, next: Move) -> bool
    ensures { result ≡ place_right stages next.kind next.place }
{
    let stage = usize::from(next.place);
    match next.kind {
        MoveKind::Fetch | MoveKind::Retire | MoveKind::Drop => next.place == 0,
        MoveKind::Raise => stage + 1 < stages,
        MoveKind::Lower => 0 < next.place && stage < stages,
        MoveKind::Execute | MoveKind::Insert => stage < stages,
        MoveKind::Read => next.place < 16,
    }
}

/// Can the stage execute what a packet carries?
fn able_for(layout: &Layout<'_>, stage: usize, packet: &Packet) -> bool
    ensures { result ≡ able_for (sets_in layout.now) stage packet.now.fetched.instruction }
{
    matches!(
        packet.fetched.instruction,
        Some(instruction) if layout.able(stage, instruction.operation())
    )
}

/// FETCH: is fetch open, and the packet slot of stage 0 empty?
fn ask_fetch(fetch: Option<u32>, bottom: &Stage) -> Result<(), MoveRefusal>
    ensures { result ≡ verdict (ask_fetch fetch bottom.now) }
{
    if fetch.is_none() {
        return Err(MoveRefusal::FetchClosed);
    }
    if bottom.packet.is_some() {
        return Err(MoveRefusal::Occupied);
    }
    Ok(())
}

/// RAISE: is there a packet, room above it, and either no need of a stage or one above?
fn ask_raise(layout: &Layout<'_>, stage: u8, here: &Stage, above: &Stage) -> Result<(), MoveRefusal>
    ensures { result ≡ verdict (ask_raise (sets_in layout.now) stage here.now above.now) }
{
    let packet = here.packet.as_ref().ok_or(MoveRefusal::NothingThere)?;
    if above.packet.is_some() {
        return Err(MoveRefusal::Occupied);
    }
    if !packet.may_pass() && !some_able(layout, usize::from(stage) + 1, packet) {
        return Err(MoveRefusal::NoStage);
    }
    Ok(())
}

/// LOWER: is there a result, and room below it?
fn ask_lower(here: &Stage, below: &Stage) -> Result<(), MoveRefusal>
    ensures { result ≡ verdict (ask_lower here.now below.now) }
{
    if here.result.is_free() {
        return Err(MoveRefusal::NothingThere);
    }
    if !below.result.is_free() {
        return Err(MoveRefusal::Occupied);
    }
    Ok(())
}

/// EXECUTE: is there a packet that waits and is live, does it have its words, and can the stage
/// execute it?
fn ask_execute(layout: &Layout<'_>, stage: u8, here: &Stage) -> Result<(), MoveRefusal>
    ensures { result ≡ verdict (ask_execute (sets_in layout.now) stage here.now) }
{
    let packet = here.packet.as_ref().ok_or(MoveRefusal::NothingThere)?;
    if !packet.may_execute() {
        return Err(MoveRefusal::WrongState);
    }
    if !packet.ready() {
        return Err(MoveRefusal::SourceMissing);
    }
    if !able_for(layout, usize::from(stage), packet) {
        return Err(MoveRefusal::NoStage);
    }
    Ok(())
}

/// INSERT: is there a packet, is there room beside it, and does the packet owe a result and live?
fn ask_insert(here: &Stage) -> Result<(), MoveRefusal>
    ensures { result ≡ verdict (ask_insert here.now) }
{
    let packet = here.packet.as_ref().ok_or(MoveRefusal::NothingThere)?;
    if !here.result.is_free() {
        return Err(MoveRefusal::Occupied);
    }
    if !packet.may_insert() {
        return Err(MoveRefusal::WrongState);
    }
    Ok(())
}

/// READ: is there room at the top?
fn ask_read(highest: &Stage) -> Result<(), MoveRefusal>
    ensures { result ≡ verdict (ask_read highest.now) }
{
    if !highest.result.is_free() {
        return Err(MoveRefusal::Occupied);
    }
    Ok(())
}

/// RETIRE: is there a packet at the top, and may it leave?
fn ask_retire(highest: &Stage) -> Result<(), MoveRefusal>
    ensures { result ≡ verdict (ask_retire highest.now) }
{
    let packet = highest.packet.as_ref().ok_or(MoveRefusal::NothingThere)?;
    if !packet.may_retire() {
        return Err(MoveRefusal::WrongState);
    }
    Ok(())
}

/// DROP: is there a result in stage 0?
fn ask_drop(bottom: &Stage) -> Result<(), MoveRefusal>
    ensures { result ≡ verdict (ask_drop bottom.now) }
{
    if bottom.result.is_free() {
        return Err(MoveRefusal::NothingThere);
    }
    Ok(())
}

/// The questions of a move: an error is the first whose answer is no.
pub(crate) fn ask(pipes: &Pipes, layout: &Layout<'_>, next: Move) -> Result<(), MoveRefusal>
    ensures { result ≡ verdict (asked (sets_in layout.now) pipes.now next.kind next.place) }
{
    if !place_right(layout.stages(), next) {
        return Err(MoveRefusal::WrongPlace);
    }
    // A match: the kinds are these eight, and what each is asked of differs.
    let Move { kind, place } = next;
    let stages = &pipes.stages;
    let at = usize::from(place);
    let top = layout.stages() - 1;
    match kind {
        MoveKind::Fetch => ask_fetch(pipes.fetch, &stages[0]),
        MoveKind::Raise => ask_raise(layout, place, &stages[at], &stages[at + 1]),
        MoveKind::Lower => ask_lower(&stages[at], &stages[at - 1]),
        MoveKind::Execute => ask_execute(layout, place, &stages[at]),
        MoveKind::Insert => ask_insert(&stages[at]),
        MoveKind::Read => ask_read(&stages[top]),
        MoveKind::Retire => ask_retire(&stages[top]),
        MoveKind::Drop => ask_drop(&stages[0]),
    }
}
