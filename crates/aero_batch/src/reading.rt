//! Reading the sources, and asking about their chunks.
ghost use Rattle.std.specs.Prelude.{◌≡◌, ◌<◌, ◌≤◌, ◌+◌, ◌^◌, length, vec_len, None, if◌then◌else◌, IfOk, IfSome, OnOk, Some, true, false};
ghost use Rattle.std.specs.Arc.{arc_value};
ghost use Rattle.aero_intake.specs.PlanTerms.{terms_of};
ghost use Rattle.aero_intake.specs.Intake.{nothing_taken, with_passing};
ghost use Rattle.aero_intake.specs.Source.{place_in};
ghost use Rattle.aero_batch.specs.Steps.{MayAsk, ReadsOn, ReadsPiece, CutsHeld, LetsHeldGo, StopsReading, HasEnough, GoesOn, EndsSource, with_chunk, last_of, ended_track};

use crate::helpers::Helpers;
use crate::kind::Kind;
use crate::setting::Setting;
use crate::underway::Underway;
use aero_intake::intake::Taken;
use aero_intake::track::{Track, arrive, is_decided};
use aero_intake::{Followed, Found, Intake, Plan};
use aero_lines::Block;
use aero_model::{Ending, Finding};
use aero_pieces::{Bytes, Question};
use std::alloc::{AllocError, Global};
use std::sync::{Arc, Wait};

/// One step of reading the next source: a piece of it comes, or is known not to come any more; or it is read no
/// further, and closed, where the plan asks for that and what was read before decides; or what is held of it is cut, and its chunk
/// asked about, or is passed over where what was read before decides; or, once nothing is held, it is noted how it has
/// ended. An `AllocError` says that memory was refused.
pub fn read_on<R: Followed, H: Helpers, T: Wait>(
    setting: &Setting<'_, T>,
    reader: &mut R,
    helpers: &mut H,
    underway: &mut Underway,
) -> Result<(), AllocError>
    requires may { MayAsk underway.old }
    requires unread { underway.old.read < vec_len underway.old.tracks }
    requires within { underway.old.intake.count ≤ setting.now.plan.now.terms.rules.limits.bytes + 1 }
    ensures reads { OnOk result (ReadsOn (terms_of setting.now.plan.now) (R.sight reader.old)
        (R.sight reader.new)
        underway.old underway.new) }
    ensures place { place_in (R.sight reader.new) ≡ place_in (R.sight reader.old) }
{
    match underway.ended {
        Some(ending) if underway.intake.is_cut() => {
            end_source(setting, helpers, underway, ending)
        }
        None if stops_here(setting.plan, underway) => {
            reader.close();
            stop_reading(underway);
            Ok(())
        }
        None if is_read_next(setting.plan, underway) => {
            read_piece(setting.plan, reader, underway);
            Ok(())
        }
        _ => let_held_go(setting, helpers, underway),
    }
}

// Whether the source is read no further: the plan asks for that, no further chunk of it counts, and it isn't too large.
fn stops_here(plan: &Plan, underway: &Underway) -> bool
    requires { underway.now.read < vec_len underway.now.tracks }
    ensures asked_for { result ≡ true → (terms_of plan.now).stop ≡ true }
    ensures enough { result ≡ true → HasEnough underway.now }
    ensures within { result ≡ true →
        underway.now.intake.count ≤ (terms_of plan.now).rules.limits.bytes }
{
    plan.terms.stop()
        && underway.intake.count() <= plan.terms.limits().bytes
        && has_enough(underway)
}

// Reads the source no further, and passes over what is held of it.
fn stop_reading(underway: &mut Underway)
    ensures { underway.new ≡ record underway.old
        { intake = with_passing underway.old.intake; ended = Some Ending.Stopped } }
{
    underway.intake.pass_over();
    underway.ended = Some(Ending::Stopped);
}

// Whether a piece is read next: there is room for one. Where the plan stops early, what is held is cut first: its lines may
// decide, and the next piece of a pipe may be long in coming.
fn is_read_next(plan: &Plan, underway: &Underway) -> bool
    ensures room { result ≡ true → length underway.now.intake.held < 2 ^ 18 }
    ensures some { result ≡ false → 0 < length underway.now.intake.held }
{
    if plan.terms.stop() {
        return underway.intake.is_cut();
    }
    !underway.intake.is_full()
}

// Reads one piece of the source that is being read, or notes how its reading has ended.
fn read_piece<R: Followed>(plan: &Plan, reader: &mut R, underway: &mut Underway)
    requires reading { underway.old.ended ≡ None }
    requires not_full { length underway.old.intake.held < 2 ^ 18 }
    requires within { underway.old.intake.count ≤ plan.now.terms.rules.limits.bytes + 1 }
    ensures { ReadsPiece (terms_of plan.now) (R.sight reader.old) (R.sight reader.new) underway.old
        underway.new }
{
    underway.ended = match underway
        .intake
        .take(reader, plan.piece, plan.terms.limits().bytes)
    {
        Taken::Piece => None,
        Taken::Ended(ending) => Some(ending),
    };
}

// Passes over what is held of the source that is being read, where no further chunk of it counts, and else cuts it
// and asks about its chunk.
fn let_held_go<H: Helpers, T: Wait>(
    setting: &Setting<'_, T>,
    helpers: &mut H,
    underway: &mut Underway,
) -> Result<(), AllocError>
    requires may { MayAsk underway.old }
    requires unread { underway.old.read < vec_len underway.old.tracks }
    requires some { 0 < length underway.old.intake.held }
    ensures { OnOk result (LetsHeldGo underway.old underway.new) }
{
    if has_enough(underway) {
        underway.intake.pass_over();
        return Ok(());
    }
    cut_held(setting, helpers, underway)
}

// Whether no further chunk of the source that is being read counts.
fn has_enough(underway: &Underway) -> bool
    requires { underway.now.read < vec_len underway.now.tracks }
    ensures enough { result ≡ true → HasEnough underway.now }
    ensures not_yet { result ≡ false → GoesOn underway.now }
{
    if underway.intake.has_passed() {
        return true;
    }
    is_decided(&underway.tracks[underway.read])
}

// Cuts what is held of the source that is being read, and asks about its chunk.
fn cut_held<H: Helpers, T: Wait>(
    setting: &Setting<'_, T>,
    helpers: &mut H,
    underway: &mut Underway,
) -> Result<(), AllocError>
    requires may { MayAsk underway.old }
    requires unread { underway.old.read < vec_len underway.old.tracks }
    requires some { 0 < length underway.old.intake.held }
    requires going_on { GoesOn underway.old }
    ensures { OnOk result (CutsHeld underway.old underway.new) }
{
    let block = underway.intake.cut()?;
    ask_chunk(setting, helpers, underway, block)
}

// Asks about the next chunk of the source that is being read, if there is one.
fn ask_chunk<H: Helpers, T: Wait>(
    setting: &Setting<'_, T>,
    helpers: &mut H,
    underway: &mut Underway,
    block: Option<Block>,
) -> Result<(), AllocError>
    requires may { MayAsk underway.old }
    requires unread { underway.old.read < vec_len underway.old.tracks }
    requires short { IfSome block (λ bytes. length bytes ≤ 2 ^ 30) }
    ensures { OnOk result (underway.new ≡ with_chunk underway.old block) }
{
    let Some(block) = block else {
        return Ok(());
    };
    let question = chunk_question(setting.alloc, underway.read as u64, underway.chunks, block)?;
    underway
        .inquiry
        .ask(setting.rt, helpers, Kind::Parse, question)?;
    underway.chunks += 1;
    Ok(())
}

fn chunk_question(
    alloc: Global,
    trace: u64,
    number: u64,
    block: Block,
) -> Result<Arc<Question, Global>, AllocError>
    requires { length block ≤ 2 ^ 30 }
    ensures { IfOk result (λ question. arc_value question ≡ Question.Parse trace number block) }
{
    let Some(bytes) = Bytes::new(block.into_bytes()) else {
        unreachable!()
    };
    Question::Parse {
        trace,
        number,
        bytes,
    }
    .share(alloc)
}

// Notes how the source that was being read has ended, once its last chunk is asked about.
fn end_source<H: Helpers, T: Wait>(
    setting: &Setting<'_, T>,
    helpers: &mut H,
    underway: &mut Underway,
    ending: Ending,
) -> Result<(), AllocError>
    requires may { MayAsk underway.old }
    requires unread { underway.old.read < vec_len underway.old.tracks }
    ensures { OnOk result (EndsSource ending underway.old underway.new) }
{
    let bytes = underway.intake.count();
    let enough = has_enough(underway);
    let last = last_block(&mut underway.intake, ending, enough)?;
    ask_chunk(setting, helpers, underway, last)?;
    let place = underway.read;
    end_track(&mut underway.tracks[place], ending, bytes, underway.chunks);
    underway.chunks = 0;
    underway.ended = None;
    underway.read += 1;
    Ok(())
}

// The last chunk of a source that is whole, unless it doesn't count. Of another nothing more is asked. The next
// source may be read then.
fn last_block(
    intake: &mut Intake,
    ending: Ending,
    enough: bool,
) -> Result<Option<Block>, AllocError>
    ensures last { IfOk result (λ block. block ≡
        (if enough then None else last_of intake.old.cutting ending)) }
    ensures short { IfOk result (λ block. IfSome block (λ bytes. length bytes ≤ 2 ^ 30)) }
    ensures fresh { intake.new ≡ nothing_taken }
{
    let last = intake.finish()?;
    match ending {
        Ending::Whole if !enough => Ok(last),
        Ending::Whole | Ending::Broken | Ending::TooLarge | Ending::Stopped => Ok(None),
    }
}

fn end_track(track: &mut Track, ending: Ending, bytes: u64, chunks: u64)
    ensures { track.new ≡ ended_track ending bytes chunks track.old }
{
    let finding = match ending {
        Ending::Whole | Ending::Stopped => {
            arrive(track, bytes, ending, chunks);
            return;
        }
        Ending::Broken => Finding::Broken(bytes),
        Ending::TooLarge => Finding::TooLarge,
    };
    *track = Track::Found(Found {
        bytes,
        ending,
        finding,
        begun: None,
    });
}
