//! What an event is judged as: a begin and its end that are exempt, as an event of their thread.
ghost use Rattle.std.specs.Prelude.{◌≡◌, ◌&&◌};
ghost use Rattle.aero_model.specs.Blocks.{is_end};
ghost use Rattle.aero_shape.specs.Standing.{begins_exempt};
ghost use Rattle.aero_shape.specs.States.{thread_at, around_at};
ghost use Rattle.aero_shape.specs.Told.{is_last, exempt_told, judged_told};

use crate::exempt::{Around, ends_exempt};
use crate::states::{IDLE, ThreadState, state_at};
use aero_model::{Numbered, What};

// An event as it is judged, whether an exempt block opens or closes with it, and how many blocks
// that aren't exempt are open at it.
#[derive(Clone, Copy)]
pub(crate) struct Judged {
    pub(crate) event: Numbered,
    pub(crate) opens: bool,
    pub(crate) closes: bool,
    pub(crate) depth: u32,
}

#[inline(always)]
fn opens_exempt(what: What, exempt: bool) -> bool
    ensures { result ≡ begins_exempt what exempt }
{
    match what {
        What::Begin(_) => exempt,
        _ => false,
    }
}

#[inline(always)]
fn closes_exempt(table: &[Around], thread: u32, depth: u32, what: What) -> bool
    ensures { result ≡ (is_end what && is_last depth (around_at table.now thread)) }
{
    match what {
        What::End => ends_exempt(table, thread, depth),
        _ => false,
    }
}

#[inline(always)]
fn judged_what(what: What, exempt: bool) -> What
    ensures { result ≡ judged_told exempt what }
{
    match what {
        What::Begin(_) if exempt => What::Exempt,
        What::Begin(_) => What::Begin(None),
        What::End if exempt => What::Exempt,
        what => what,
    }
}

#[inline(always)]
pub(crate) fn judge(
    threads: &[ThreadState],
    around: &[Around],
    event: &Numbered,
    exempt: bool,
) -> Judged
    ensures depth { result.depth ≡ (thread_at threads.now event.now.thread).depth }
    ensures opens { result.opens ≡ begins_exempt event.now.what exempt }
    ensures closes { result.closes ≡
        (is_end event.now.what && is_last (thread_at threads.now event.now.thread).depth
        (around_at around.now event.now.thread)) }
    ensures thread { result.event.thread ≡ event.now.thread }
    ensures what { result.event.what ≡
        judged_told (exempt_told threads.now around.now event.now.thread exempt event.now.what)
        event.now.what }
{
    let Numbered { thread, what } = *event;
    let depth = state_at(threads, thread, IDLE).depth;
    let opens = opens_exempt(what, exempt);
    let closes = closes_exempt(around, thread, depth, what);
    let what = judged_what(what, opens || closes);
    Judged {
        event: Numbered { thread, what },
        opens,
        closes,
        depth,
    }
}
