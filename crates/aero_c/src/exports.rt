//! The calls of a program in C. Each pointer is to be none but NULL, as the header tests.
ghost use Rattle.std.specs.Prelude.{◌≡◌, ◌≢◌, ◌++◌, [], true, false, None};
ghost use Rattle.aero_model.specs.Exempt.{these};
ghost use Rattle.aero_c.specs.Statuses.{done, unheld};
ghost use Rattle.aero_c.specs.Answers.{Answers, BeginsLabelled, IsAsked, Begins, Judges, ShowsHeld};
ghost use Rattle.aero_c.specs.Flags.{has_flag};

use crate::beginning::{Asked, begin};
use crate::holder::{Holder, put, take};
use crate::judging::{ask, conclude, feed_piece, show};
use crate::labels::list;
use crate::numbers::Numbers;
use crate::status::{DONE, MANY_LABELS, UNHELD};
use aero_model::Except;
use std::alloc::Global;

// The bits of flags.
const LONG: u32 = 1;

const ONLY: u32 = 2;

const EXPLAIN: u32 = 4;

const END_BLOCKS: u32 = 8;

/// Begins a trace under the ordinary limits, or those of a long source. Returns `IN_USE` where the monitor has one, and
/// `NO_MEMORY`: it has what it had then.
#[unsafe(no_mangle)]
pub extern "C" fn aerodrome_held_begin(alloc: Global, monitor: &mut Holder, is_long: bool) -> u32
    ensures { Begins monitor.old.pointer.held monitor.new.pointer.held result is_long false false
        (these []) }
{
    let asked = Asked {
        is_long,
        explains: false,
        ends: false,
    };
    match Except::new(Vec::new(alloc)) {
        Some(except) => begin(alloc, monitor, asked, except),
        None => MANY_LABELS,
    }
}

/// Begins a trace as `aerodrome_held_begin` does, with labels of which each is ended by a byte 10. With `is_only` they are
/// those of the only blocks that are transactions, and else those of blocks that are none.
///
/// Returns also `NO_NAME`, where one is no name or the last has no byte 10, and else `MANY_LABELS`, where there are more than
/// 64: the monitor has what it had then.
#[unsafe(no_mangle)]
pub extern "C" fn aerodrome_held_begin_labelled(
    alloc: Global,
    monitor: &mut Holder,
    is_long: bool,
    labels: &[u8],
    is_only: bool,
) -> u32
    ensures { BeginsLabelled monitor.old.pointer.held monitor.new.pointer.held result is_long
        is_only false false labels.now }
{
    let asked = Asked {
        is_long,
        explains: false,
        ends: false,
    };
    begin_listed(alloc, monitor, asked, labels, is_only)
}

/// Begins a trace as `aerodrome_held_begin_labelled` does, whose violation `aerodrome_held_cycle` shows. Until an event
/// completes a telling cycle, it also keeps 28 bytes for each event that can be in such a cycle, and the labels of begins
/// among them.
#[unsafe(no_mangle)]
pub extern "C" fn aerodrome_held_begin_explained(
    alloc: Global,
    monitor: &mut Holder,
    is_long: bool,
    labels: &[u8],
    is_only: bool,
) -> u32
    ensures { BeginsLabelled monitor.old.pointer.held monitor.new.pointer.held result is_long
        is_only true false labels.now }
{
    let asked = Asked {
        is_long,
        explains: true,
        ends: false,
    };
    begin_listed(alloc, monitor, asked, labels, is_only)
}

/// Begins a trace with labels as `aerodrome_held_begin_labelled` does, and with what the bits of `flags` ask for: 1 that it
/// is a long source; 2 that the labels are those of the only blocks that are transactions; 4 that its violation is to be
/// shown, as by `aerodrome_held_begin_explained`; 8 that blocks that are open end before their thread is joined, and at the
/// end. Other bits ask for nothing.
#[unsafe(no_mangle)]
pub extern "C" fn aerodrome_held_begin_with(
    alloc: Global,
    monitor: &mut Holder,
    flags: u32,
    labels: &[u8],
) -> u32
    ensures { BeginsLabelled monitor.old.pointer.held monitor.new.pointer.held result
        (has_flag flags 1) (has_flag flags 2) (has_flag flags 4) (has_flag flags 8) labels.now }
{
    let asked = Asked {
        is_long: flags & LONG != 0,
        explains: flags & EXPLAIN != 0,
        ends: flags & END_BLOCKS != 0,
    };
    begin_listed(alloc, monitor, asked, labels, flags & ONLY != 0)
}

// Begins a trace with the labels of a text, if they are right and the monitor has none.
fn begin_listed(
    alloc: Global,
    monitor: &mut Holder,
    asked: Asked,
    labels: &[u8],
    is_only: bool,
) -> u32
    ensures { BeginsLabelled monitor.old.pointer.held monitor.new.pointer.held result asked.is_long
        is_only asked.explains asked.ends labels.now }
{
    match list(alloc, labels, is_only) {
        Ok(listed) => begin(alloc, monitor, asked, listed),
        Err(status) => status,
    }
}

/// Takes the next piece of the trace, of any length: lines may be cut anywhere. Returns `UNHELD` where there is no trace,
/// and `NO_MEMORY`, as each call for the trace does from then on.
#[unsafe(no_mangle)]
pub extern "C" fn aerodrome_held_feed(alloc: Global, monitor: &mut Holder, piece: &[u8]) -> u32
    ensures { Answers monitor.old.pointer.held monitor.new.pointer.held result
        (λ was now. now.text ≡ was.text ++ piece.now) }
{
    let Some(mut feed) = take(alloc, monitor) else {
        return UNHELD;
    };
    let status = feed_piece(&mut feed, piece);
    put(monitor, feed);
    status
}

/// Judges the lines that came so far, and writes whether the verdict is certain, whatever bytes come: 1, or else 0. Returns
/// `UNHELD` and `NO_MEMORY` as `aerodrome_held_feed` does.
#[unsafe(no_mangle)]
pub extern "C" fn aerodrome_held_certain(
    alloc: Global,
    monitor: &mut Holder,
    is_certain: &mut u32,
) -> u32
    ensures { Answers monitor.old.pointer.held monitor.new.pointer.held result
        (λ was now. IsAsked was now is_certain.new) }
{
    let Some(mut feed) = take(alloc, monitor) else {
        return UNHELD;
    };
    let status = ask(&mut feed, is_certain);
    put(monitor, feed);
    status
}

/// Judges the lines that came so far, and writes how many bytes the lines have that show the violation, if one is certain by
/// then and is to be shown, and else 0; and these lines if the buffer has room, or else returns `SHORT`. Returns `UNHELD` and
/// `NO_MEMORY` as `aerodrome_held_feed` does.
#[unsafe(no_mangle)]
pub extern "C" fn aerodrome_held_cycle(
    alloc: Global,
    monitor: &mut Holder,
    buffer: &mut [u8],
    size: &mut usize,
) -> u32
    ensures { ShowsHeld monitor.old.pointer.held monitor.new.pointer.held result buffer.new size.new }
{
    let Some(mut feed) = take(alloc, monitor) else {
        return UNHELD;
    };
    let status = show(alloc, &mut feed, buffer, size);
    put(monitor, feed);
    status
}

/// Judges the trace and lets it go. Writes the verdict as numbers, how many bytes its line in the report has behind the
/// source's name, with the byte 10 that ends it, and these bytes if the buffer has room, or else returns `SHORT`. Returns
/// `UNHELD` where there is no trace, and `NO_MEMORY`: what was written says nothing then.
#[unsafe(no_mangle)]
pub extern "C" fn aerodrome_held_verdict(
    alloc: Global,
    monitor: &mut Holder,
    numbers: &mut Numbers,
    buffer: &mut [u8],
    size: &mut usize,
) -> u32
    ensures none { monitor.new.pointer.held ≡ None }
    ensures judges { Judges monitor.old.pointer.held result numbers.new buffer.new size.new }
{
    match take(alloc, monitor) {
        Some(feed) => conclude(alloc, Box::into_inner(feed), numbers, buffer, size),
        None => UNHELD,
    }
}

/// Lets the trace go. Returns `UNHELD` where there is none.
#[unsafe(no_mangle)]
pub extern "C" fn aerodrome_held_free(alloc: Global, monitor: &mut Holder) -> u32
    ensures none { monitor.new.pointer.held ≡ None }
    ensures unheld { monitor.old.pointer.held ≡ None → result ≡ unheld }
    ensures done { monitor.old.pointer.held ≢ None → result ≡ done }
{
    match take(alloc, monitor) {
        Some(_) => DONE,
        None => UNHELD,
    }
}
