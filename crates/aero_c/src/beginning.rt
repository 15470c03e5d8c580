//! How a trace begins.
ghost use Rattle.std.specs.Prelude.{IfOk, IfSome};
ghost use Rattle.aero_c.specs.Answers.{AreLimitsOf, Begins, IsBegun};

use crate::holder::{Holder, put};
use crate::status::{DONE, IN_USE, NO_MEMORY};
use aero_feed::Feed;
use aero_model::{Except, Limits, SharedExcept, Terms};
use std::alloc::{AllocError, Global};

// On which terms a trace is judged, beside its labels.
#[derive(Clone, Copy)]
pub(crate) struct Asked {
    // Under the limits of a long source.
    pub(crate) is_long: bool,
    // Its violation is to be shown.
    pub(crate) explains: bool,
    // Blocks that are open end before their thread is joined, and at the end.
    pub(crate) ends: bool,
}

// Begins a trace with these labels, if the monitor has none.
pub(crate) fn begin(alloc: Global, monitor: &mut Holder, asked: Asked, except: Except) -> u32
    ensures { Begins monitor.old.pointer.held monitor.new.pointer.held result asked.is_long
        asked.explains asked.ends except }
{
    if monitor.is_held {
        return IN_USE;
    }
    match begun(alloc, asked, except) {
        Some(feed) => {
            put(monitor, feed);
            DONE
        }
        None => NO_MEMORY,
    }
}

// A trace of which nothing was fed, where memory isn't refused.
fn begun(alloc: Global, asked: Asked, except: Except) -> Option<Box<Feed>>
    ensures { IfSome result (λ feed. IsBegun feed.value asked.is_long asked.explains asked.ends
        except) }
{
    let feed = feed_of(alloc, asked, except).ok()?;
    Box::new(alloc, feed).ok()
}

// The same, not boxed yet. An `AllocError` says that memory was refused.
fn feed_of(alloc: Global, asked: Asked, except: Except) -> Result<Feed, AllocError>
    ensures { IfOk result (λ feed. IsBegun feed asked.is_long asked.explains asked.ends except) }
{
    let except = SharedExcept::new(alloc, except)?;
    let mut terms = Terms::new(limits(asked.is_long), except, false, asked.explains);
    if asked.ends {
        terms.ask_to_end();
    }
    Feed::new(alloc, terms)
}

// The limits of a source, or those of a long one.
fn limits(is_long: bool) -> Limits
    ensures { AreLimitsOf is_long result }
{
    if is_long {
        Limits::long()
    } else {
        Limits::greatest()
    }
}
