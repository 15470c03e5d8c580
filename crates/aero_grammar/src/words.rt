// An event by the words of its line.
ghost use Rattle.std.specs.Prelude.{◌≡◌, Some};
ghost use Rattle.aero_grammar.specs.Meaning.{TellsLineEvent, Means};
ghost use Rattle.aero_grammar.specs.Words.{named_of, IsEvent};

use crate::names::read_name;
use aero_model::{Event, LineFault, Op};
use std::alloc::Global;

/// The words of an event's line. The target of a begin is its label, if it has one, an end has no
/// target, and every other event has one.
#[derive(Clone, Copy)]
pub struct Words<'a> {
    pub thread: &'a [u8],
    pub op: Op,
    pub target: Option<&'a [u8]>,
}

// The event, with names of its own.
#[inline(always)]
pub fn event_of(alloc: Global, words: Words<'_>) -> Result<Event, LineFault>
    requires { IsEvent (named_of words) }
    ensures { TellsLineEvent result (Means (named_of words.entry)) }
{
    let Ok(thread) = read_name(alloc, words.thread) else {
        return Err(LineFault::Memory);
    };
    let op = words.op;
    let Some(target) = words.target else {
        let target = None;
        return Ok(Event { thread, op, target });
    };
    let Ok(target) = read_name(alloc, target) else {
        return Err(LineFault::Memory);
    };
    let target = Some(target);
    Ok(Event { thread, op, target })
}
