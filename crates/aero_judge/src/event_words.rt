//! An event by its words.
ghost use Rattle.std.specs.Prelude.{◌≡◌, option_copied, IfOk, IfSome};
ghost use Rattle.aero_grammar.specs.Words.{IsName, IsEvent};
ghost use Rattle.aero_judge.specs.Shown.{named_words};

use aero_model::{Event, Name, Op};
use aero_verdict::named::named;
use std::alloc::{AllocError, Global};

// The words of an event.
#[derive(Clone, Copy)]
pub(crate) struct EventWords<'a> {
    pub thread: &'a [u8],
    pub op: Op,
    pub target: Option<&'a [u8]>,
}

// The event with these words.
pub(crate) fn event_named(alloc: Global, words: EventWords<'_>) -> Result<Event, AllocError>
    requires { IsEvent (named_words words) }
    ensures { IfOk result (λ event. event ≡ named_words words.entry) }
{
    let thread = named(alloc, words.thread)?;
    let target = target_named(alloc, words.target)?;
    Ok(Event {
        thread,
        op: words.op,
        target,
    })
}

// The name with these bytes, if there are any.
fn target_named(alloc: Global, target: Option<&[u8]>) -> Result<Option<Name>, AllocError>
    requires { IfSome (option_copied target) IsName }
    ensures { IfOk result (λ name. name ≡ option_copied target.entry) }
{
    match target {
        Some(bytes) => named(alloc, bytes).map(Some),
        None => Ok(None),
    }
}
