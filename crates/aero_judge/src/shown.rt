//! An event as it is shown from the record, with names of its own.
ghost use Rattle.std.specs.Prelude.{◌≡◌, ◌<◌, length, option_copied, IfOk};
ghost use Rattle.aero_grammar.specs.Tabled.{name_at};
ghost use Rattle.aero_verdict.specs.Limited.{names_in};
ghost use Rattle.aero_judge.specs.Shown.{bound_shown, op_shown, label_shown, target_shown, shown, HasLabelShown, HasTargetShown, CanShow};

use crate::event_words::{EventWords, event_named};
use aero_model::{Event, Numbered, Op, What};
use aero_names::Names;
use aero_verdict::Numbering;
use std::alloc::{AllocError, Global};

// The event by its names, where these are the trace's, and this is its code. An `AllocError` says that memory was
// refused to a name of more than 16 bytes.
pub(crate) fn event_shown(
    alloc: Global,
    names: &Numbering,
    labels: &Names,
    event: Numbered,
    code: u32,
) -> Result<Event, AllocError>
    requires { CanShow (names_in names.now) labels.now.names event code }
    ensures { IfOk result (λ told. told ≡ shown (names_in names.now) labels.now.names event code) }
{
    let words = EventWords {
        thread: name_in(&names.threads, event.thread),
        op: op_shown(event.what, code),
        target: target_shown(names, labels, event.what, code),
    };
    event_named(alloc, words)
}

fn op_shown(what: What, code: u32) -> Op
    ensures { result ≡ op_shown what code }
{
    match what {
        What::Read(_) => Op::Read,
        What::Write(_) => Op::Write,
        What::Acquire(_) => Op::Acquire,
        What::Release(_) => Op::Release,
        What::Fork(_) => Op::Fork,
        What::Join(_) => Op::Join,
        What::Begin(_) | What::End | What::Exempt => bound_shown(code),
    }
}

fn bound_shown(code: u32) -> Op
    ensures { result ≡ bound_shown code }
{
    match code {
        0 => Op::End,
        _ => Op::Begin,
    }
}

fn target_shown<'a>(
    names: &'a Numbering,
    labels: &'a Names,
    what: What,
    code: u32,
) -> Option<&'a [u8]>
    requires { HasTargetShown (names_in names.now) labels.now.names what code }
    ensures { option_copied result ≡ target_shown (names_in names.now) labels.now.names what code }
{
    match what {
        What::Read(x) | What::Write(x) => Some(name_in(&names.variables, x)),
        What::Acquire(l) | What::Release(l) => Some(name_in(&names.locks, l)),
        What::Fork(u) | What::Join(u) => Some(name_in(&names.threads, u)),
        What::Begin(_) | What::End | What::Exempt => label_shown(labels, code),
    }
}

fn label_shown(labels: &Names, code: u32) -> Option<&[u8]>
    requires { HasLabelShown labels.now.names code }
    ensures { option_copied result ≡ label_shown labels.now.names code }
{
    if code < 2 {
        return None;
    }
    Some(name_in(labels, code - 2))
}

fn name_in(names: &Names, number: u32) -> &[u8]
    requires { number < length names.now.names }
    ensures { result.now ≡ name_at names.now.names number }
{
    match names.name(number) {
        Some(name) => name,
        None => unreachable!(),
    }
}
