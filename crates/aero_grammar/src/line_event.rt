//! An event of a block with the number of its line, in 16 bytes.
ghost use Rattle.std.specs.Prelude.{◌≡◌};
ghost use Rattle.aero_grammar.specs.Packing.{kind_of, target_of, what_of};

use aero_model::{Numbered, What};
use std::marker::Model;

// What an event does, without its target. A begin's label counts as its target.
#[derive(Clone, Copy, Debug, PartialEq, Eq)]
enum Kind {
    Read,
    Write,
    Acquire,
    Release,
    Fork,
    Join,
    Begin,
    End,
    Exempt,
    LabelledBegin,
}

/// An event by its names' places in its block's tables, with the number of its line.
///
/// Contracts see the pair of the number and the event. It takes 16 bytes where the pair takes 20: the
/// `Option` in `What::Begin` has a tag of its own, for which each `What` has room.
#[derive(Clone, Copy, Debug, PartialEq, Eq)]
pub struct LineEvent {
    line: u32,
    thread: u32,
    kind: Kind,
    // 0 where there is none.
    target: u32,
}

const _: () = prove!(size_of::<LineEvent>() == 16);

impl Model for LineEvent {
    ghost use Rattle.std.specs.Prelude.{◌≡◌, ℕ};
    ghost use Rattle.aero_model.specs.declared.numbered.Numbered.{Numbered};
    ghost use Rattle.aero_grammar.specs.Packing.{kind_of, kind_is, target_of, what_of};

    ghost Value = { ℕ × Numbered };

    ghost view = { λ e. (e.line, record { thread = e.thread; what = what_of e.kind e.target }) };

    ghost invariant = { λ e. target_of (what_of e.kind e.target) ≡ e.target };

    ghost inverse = { λ v. record { line = v.0; thread = v.1.thread; kind = kind_of v.1.what; target = target_of v.1.what } };

    ghost inverse_ok = { λ e h i. record { line = e.line; thread = e.thread; kind = kind_is e.kind e.target i; target = h i } };
}

impl LineEvent {
    /// The event on this line.
    #[inline(always)]
    pub fn new(line: u32, event: Numbered) -> LineEvent
        ensures { result ≡ (line, event) }
    {
        LineEvent {
            line,
            thread: event.thread,
            kind: kind_of(event.what),
            target: target_of(event.what),
        }
    }

    /// The number of its line, and the event by itself.
    #[inline(always)]
    pub fn parts(self) -> (u32, Numbered)
        ensures { result ≡ self }
    {
        let event = Numbered {
            thread: self.thread,
            what: what_of(self.kind, self.target),
        };
        (self.line, event)
    }
}

#[inline(always)]
fn kind_of(what: What) -> Kind
    ensures { result ≡ kind_of what }
{
    match what {
        What::Read(_) => Kind::Read,
        What::Write(_) => Kind::Write,
        What::Acquire(_) => Kind::Acquire,
        What::Release(_) => Kind::Release,
        What::Fork(_) => Kind::Fork,
        What::Join(_) => Kind::Join,
        What::Begin(None) => Kind::Begin,
        What::Begin(Some(_)) => Kind::LabelledBegin,
        What::End => Kind::End,
        What::Exempt => Kind::Exempt,
    }
}

// The target's number, or 0 where there is none.
#[inline(always)]
fn target_of(what: What) -> u32
    ensures { result ≡ target_of what }
{
    match what {
        What::Read(n)
        | What::Write(n)
        | What::Acquire(n)
        | What::Release(n)
        | What::Fork(n)
        | What::Join(n)
        | What::Begin(Some(n)) => n,
        What::Begin(None) | What::End | What::Exempt => 0,
    }
}

#[inline(always)]
fn what_of(kind: Kind, target: u32) -> What
    ensures { result ≡ what_of kind target }
{
    match kind {
        Kind::Read => What::Read(target),
        Kind::Write => What::Write(target),
        Kind::Acquire => What::Acquire(target),
        Kind::Release => What::Release(target),
        Kind::Fork => What::Fork(target),
        Kind::Join => What::Join(target),
        Kind::Begin => What::Begin(None),
        Kind::End => What::End,
        Kind::Exempt => What::Exempt,
        Kind::LabelledBegin => What::Begin(Some(target)),
    }
}
