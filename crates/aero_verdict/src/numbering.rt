//! The numbers of names: threads, variables and locks each for themselves, in order of first
//! appearance, and no more of each than the limits allow.
ghost use Rattle.std.specs.Prelude.{◌≡◌};
ghost use Rattle.aero_verdict.specs.Limited.{with_number};

use crate::known::{ChunkNames, Known, number_known};
use crate::named::named;
use aero_model::{Limits, Name, Numbered, ShapeFault, What};
use aero_names::Names;
use std::alloc::{AllocError, Global};

/// The names of the events so far. An event that was numbered has the numbers that they have here.
#[derive(Drop)]
pub struct Numbering {
    /// Those of threads.
    pub threads: Names,
    /// Those of variables.
    pub variables: Names,
    /// Those of locks.
    pub locks: Names,
}

impl Numbering {
    ghost use Rattle.std.specs.Prelude.{◌≡◌, ◌≤◌, ℕ, List, [], length, slice_get, Some, IfOk, IfErr, IsOk, OnOk, OnErr};
    ghost use Rattle.aero_model.specs.Names.{most_inline_bytes};
    ghost use Rattle.aero_grammar.specs.Words.{IsName};
    ghost use Rattle.aero_grammar.specs.Tabled.{op_of, target_in, named_in};
    ghost use Rattle.aero_verdict.specs.Known.{tables_in, Knows};
    ghost use Rattle.aero_verdict.specs.Limited.{names_in, IsNamedThread, HasLongName, IsLimited, NumbersTarget, RefusesTarget, NumbersEvent, RefusesEvent};

    // No names yet.
    pub(crate) fn new(alloc: Global, limits: &Limits) -> Numbering
        ensures none { names_in result ≡ record { threads = []; variables = []; locks = [] } }
        ensures limited { IsLimited limits.now result }
    {
        Numbering {
            threads: Names::new(alloc, limits.threads),
            variables: Names::new(alloc, limits.names),
            locks: Names::new(alloc, limits.names),
        }
    }

    // The name of the thread with this number, which takes no memory up to 16 bytes. An error says
    // that memory was refused to a longer name.
    pub(crate) fn thread_name(&self, alloc: Global, t: u32) -> Result<Name, AllocError>
        requires { IsNamedThread self.now t }
        ensures name { IfOk result (λ name. slice_get (names_in self.now).threads t ≡ Some name) }
        ensures long { OnErr result (HasLongName self.now t) }
        ensures short { (name : List ℕ) → slice_get (names_in self.now).threads t ≡ Some name →
            IsName name → length name ≤ most_inline_bytes → IsOk result }
    {
        let Some(bytes) = self.threads.name(t) else {
            unreachable!();
        };
        named(alloc, bytes)
    }

    // The event by its numbers in the trace, without a label, of which new names get the next. It comes by its numbers
    // in its chunk, whose names these are. The actor comes before the target.
    //
    // An error is `TooManyThreads` or `TooManyNames` where a name is one too many, or `Memory`.
    #[inline(always)]
    pub(crate) fn number(
        &mut self,
        known: &mut Known,
        chunk: ChunkNames<'_>,
        event: Numbered,
    ) -> Result<Numbered, ShapeFault>
        requires { Knows self.old (tables_in chunk) known.old }
        ensures ok { IfOk result (λ numbered. NumbersEvent self.old self.new
            (named_in (tables_in chunk.entry) chunk.entry.labels.now event) numbered) }
        ensures err { IfErr result (λ fault.
            RefusesEvent self.old (named_in (tables_in chunk.entry) chunk.entry.labels.now event)
            fault) }
        ensures known { OnOk result (Knows self.new (tables_in chunk.entry) known.new) }
    {
        let full = ShapeFault::TooManyThreads;
        let threads = &mut self.threads;
        let thread = number_known(
            threads,
            &mut known.threads,
            chunk.threads,
            event.thread,
            full,
        )?;
        let what = self.number_target(known, chunk, event.what)?;
        Ok(Numbered { thread, what })
    }

    // What an event does, by its target's number in the trace.
    #[inline(always)]
    fn number_target(
        &mut self,
        known: &mut Known,
        chunk: ChunkNames<'_>,
        what: What,
    ) -> Result<What, ShapeFault>
        requires { Knows self.old (tables_in chunk) known.old }
        ensures ok { IfOk result (λ numbered. NumbersTarget self.old self.new (op_of what)
            (target_in (tables_in chunk.entry) chunk.entry.labels.now what) numbered) }
        ensures err { IfErr result (λ fault. RefusesTarget self.old (op_of what)
            (target_in (tables_in chunk.entry) chunk.entry.labels.now what) fault) }
        ensures known { OnOk result (Knows self.new (tables_in chunk.entry) known.new) }
    {
        let full = ShapeFault::TooManyNames;
        match what {
            What::Read(x) | What::Write(x) => {
                let names = &mut self.variables;
                let number = number_known(names, &mut known.variables, chunk.variables, x, full)?;
                Ok(with_number(what, number))
            }
            What::Acquire(l) | What::Release(l) => {
                let names = &mut self.locks;
                let number = number_known(names, &mut known.locks, chunk.locks, l, full)?;
                Ok(with_number(what, number))
            }
            What::Fork(u) | What::Join(u) => {
                let full = ShapeFault::TooManyThreads;
                let names = &mut self.threads;
                let number = number_known(names, &mut known.threads, chunk.threads, u, full)?;
                Ok(with_number(what, number))
            }
            What::Begin(_) => Ok(What::Begin(None)),
            What::End | What::Exempt => Ok(What::End),
        }
    }
}

// The same with this number for its target, if that is no label.
#[inline(always)]
fn with_number(what: What, number: u32) -> What
    ensures { result ≡ with_number what number }
{
    match what {
        What::Read(_) => What::Read(number),
        What::Write(_) => What::Write(number),
        What::Acquire(_) => What::Acquire(number),
        What::Release(_) => What::Release(number),
        What::Fork(_) => What::Fork(number),
        What::Join(_) => What::Join(number),
        _ => what,
    }
}
