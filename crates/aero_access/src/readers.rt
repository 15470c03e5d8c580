//! The last reads of a variable, one of each thread that read it. They know of no other variable.
ghost use Rattle.std.specs.Prelude.{◌≡◌, ◌++◌, ◌∷◌, [], OnOk, OnErr, position};
ghost use Rattle.aero_access.specs.LastClocks.{AreApart, is_by};

use crate::kept::Kept;
use crate::thread::Thread;
use std::alloc::{AllocError, Global};
use std::mem;

/// The last read of a variable by each thread that read it.
#[derive(Drop)]
pub struct Readers {
    pub kept: Vec<Kept>,
    ghost apart: { AreApart kept.items },
}

impl Readers {
    ghost use Rattle.std.specs.Prelude.{◌==◌, ◌≤◌, ℕ, true, false, Some, if◌then◌else◌, find, slice_get, IfOk};
    ghost use Rattle.std.specs.Option.{option_copied};
    ghost use Rattle.aero_access.specs.LastClocks.{greatest_but};
    ghost use Rattle.aero_access.specs.Threads.{ClosesOne, ClosesNone, CountIsTest, HasSameBlock, TakesClock};
    ghost use Rattle.aero_access.specs.States.{State};
    ghost use Rattle.aero_access.specs.Heeds.{Heeds};
    ghost use Rattle.aero_access.specs.declared.kept.Kept.{Kept};
    ghost use Rattle.aero_clock.specs.Numbers.{number_at};

    /// Nobody yet.
    pub(crate) fn new(alloc: Global) -> Readers
        ensures { result.kept.items ≡ [] }
    {
        Readers {
            kept: Vec::new(alloc),
        }
    }

    /// What is kept of the last read by thread `t`.
    pub(crate) fn get(&self, t: u32) -> Option<&Kept>
        ensures { option_copied result ≡ find (is_by t) self.now.kept.items }
    {
        self.kept.iter().find(|kept| kept.thread == t)
    }

    /// Keeps this of the last read by its thread, and gives back what was kept of it.
    pub(crate) fn set(&mut self, kept: Kept) -> Result<Option<Kept>, AllocError>
        ensures ok { OnOk result ((t : ℕ) →
            find (is_by t) self.new.kept.items ≡
            (if kept.thread == t then Some kept else find (is_by t) self.old.kept.items)) }
        ensures err { OnErr result (self.new.kept.items ≡ self.old.kept.items) }
    {
        match place_by(&self.kept, kept.thread) {
            Some(i) => Ok(Some(mem::replace(&mut self.kept[i], kept))),
            None => {
                add(&mut self.kept, kept)?;
                Ok(None)
            }
        }
    }

    /// Thread `t` takes the clocks of the others, up to one that closes a telling cycle: then it
    /// returns true.
    pub(crate) fn give(&self, thread: &mut Thread, t: u32) -> Result<bool, AllocError>
        requires { (i : ℕ) (k : Kept) → slice_get self.now.kept.items i ≡ Some k →
            CountIsTest thread.old t (number_at k.clock) }
        ensures closing { IfOk result (λ closes. closes ≡ true →
            ClosesOne thread.old.begin t self.now.kept.items) }
        ensures none { IfOk result (λ closes. closes ≡ false →
            ClosesNone thread.old.begin t self.now.kept.items) }
        ensures takes { IfOk result (λ closes. closes ≡ false →
            TakesClock thread.old thread.new (greatest_but t self.now.kept.items)) }
        ensures same { HasSameBlock thread.old thread.new }
        ensures grows { (u : ℕ) → number_at thread.old.clock u ≤ number_at thread.new.clock u }
        ensures heeds { (w : State) → Heeds w (number_at thread.old.clock) →
            ((i : ℕ) (k : Kept) → slice_get self.now.kept.items i ≡ Some k →
            Heeds w (number_at k.clock)) → Heeds w (number_at thread.new.clock) }
    {
        for kept in self.kept.iter() {
            if kept.give(thread, t)? {
                return Ok(true);
            }
        }
        Ok(false)
    }
}

fn place_by(kept: &[Kept], t: u32) -> Option<usize>
    ensures { result ≡ position (is_by t) kept.now }
{
    kept.iter().position(|other| other.thread == t)
}

fn add(kept: &mut Vec<Kept>, one: Kept) -> Result<(), AllocError>
    ensures ok { OnOk result (kept.new.items ≡ kept.old.items ++ one ∷ []) }
    ensures err { OnErr result (kept.new.items ≡ kept.old.items) }
{
    kept.push(one)?;
    Ok(())
}
