//! The clocks of last writes, reads and releases, with a label for each of these slots. No thread and
//! no index is touched here.
ghost use Rattle.std.specs.Prelude.{◌≡◌, ◌++◌, ◌∷◌, [], ℕ, true, Some, OnOk, OnErr, if◌then◌else◌};
ghost use Rattle.aero_engine.specs.declared.slot.Slot.{Slot};
ghost use Rattle.aero_access.specs.LastClocks.{is_kept};
ghost use Rattle.aero_access.specs.Table.{AreLabelled, ArePlaced, kept_in};

use crate::entries::Entries;
use crate::kept::Kept;
use crate::readers::Readers;
use aero_clock::Clock;
use aero_engine::Slot;
use std::alloc::{AllocError, Global};
use std::mem;

/// What is kept of the last events that are no thread's own. The clock that was replaced last is
/// spare: the next one to be kept has its room.
#[derive(Drop)]
pub struct Table {
    entries: Entries,
    spare: Clock,
    ghost labelled: { AreLabelled (kept_in entries) entries.labels.items },
    ghost placed: { ArePlaced (kept_in entries) entries.labels.items },
}

impl Table {
    ghost use Rattle.std.specs.Prelude.{◌<◌, ◌≤◌, IsTrue, None, slice_get, length, IsSome, is_some, IfOk};
    ghost use Rattle.aero_clock.specs.Numbers.{number_at};
    ghost use Rattle.aero_access.specs.StateWords.{KeepsClock};
    ghost use Rattle.std.specs.Option.{option_copied};
    ghost use Rattle.aero_access.specs.LastClocks.{kept_clock};
    ghost use Rattle.aero_access.specs.TableWords.{kept_of, labels_of, place_of, Keeps, JoinsSlot};

    /// Nothing is kept.
    pub(crate) fn new(alloc: Global) -> Table
        ensures { (s : Slot) → kept_of result s ≡ None }
    {
        Table {
            entries: Entries::new(alloc),
            spare: Clock::new(alloc),
        }
    }

    /// What is kept of the slot's last event, if there was one. Of a thread nothing is kept here.
    pub(crate) fn get(&self, slot: Slot) -> Option<&Kept>
        ensures { option_copied result ≡ kept_of self.now slot }
    {
        self.entries.get(slot)
    }

    /// What is kept of the last reads of the variable.
    pub(crate) fn readers(&self, x: u32) -> Option<&Readers>
        ensures { option_copied result ≡ slice_get self.now.entries.reads.items x }
    {
        self.entries.readers(x)
    }

    /// The place of the slot's label, or that of the next label. One that doesn't fit 32 bits is
    /// refused as memory is.
    pub(crate) fn place(&self, slot: Slot) -> Result<u32, AllocError>
        ensures { IfOk result (λ place. place ≡ place_of self.now slot) }
    {
        match self.get(slot) {
            Some(kept) => Ok(kept.label),
            None => u32::try_from(self.entries.labels.len()).map_err(|_| AllocError),
        }
    }

    /// Keeps this clock of the slot's last event, which is by this thread.
    pub(crate) fn keep(
        &mut self,
        slot: Slot,
        thread: u32,
        clock: &Clock,
        label: u32,
    ) -> Result<(), AllocError>
        requires kept { is_kept slot ≡ true }
        requires reader { (x t : ℕ) → slot ≡ Slot.LastRead x t → thread ≡ t }
        requires label { label ≡ place_of self.old slot }
        ensures ok { OnOk result (KeepsClock self.old self.new slot thread (number_at clock.now)) }
        ensures err { OnErr result ((s : Slot) → kept_of self.new s ≡ kept_of self.old s) }
        ensures labels { OnOk result (labels_of self.new ≡
            (if is_some (kept_of self.old slot) then labels_of self.old else labels_of self.old ++
            slot ∷ [])) }
    {
        let none = Clock::new(*self.entries.labels.allocator());
        let mut copied = mem::replace(&mut self.spare, none);
        copied.copy_from(clock)?;
        self.set(
            slot,
            Kept {
                thread,
                clock: copied,
                label,
            },
        )
    }

    /// Keeps this of the slot's last event.
    pub(crate) fn set(&mut self, slot: Slot, kept: Kept) -> Result<(), AllocError>
        requires kept { is_kept slot ≡ true }
        requires reader { (x t : ℕ) → slot ≡ Slot.LastRead x t → kept.thread ≡ t }
        requires label { kept.label ≡ place_of self.old slot }
        ensures ok { OnOk result (Keeps self.old self.new slot kept) }
        ensures err { OnErr result ((s : Slot) → kept_of self.new s ≡ kept_of self.old s) }
        ensures labels { OnOk result (labels_of self.new ≡
            (if is_some (kept_of self.old slot) then labels_of self.old else labels_of self.old ++
            slot ∷ [])) }
    {
        let is_new = self.get(slot).is_none();
        let replaced = self.entries.keep_labelled(slot, is_new, kept)?;
        if let Some(replaced) = replaced {
            self.spare = replaced.clock;
        }
        Ok(())
    }

    /// Joins the clock that is kept of the slot with this one.
    pub(crate) fn join(&mut self, slot: Slot, clock: &Clock) -> Result<(), AllocError>
        requires { IsSome (kept_of self.old slot) }
        ensures joins { OnOk result (JoinsSlot self.old self.new slot (number_at clock.now)) }
        ensures err { OnErr result ((s : Slot) → kept_of self.new s ≡ kept_of self.old s) }
    {
        let none = Clock::new(*self.entries.labels.allocator());
        let mut joined = mem::replace(&mut self.spare, none);
        let Some(kept) = self.get(slot) else {
            return Ok(());
        };
        let thread = kept.thread;
        let label = kept.label;
        joined.copy_from(&kept.clock)?;
        joined.join(clock)?;
        self.set(
            slot,
            Kept {
                thread,
                clock: joined,
                label,
            },
        )
    }

    /// Whether this clock is at most the one that is kept of the slot in every place, so that a join
    /// changes nothing.
    pub(crate) fn is_past(&self, slot: Slot, clock: &Clock) -> bool
        ensures { IsTrue result → (u : ℕ) →
            number_at clock.now u ≤ kept_clock (kept_of self.now slot) u }
    {
        match self.get(slot) {
            Some(kept) => clock.at_most(&kept.clock),
            None => false,
        }
    }

    /// How many slots have a label.
    pub(crate) fn len(&self) -> usize
        ensures { result ≡ length (labels_of self.now) }
    {
        self.entries.labels.len()
    }

    /// The slot with this number.
    pub(crate) fn label(&self, i: usize) -> Slot
        requires { i < length (labels_of self.now) }
        ensures { slice_get (labels_of self.now) i ≡ Some result }
    {
        self.entries.labels[i]
    }
}
