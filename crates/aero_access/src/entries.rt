//! What is kept of last writes, reads and releases, and the labels of these slots, one list for each.
ghost use Rattle.std.specs.Prelude.{◌≡◌, ◌++◌, ◌∷◌, [], ℕ, true, OnOk, OnErr, if◌then◌else◌};
ghost use Rattle.aero_engine.specs.declared.slot.Slot.{Slot};
ghost use Rattle.aero_access.specs.LastClocks.{is_kept};

use crate::kept::Kept;
use crate::places::{kept_at, put, put_read};
use crate::readers::Readers;
use aero_engine::Slot;
use std::alloc::{AllocError, Global};

/// The lists of a `Table`, whose type keeps that they fit each other. Variables and locks are
/// numbered, so that each is found by its place.
#[derive(Drop)]
pub struct Entries {
    pub(crate) writes: Vec<Option<Kept>>,
    pub(crate) reads: Vec<Readers>,
    pub(crate) releases: Vec<Option<Kept>>,
    pub(crate) labels: Vec<Slot>,
}

impl Entries {
    ghost use Rattle.std.specs.Prelude.{None, slice_get};
    ghost use Rattle.std.specs.Option.{option_copied};
    ghost use Rattle.aero_access.specs.Table.{kept_in, KeepsIn, KeepsAll};

    /// Nothing is kept.
    pub(crate) fn new(alloc: Global) -> Entries
        ensures kept { (s : Slot) → kept_in result s ≡ None }
        ensures labels { result.labels.items ≡ [] }
    {
        Entries {
            writes: Vec::new(alloc),
            reads: Vec::new(alloc),
            releases: Vec::new(alloc),
            labels: Vec::new(alloc),
        }
    }

    /// What is kept of the slot's last event, if there was one. Of a thread nothing is kept here.
    pub(crate) fn get(&self, slot: Slot) -> Option<&Kept>
        ensures { option_copied result ≡ kept_in self.now slot }
    {
        match slot {
            Slot::OfThread(_) => None,
            Slot::LastWrite(x) => kept_at(&self.writes, x),
            Slot::LastRead(x, t) => self.readers(x)?.get(t),
            Slot::LastRelease(l) => kept_at(&self.releases, l),
        }
    }

    /// What is kept of the last reads of the variable.
    pub(crate) fn readers(&self, x: u32) -> Option<&Readers>
        ensures { option_copied result ≡ slice_get self.now.reads.items x }
    {
        self.reads.get(x as usize)
    }

    // Keeps this of the slot's last event, and gives back what was kept of it.
    fn keep(&mut self, slot: Slot, kept: Kept) -> Result<Option<Kept>, AllocError>
        requires kept { is_kept slot ≡ true }
        requires reader { (x t : ℕ) → slot ≡ Slot.LastRead x t → kept.thread ≡ t }
        ensures ok { OnOk result (KeepsIn self.old self.new slot kept) }
        ensures err { OnErr result (KeepsAll self.old self.new) }
        ensures labels { self.new.labels ≡ self.old.labels }
    {
        match slot {
            Slot::OfThread(_) => Ok(None),
            Slot::LastWrite(x) => put(&mut self.writes, x, kept),
            Slot::LastRead(x, _) => put_read(&mut self.reads, x, kept),
            Slot::LastRelease(l) => put(&mut self.releases, l, kept),
        }
    }

    /// The same. A slot that is new gets a label.
    pub(crate) fn keep_labelled(
        &mut self,
        slot: Slot,
        is_new: bool,
        kept: Kept,
    ) -> Result<Option<Kept>, AllocError>
        requires kept { is_kept slot ≡ true }
        requires reader { (x t : ℕ) → slot ≡ Slot.LastRead x t → kept.thread ≡ t }
        ensures ok { OnOk result (KeepsIn self.old self.new slot kept) }
        ensures err { OnErr result (KeepsAll self.old self.new) }
        ensures labels_ok { OnOk result
            (self.new.labels.items ≡ (if is_new then self.old.labels.items ++
            slot ∷ [] else self.old.labels.items)) }
        ensures labels_err { OnErr result (self.new.labels.items ≡ self.old.labels.items) }
    {
        self.labels.reserve(1)?;
        let replaced = self.keep(slot, kept)?;
        if is_new {
            self.labels.push_reserved(slot);
        }
        Ok(replaced)
    }
}
