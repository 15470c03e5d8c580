//! Which labels of a list begin a block.
ghost use Rattle.std.specs.Prelude.{◌≡◌, ◌||◌, ◌<◌, ℕ, [], length, OnOk};
ghost use Rattle.aero_intake.specs.Begun.{noted_at};
ghost use Rattle.aero_intake.specs.Surveys.{HasFlags};

use std::alloc::{AllocError, Global};

/// Which labels of a list begin a block, by the places of the labels, from 0. Of a label that is listed twice the first
/// place counts.
#[derive(Drop)]
pub struct Begun {
    /// Whether a block begins with the label at this place. Past the last flag none does.
    pub flags: Vec<bool>,
}

impl Begun {
    /// No block has begun. It takes no memory.
    pub fn none(alloc: Global) -> Begun
        ensures { result.flags.items ≡ [] }
    {
        Begun {
            flags: Vec::new(alloc),
        }
    }

    /// Makes room for a flag of each of so many labels, unless there is just that.
    ///
    /// # Errors
    ///
    /// `AllocError` if memory is refused. Nothing has changed then.
    pub fn make_room(&mut self, alloc: Global, labels: usize) -> Result<(), AllocError>
        ensures room { OnOk result (length self.new.flags.items ≡ labels) }
        ensures same { HasFlags labels self.old.flags.items → (place : ℕ) →
            noted_at self.new.flags.items place ≡ noted_at self.old.flags.items place }
    {
        if self.flags.len() != labels {
            self.flags = vec![in alloc; false; labels]?;
        }
        Ok(())
    }

    /// Whether a block begins with the label at this place.
    pub fn has(&self, place: usize) -> bool
        ensures { result ≡ noted_at self.now.flags.items place }
    {
        match self.flags.get(place) {
            Some(has_begun) => *has_begun,
            None => false,
        }
    }

    /// Adds the labels that begin a block of another source. It keeps as many flags as it had, and leaves out what the other has
    /// past them.
    pub fn join(&mut self, other: &Begun)
        ensures count { length self.new.flags.items ≡ length self.old.flags.items }
        ensures flags { (place : ℕ) → place < length self.old.flags.items →
            noted_at self.new.flags.items place ≡ (noted_at self.old.flags.items place ||
            noted_at other.now.flags.items place) }
    {
        for place in 0..self.flags.len() {
            if other.has(place) {
                self.flags[place] = true;
            }
        }
    }
}
