//! A list of names in one text: their bytes one after the other, and where each ends.
ghost use Rattle.std.specs.Prelude.{◌≡◌, ◌↔◌, ◌<◌, ◌∷◌, IsTrue, length, slice_index};

use std::alloc::{AllocError, Global};
use std::marker::Model;

/// Names, numbered from 0 in the order in which they came. A name may stand in it twice.
///
/// It keeps the names' bytes and four bytes more for each, in two allocations, and looks no name up.
#[derive(Drop)]
pub struct NameList {
    bytes: Vec<u8>,
    ends: Vec<u32>,
}

impl Model for NameList {
    ghost use Rattle.std.specs.Prelude.{ℕ, List};
    ghost use Rattle.aero_names.specs.Ends.{names_from, IsCut};

    ghost Value = { List (List ℕ) };

    ghost view = { λ l. names_from l.bytes.items 0 l.ends.items };

    ghost invariant = { λ l. IsCut l.bytes.items l.ends.items };
}

impl NameList {
    ghost use Rattle.std.specs.Prelude.{◌≡◌, ◌↔◌, ◌<◌, ◌^◌, ◌++◌, ◌∷◌, [], IsTrue, length, slice_get, option_copied, Some, OnOk, OnErr};

    /// No names. It takes no memory.
    pub fn new(alloc: Global) -> NameList
        ensures { result ≡ [] }
    {
        NameList {
            bytes: Vec::new(alloc),
            ends: Vec::new(alloc),
        }
    }

    /// Puts a copy of the name behind the others.
    ///
    /// An `AllocError` says that memory was refused, or that there would be over 2^32 - 1 names, or
    /// as many bytes in all of them. It changes nothing.
    pub fn push(&mut self, name: &[u8]) -> Result<(), AllocError>
        ensures ok { OnOk result (self.new ≡ self.old ++ name.now ∷ []) }
        ensures err { OnErr result (self.new ≡ self.old) }
    {
        let had = self.bytes.len();
        let end = had + name.len();
        let most = u32::MAX as usize;
        if end > most || self.ends.len() >= most {
            return Err(AllocError);
        }
        self.bytes.extend_from_slice(name)?;
        if let Err(refused) = self.ends.push(end as u32) {
            self.bytes.truncate(had);
            return Err(refused.into());
        }
        Ok(())
    }

    // The same names, in no more memory than they need.
    pub(crate) fn shrink_to_fit(&mut self)
        ensures { self.new ≡ self.old }
    {
        self.bytes.shrink_to_fit();
        self.ends.shrink_to_fit();
    }

    /// The bytes of the name with this number, or None where there are fewer names.
    #[inline(always)]
    pub fn name(&self, number: u32) -> Option<&[u8]>
        ensures { option_copied result ≡ slice_get self.now number }
    {
        let place = number as usize;
        let ends = self.ends.as_slice();
        if place >= ends.len() {
            return None;
        }
        let start = start_of(ends, place) as usize;
        let end = end_of(ends, place) as usize;
        Some(&self.bytes[start..end])
    }

    /// Whether both lists have the same names, each with the same number.
    pub fn has_same_names(&self, other: &NameList) -> bool
        ensures { IsTrue result ↔ (self.now ≡ other.now) }
    {
        are_same_ends(&self.ends, &other.ends) && are_same_bytes(&self.bytes, &other.bytes)
    }

    /// How many names there are.
    #[inline(always)]
    pub fn len(&self) -> u32
        ensures { result ≡ length self.now }
    {
        self.ends.len() as u32
    }

    /// Whether there is no name.
    pub fn is_empty(&self) -> bool
        ensures { IsTrue result ↔ (self.now ≡ []) }
    {
        self.ends.is_empty()
    }
}

// Where the name at this place begins: where the one before it ends.
#[inline(always)]
fn start_of(ends: &[u32], place: usize) -> u32
    requires { place < length ends.now }
    ensures { result ≡ slice_index (0 ∷ ends.now) place }
{
    if place == 0 { 0 } else { ends[place - 1] }
}

#[inline(always)]
fn end_of(ends: &[u32], place: usize) -> u32
    requires { place < length ends.now }
    ensures { result ≡ slice_index ends.now place }
{
    ends[place]
}

fn are_same_ends(a: &[u32], b: &[u32]) -> bool
    ensures { IsTrue result ↔ (a.now ≡ b.now) }
{
    a == b
}

fn are_same_bytes(a: &[u8], b: &[u8]) -> bool
    ensures { IsTrue result ↔ (a.now ≡ b.now) }
{
    a == b
}
