//! A list of different names, numbered in order of first appearance.
use crate::index::{find, found_at_head, grow, make_room, spread};
use crate::key::{Key, kept_key};
use crate::latest::{Latest, Way};
use crate::list::NameList;
use aero_model::Name;
use std::alloc::{AllocError, Global};
use std::marker::Model;
use thiserror::Error;

/// Why a name got no number, in the order of the checks.
#[derive(Clone, Copy, Debug, PartialEq, Eq, Error)]
pub enum NamesFault {
    #[error("too many different names")]
    Full,
    #[error("out of memory")]
    Memory,
}

/// Different names, numbered from 0 in order of first appearance, up to a limit.
///
/// A look-up takes expected constant time in the number of names, and time linear in the name. Where
/// names are chosen so that many share a place of its table, it takes logarithmic time.
#[derive(Drop)]
pub struct Names {
    alloc: Global,
    list: NameList,
    latest: Latest,
    before: Vec<u32>,
    keys: Vec<Key>,
    limit: u32,
}

impl Model for Names {
    ghost use Rattle.aero_names.specs.Listing.{Listing};
    ghost use Rattle.aero_names.specs.Indexed.{AreFound, mark_of, marks_of, next_at};

    ghost Value = { Listing };

    ghost view = { λ n. record { names = n.list; limit = n.limit } };

    ghost invariant = { λ n. AreFound (mark_of (marks_of n.latest)) (record { names = n.list; limit = n.limit }) (next_at n.latest) n.before.items n.keys.items };
}

impl Names {
    ghost use Rattle.std.specs.Prelude.{◌≡◌, ◌↔◌, ◌≤◌, ◌<◌, ◌++◌, ◌∷◌, [], false, length, slice_get, option_copied, Some, IfSome, IfNone, IfOk, OnOk, OnErr, IsErrOf, IsTrue};
    ghost use Rattle.aero_names.specs.Hash.{hash_of as hash_in};
    ghost use Rattle.aero_names.specs.Listing.{is_listed, IsListing, IsNumbered};

    /// No names yet, and at most `limit` names to come. It takes no memory.
    pub fn new(alloc: Global, limit: u32) -> Names
        ensures { result ≡ record { names = []; limit = limit } }
    {
        Names {
            alloc,
            list: NameList::new(alloc),
            latest: Latest::new(alloc, Way::Few),
            before: Vec::new(alloc),
            keys: Vec::new(alloc),
            limit,
        }
    }

    /// The number of the name, which is the next one where the name is new. A known name takes no
    /// memory, and always has its number.
    ///
    /// # Errors
    ///
    /// `NamesFault::Full` exactly where the name is new and the limit is met; else
    /// `NamesFault::Memory` where memory runs out, or where the names have over 2^32 - 1 bytes in
    /// all. Both change nothing.
    pub fn number(&mut self, name: &Name) -> Result<u32, NamesFault>
        ensures { IsNumbered self.old self.new name.now result }
    {
        self.number_of_bytes(name.bytes())
    }

    /// The same of the name with these bytes: only where the name is new is it copied.
    #[inline(always)]
    pub fn number_of_bytes(&mut self, bytes: &[u8]) -> Result<u32, NamesFault>
        ensures { IsNumbered self.old self.new bytes.now result }
    {
        let (hash, found) = found_at_head(&self.latest.heads, &self.keys, &self.list, bytes);
        match found {
            Some(number) => Ok(number),
            None => self.number_along(bytes, hash),
        }
    }

    /// The number of the name with these bytes, or `None` if it isn't in the list. It takes no memory.
    pub fn find(&self, bytes: &[u8]) -> Option<u32>
        ensures found { IfSome result (λ number. slice_get self.now.names number ≡ Some bytes.now) }
        ensures missed { IfNone result (is_listed self.now bytes.now ≡ false) }
    {
        let (hash, found) = found_at_head(&self.latest.heads, &self.keys, &self.list, bytes);
        match found {
            Some(number) => Some(number),
            None => self.find_along(bytes, hash),
        }
    }

    // The same, where the name, whose hash this is, is looked for along all with its mark.
    fn find_along(&self, name: &[u8], hash: u64) -> Option<u32>
        requires { hash ≡ hash_in name.now }
        ensures found { IfSome result (λ number. slice_get self.now.names number ≡ Some name.now) }
        ensures missed { IfNone result (is_listed self.now name.now ≡ false) }
    {
        let mark = self.latest.mark_of(name, hash);
        find(
            &self.latest,
            &self.before,
            &self.keys,
            &self.list,
            name,
            mark,
        )
        .0
    }

    // The number of the name, whose hash this is, where it is looked for along all with its mark, and the next one where it
    // is new.
    fn number_along(&mut self, name: &[u8], hash: u64) -> Result<u32, NamesFault>
        requires { hash ≡ hash_in name.now }
        ensures { IsNumbered self.old self.new name.now result }
    {
        let mark = self.latest.mark_of(name, hash);
        let (found, passed) = find(
            &self.latest,
            &self.before,
            &self.keys,
            &self.list,
            name,
            mark,
        );
        match found {
            Some(number) => Ok(number),
            None => self.number_new(name, hash, passed),
        }
    }

    // The next number, for a name that is new, and passed so many with its mark.
    fn number_new(&mut self, name: &[u8], hash: u64, passed: u32) -> Result<u32, NamesFault>
        requires new { is_listed self.old name.now ≡ false }
        requires hashed { hash ≡ hash_in name.now }
        ensures number { IfOk result (λ number. number ≡ length self.old.names) }
        ensures names { OnOk result (self.new ≡
            record self.old { names = self.old.names ++ name.now ∷ [] }) }
        ensures full { IsErrOf result NamesFault.Full ↔ (self.old.limit ≤ length self.old.names) }
        ensures err { OnErr result (self.new ≡ self.old) }
        ensures listing { IsListing self.new }
    {
        let number = self.list.len();
        if number >= self.limit {
            return Err(NamesFault::Full);
        }
        match self.add(name, hash) {
            Ok(()) => {
                if passed > self.latest.most_passed() {
                    self.spread();
                }
                Ok(number)
            }
            Err(_) => Err(NamesFault::Memory),
        }
    }

    // The names are found in another way from now on, where there is one left and memory isn't refused.
    fn spread(&mut self)
        ensures same { self.new ≡ self.old }
        ensures listing { IsListing self.new }
    {
        if self.latest.way == Way::Prints {
            return;
        }
        if let Ok((latest, before)) = spread(self.alloc, &self.latest, &self.list) {
            self.latest = latest;
            self.before = before;
        }
    }

    // Puts a name that is new behind the others.
    fn add(&mut self, name: &[u8], hash: u64) -> Result<(), AllocError>
        requires hashed { hash ≡ hash_in name.now }
        requires new { is_listed self.old name.now ≡ false }
        requires room { length self.old.names < self.old.limit }
        ensures names { OnOk result (self.new ≡
            record self.old { names = self.old.names ++ name.now ∷ [] }) }
        ensures err { OnErr result (self.new ≡ self.old) }
        ensures listing { IsListing self.new }
    {
        let number = self.list.len();
        grow(self.alloc, &mut self.latest, &mut self.before, &self.list)?;
        let mark = self.latest.mark_of(name, hash);
        make_room(&mut self.before, &mut self.keys)?;
        let next = self.latest.put(mark, number + 1)?;
        if let Err(refused) = self.list.push(name) {
            self.latest.put_back(mark, next);
            return Err(refused);
        }
        self.keys.push_reserved(kept_key(name));
        self.before.push_reserved(next);
        Ok(())
    }

    /// The names alone, without what it takes to look them up, and in no more memory than they need.
    pub fn into_list(self) -> NameList
        ensures { result ≡ self.names }
    {
        let Names { mut list, .. } = self;
        list.shrink_to_fit();
        list
    }

    /// The bytes of the name with this number, or None where there are fewer names.
    pub fn name(&self, number: u32) -> Option<&[u8]>
        ensures { option_copied result ≡ slice_get self.now.names number }
    {
        self.list.name(number)
    }

    /// Whether both lists have the same names, each with the same number.
    pub fn has_same_names(&self, other: &Names) -> bool
        ensures { IsTrue result ↔ (self.now.names ≡ other.now.names) }
    {
        self.list.has_same_names(&other.list)
    }

    /// How many names there are.
    pub fn len(&self) -> u32
        ensures value { result ≡ length self.now.names }
        ensures listing { IsListing self.now }
    {
        self.list.len()
    }

    /// Whether there is no name.
    pub fn is_empty(&self) -> bool
        ensures { IsTrue result ↔ (self.now.names ≡ []) }
    {
        self.list.is_empty()
    }
}
