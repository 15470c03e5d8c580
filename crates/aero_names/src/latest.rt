//! Where the names with a mark are found: the table leads from a mark to one more than the number of the latest
//! name that has it, and to 0 where there is none. The mark of a name is its hash while there are few names, and then the
//! place of one of its hashes among the heads, or the name's print.
//!
//! While there are few names the table is an `IndexMap`, and its heads are hints: who reads one compares the name that it
//! leads to. Its hash is fixed, so names can be made to share a place in it; there are too few to make it slow.
ghost use Rattle.std.specs.Prelude.{◌≡◌, ◌≢◌, ◌<◌, ℕ, None, length, slice_index, IfOk, OnOk, OnErr, nat_eq, if◌then◌else◌};
ghost use Rattle.std.specs.Ordering.{nat_cmp};
ghost use Rattle.std.specs.BTreeMap.{ContainsKey};
ghost use Rattle.indexmap.specs.IndexMap.{get as get_indexed};
ghost use Rattle.aero_names.specs.declared.hash.Hashing.TheVariants.{First as ByFirst};
ghost use Rattle.aero_names.specs.declared.latest.Way.TheVariants.{Heads as ByHeads};
ghost use Rattle.aero_names.specs.Hash.{hash_of as hash_in};
ghost use Rattle.aero_names.specs.Indexed.{mark_of as mark_in, marks_of, place_in, next_at, next_few, next_print, HasHeads, HasRoom, IsWithin};

use crate::hash::{Hashing, hash_by};
use crate::print::print_of;
use indexmap::IndexMap;
use std::alloc::{AllocError, Global};
use std::collections::BTreeMap;

// How many names with its mark a new name may pass where they are found by their first hash. Long names that nobody
// chose may share it.
const MOST_PASSED: u32 = 16;

// The same by the second hash: behind it only the slowest way is left.
const MOST_PASSED_AGAIN: u32 = 32;

// In which way names are found: by heads, a few by their hash, or by prints, where too many share their hashes.
#[derive(Clone, Copy, PartialEq, Eq)]
pub(crate) enum Way {
    Heads,
    Few,
    Prints,
}

#[derive(Drop)]
pub(crate) struct Latest {
    pub(crate) heads: Vec<u32>,
    pub(crate) few: IndexMap<u128, u32>,
    pub(crate) prints: BTreeMap<u128, u32>,
    pub(crate) way: Way,
    pub(crate) hashing: Hashing,
}

impl Latest {
    // A table without heads, which leads nowhere.
    pub(crate) fn new(alloc: Global, way: Way) -> Latest
        ensures marks { marks_of result ≡ (way, ByFirst, 0) }
        ensures none { (mark : ℕ) → next_at result mark ≡ 0 }
    {
        Latest {
            heads: Vec::new(alloc),
            few: IndexMap::new(alloc),
            prints: BTreeMap::new(alloc),
            way,
            hashing: Hashing::First,
        }
    }

    // A table with so many heads, for names that are found in this way, by this hash where it is by heads. It leads nowhere.
    pub(crate) fn with_heads(
        alloc: Global,
        way: Way,
        hashing: Hashing,
        places: usize,
    ) -> Result<Latest, AllocError>
        ensures marks { IfOk result (λ latest. marks_of latest ≡ (way, hashing, places)) }
        ensures none { IfOk result (λ latest. (mark : ℕ) → next_at latest mark ≡ 0) }
    {
        Ok(Latest {
            heads: vec![in alloc; 0u32; places]?,
            few: IndexMap::new(alloc),
            prints: BTreeMap::new(alloc),
            way,
            hashing,
        })
    }

    // How many names with its mark a new name may pass, before the names are found in another way.
    pub(crate) fn most_passed(&self) -> u32 {
        match self.hashing {
            Hashing::First => MOST_PASSED,
            Hashing::Second => MOST_PASSED_AGAIN,
        }
    }

    // The mark of the name, whose hash this is.
    #[inline(always)]
    pub(crate) fn mark_of(&self, name: &[u8], hash: u64) -> u128
        requires { hash ≡ hash_in name.now }
        ensures mark { result ≡ mark_in (marks_of self.now) name.now }
        ensures within { HasHeads self.now → IsWithin self.now result }
    {
        match self.way {
            Way::Heads => place_of(hash_by(self.hashing, name, hash), self.heads.len()) as u128,
            _ => self.mark_in_map(name, hash),
        }
    }

    // The same where the names are found in a map.
    #[inline(never)]
    fn mark_in_map(&self, name: &[u8], hash: u64) -> u128
        requires map { self.now.way ≢ ByHeads }
        requires hashed { hash ≡ hash_in name.now }
        ensures { result ≡ mark_in (marks_of self.now) name.now }
    {
        match self.way {
            Way::Prints => print_of(name),
            _ => hash as u128,
        }
    }

    // Where the table leads from this mark.
    #[inline(always)]
    pub(crate) fn next(&self, mark: u128) -> u32
        ensures { result ≡ next_at self.now mark }
    {
        match self.way {
            Way::Heads => latest_head(&self.heads, mark),
            _ => self.next_in_map(mark),
        }
    }

    // The same where the names are found in a map.
    #[inline(never)]
    fn next_in_map(&self, mark: u128) -> u32
        requires { self.now.way ≢ ByHeads }
        ensures { result ≡ next_at self.now mark }
    {
        match self.way {
            Way::Prints => latest_print(&self.prints, mark),
            _ => latest_few(&self.few, mark),
        }
    }

    // From now on the table leads from the mark to this, and here is where it led before. Where memory is refused it
    // leads as before.
    pub(crate) fn put(&mut self, mark: u128, next: u32) -> Result<u32, AllocError>
        requires { IsWithin self.old mark }
        ensures marks { marks_of self.new ≡ marks_of self.old }
        ensures before { IfOk result (λ before. before ≡ next_at self.old mark) }
        ensures latest { OnOk result ((m : ℕ) →
            next_at self.new m ≡ (if nat_eq mark m then next else next_at self.old m)) }
        ensures room { OnOk result (HasRoom self.new mark) }
        ensures err { OnErr result ((m : ℕ) → next_at self.new m ≡ next_at self.old m) }
    {
        match self.way {
            Way::Heads => Ok(put_head(&mut self.heads, mark, next)),
            _ => self.put_in_map(mark, next),
        }
    }

    // The same where the names are found in a map.
    #[inline(never)]
    fn put_in_map(&mut self, mark: u128, next: u32) -> Result<u32, AllocError>
        requires { self.old.way ≢ ByHeads }
        ensures marks { marks_of self.new ≡ marks_of self.old }
        ensures before { IfOk result (λ before. before ≡ next_at self.old mark) }
        ensures latest { OnOk result ((m : ℕ) →
            next_at self.new m ≡ (if nat_eq mark m then next else next_at self.old m)) }
        ensures room { OnOk result (HasRoom self.new mark) }
        ensures err { OnErr result ((m : ℕ) → next_at self.new m ≡ next_at self.old m) }
    {
        match self.way {
            Way::Prints => put_print(&mut self.prints, mark, next),
            _ => {
                set_hint(&mut self.heads, mark, next);
                put_few(&mut self.few, mark, next)
            }
        }
    }

    // The same for a mark that was put before, which takes no memory.
    pub(crate) fn put_back(&mut self, mark: u128, next: u32)
        requires { HasRoom self.old mark }
        ensures marks { marks_of self.new ≡ marks_of self.old }
        ensures latest { (m : ℕ) → next_at self.new m ≡
            (if nat_eq mark m then next else next_at self.old m) }
    {
        match self.way {
            Way::Heads => {
                put_head(&mut self.heads, mark, next);
            }
            Way::Few => put_few_back(&mut self.few, mark, next),
            Way::Prints => put_print_back(&mut self.prints, mark, next),
        }
    }
}

// Of so many heads, the place of the one for this hash.
#[inline(always)]
pub(crate) fn place_of(hash: u64, places: usize) -> usize
    ensures place { result ≡ place_in places hash }
    ensures within { 0 < places → result < places }
{
    (hash >> 32) as usize & places.saturating_sub(1)
}

#[inline(always)]
fn latest_head(heads: &[u32], mark: u128) -> u32
    ensures { result ≡ slice_index heads.now mark }
{
    if mark >= heads.len() as u128 {
        return 0;
    }
    heads[mark as usize]
}

fn latest_few(few: &IndexMap<u128, u32>, mark: u128) -> u32
    ensures { result ≡ next_few few.now mark }
{
    match few.get(&mark) {
        Some(next) => *next,
        None => 0,
    }
}

fn latest_print(prints: &BTreeMap<u128, u32>, mark: u128) -> u32
    ensures { result ≡ next_print prints.now mark }
{
    match prints.get(&mark) {
        Some(next) => *next,
        None => 0,
    }
}

fn put_head(heads: &mut [u32], mark: u128, next: u32) -> u32
    requires { mark < length heads.old }
    ensures before { result ≡ slice_index heads.old mark }
    ensures count { length heads.new ≡ length heads.old }
    ensures latest { (m : ℕ) → slice_index heads.new m ≡
        (if nat_eq mark m then next else slice_index heads.old m) }
{
    let place = mark as usize;
    let before = heads[place];
    heads[place] = next;
    before
}

// The head for this hash leads here from now on.
fn set_hint(heads: &mut [u32], hash: u128, next: u32)
    ensures { length heads.new ≡ length heads.old }
{
    let place = place_of((hash & 0xFFFF_FFFF_FFFF_FFFF) as u64, heads.len());
    if let Some(head) = heads.get_mut(place) {
        *head = next;
    }
}

fn put_few(few: &mut IndexMap<u128, u32>, mark: u128, next: u32) -> Result<u32, AllocError>
    ensures before { IfOk result (λ before. before ≡ next_few few.old mark) }
    ensures latest { OnOk result ((m : ℕ) →
        next_few few.new m ≡ (if nat_eq mark m then next else next_few few.old m)) }
    ensures room { OnOk result (get_indexed nat_eq few.new mark ≢ None) }
    ensures err { OnErr result ((m : ℕ) → next_few few.new m ≡ next_few few.old m) }
{
    match few.insert(mark, next) {
        Ok(before) => Ok(before.unwrap_or(0)),
        Err(_) => Err(AllocError),
    }
}

fn put_few_back(few: &mut IndexMap<u128, u32>, mark: u128, next: u32)
    requires { get_indexed nat_eq few.old mark ≢ None }
    ensures { (m : ℕ) → next_few few.new m ≡ (if nat_eq mark m then next else next_few few.old m) }
{
    let Ok(_) = few.insert(mark, next) else {
        unreachable!()
    };
}

fn put_print(prints: &mut BTreeMap<u128, u32>, mark: u128, next: u32) -> Result<u32, AllocError>
    ensures before { IfOk result (λ before. before ≡ next_print prints.old mark) }
    ensures latest { OnOk result ((m : ℕ) →
        next_print prints.new m ≡ (if nat_eq mark m then next else next_print prints.old m)) }
    ensures room { OnOk result (ContainsKey nat_cmp prints.new mark) }
    ensures err { OnErr result ((m : ℕ) → next_print prints.new m ≡ next_print prints.old m) }
{
    match prints.insert(mark, next) {
        Ok(before) => Ok(before.unwrap_or(0)),
        Err(_) => Err(AllocError),
    }
}

fn put_print_back(prints: &mut BTreeMap<u128, u32>, mark: u128, next: u32)
    requires { ContainsKey nat_cmp prints.old mark }
    ensures { (m : ℕ) → next_print prints.new m ≡
        (if nat_eq mark m then next else next_print prints.old m) }
{
    let Ok(_) = prints.insert(mark, next) else {
        unreachable!()
    };
}
