//! How the names of a list are found. The table `latest` leads from a mark to one more than the number of the latest
//! name that has it, and `before` has for each name the same of the one before it with its mark; 0 where there is
//! none. A name is looked for along those of its mark, and compared with each: by the keys, which are kept for each
//! name, or, where the name has none, by its bytes.
ghost use Rattle.std.specs.Prelude.{◌≡◌, ◌+◌, ◌<◌, ◌↔◌, ◌++◌, ◌∷◌, [], ℕ, IsTrue, false, length, slice_get, Some, IfSome, IfNone, IfOk, OnOk, bytes_eq, nat_eq, if◌then◌else◌, vec_capacity, vec_len};
ghost use Rattle.std.specs.List.{list_any};
ghost use Rattle.aero_names.specs.Hash.{hash_of as hash_in, hash_of_long as long_hash};
ghost use Rattle.aero_names.specs.Indexed.{IsIndexed, mark_of as mark_in, marks_of, next_at, HasHeads, IsWithin};
ghost use Rattle.aero_names.specs.Keys.{AreKeys, key_of as key_in};

use crate::hash::{Hashing, hash_of, hash_of_key, hash_of_long};
use crate::key::{Key, key_of};
use crate::latest::{Latest, Way, place_of};
use crate::list::NameList;
use std::alloc::{AllocError, Global};

// So many names stand in an `IndexMap`: no more than may be passed by heads. A chunk seldom has more threads.
const MOST_FEW: u32 = 16;

// How many heads there are at first: enough for a chunk with few names.
const FEWEST_HEADS: usize = 2_048;

// Below so many there are four times as many at the next growth, and then twice as many. So a chunk with thousands of names has
// them linked anew twice.
const MANY_HEADS: usize = 32_768;

// Whether the list's name with this number is this one.
#[inline(always)]
fn is_here(names: &NameList, number: u32, name: &[u8]) -> bool
    ensures { IsTrue result ↔ (slice_get names.now number ≡ Some name.now) }
{
    match names.name(number) {
        Some(here) => here == name,
        None => false,
    }
}

// Whether the name with this number has this key.
#[inline(always)]
fn is_key_here(keys: &[Key], number: u32, key: Key) -> bool
    ensures { IsTrue result ↔ (slice_get keys.now number ≡ Some key) }
{
    match keys.get(number as usize) {
        Some(here) => *here == key,
        None => false,
    }
}

// The hash of the name, and its number, where it is the latest one at its place. These are the keys of the names.
#[inline(always)]
pub(crate) fn found_at_head(
    heads: &[u32],
    keys: &[Key],
    names: &NameList,
    name: &[u8],
) -> (u64, Option<u32>)
    requires { AreKeys names.now keys.now }
    ensures hash { result.0 ≡ hash_in name.now }
    ensures number { IfSome result.1 (λ number. slice_get names.now number ≡ Some name.now) }
{
    match key_of(name) {
        Some(key) => {
            let hash = hash_of_key(key);
            (hash, found_by_key(heads, keys, key, hash))
        }
        None => found_long(heads, names, name),
    }
}

// The number of the latest name at the place of this hash, where it has this key.
#[inline(always)]
fn found_by_key(heads: &[u32], keys: &[Key], key: Key, hash: u64) -> Option<u32>
    ensures { IfSome result (λ number. slice_get keys.now number ≡ Some key) }
{
    let number = head_number(heads, hash)?;
    if is_key_here(keys, number, key) {
        return Some(number);
    }
    None
}

// The same of a name with no key.
fn found_long(heads: &[u32], names: &NameList, name: &[u8]) -> (u64, Option<u32>)
    ensures hash { result.0 ≡ long_hash name.now }
    ensures number { IfSome result.1 (λ number. slice_get names.now number ≡ Some name.now) }
{
    let hash = hash_of_long(name);
    (hash, found_by_bytes(heads, names, name, hash))
}

// The number of the latest name at the place of this hash, where it is this one.
#[inline(always)]
fn found_by_bytes(heads: &[u32], names: &NameList, name: &[u8], hash: u64) -> Option<u32>
    ensures { IfSome result (λ number. slice_get names.now number ≡ Some name.now) }
{
    let number = head_number(heads, hash)?;
    if is_here(names, number, name) {
        return Some(number);
    }
    None
}

// The number of the latest name at the place of this hash. Where there is none it is one that no name has.
#[inline(always)]
fn head_number(heads: &[u32], hash: u64) -> Option<u32> {
    let next = *heads.get(place_of(hash, heads.len()))?;
    Some(next.wrapping_sub(1))
}

// Whether the name with this number, of which these are the keys, is this one, whose key this is.
#[inline(always)]
fn is_named(keys: &[Key], names: &NameList, number: u32, name: &[u8], key: Option<Key>) -> bool
    requires keyed { AreKeys names.now keys.now }
    requires key { key ≡ key_in name.now }
    ensures { IsTrue result ↔ (slice_get names.now number ≡ Some name.now) }
{
    match key {
        Some(key) => is_key_here(keys, number, key),
        None => is_here(names, number, name),
    }
}

// The number of the name, whose mark this is, where the list has it, and how many names were passed before.
pub(crate) fn find(
    latest: &Latest,
    before: &[u32],
    keys: &[Key],
    names: &NameList,
    name: &[u8],
    mark: u128,
) -> (Option<u32>, u32)
    requires indexed { IsIndexed (mark_in (marks_of latest.now)) names.now (length names.now)
        (next_at latest.now) before.now }
    requires keyed { AreKeys names.now keys.now }
    requires marked { mark ≡ mark_in (marks_of latest.now) name.now }
    ensures found { IfSome result.0 (λ number. slice_get names.now number ≡ Some name.now) }
    ensures missed { IfNone result.0 (list_any (bytes_eq name.now) names.now ≡ false) }
{
    let key = key_of(name);
    let mut passed = 0u32;
    let mut next = latest.next(mark);
    while next > 0 {
        let number = next - 1;
        if is_named(keys, names, number, name, key) {
            return (Some(number), passed);
        }
        passed = passed.saturating_add(1);
        next = before[number as usize];
    }
    (None, passed)
}

// Room for one name more behind the others and among the keys, so that a push needs no memory.
pub(crate) fn make_room(before: &mut Vec<u32>, keys: &mut Vec<Key>) -> Result<(), AllocError>
    ensures rows { before.new.items ≡ before.old.items }
    ensures keys { keys.new.items ≡ keys.old.items }
    ensures room { OnOk result (vec_len before.new < vec_capacity before.new) }
    ensures key { OnOk result (vec_len keys.new < vec_capacity keys.new) }
{
    keys.reserve(1)?;
    before.reserve(1)?;
    Ok(())
}

// The next name, whose number and mark these are, is found too, where memory isn't refused.
fn link(
    latest: &mut Latest,
    before: &mut Vec<u32>,
    number: u32,
    mark: u128,
) -> Result<(), AllocError>
    requires fits { number < u32.MAX }
    requires within { IsWithin latest.old mark }
    ensures marks { marks_of latest.new ≡ marks_of latest.old }
    ensures latest { OnOk result ((m : ℕ) →
        next_at latest.new m ≡ (if nat_eq mark m then number + 1 else next_at latest.old m)) }
    ensures rows { OnOk result (before.new.items ≡ before.old.items ++ next_at latest.old mark ∷ []) }
{
    before.reserve(1)?;
    let next = latest.put(mark, number + 1)?;
    before.push_reserved(next);
    Ok(())
}

// The tables that find the names, of which the first is this one, which leads nowhere yet, with room for as many more.
fn tables_from(
    mut latest: Latest,
    alloc: Global,
    names: &NameList,
) -> Result<(Latest, Vec<u32>), AllocError>
    requires heads { HasHeads latest }
    requires none { (m : ℕ) → next_at latest m ≡ 0 }
    ensures marks { IfOk result (λ tables. marks_of tables.0 ≡ marks_of latest) }
    ensures indexed { IfOk result (λ tables. IsIndexed (mark_in (marks_of tables.0)) names.now
        (length names.now) (next_at tables.0) tables.1.items) }
{
    let room = (names.len() as usize).saturating_mul(2);
    let mut before = Vec::with_capacity(alloc, room)?;
    for number in 0..names.len() {
        let Some(name) = names.name(number) else {
            unreachable!()
        };
        let mark = latest.mark_of(name, hash_of(name));
        link(&mut latest, &mut before, number, mark)?;
    }
    Ok((latest, before))
}

// Tables that find the names in another way: by their second hash, or, where they were found by that, by their prints.
pub(crate) fn spread(
    alloc: Global,
    latest: &Latest,
    names: &NameList,
) -> Result<(Latest, Vec<u32>), AllocError>
    ensures { IfOk result (λ tables. IsIndexed (mark_in (marks_of tables.0)) names.now
        (length names.now) (next_at tables.0) tables.1.items) }
{
    let spread = match latest.hashing {
        Hashing::First => {
            let places = latest.heads.len().max(FEWEST_HEADS);
            Latest::with_heads(alloc, Way::Heads, Hashing::Second, places)?
        }
        Hashing::Second => Latest::new(alloc, Way::Prints),
    };
    tables_from(spread, alloc, names)
}

// Whether one name more can be found in the same way.
#[inline(always)]
fn is_roomy(latest: &Latest, names: u32) -> bool
    ensures { IsTrue result → HasHeads latest.now }
{
    let places = latest.heads.len();
    match latest.way {
        Way::Heads => places / 2 > names as usize,
        Way::Few => places > 0 && names < MOST_FEW,
        Way::Prints => true,
    }
}

// Where the names are found by heads, there are more than twice as many as names. Where memory is refused nothing changes.
pub(crate) fn grow(
    alloc: Global,
    latest: &mut Latest,
    before: &mut Vec<u32>,
    names: &NameList,
) -> Result<(), AllocError>
    requires { IsIndexed (mark_in (marks_of latest.old)) names.now (length names.now)
        (next_at latest.old) before.old.items }
    ensures indexed { IsIndexed (mark_in (marks_of latest.new)) names.now (length names.now)
        (next_at latest.new) before.new.items }
    ensures heads { OnOk result (HasHeads latest.new) }
{
    if is_roomy(latest, names.len()) {
        return Ok(());
    }
    let places = latest.heads.len();
    let way = if places == 0 { Way::Few } else { Way::Heads };
    let factor = if places < MANY_HEADS { 4 } else { 2 };
    let more = places.saturating_mul(factor).max(FEWEST_HEADS);
    let grown = Latest::with_heads(alloc, way, latest.hashing, more)?;
    let (grown, linked) = tables_from(grown, alloc, names)?;
    *latest = grown;
    *before = linked;
    Ok(())
}
