//! Lists with a place for each variable or lock, by its number. They know of no slots and no labels,
//! and change what is kept at one place.
ghost use Rattle.std.specs.Prelude.{◌≡◌, ◌==◌, ◌&&◌, ◌<◌, ℕ, Some, slice_get, find, OnOk, OnErr, vec_len, if◌then◌else◌};
ghost use Rattle.std.specs.Option.{option_copied};
ghost use Rattle.aero_access.specs.LastClocks.{flat, is_by};
ghost use Rattle.aero_access.specs.Table.{readers_in};

use crate::kept::Kept;
use crate::readers::Readers;
use std::alloc::AllocError;
use std::mem;

/// What is kept at this number.
pub(crate) fn kept_at(kept: &[Option<Kept>], number: u32) -> Option<&Kept>
    ensures { option_copied result ≡ flat (slice_get kept.now number) }
{
    match kept.get(number as usize) {
        Some(Some(entry)) => Some(entry),
        _ => None,
    }
}

/// Keeps this at the number, and gives back what was kept there.
pub(crate) fn put(
    kept: &mut Vec<Option<Kept>>,
    number: u32,
    entry: Kept,
) -> Result<Option<Kept>, AllocError>
    ensures ok { OnOk result ((n : ℕ) →
        flat (slice_get kept.new.items n) ≡
        (if number == n then Some entry else flat (slice_get kept.old.items n))) }
    ensures err { OnErr result ((n : ℕ) →
        flat (slice_get kept.new.items n) ≡ flat (slice_get kept.old.items n)) }
{
    make_room(kept, number)?;
    Ok(mem::replace(&mut kept[number as usize], Some(entry)))
}

fn make_room(kept: &mut Vec<Option<Kept>>, number: u32) -> Result<(), AllocError>
    ensures room { OnOk result (number < vec_len kept.new) }
    ensures same { (n : ℕ) → flat (slice_get kept.new.items n) ≡ flat (slice_get kept.old.items n) }
{
    let at = number as usize;
    while kept.len() <= at {
        kept.push(None)?;
    }
    Ok(())
}

/// Keeps this of the last read of the variable by its thread, and gives back what was kept of it.
pub(crate) fn put_read(
    reads: &mut Vec<Readers>,
    x: u32,
    kept: Kept,
) -> Result<Option<Kept>, AllocError>
    ensures ok { OnOk result ((y t : ℕ) →
        find (is_by t) (readers_in (slice_get reads.new.items y)) ≡
        (if (x == y) && (kept.thread == t) then Some kept else find (is_by t)
        (readers_in (slice_get reads.old.items y)))) }
    ensures err { OnErr result ((y t : ℕ) →
        find (is_by t) (readers_in (slice_get reads.new.items y)) ≡
        find (is_by t) (readers_in (slice_get reads.old.items y))) }
{
    reach(reads, x)?;
    reads[x as usize].set(kept)
}

fn reach(reads: &mut Vec<Readers>, number: u32) -> Result<(), AllocError>
    ensures room { OnOk result (number < vec_len reads.new) }
    ensures same { (n : ℕ) → readers_in (slice_get reads.new.items n) ≡
        readers_in (slice_get reads.old.items n) }
{
    let at = number as usize;
    while reads.len() <= at {
        let readers = Readers::new(*reads.allocator());
        reads.push(readers)?;
    }
    Ok(())
}
