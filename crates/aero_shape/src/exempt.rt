//! For each thread the exempt blocks that are open, in a table by number. Past its end the table
//! says of a thread that it has none.
ghost use Rattle.std.specs.Prelude.{◌≡◌, ◌==◌, ◌≤◌, ◌<◌, ◌-◌, ◌^◌, ◌++◌, ◌∷◌, ◌&&◌, [], ℕ, if◌then◌else◌, length, take, vec_len, slice_index_or, OnOk, OnErr};
ghost use Rattle.aero_shape.specs.States.{around_at};
ghost use Rattle.aero_shape.specs.Told.{is_last};

use std::alloc::{AllocError, Global};
use std::marker::Model;

// Of each open exempt block of a thread, the outermost first, how many blocks round it aren't
// exempt.
#[derive(Drop)]
pub(crate) struct Around {
    depths: Vec<u32>,
}

impl Model for Around {
    ghost use Rattle.std.specs.Prelude.{ℕ, List};

    ghost Value = { List ℕ };

    ghost view = { λ around. around.depths.items };
}

impl Around {
    fn new(alloc: Global) -> Around
        ensures { result ≡ [] }
    {
        Around {
            depths: Vec::new(alloc),
        }
    }

    fn len(&self) -> usize
        ensures same { result ≡ length self.now }
        ensures fits { result < 2 ^ 63 }
    {
        self.depths.len()
    }

    fn is_last(&self, depth: u32) -> bool
        ensures { result ≡ is_last depth self.now }
    {
        match self.depths.last() {
            Some(last) => *last == depth,
            None => false,
        }
    }

    fn open(&mut self, depth: u32) -> Result<(), AllocError>
        ensures ok { OnOk result (self.new ≡ self.old ++ depth ∷ []) }
        ensures err { OnErr result (self.new ≡ self.old) }
    {
        self.depths.push(depth)?;
        Ok(())
    }

    fn close(&mut self)
        ensures { self.new ≡ take (length self.old - 1) self.old }
    {
        self.depths.pop();
    }
}

// Whether the thread's innermost exempt block began at this depth.
#[inline(always)]
pub(crate) fn ends_exempt(table: &[Around], thread: u32, depth: u32) -> bool
    ensures { result ≡ is_last depth (around_at table.now thread) }
{
    match table.get(thread as usize) {
        Some(around) => around.is_last(depth),
        None => false,
    }
}

// How many exempt blocks of the thread are open.
pub(crate) fn exempt_blocks(table: &[Around], thread: u32) -> usize
    ensures same { result ≡ length (around_at table.now thread) }
    ensures fits { result < 2 ^ 63 }
{
    match table.get(thread as usize) {
        Some(around) => around.len(),
        None => 0,
    }
}

// The table gets a place for the thread, if it has none.
fn grow(table: &mut Vec<Around>, thread: u32) -> Result<(), AllocError>
    ensures same { (k : ℕ) → around_at table.new.items k ≡ around_at table.old.items k }
    ensures ok { OnOk result (thread < vec_len table.new) }
    ensures front { take (vec_len table.old) table.new.items ≡ table.old.items }
    ensures longer { vec_len table.old ≤ vec_len table.new }
{
    while table.len() <= thread as usize {
        let around = Around::new(*table.allocator());
        table.push(around)?;
    }
    Ok(())
}

fn open_at(table: &mut [Around], thread: u32, depth: u32) -> Result<(), AllocError>
    requires { thread < length table.old }
    ensures ok { OnOk result ((t : ℕ) →
        around_at table.new t ≡ (if thread == t then around_at table.old t ++
        depth ∷ [] else around_at table.old t)) }
    ensures err { OnErr result (table.new ≡ table.old) }
{
    table[thread as usize].open(depth)
}

// An exempt block of the thread opens at this depth. Where memory is refused, the table stays as it
// was.
pub(crate) fn open_exempt(
    table: &mut Vec<Around>,
    thread: u32,
    depth: u32,
) -> Result<(), AllocError>
    ensures ok { OnOk result ((t : ℕ) →
        around_at table.new.items t ≡ (if thread == t then around_at table.old.items t ++
        depth ∷ [] else around_at table.old.items t)) }
    ensures err { OnErr result (table.new.items ≡ table.old.items) }
{
    let had = table.len();
    if grow(table, thread).is_err() {
        table.truncate(had);
        return Err(AllocError);
    }
    if open_at(table, thread, depth).is_err() {
        table.truncate(had);
        return Err(AllocError);
    }
    Ok(())
}

// The thread's innermost exempt block ends, if one does.
#[inline(always)]
pub(crate) fn close_exempt(table: &mut [Around], thread: u32, closes: bool)
    ensures { (t : ℕ) → around_at table.new t ≡
        (if closes && (thread == t) then take (length (around_at table.old t) - 1)
        (around_at table.old t) else around_at table.old t) }
{
    if closes && (thread as usize) < table.len() {
        table[thread as usize].close();
    }
}
