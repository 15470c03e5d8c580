//! What is kept of variables and locks.
ghost use Rattle.std.specs.Prelude.{◌≡◌, ◌≢◌, ◌==◌, ◌<◌, ◌++◌, ◌∷◌, [], ℕ, OnOk, vec_len, slice_get, if◌then◌else◌};
ghost use Rattle.aero_leads.specs.Kept.{last, last_or_none, variable_write, latest_read_in, other_reads_in, variable_reads, reads_but, rank, AreCompacted, AreKept};

use crate::last::Last;
use std::alloc::{AllocError, Global};

/// A list of up to so many reads is gone over at each read.
const FEW: usize = 32;

/// The last write, the latest read since, and of each other thread its last read since, if an open block may lead to it.
/// A list of more than a few has earlier reads as well, until its room is full: so a read needn't go over the list. Most
/// variables are read by one thread between writes, and need none.
#[derive(Drop)]
pub struct Variable {
    pub write: Last,
    pub read: Last,
    pub others: Vec<Last>,
}

/// The last write of variable `x`.
pub(crate) fn last_write(variables: &[Variable], x: u32) -> Last
    ensures { result ≡ variable_write (slice_get variables.now x) }
{
    match variables.get(x as usize) {
        Some(variable) => variable.write,
        None => Last::none(),
    }
}

/// The latest read of variable `x` since.
pub(crate) fn latest_read(variables: &[Variable], x: u32) -> Last
    ensures { result ≡ latest_read_in (slice_get variables.now x) }
{
    match variables.get(x as usize) {
        Some(variable) => variable.read,
        None => Last::none(),
    }
}

/// The reads of variable `x` since by other threads that are kept.
pub(crate) fn other_reads(variables: &[Variable], x: u32) -> &[Last]
    ensures { result.now ≡ other_reads_in (slice_get variables.now x) }
{
    match variables.get(x as usize) {
        Some(variable) => &variable.others,
        None => &[],
    }
}

/// The last release of lock `l`.
pub(crate) fn last_release(releases: &[Last], l: u32) -> Last
    ensures { result ≡ last_or_none (slice_get releases.now l) }
{
    match releases.get(l as usize) {
        Some(release) => *release,
        None => Last::none(),
    }
}

/// Variable `x` is written by this event. The reads before it are forgotten.
pub(crate) fn note_write(
    variables: &mut Vec<Variable>,
    x: u32,
    event: Last,
) -> Result<(), AllocError>
    ensures writes { OnOk result ((y : ℕ) →
        variable_write (slice_get variables.new.items y) ≡
        (if y == x then event else variable_write (slice_get variables.old.items y))) }
    ensures reads { OnOk result ((y : ℕ) →
        variable_reads (slice_get variables.new.items y) ≡
        (if y == x then [] else variable_reads (slice_get variables.old.items y))) }
{
    reach(variables, x)?;
    let variable = &mut variables[x as usize];
    variable.write = event;
    variable.read = Last::none();
    variable.others.clear();
    Ok(())
}

/// Variable `x` is read by this event, the last read by its thread. The latest read before it stands with the others
/// from now on, or is forgotten, which is right where it is by the same thread or no open block leads to it. Of the
/// others some may be left out: those by the same thread, and those of which a later one by their thread stays.
pub(crate) fn note_read(
    variables: &mut Vec<Variable>,
    x: u32,
    event: Last,
    is_kept: bool,
) -> Result<(), AllocError>
    ensures writes { OnOk result ((y : ℕ) →
        variable_write (slice_get variables.new.items y) ≡
        variable_write (slice_get variables.old.items y)) }
    ensures latest { OnOk result (latest_read_in (slice_get variables.new.items x) ≡ event) }
    ensures others { OnOk result (AreKept event.thread
        (other_reads_in (slice_get variables.old.items x) ++
        (if is_kept then latest_read_in (slice_get variables.old.items x) ∷ [] else []))
        (other_reads_in (slice_get variables.new.items x))) }
    ensures same { OnOk result ((y : ℕ) → y ≢ x →
        variable_reads (slice_get variables.new.items y) ≡
        variable_reads (slice_get variables.old.items y)) }
{
    reach(variables, x)?;
    put_read(&mut variables[x as usize], event, is_kept)?;
    Ok(())
}

/// Lock `l` is released by this event.
pub(crate) fn note_release(releases: &mut Vec<Last>, l: u32, event: Last) -> Result<(), AllocError>
    ensures { OnOk result ((m : ℕ) →
        last_or_none (slice_get releases.new.items m) ≡
        (if m == l then event else last_or_none (slice_get releases.old.items m))) }
{
    reach_lock(releases, l)?;
    releases[l as usize] = event;
    Ok(())
}

// The event is the latest read, in the place of an earlier one by its thread.
fn put_read(variable: &mut Variable, event: Last, is_kept: bool) -> Result<(), AllocError>
    ensures write { variable.new.write ≡ variable.old.write }
    ensures latest { OnOk result (variable.new.read ≡ event) }
    ensures others { OnOk result (AreKept event.thread
        (variable.old.others.items ++ (if is_kept then variable.old.read ∷ [] else []))
        variable.new.others.items) }
{
    drop_stale(&mut variable.others, event.thread);
    if is_kept {
        let latest = variable.read;
        variable.others.push(latest)?;
    }
    variable.read = event;
    Ok(())
}

// Of few reads those by thread t are left out. More stay until their room is full, and then there is room for as many
// again as are left. Where memory for it is refused, this is done again at the next read.
fn drop_stale(reads: &mut Vec<Last>, t: u32)
    ensures { AreKept t reads.old.items reads.new.items }
{
    let count = reads.len();
    if count <= FEW {
        drop_reader(reads, t);
        return;
    }
    if count < reads.capacity() {
        return;
    }
    compact(reads);
    let left = reads.len();
    let _ = reads.reserve(left);
}

// Of each thread only the last read stays.
#[inline(never)]
fn compact(reads: &mut Vec<Last>)
    ensures { AreCompacted reads.old.items reads.new.items }
{
    reads.sort_unstable_by(|a, b| rank_of(b).cmp(&rank_of(a)));
    reads.dedup_by_key(|read| read.thread);
}

// The place of a read in the order by threads, and by counts where these are the same.
fn rank_of(read: &Last) -> u64
    ensures { result ≡ rank read.now }
{
    u64::from(read.thread) * (1 << 32) + u64::from(read.count)
}

fn drop_reader(reads: &mut Vec<Last>, t: u32)
    ensures { reads.new.items ≡ reads_but t reads.old.items }
{
    reads.retain(|read| read.thread != t);
}

fn reach(variables: &mut Vec<Variable>, x: u32) -> Result<(), AllocError>
    ensures room { OnOk result (x < vec_len variables.new) }
    ensures writes { (y : ℕ) → variable_write (slice_get variables.new.items y) ≡
        variable_write (slice_get variables.old.items y) }
    ensures reads { (y : ℕ) → variable_reads (slice_get variables.new.items y) ≡
        variable_reads (slice_get variables.old.items y) }
    ensures latest { (y : ℕ) → latest_read_in (slice_get variables.new.items y) ≡
        latest_read_in (slice_get variables.old.items y) }
    ensures others { (y : ℕ) → other_reads_in (slice_get variables.new.items y) ≡
        other_reads_in (slice_get variables.old.items y) }
{
    let at = x as usize;
    while variables.len() <= at {
        let others = Vec::new(*variables.allocator());
        variables.push(Variable {
            write: Last::none(),
            read: Last::none(),
            others,
        })?;
    }
    Ok(())
}

fn reach_lock(releases: &mut Vec<Last>, l: u32) -> Result<(), AllocError>
    ensures room { OnOk result (l < vec_len releases.new) }
    ensures same { (m : ℕ) → last_or_none (slice_get releases.new.items m) ≡
        last_or_none (slice_get releases.old.items m) }
{
    let at = l as usize;
    while releases.len() <= at {
        releases.push(Last::none())?;
    }
    Ok(())
}
