//! Which open blocks lead to a thread, and from which of its events on.
ghost use Rattle.std.specs.Prelude.{◌≡◌, ◌≢◌, ◌==◌, ◌&&◌, ◌<◌, ◌≤◌, ◌++◌, ◌∷◌, [], ℕ, true, false, nat_lt, None, Some, OnOk, is_some, slice_get, if◌then◌else◌};
ghost use Rattle.aero_leads.specs.Kept.{least_in, is_below, absorbed};
ghost use Rattle.aero_leads.specs.Highs.{IsHigh};
ghost use Rattle.aero_leads.specs.Indexed.{IsIndexed, IsFound, IsLeadOf, opener_of};
ghost use Rattle.aero_leads.specs.Listed.{IsListedRow, Grows, followers};
ghost use Rattle.aero_leads.specs.Single.{IsSingle};
ghost use Rattle.aero_leads.specs.Steps.{gains, lesser};

use crate::highs::is_up_to;
use crate::index::{Index, enter, place_at};
use crate::led::{Entry, Led, entry_at, note};
use std::alloc::AllocError;

/// The thread whose open block leads to another thread, and the place of the first event of that
/// thread to which it does.
#[derive(Clone, Copy)]
pub struct Lead {
    pub opener: u32,
    pub place: u32,
}

/// The place of the first event of the row's thread to which the open block of thread `w` leads.
pub(crate) fn first(row: &[Lead], w: u32) -> Option<u32>
    ensures { result ≡ least_in row.now w }
{
    let mut least = None;
    for lead in row.iter() {
        if lead.opener == w {
            least = Some(least_of(least, lead.place));
        }
    }
    least
}

/// The lesser of the two, where both are there.
pub(crate) fn least_of(least: Option<u32>, place: u32) -> u32
    ensures { Some result ≡ lesser least (Some place) }
{
    match least {
        Some(other) => other.min(place),
        None => place,
    }
}

/// Whether the open block of thread `w` leads to the row's thread.
pub(crate) fn has(row: &[Lead], w: u32) -> bool
    ensures { result ≡ is_some (least_in row.now w) }
{
    for lead in row.iter() {
        if lead.opener == w {
            return true;
        }
    }
    false
}

// The place where the open block of thread `w` stands. New leads stand at the end, so that the row is gone through from there.
fn seek_back(row: &[Lead], w: usize) -> Option<usize>
    ensures { IsFound row.now w result }
{
    let count = row.len();
    for i in 0..count {
        let at = count - 1 - i;
        if row[at].opener as usize == w {
            return Some(at);
        }
    }
    None
}

/// The lead of the open block of thread `w`. The first one is looked at before: often it is that of the thread's own block.
pub(crate) fn lead_of(row: &[Lead], w: usize) -> Option<Lead>
    requires { IsSingle row.now }
    ensures { IsLeadOf row.now w result }
{
    if !row.is_empty() && row[0].opener as usize == w {
        return Some(row[0]);
    }
    let at = seek_back(row, w)?;
    Some(row[at])
}

/// Whether the open block of thread `w` leads to an event of the row's thread below this place.
pub(crate) fn led_below(row: &[Lead], w: usize, below: u32) -> bool
    requires { IsSingle row.now }
    ensures { result ≡ is_below (least_in row.now w) below }
{
    match lead_of(row, w) {
        Some(lead) => lead.place < below,
        None => false,
    }
}

/// How long a row may be that is looked through for each block of another one.
pub const SHORT: usize = 8;

/// What an event of another thread brings a thread: whether the thread's own open block leads to the event, and
/// whether another block may that doesn't lead to the thread yet.
#[derive(Clone, Copy)]
pub struct Brought {
    pub closes: bool,
    pub news: bool,
}

/// What a thread takes from another one: what leads to an event of that one below a place. It leads to an event at the other
/// place, and on.
#[derive(Clone, Copy)]
pub(crate) struct Taking {
    pub(crate) from: u32,
    pub(crate) below: u32,
    pub(crate) place: u32,
}

/// What an event below this place of the other row's thread brings thread `t`, which has this row. A row that is
/// long isn't looked through.
#[inline(always)]
pub(crate) fn brought_by(row: &[Lead], other: &[Lead], t: u32, below: u32) -> Brought
    ensures closes { result.closes ≡ is_below (least_in other.now t) below }
    ensures known { result.news ≡ false → (w : ℕ) → is_below (least_in other.now w) below ≡ true →
        is_some (least_in row.now w) ≡ true }
{
    let mut news = false;
    for lead in other.iter() {
        if is_of(*lead, t, below) {
            return Brought {
                closes: true,
                news: true,
            };
        }
        news = is_news(news, row, *lead, below);
    }
    Brought {
        closes: false,
        news,
    }
}

// Whether this is thread t's block, and leads to an event below this place.
#[inline(always)]
fn is_of(lead: Lead, t: u32, below: u32) -> bool
    ensures { result ≡ ((lead.opener == t) && nat_lt lead.place below) }
{
    lead.opener == t && lead.place < below
}

// Whether there may be news, once this lead of another row is looked at as well.
#[inline(always)]
fn is_news(news: bool, row: &[Lead], lead: Lead, below: u32) -> bool
    ensures before { result ≡ false → news ≡ false }
    ensures here { result ≡ false → lead.place < below →
        is_some (least_in row.now lead.opener) ≡ true }
{
    if news {
        return true;
    }
    if lead.place >= below {
        return false;
    }
    if row.len() > SHORT {
        return true;
    }
    !has(row, lead.opener)
}

/// Enters the places of the row.
pub(crate) fn enter_all(row: &[Lead], index: &mut Index) -> Result<(), AllocError>
    ensures { OnOk result (IsIndexed row.now index.new) }
{
    for i in 0..row.len() {
        enter(index, row[i].opener, i)?;
    }
    Ok(())
}

// The place in the row where the open block of thread `w` stands.
fn find(row: &[Lead], index: &Index, w: u32) -> Option<usize>
    requires { IsIndexed row.now index.now }
    ensures { IsFound row.now w result }
{
    let at = place_at(index, w);
    if at < row.len() && row[at].opener == w {
        return Some(at);
    }
    None
}

/// Whether the open block of thread `w` leads to the row's thread, by the places that are entered.
pub(crate) fn has_entered(row: &[Lead], index: &Index, w: u32) -> bool
    requires { IsIndexed row.now index.now }
    ensures { result ≡ is_some (least_in row.now w) }
{
    find(row, index, w).is_some()
}

/// The open block of a thread leads to thread `o`, whose row this is, from this place on. The thread
/// is listed first, so that it is wherever memory is refused.
pub(crate) fn add(
    row: &mut Vec<Lead>,
    o: u32,
    opener: u32,
    place: u32,
    led: &mut Led,
) -> Result<(), AllocError>
    ensures indexed { OnOk result (IsIndexed row.old.items led.old.index →
        IsIndexed row.new.items led.new.index) }
    ensures row { OnOk result ((w : ℕ) →
        least_in row.new.items w ≡ (if opener == w then lesser (least_in row.old.items w)
        (Some place) else least_in row.old.items w)) }
    ensures single { is_some (least_in row.old.items opener) ≡ false → IsSingle row.old.items →
        IsSingle row.new.items }
    ensures listed { IsListedRow row.old.items led.old o → IsListedRow row.new.items led.new o }
    ensures grows { Grows led.old led.new }
    ensures others { (v : ℕ) → v ≢ opener → followers led.new v ≡ followers led.old v }
{
    note(led, opener, o, row.len())?;
    enter(&mut led.index, opener, row.len())?;
    row.push(Lead { opener, place })?;
    Ok(())
}

// The same, unless it did before.
fn gain(
    row: &mut Vec<Lead>,
    o: u32,
    opener: u32,
    place: u32,
    led: &mut Led,
) -> Result<(), AllocError>
    requires { IsIndexed row.old.items led.old.index }
    ensures indexed { OnOk result (IsIndexed row.new.items led.new.index) }
    ensures gains { OnOk result ((w : ℕ) →
        least_in row.new.items w ≡ gains (least_in row.old.items w) (opener == w) place) }
    ensures single { IsSingle row.old.items → IsSingle row.new.items }
    ensures listed { IsListedRow row.old.items led.old o → IsListedRow row.new.items led.new o }
    ensures grows { Grows led.old led.new }
{
    if find(row, &led.index, opener).is_some() {
        return Ok(());
    }
    add(row, o, opener, place, led)
}

// The same of a lead of another row, where it is taken.
fn gain_below(
    row: &mut Vec<Lead>,
    o: u32,
    lead: Lead,
    taking: Taking,
    led: &mut Led,
) -> Result<(), AllocError>
    requires { IsIndexed row.old.items led.old.index }
    ensures indexed { OnOk result (IsIndexed row.new.items led.new.index) }
    ensures gains { OnOk result ((w : ℕ) →
        least_in row.new.items w ≡ gains (least_in row.old.items w)
        (if lead.opener == w then nat_lt lead.place taking.below else false) taking.place) }
    ensures single { IsSingle row.old.items → IsSingle row.new.items }
    ensures listed { IsListedRow row.old.items led.old o → IsListedRow row.new.items led.new o }
    ensures grows { Grows led.old led.new }
{
    if lead.place < taking.below {
        return gain(row, o, lead.opener, taking.place, led);
    }
    Ok(())
}

/// What is taken leads to thread `o`, whose row this is, unless it did before.
pub(crate) fn gain_all(
    row: &mut Vec<Lead>,
    o: u32,
    other: &[Lead],
    taking: Taking,
    led: &mut Led,
) -> Result<(), AllocError>
    ensures gains { OnOk result ((w : ℕ) →
        least_in row.new.items w ≡ gains (least_in row.old.items w)
        (is_below (least_in other.now w) taking.below) taking.place) }
    ensures single { IsSingle row.old.items → IsSingle row.new.items }
    ensures listed { IsListedRow row.old.items led.old o → IsListedRow row.new.items led.new o }
    ensures grows { Grows led.old led.new }
{
    enter_all(row, &mut led.index)?;
    for lead in other.iter() {
        gain_below(row, o, *lead, taking, led)?;
    }
    Ok(())
}

// The open block of this thread, which stands here, leads from this place on, or from an earlier one.
fn lower_at(row: &mut Vec<Lead>, at: usize, opener: u32, place: u32)
    requires { IsFound row.old.items opener (Some at) }
    ensures openers { (i : ℕ) → opener_of (slice_get row.new.items i) ≡
        opener_of (slice_get row.old.items i) }
    ensures lowers { (w : ℕ) → least_in row.new.items w ≡
        (if opener == w then lesser (least_in row.old.items w) (Some place) else least_in
        row.old.items w) }
    ensures single { IsSingle row.old.items → IsSingle row.new.items }
{
    let place = place.min(row[at].place);
    row[at] = Lead { opener, place };
}

// The open block of a thread leads to thread `o`, whose row this is, from this place on, or from an
// earlier one.
fn lower(
    row: &mut Vec<Lead>,
    o: u32,
    opener: u32,
    place: u32,
    led: &mut Led,
) -> Result<(), AllocError>
    requires { IsIndexed row.old.items led.old.index }
    ensures indexed { OnOk result (IsIndexed row.new.items led.new.index) }
    ensures lowers { OnOk result ((w : ℕ) →
        least_in row.new.items w ≡ (if opener == w then lesser (least_in row.old.items w)
        (Some place) else least_in row.old.items w)) }
    ensures single { IsSingle row.old.items → IsSingle row.new.items }
    ensures listed { IsListedRow row.old.items led.old o → IsListedRow row.new.items led.new o }
    ensures grows { Grows led.old led.new }
    ensures others { (v : ℕ) → v ≢ opener → followers led.new v ≡ followers led.old v }
{
    let Some(at) = find(row, &led.index, opener) else {
        return add(row, o, opener, place, led);
    };
    lower_at(row, at, opener, place);
    Ok(())
}

fn lower_all(
    row: &mut Vec<Lead>,
    o: u32,
    other: &[Lead],
    place: u32,
    led: &mut Led,
) -> Result<(), AllocError>
    ensures lowers { OnOk result ((w : ℕ) →
        least_in row.new.items w ≡ (if is_some (least_in other.now w) then lesser
        (least_in row.old.items w) (Some place) else least_in row.old.items w)) }
    ensures single { IsSingle row.old.items → IsSingle row.new.items }
    ensures listed { IsListedRow row.old.items led.old o → IsListedRow row.new.items led.new o }
    ensures grows { Grows led.old led.new }
    ensures others { (v : ℕ) → is_some (least_in other.now v) ≡ false →
        followers led.new v ≡ followers led.old v }
{
    enter_all(row, &mut led.index)?;
    for lead in other.iter() {
        lower(row, o, lead.opener, place, led)?;
    }
    Ok(())
}

// Where it is true, the open block of thread `w` stands at this place.
fn stands_at(row: &[Lead], at: usize, w: u32) -> bool
    ensures { result ≡ true → IsFound row.now w (Some at) }
{
    at < row.len() && row[at].opener == w
}

// The place where the open block of thread `w` stands: first the hint is tried, and then the last place, to which leads move.
fn seek(row: &[Lead], w: u32, hint: usize) -> Option<usize>
    ensures { IsFound row.now w result }
{
    if stands_at(row, hint, w) {
        return Some(hint);
    }
    let last = row.len().saturating_sub(1);
    if stands_at(row, last, w) {
        return Some(last);
    }
    seek_back(row, w as usize)
}

/// Where it is true, no block leads to the row's thread from a later place on than that of thread `w` does, if this one leads there.
/// It may stand where the hint says. None in the row is above the high place, where one is known.
pub(crate) fn is_latest(row: &[Lead], w: u32, hint: u32, high: Option<u32>) -> bool
    requires single { IsSingle row.now }
    requires high { IsHigh row.now high }
    ensures { result ≡ true → (v p q : ℕ) → least_in row.now w ≡ Some p →
        least_in row.now v ≡ Some q → q ≤ p }
{
    match seek(row, w, hint as usize) {
        Some(at) => is_up_to(high, place_there(row, w, at)),
        None => true,
    }
}

/// The entry with a hint that is right, where the block of thread `w` leads to the entry's thread, whose row this is.
pub(crate) fn aimed(row: &[Lead], w: u32, entry: Entry) -> Entry
    ensures { result.thread ≡ entry.thread }
{
    match seek(row, w, entry.at as usize) {
        Some(at) => entry_at(entry.thread, at),
        None => entry,
    }
}

// The block of this thread is open no more. It may stand where the hint says.
fn drop_opener(row: &mut Vec<Lead>, opener: u32, hint: usize)
    requires { IsSingle row.old.items }
    ensures dropped { (w : ℕ) → least_in row.new.items w ≡
        (if opener == w then None else least_in row.old.items w) }
    ensures single { IsSingle row.new.items }
{
    let Some(at) = seek(row, opener, hint) else {
        return;
    };
    take_out(row, opener, at);
}

// The last lead comes to stand where this thread's did.
fn take_out(row: &mut Vec<Lead>, opener: u32, at: usize)
    requires found { IsFound row.old.items opener (Some at) }
    requires single { IsSingle row.old.items }
    ensures dropped { (w : ℕ) → least_in row.new.items w ≡
        (if opener == w then None else least_in row.old.items w) }
    ensures single { IsSingle row.new.items }
{
    row.swap_remove(at);
}

/// The block of thread `t`, whose row this is, leads from this place on. Where it is new, it isn't looked for.
pub(crate) fn open(row: &mut Vec<Lead>, t: u32, place: u32, is_new: bool) -> Result<(), AllocError>
    requires { is_new ≡ true → is_some (least_in row.old.items t) ≡ false }
    ensures row { OnOk result ((w : ℕ) →
        least_in row.new.items w ≡ (if t == w then lesser (least_in row.old.items w) (Some place)
        else least_in row.old.items w)) }
    ensures others { (w : ℕ) → w ≢ t → least_in row.new.items w ≡ least_in row.old.items w }
    ensures single { IsSingle row.old.items → IsSingle row.new.items }
{
    let Some(at) = seek_unless(is_new, row, t) else {
        return put_lead(row, t, place);
    };
    lower_at(row, at, t, place);
    Ok(())
}

// The place where the open block of thread `t` stands, where it isn't new.
fn seek_unless(is_new: bool, row: &[Lead], t: u32) -> Option<usize>
    requires { is_new ≡ true → is_some (least_in row.now t) ≡ false }
    ensures { IsFound row.now t result }
{
    if is_new {
        return None;
    }
    seek(row, t, 0)
}

fn put_lead(row: &mut Vec<Lead>, opener: u32, place: u32) -> Result<(), AllocError>
    requires { is_some (least_in row.old.items opener) ≡ false }
    ensures row { OnOk result ((w : ℕ) →
        least_in row.new.items w ≡ (if opener == w then lesser (least_in row.old.items w)
        (Some place) else least_in row.old.items w)) }
    ensures others { (w : ℕ) → w ≢ opener → least_in row.new.items w ≡ least_in row.old.items w }
    ensures single { IsSingle row.old.items → IsSingle row.new.items }
{
    row.push(Lead { opener, place })?;
    Ok(())
}

/// These leads, or none of them where all are known.
pub(crate) fn unless(all: bool, leads: &[Lead]) -> &[Lead]
    ensures { result.now ≡ (if all then [] else leads.now) }
{
    if all { &[] } else { leads }
}

/// The block of thread `t` ends, to which the blocks of the row `ended` lead: where it led to the thread of this entry, whose row
/// this is, they lead there too, from the same place on.
pub(crate) fn absorb(
    row: &mut Vec<Lead>,
    entry: Entry,
    ended: &[Lead],
    t: u32,
    led: &mut Led,
) -> Result<(), AllocError>
    requires { IsSingle row.old.items }
    ensures absorbs { OnOk result ((w : ℕ) →
        least_in row.new.items w ≡ absorbed (least_in ended.now) (least_in row.old.items) t w) }
    ensures single { IsSingle row.new.items }
    ensures listed { IsListedRow row.old.items led.old entry.thread →
        IsListedRow row.new.items led.new entry.thread }
    ensures grows { Grows led.old led.new }
    ensures others { (v : ℕ) → is_some (least_in ended.now v) ≡ false →
        followers led.new v ≡ followers led.old v }
{
    let hint = entry.at as usize;
    if ended.is_empty() {
        drop_opener(row, t, hint);
        return Ok(());
    }
    let Some(place) = first(row, t) else {
        return Ok(());
    };
    lower_all(row, entry.thread, ended, place, led)?;
    drop_opener(row, t, hint);
    Ok(())
}

// All of the row's blocks lead from this place on, or from an earlier one.
fn lower_each(row: &mut [Lead], place: u32)
    ensures lowers { (w : ℕ) → least_in row.new w ≡
        (if is_some (least_in row.old w) then lesser (least_in row.old w) (Some place) else least_in
        row.old w) }
    ensures single { IsSingle row.old → IsSingle row.new }
{
    for lead in row.iter_mut() {
        lead.place = lead.place.min(place);
    }
}

// The place from which on the open block of thread `w`, which stands here, leads to the row's thread.
fn place_there(row: &[Lead], w: u32, at: usize) -> u32
    requires found { IsFound row.now w (Some at) }
    requires single { IsSingle row.now }
    ensures { Some result ≡ least_in row.now w }
{
    row[at].place
}

// The same. None in the row is above the high place, where one is known.
fn lower_later(row: &mut [Lead], place: u32, high: Option<u32>)
    requires { IsHigh row.old high }
    ensures lowers { (w : ℕ) → least_in row.new w ≡
        (if is_some (least_in row.old w) then lesser (least_in row.old w) (Some place) else least_in
        row.old w) }
    ensures single { IsSingle row.old → IsSingle row.new }
{
    if !is_up_to(high, place) {
        lower_each(row, place);
    }
}

/// The block of thread `t`, whose row this is, ends: what led to the block leads to its begin. None in the row is above the
/// high place, where one is known. Returns from which place on the block led, if it did.
pub(crate) fn settle(row: &mut Vec<Lead>, t: u32, high: Option<u32>) -> Option<u32>
    requires single { IsSingle row.old.items }
    requires high { IsHigh row.old.items high }
    ensures own { result ≡ least_in row.old.items t }
    ensures absorbs { (w : ℕ) → least_in row.new.items w ≡ absorbed (least_in row.old.items)
        (least_in row.old.items) t w }
    ensures single { IsSingle row.new.items }
{
    let Some(at) = seek(row, t, 0) else {
        return None;
    };
    let place = place_there(row, t, at);
    lower_later(row, place, high);
    drop_opener(row, t, at);
    Some(place)
}
