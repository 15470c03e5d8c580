//! How a thread gains what leads to an event of another thread.
ghost use Rattle.std.specs.Prelude.{◌≡◌, ◌≢◌, ◌==◌, ℕ, true, false, OnOk, is_some, if◌then◌else◌};
ghost use Rattle.aero_leads.specs.Gaining.{MayGain, HasGained};
ghost use Rattle.aero_leads.specs.Kept.{least_in, is_below};
ghost use Rattle.aero_leads.specs.Listed.{IsListedRow, Grows};
ghost use Rattle.aero_leads.specs.Seen.{seen_at, is_whole};
ghost use Rattle.aero_leads.specs.Single.{IsSingle};
ghost use Rattle.aero_leads.specs.Steps.{gains};

use crate::led::Led;
use crate::news::{differ_little, next_news};
use crate::row::{Lead, Taking, add, gain_all, lead_of};
use crate::seen::{
    Seen, SeenRow, is_whole, openers_of, put_known, see_all, see_one, take_known, widen_for,
};
use crate::thread::{Thread, put_row, row_of, take_row};
use std::alloc::AllocError;

// A thread with its row, and with what is known to lead to it.
#[derive(Drop)]
pub struct Gainer {
    pub thread: u32,
    pub row: Vec<Lead>,
    pub known: SeenRow,
}

/// Thread `t` gains what is taken, and knows it, unless its row isn't whole then.
pub(crate) fn gain_row(
    threads: &mut Vec<Thread>,
    seen: &mut Seen,
    led: &mut Led,
    t: u32,
    taking: Taking,
) -> Result<(), AllocError>
    requires { MayGain threads.old seen.old t taking }
    ensures { HasGained threads.old threads.new seen.new led.old led.new t taking result }
{
    let theirs = openers_of(seen, taking.from);
    let are_whole = is_whole(seen, t) && is_whole(seen, taking.from);
    if are_whole && differ_little(theirs, openers_of(seen, t)) {
        return gain_unknown(threads, seen, led, t, taking);
    }
    gain_any(threads, seen, led, t, taking)
}

// The same by the rows themselves: both are gone through.
fn gain_any(
    threads: &mut Vec<Thread>,
    seen: &mut Seen,
    led: &mut Led,
    t: u32,
    taking: Taking,
) -> Result<(), AllocError>
    requires { MayGain threads.old seen.old t taking }
    ensures { HasGained threads.old threads.new seen.new led.old led.new t taking result }
{
    let mut row = take_row(threads, t);
    gain_all(&mut row, t, row_of(threads, taking.from), taking, led)?;
    put_row(threads, t, row);
    see_all(seen, threads, t);
    Ok(())
}

// The same where both rows are whole: only what isn't known is looked up.
fn gain_unknown(
    threads: &mut Vec<Thread>,
    seen: &mut Seen,
    led: &mut Led,
    t: u32,
    taking: Taking,
) -> Result<(), AllocError>
    requires may { MayGain threads.old seen.old t taking }
    requires mine { is_whole seen.old t ≡ true }
    requires theirs { is_whole seen.old taking.from ≡ true }
    ensures { HasGained threads.old threads.new seen.new led.old led.new t taking result }
{
    let mut gainer = Gainer {
        thread: t,
        row: take_row(threads, t),
        known: take_known(seen, t),
    };
    let theirs = openers_of(seen, taking.from);
    widen_for(&mut gainer.known, theirs.len(), gainer.row.len());
    gain_each(
        &mut gainer,
        row_of(threads, taking.from),
        theirs,
        taking,
        led,
    )?;
    put_row(threads, t, gainer.row);
    put_known(seen, t, gainer.known);
    Ok(())
}

// The thread gains what is taken of the other row, whose openers these are, and which it doesn't know yet.
fn gain_each(
    gainer: &mut Gainer,
    other: &[Lead],
    theirs: &[bool],
    taking: Taking,
    led: &mut Led,
) -> Result<(), AllocError>
    requires theirs { (w : ℕ) → is_some (least_in other.now w) ≡ true →
        seen_at theirs.now w ≡ true }
    requires other { IsSingle other.now }
    requires single { IsSingle gainer.old.row.items }
    requires so { (w : ℕ) → seen_at gainer.old.known.openers.items w ≡ true →
        is_some (least_in gainer.old.row.items w) ≡ true }
    requires whole { (w : ℕ) → is_some (least_in gainer.old.row.items w) ≡ true →
        seen_at gainer.old.known.openers.items w ≡ true }
    ensures gains { OnOk result ((w : ℕ) →
        least_in gainer.new.row.items w ≡ gains (least_in gainer.old.row.items w)
        (is_below (least_in other.now w) taking.below) taking.place) }
    ensures so { OnOk result ((w : ℕ) → seen_at gainer.new.known.openers.items w ≡ true →
        is_some (least_in gainer.new.row.items w) ≡ true) }
    ensures whole { OnOk result (gainer.new.known.whole ≡ true → (w : ℕ) →
        is_some (least_in gainer.new.row.items w) ≡ true →
        seen_at gainer.new.known.openers.items w ≡ true) }
    ensures single { OnOk result (IsSingle gainer.new.row.items) }
    ensures listed { IsListedRow gainer.old.row.items led.old gainer.old.thread →
        IsListedRow gainer.new.row.items led.new gainer.new.thread }
    ensures grows { Grows led.old led.new }
    ensures thread { gainer.new.thread ≡ gainer.old.thread }
{
    let mut at = next_news(theirs, &gainer.known.openers, 0);
    while at < theirs.len() {
        gain_lead(gainer, at, other, taking, led)?;
        at = next_news(theirs, &gainer.known.openers, at + 1);
    }
    Ok(())
}

// The thread gains the other row's lead of this opener, where it is taken.
fn gain_lead(
    gainer: &mut Gainer,
    at: usize,
    other: &[Lead],
    taking: Taking,
    led: &mut Led,
) -> Result<(), AllocError>
    requires absent { is_some (least_in gainer.old.row.items at) ≡ false }
    requires other { IsSingle other.now }
    ensures gains { OnOk result ((w : ℕ) →
        least_in gainer.new.row.items w ≡ gains (least_in gainer.old.row.items w)
        (if at == w then is_below (least_in other.now w) taking.below else false) taking.place) }
    ensures others { (w : ℕ) → w ≢ at →
        seen_at gainer.new.known.openers.items w ≡ seen_at gainer.old.known.openers.items w }
    ensures so { OnOk result (seen_at gainer.old.known.openers.items at ≡ false →
        seen_at gainer.new.known.openers.items at ≡ true →
        is_some (least_in gainer.new.row.items at) ≡ true) }
    ensures whole { gainer.new.known.whole ≡ true → gainer.old.known.whole ≡ true }
    ensures here { OnOk result (gainer.new.known.whole ≡ true →
        is_some (least_in gainer.new.row.items at) ≡ true →
        seen_at gainer.new.known.openers.items at ≡ true) }
    ensures single { OnOk result (IsSingle gainer.old.row.items → IsSingle gainer.new.row.items) }
    ensures listed { IsListedRow gainer.old.row.items led.old gainer.old.thread →
        IsListedRow gainer.new.row.items led.new gainer.new.thread }
    ensures grows { Grows led.old led.new }
    ensures thread { gainer.new.thread ≡ gainer.old.thread }
{
    match lead_of(other, at) {
        Some(lead) if lead.place < taking.below => gain_new(gainer, lead.opener, taking.place, led),
        _ => Ok(()),
    }
}

// A block that doesn't lead to the thread yet does from this place on, and that is known.
fn gain_new(gainer: &mut Gainer, opener: u32, place: u32, led: &mut Led) -> Result<(), AllocError>
    requires { is_some (least_in gainer.old.row.items opener) ≡ false }
    ensures gains { OnOk result ((w : ℕ) →
        least_in gainer.new.row.items w ≡ gains (least_in gainer.old.row.items w) (opener == w)
        place) }
    ensures others { (w : ℕ) → w ≢ opener →
        seen_at gainer.new.known.openers.items w ≡ seen_at gainer.old.known.openers.items w }
    ensures whole { gainer.new.known.whole ≡ true → gainer.old.known.whole ≡ true }
    ensures here { OnOk result (gainer.new.known.whole ≡ true →
        seen_at gainer.new.known.openers.items opener ≡ true) }
    ensures single { IsSingle gainer.old.row.items → IsSingle gainer.new.row.items }
    ensures listed { IsListedRow gainer.old.row.items led.old gainer.old.thread →
        IsListedRow gainer.new.row.items led.new gainer.new.thread }
    ensures grows { Grows led.old led.new }
    ensures thread { gainer.new.thread ≡ gainer.old.thread }
{
    add(&mut gainer.row, gainer.thread, opener, place, led)?;
    see_one(&mut gainer.known, opener);
    Ok(())
}
