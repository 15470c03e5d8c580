//! Which open blocks are known to lead to one thread and not to another. Most of what is known of both is alike, and is passed
//! over in stretches.
ghost use Rattle.std.specs.Prelude.{◌≡◌, ◌≢◌, ◌<◌, ◌≤◌, ℕ, true, false, length};
ghost use Rattle.aero_leads.specs.Kept.{least_in, is_below};
ghost use Rattle.aero_leads.specs.Seen.{seen_at};
ghost use Rattle.aero_leads.specs.Single.{IsSingle};

use crate::row::{Lead, led_below};

// Whether one of these openers, from the first place to before the second, is in one table and not in the other. There is no
// early exit, so that many are looked at together.
fn differ(theirs: &[bool], mine: &[bool], from: usize, to: usize) -> bool
    requires theirs { to ≤ length theirs.now }
    requires mine { to ≤ length mine.now }
    ensures { result ≡ false → (w : ℕ) → from ≤ w → w < to → seen_at theirs.now w ≡ true →
        seen_at mine.now w ≡ true }
{
    let mut news = false;
    for i in from..to {
        news = is_more(news, theirs[i], mine[i]);
    }
    news
}

// Whether there is news, with one more opener.
#[inline(always)]
fn is_more(news: bool, theirs: bool, mine: bool) -> bool
    ensures before { result ≡ false → news ≡ false }
    ensures here { result ≡ false → theirs ≡ true → mine ≡ true }
{
    news | (theirs & !mine)
}

// Whether an opener from this one on is in the table.
fn is_any(openers: &[bool], from: usize) -> bool
    ensures { result ≡ false → (w : ℕ) → from ≤ w → seen_at openers.now w ≡ false }
{
    let mut any = false;
    for i in from..openers.len() {
        any = is_more(any, openers[i], false);
    }
    any
}

/// Whether an opener but this one is in one table and not in the other.
#[inline(always)]
pub(crate) fn has_others(theirs: &[bool], mine: &[bool], but: u32) -> bool
    ensures { result ≡ false → (w : ℕ) → w ≢ but → seen_at theirs.now w ≡ true →
        seen_at mine.now w ≡ true }
{
    let but = but as usize;
    let both = theirs.len().min(mine.len());
    differ(theirs, mine, 0, but.min(both))
        || differ(theirs, mine, but + 1, both)
        || is_any(theirs, both)
}

// How many openers are compared at once.
const STRETCH: usize = 64;

// From this opener on, stretches in which all that is in one table is in the other are passed over.
fn pass_over(theirs: &[bool], mine: &[bool], from: usize) -> usize
    ensures later { from ≤ result }
    ensures passed { (w : ℕ) → from ≤ w → w < result → seen_at theirs.now w ≡ true →
        seen_at mine.now w ≡ true }
{
    let both = theirs.len().min(mine.len());
    let mut at = from;
    while at < both && both - at >= STRETCH && !differ(theirs, mine, at, at + STRETCH) {
        at += STRETCH;
    }
    at
}

/// The first opener from this one on that is in one table and not in the other, or one behind all.
pub(crate) fn next_news(theirs: &[bool], mine: &[bool], from: usize) -> usize
    ensures later { from ≤ result }
    ensures passed { (w : ℕ) → from ≤ w → w < result → seen_at theirs.now w ≡ true →
        seen_at mine.now w ≡ true }
    ensures here { result < length theirs.now → seen_at mine.now result ≡ false }
{
    let mut at = pass_over(theirs, mine, from);
    while at < theirs.len() && !is_new(theirs, mine, at) {
        at += 1;
    }
    at
}

fn is_new(theirs: &[bool], mine: &[bool], at: usize) -> bool
    requires { at < length theirs.now }
    ensures new { result ≡ true → seen_at mine.now at ≡ false }
    ensures known { result ≡ false → seen_at theirs.now at ≡ true → seen_at mine.now at ≡ true }
{
    if at < mine.len() {
        return theirs[at] && !mine[at];
    }
    theirs[at]
}

// How many openers are looked up in a row, at most.
const FEW: usize = 8;

/// Whether no more than a few openers are in one table and not in the other, so that each is looked up, and no row gone through.
/// It has no clause, as only the time depends on its answer: its callers keep their clauses for either.
pub(crate) fn differ_little(theirs: &[bool], mine: &[bool]) -> bool {
    let mut at = 0;
    for _ in 0..FEW {
        at = next_news(theirs, mine, at);
        if at >= theirs.len() {
            return true;
        }
        at += 1;
    }
    false
}

/// Whether an opener is in one table and not in the other, and its block leads below a place of the thread of which this is the row.
pub(crate) fn has_news(theirs: &[bool], mine: &[bool], other: &[Lead], below: u32) -> bool
    requires { IsSingle other.now }
    ensures { result ≡ false → (w : ℕ) → seen_at theirs.now w ≡ true →
        is_below (least_in other.now w) below ≡ true → seen_at mine.now w ≡ true }
{
    let mut at = next_news(theirs, mine, 0);
    while at < theirs.len() {
        if led_below(other, at, below) {
            return true;
        }
        at = next_news(theirs, mine, at + 1);
    }
    false
}
