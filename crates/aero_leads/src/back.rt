//! Which open block closes a cycle through one that ends, where all that leads to its thread is known.
ghost use Rattle.std.specs.Prelude.{◌≡◌, ◌==◌, ◌&&◌, ℕ, true, is_some, not};
ghost use Rattle.aero_leads.specs.Kept.{rows_in, IsLeastBack};
ghost use Rattle.aero_leads.specs.Listed.{AreListed};
ghost use Rattle.aero_leads.specs.Seen.{seen_at};

use crate::led::{Led, count, follower};
use crate::row::{has, least_of};
use crate::seen::is_in;
use crate::thread::{Thread, row_of};

/// The least other thread whose open block leads to thread `t`, as these do, and to which the open block of `t` leads, so that it
/// is listed with `t`.
pub(crate) fn least_known(threads: &[Thread], t: u32, into: &[bool], led: &Led) -> Option<u32>
    requires listed { AreListed threads.now led.now }
    requires so { (w : ℕ) → seen_at into.now w ≡ true → is_some (rows_in threads.now t w) ≡ true }
    requires whole { (w : ℕ) → is_some (rows_in threads.now t w) ≡ true →
        seen_at into.now w ≡ true }
    ensures { IsLeastBack (rows_in threads.now) t result }
{
    let mut least = None;
    let listed = count(led, t);
    for i in 0..listed {
        let u = follower(led, t, i);
        if is_known_back(threads, t, u, into) {
            least = Some(least_of(least, u));
        }
    }
    least
}

// Whether the open block of thread u, which is another, leads to thread t, and that of t to u.
fn is_known_back(threads: &[Thread], t: u32, u: u32, into: &[bool]) -> bool
    requires so { (w : ℕ) → seen_at into.now w ≡ true → is_some (rows_in threads.now t w) ≡ true }
    requires whole { (w : ℕ) → is_some (rows_in threads.now t w) ≡ true →
        seen_at into.now w ≡ true }
    ensures { result ≡ (not (u == t) &&
        (is_some (rows_in threads.now t u) && is_some (rows_in threads.now u t))) }
{
    u != t && is_in(into, u) && has(row_of(threads, u), t)
}
