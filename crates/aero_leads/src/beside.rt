//! What is kept beside the rows, so that fewer of them are gone through.
ghost use Rattle.std.specs.Prelude.{◌≡◌, ℕ, false, None, Some};
ghost use Rattle.aero_leads.specs.Highs.{high_of};
ghost use Rattle.aero_leads.specs.Lows.{low_of};
ghost use Rattle.aero_leads.specs.Passed.{passed_of};
ghost use Rattle.aero_leads.specs.Seen.{is_seen, is_whole};

use crate::highs::{Highs, forget_highs, no_high};
use crate::lows::{Lows, forget_lows, no_low};
use crate::passed::{Passed, forget_places, no_place};
use crate::seen::{Seen, forget_all, nothing_seen};
use std::alloc::Global;

/// What is seen, what is low or high, and what was passed on.
#[derive(Drop)]
pub struct Beside {
    pub seen: Seen,
    pub lows: Lows,
    pub highs: Highs,
    pub passed: Passed,
}

/// There is no row.
pub(crate) fn nothing_beside(alloc: Global) -> Beside
    ensures seen { (o w : ℕ) → is_seen result.seen o w ≡ false }
    ensures whole { (o : ℕ) → is_whole result.seen o ≡ false }
    ensures lows { (o : ℕ) → low_of result.lows o ≡ 0 }
    ensures highs { (o : ℕ) → high_of result.highs o ≡ None }
    ensures places { (t : ℕ) → passed_of result.passed t ≡ 0 }
    ensures latest { result.passed.latest ≡ Some 0 }
{
    Beside {
        seen: nothing_seen(alloc),
        lows: no_low(alloc),
        highs: no_high(alloc),
        passed: no_place(alloc),
    }
}

/// Nothing is known any more.
pub(crate) fn forget_beside(beside: &mut Beside)
    ensures seen { (o w : ℕ) → is_seen beside.new.seen o w ≡ false }
    ensures whole { (o : ℕ) → is_whole beside.new.seen o ≡ false }
    ensures lows { (o : ℕ) → low_of beside.new.lows o ≡ 0 }
    ensures highs { (o : ℕ) → high_of beside.new.highs o ≡ None }
    ensures places { (t : ℕ) → passed_of beside.new.passed t ≡ 0 }
    ensures latest { beside.new.passed.latest ≡ None }
{
    forget_all(&mut beside.seen);
    forget_lows(&mut beside.lows);
    forget_highs(&mut beside.highs);
    forget_places(&mut beside.passed);
}
