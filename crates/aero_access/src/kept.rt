//! What is kept of a last event. It is read here, and gives its clock to a thread.
ghost use Rattle.std.specs.Prelude.{◌≡◌, ◌≢◌, ◌≤◌, ◌↔◌, ℕ, false, IsTrue, IfOk};
ghost use Rattle.aero_clock.specs.Numbers.{number_at};

use crate::thread::Thread;
use aero_clock::Clock;
use std::alloc::AllocError;

/// Who made the event, its clock, and the place of its slot's label.
#[derive(Drop)]
pub struct Kept {
    pub thread: u32,
    pub clock: Clock,
    pub label: u32,
}

impl Kept {
    ghost use Rattle.aero_access.specs.LastClocks.{clock_but};
    ghost use Rattle.aero_access.specs.Threads.{IsClosedBy, CountIsTest, HasSameBlock, TakesClock};
    ghost use Rattle.aero_access.specs.States.{State};
    ghost use Rattle.aero_access.specs.Heeds.{Heeds};

    /// Thread `t` takes the clock, unless the event is its own, or the clock closes a telling cycle:
    /// then it returns true.
    pub(crate) fn give(&self, thread: &mut Thread, t: u32) -> Result<bool, AllocError>
        requires { CountIsTest thread.old t (number_at self.now.clock) }
        ensures closing { IfOk result (λ closes. IsTrue closes ↔
            ((self.now.thread ≢ t) × IsClosedBy thread.old.begin (number_at self.now.clock))) }
        ensures takes { IfOk result (λ closes. closes ≡ false →
            TakesClock thread.old thread.new (clock_but t self.now)) }
        ensures same { HasSameBlock thread.old thread.new }
        ensures grows { (u : ℕ) → number_at thread.old.clock u ≤ number_at thread.new.clock u }
        ensures heeds { (w : State) → Heeds w (number_at thread.old.clock) →
            Heeds w (number_at self.now.clock) → Heeds w (number_at thread.new.clock) }
    {
        if self.thread == t {
            return Ok(false);
        }
        thread.take(t, &self.clock)
    }
}
