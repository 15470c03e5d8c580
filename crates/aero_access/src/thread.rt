//! What is kept of a thread: its clock and its open block. No other thread is touched here.
ghost use Rattle.std.specs.Prelude.{◌≡◌, ◌+◌, ◌-◌, ◌^◌, ◌<◌, ◌≤◌, ◌==◌, ◌↔◌, ℕ, true, false, Some, None, IsTrue, IfOk, OnOk, OnErr, IsSome, vec_len, if◌then◌else◌, nat_lt, max};
ghost use Rattle.aero_clock.specs.Numbers.{number_at, IsZero, IsSame, IsRaised};
ghost use Rattle.aero_access.specs.Threads.{IsClosedBy, CountIsTest, HasSameBlock, TakesClock, AreSameThreads, number_in};
ghost use Rattle.aero_access.specs.States.{State};
ghost use Rattle.aero_access.specs.Heeds.{Heeds};

use aero_clock::Clock;
use std::alloc::{AllocError, Global};

/// The clock of a thread, the clock of its open block's begin, how many outermost begins it has
/// made, and whether it has made an event.
#[derive(Drop)]
pub struct Thread {
    pub clock: Clock,
    pub begin: Option<Clock>,
    pub begins: u32,
    pub acted: bool,
}

impl Thread {
    /// A thread that has made no event.
    pub(crate) fn new(alloc: Global) -> Thread
        ensures clock { IsZero result.clock }
        ensures begin { result.begin ≡ None }
        ensures begins { result.begins ≡ 0 }
        ensures acted { result.acted ≡ false }
    {
        Thread {
            clock: Clock::new(alloc),
            begin: None,
            begins: 0,
            acted: false,
        }
    }

    /// Whether the begin clock of the thread's open block is at most this clock in every place,
    /// which the number at the thread's own number `t` tells.
    #[inline(always)]
    pub(crate) fn is_closed_by(&self, t: u32, clock: &Clock) -> bool
        requires { CountIsTest self.now t (number_at clock.now) }
        ensures { IsTrue result ↔ IsClosedBy self.now.begin (number_at clock.now) }
    {
        self.begin.is_some() && self.begins <= clock.get(t)
    }

    /// Thread `t`, which this is, takes the clock, unless it closes a telling cycle: then it returns
    /// true.
    pub(crate) fn take(&mut self, t: u32, clock: &Clock) -> Result<bool, AllocError>
        requires { CountIsTest self.old t (number_at clock.now) }
        ensures closing { IfOk result (λ closes. IsTrue closes ↔
            IsClosedBy self.old.begin (number_at clock.now)) }
        ensures takes { IfOk result (λ closes. closes ≡ false →
            TakesClock self.old self.new (number_at clock.now)) }
        ensures same { HasSameBlock self.old self.new }
        ensures grows { (u : ℕ) → number_at self.old.clock u ≤ number_at self.new.clock u }
        ensures heeds { (w : State) → Heeds w (number_at self.old.clock) →
            Heeds w (number_at clock.now) → Heeds w (number_at self.new.clock) }
    {
        if self.is_closed_by(t, clock) {
            return Ok(true);
        }
        self.join(clock)?;
        Ok(false)
    }

    /// Joins the clock with this one.
    pub(crate) fn join(&mut self, clock: &Clock) -> Result<(), AllocError>
        ensures ok { OnOk result (TakesClock self.old self.new (number_at clock.now)) }
        ensures same { HasSameBlock self.old self.new }
        ensures grows { (u : ℕ) → number_at self.old.clock u ≤ number_at self.new.clock u }
        ensures heeds { (w : State) → Heeds w (number_at self.old.clock) →
            Heeds w (number_at clock.now) → Heeds w (number_at self.new.clock) }
    {
        self.clock.join(clock)
    }

    /// Begins a block: raises the clock at the thread's own number `t`, where it counts the
    /// thread's outermost begins, and remembers it. A refusal begins none.
    pub(crate) fn open(&mut self, t: u32) -> Result<(), AllocError>
        requires begins { self.old.begins < 2 ^ 32 - 1 }
        requires number { number_at self.old.clock t < 2 ^ 32 - 1 }
        ensures raised { OnOk result (IsRaised self.new.clock self.old.clock t) }
        ensures begin { OnOk result ((u : ℕ) →
            number_in self.new.begin u ≡ number_at self.new.clock u) }
        ensures open { OnOk result (IsSome self.new.begin) }
        ensures begins { OnOk result (self.new.begins ≡ self.old.begins + 1) }
        ensures acted { self.new.acted ≡ self.old.acted }
        ensures err { OnErr result (HasSameBlock self.old self.new) }
        ensures err_clock { OnErr result ((u : ℕ) →
            number_at self.new.clock u ≡ number_at self.old.clock u) }
    {
        let mut begin = self.clock.copy()?;
        begin.raise(t)?;
        self.clock.raise(t)?;
        self.begin = Some(begin);
        self.begins += 1;
        Ok(())
    }
}

/// Makes room for thread `t`.
pub(crate) fn reach(threads: &mut Vec<Thread>, t: u32) -> Result<(), AllocError>
    requires { vec_len threads.old ≤ 2 ^ 32 }
    ensures room { OnOk result (vec_len threads.new ≡ max (vec_len threads.old) (t + 1)) }
    ensures few { vec_len threads.new ≤ 2 ^ 32 }
    ensures same { AreSameThreads threads.old.items threads.new.items }
{
    let at = t as usize;
    while threads.len() <= at {
        let thread = Thread::new(*threads.allocator());
        threads.push(thread)?;
    }
    Ok(())
}
