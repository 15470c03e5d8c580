//! A clock as a list of the threads whose number isn't 0.
ghost use Rattle.std.specs.Prelude.{◌≡◌, ◌<◌, ◌≤◌, ◌^◌, ◌-◌, ◌↔◌, ℕ, IsTrue, IfOk, IsOk, OnOk, OnErr};
ghost use Rattle.aero_clock.specs.Pairs.{IsRising, HasNoZero};

use crate::pairs::{are_at_most, copy_from, join, raise, read};
use std::alloc::{AllocError, Global};

/// A number for each thread, 0 at first. Threads are numbered from 0; a clock keeps a pair of
/// thread and number for each thread at which its number isn't 0.
#[derive(Drop)]
pub struct Clock {
    pairs: Vec<(u32, u32)>,
    ghost rising: { IsRising pairs.items },
    ghost nonzero: { HasNoZero pairs.items },
}

impl Clock {
    ghost use Rattle.aero_clock.specs.Numbers.{number_at, IsZero, IsAtMost, IsSame, IsJoin, IsRaised, Lists};

    /// 0 at every thread. It takes no memory.
    pub fn new(alloc: Global) -> Clock
        ensures { IsZero result }
    {
        Clock {
            pairs: Vec::new(alloc),
        }
    }

    /// The number at thread `t`.
    #[inline(always)]
    pub fn get(&self, t: u32) -> u32
        ensures { result ≡ number_at self.now t }
    {
        read(&self.pairs, t)
    }

    /// The threads whose number isn't 0, each with its number, rising by thread.
    #[inline(always)]
    pub fn pairs(&self) -> &[(u32, u32)]
        ensures { Lists result.now self.now }
    {
        &self.pairs
    }

    /// Whether the number is at most the other's at every thread. Linear in the numbers that
    /// aren't 0.
    pub fn at_most(&self, other: &Clock) -> bool
        ensures { IsTrue result ↔ IsAtMost self.now other.now }
    {
        are_at_most(&self.pairs, &other.pairs)
    }

    /// Takes the greater number at every thread. Linear in the numbers that aren't 0. It takes
    /// memory only where the other has a number at a thread that has 0 here. A refusal changes
    /// nothing.
    pub fn join(&mut self, other: &Clock) -> Result<(), AllocError>
        ensures ok { OnOk result (IsJoin self.new self.old other.now) }
        ensures err { OnErr result (IsSame self.new self.old) }
        ensures room { ((t : ℕ) → 0 < number_at other.now t → 0 < number_at self.old t) →
            IsOk result }
    {
        join(&mut self.pairs, &other.pairs)
    }

    /// One more at thread `t`. It takes memory only where the number was 0. A refusal changes
    /// nothing.
    pub fn raise(&mut self, t: u32) -> Result<(), AllocError>
        requires { number_at self.old t < 2 ^ 32 - 1 }
        ensures ok { OnOk result (IsRaised self.new self.old t) }
        ensures err { OnErr result (IsSame self.new self.old) }
        ensures room { 0 < number_at self.old t → IsOk result }
    {
        raise(&mut self.pairs, t)
    }

    /// The same number at every thread.
    pub fn copy(&self) -> Result<Clock, AllocError>
        ensures { IfOk result (λ copy. IsSame copy self.now) }
    {
        let pairs = self.pairs.clone()?;
        Ok(Clock { pairs })
    }

    /// Takes the other's number at every thread. It takes memory only where the numbers that
    /// aren't 0 don't fit into what is there. A refusal changes nothing.
    pub fn copy_from(&mut self, other: &Clock) -> Result<(), AllocError>
        ensures ok { OnOk result (IsSame self.new other.now) }
        ensures err { OnErr result (IsSame self.new self.old) }
    {
        copy_from(&mut self.pairs, &other.pairs)
    }
}
