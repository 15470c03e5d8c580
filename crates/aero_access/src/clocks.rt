//! The clocks of a trace, kept event by event.
ghost use Rattle.std.specs.Prelude.{◌≡◌, ◌≢◌, ◌↔◌, ◌<◌, ◌≤◌, ◌+◌, ◌-◌, ◌^◌, ◌++◌, ◌∷◌, [], ℕ, true, false, None, Some, List, max, length, vec_len, IsTrue, IsErr, IfOk, OnOk, OnErr, slice_get};
ghost use Rattle.aero_model.specs.declared.numbered.Numbered.{Numbered};
ghost use Rattle.aero_model.specs.declared.numbered.What.{What};
ghost use Rattle.aero_model.specs.declared.numbered.What.TheVariants.{Read, Write, Acquire, Release, Fork, Join, Begin};
ghost use Rattle.aero_model.specs.Shape.{IsWellFormed};
ghost use Rattle.aero_engine.specs.declared.slot.Slot.{Slot};
ghost use Rattle.aero_engine.specs.Events.{event, IsIdle};
ghost use Rattle.aero_access.specs.StateWords.{state_in};
ghost use Rattle.aero_access.specs.Heeds.{AreHeeded};
ghost use Rattle.aero_access.specs.Indexed.{IsIndex};

use crate::index::Index;
use crate::table::Table;
use crate::thread::Thread;
use crate::{changes, clock_rules};
pub use aero_engine::spent::Spent;
use std::alloc::Global;

/// The clocks of the events so far. Threads, variables and locks go by numbers from 0.
///
/// A call for an event returns the thread whose open block closes a telling cycle with it, if there
/// is one: a cycle in which each block but the first has ended, or is left by no earlier event than it
/// was entered by. Then `closed` returns that thread, and no further event may be given. Where memory
/// is refused a call returns `Spent`; then `in_block`, `begins`, `acted` and `closed` return what
/// they did before that call.
#[derive(Drop)]
pub struct Clocks {
    threads: Vec<Thread>,
    table: Table,
    index: Index,
    closed: Option<u32>,
    spent: bool,
    ghost few: { vec_len threads ≤ 2 ^ 32 },
    ghost heeded: { AreHeeded (state_in threads.items table) },
    ghost indexed: { spent ≡ false → IsIndex threads.items table index },
}

impl Clocks {
    ghost use Rattle.aero_engine.specs.Protocol.{quiet};
    ghost use Rattle.aero_access.specs.Standing.{in_block_at, begins_at, acted_at, closed_by, is_spent, StandsFor, Answers, Follows, Tells, IsStarted, IsRefused, IsFinished, IsClosed, HaveSameTests, clock_of, threads_of, slots_of, slot_at, IsBehind, ClosesBack, AbsorbsClock, ClosesBlock, led_of, AreLed};

    /// The clocks of no event.
    pub fn new(alloc: Global) -> Clocks
        ensures stands { StandsFor result [] }
        ensures threads { threads_of result ≡ 0 }
    {
        Clocks {
            threads: Vec::new(alloc),
            table: Table::new(alloc),
            index: Index::new(alloc),
            closed: None,
            spent: false,
        }
    }

    /// Whether thread `t` is in a block.
    pub fn in_block(&self, t: u32) -> bool
        ensures { result ≡ in_block_at self.now t }
    {
        match self.threads.get(t as usize) {
            Some(thread) => thread.begin.is_some(),
            None => false,
        }
    }

    /// How many outermost begins thread `t` has made.
    pub fn begins(&self, t: u32) -> u32
        ensures { result ≡ begins_at self.now t }
    {
        match self.threads.get(t as usize) {
            Some(thread) => thread.begins,
            None => 0,
        }
    }

    /// Whether thread `t` has made an event.
    pub fn acted(&self, t: u32) -> bool
        ensures { result ≡ acted_at self.now t }
    {
        match self.threads.get(t as usize) {
            Some(thread) => thread.acted,
            None => false,
        }
    }

    /// The thread that an earlier call returned, if one did.
    pub fn closed(&self) -> Option<u32>
        ensures { result ≡ closed_by self.now }
    {
        self.closed
    }

    /// Thread `t` reads variable `x`.
    pub fn read(&mut self, t: u32, x: u32) -> Result<Option<u32>, Spent>
        requires { closed_by self.old ≡ None }
        ensures answers { Answers self.old self.new result }
        ensures follows { Follows self.old self.new (event t (Read x)) result }
        ensures named { OnOk result (threads_of self.new ≡ max (threads_of self.old) (t + 1)) }
    {
        self.start(t)?;
        let closes = changes::read(&mut self.threads, &mut self.table, &mut self.index, t, x)?;
        Ok(self.finish(t, closes))
    }

    /// Thread `t` writes variable `x`.
    pub fn write(&mut self, t: u32, x: u32) -> Result<Option<u32>, Spent>
        requires { closed_by self.old ≡ None }
        ensures answers { Answers self.old self.new result }
        ensures follows { Follows self.old self.new (event t (Write x)) result }
        ensures named { OnOk result (threads_of self.new ≡ max (threads_of self.old) (t + 1)) }
    {
        self.start(t)?;
        let closes = changes::write(&mut self.threads, &mut self.table, &mut self.index, t, x)?;
        Ok(self.finish(t, closes))
    }

    /// Thread `t` acquires lock `l`.
    pub fn acquire(&mut self, t: u32, l: u32) -> Result<Option<u32>, Spent>
        requires { closed_by self.old ≡ None }
        ensures answers { Answers self.old self.new result }
        ensures follows { Follows self.old self.new (event t (Acquire l)) result }
        ensures named { OnOk result (threads_of self.new ≡ max (threads_of self.old) (t + 1)) }
    {
        self.start(t)?;
        let closes = changes::acquire(&mut self.threads, &self.table, &mut self.index, t, l)?;
        Ok(self.finish(t, closes))
    }

    /// Thread `t` releases lock `l`.
    pub fn release(&mut self, t: u32, l: u32) -> Result<Option<u32>, Spent>
        requires { closed_by self.old ≡ None }
        ensures answers { Answers self.old self.new result }
        ensures follows { Follows self.old self.new (event t (Release l)) result }
        ensures named { OnOk result (threads_of self.new ≡ max (threads_of self.old) (t + 1)) }
    {
        self.start(t)?;
        clock_rules::release(&self.threads, &mut self.table, &mut self.index, t, l)?;
        Ok(self.finish(t, false))
    }

    /// Thread `t` forks thread `u`, which has made no event.
    pub fn fork(&mut self, t: u32, u: u32) -> Result<Option<u32>, Spent>
        requires closed { closed_by self.old ≡ None }
        requires other { u ≢ t }
        requires fresh { acted_at self.old u ≡ false }
        ensures answers { Answers self.old self.new result }
        ensures follows { Follows self.old self.new (event t (Fork u)) result }
        ensures named { OnOk result (threads_of self.new ≡
            max (threads_of self.old) ((max t u) + 1)) }
    {
        self.start(t.max(u))?;
        changes::fork(&mut self.threads, &self.table, &mut self.index, t, u)?;
        Ok(self.finish(t, false))
    }

    /// Thread `t` joins thread `u`, which has made an event.
    pub fn join(&mut self, t: u32, u: u32) -> Result<Option<u32>, Spent>
        requires closed { closed_by self.old ≡ None }
        requires other { u ≢ t }
        requires acted { acted_at self.old u ≡ true }
        ensures answers { Answers self.old self.new result }
        ensures follows { Follows self.old self.new (event t (Join u)) result }
        ensures named { OnOk result (threads_of self.new ≡
            max (threads_of self.old) ((max t u) + 1)) }
    {
        self.start(t.max(u))?;
        let closes = changes::join(&mut self.threads, &self.table, &mut self.index, t, u)?;
        Ok(self.finish(t, closes))
    }

    /// Thread `t`, which is in no block, begins one.
    pub fn begin(&mut self, t: u32) -> Result<Option<u32>, Spent>
        requires closed { closed_by self.old ≡ None }
        requires outside { in_block_at self.old t ≡ false }
        requires count { begins_at self.old t < 2 ^ 32 - 1 }
        ensures answers { Answers self.old self.new result }
        ensures follows { Follows self.old self.new (event t (Begin None)) result }
        ensures named { OnOk result (threads_of self.new ≡ max (threads_of self.old) (t + 1)) }
    {
        self.start(t)?;
        changes::begin(&mut self.threads, &self.table, &mut self.index, t)?;
        Ok(self.finish(t, false))
    }

    /// Thread `t` makes an event that changes no clock: an exempt begin or end, a begin or an end
    /// within a block, or a join of a thread that has made no event.
    pub fn plain(&mut self, t: u32) -> Result<(), Spent>
        requires { closed_by self.old ≡ None }
        ensures answers { Answers self.old self.new (quiet result) }
        ensures follows { (h : List Numbered) (what : What)
            → StandsFor self.old h
            → IsWellFormed (h ++ event t what ∷ [])
            → IsIdle h t what
            → OnOk result (Tells self.new (h ++ event t what ∷ []) (length h) None) }
        ensures named { OnOk result (threads_of self.new ≡ max (threads_of self.old) (t + 1)) }
    {
        self.start(t)?;
        self.finish(t, false);
        Ok(())
    }

    /// How many threads have a number here: one more than the greatest that an event named.
    pub fn threads(&self) -> usize
        ensures { result ≡ threads_of self.now }
    {
        self.threads.len()
    }

    /// How many slots have a number: first the threads, by their numbers, and from `threads()` on last
    /// writes, last reads and last releases. A slot without a number has a zero clock.
    pub fn slots(&self) -> usize
        ensures count { result ≡ slots_of self.now }
        ensures first { (n : ℕ) → n < threads_of self.now → slot_at self.now n ≡ Slot.OfThread n }
        ensures behind { (n t : ℕ) → threads_of self.now ≤ n → n < result →
            slot_at self.now n ≢ Slot.OfThread t }
        ensures all { (s : Slot) (u : ℕ) → 0 < clock_of self.now s u →
            (n : ℕ) × (n < result) × (slot_at self.now n ≡ s) }
    {
        self.threads.len() + self.table.len()
    }

    /// Whether the clock of the slot with this number is at least the begin clock of thread `t`,
    /// which is in a block, in every place.
    pub fn leads(&self, t: u32, slot: usize) -> bool
        requires inside { in_block_at self.now t ≡ true }
        requires slot { slot < slots_of self.now }
        ensures { IsTrue result ↔ IsBehind self.now t (clock_of self.now (slot_at self.now slot)) }
    {
        clock_rules::leads(&self.threads, &self.table, t, slot)
    }

    /// How many slots have a clock that is at least the begin clock of thread `t`, which is in a
    /// block, in every place. Once memory was refused it returns 0.
    pub fn led(&self, t: u32) -> usize
        requires { in_block_at self.now t ≡ true }
        ensures count { result ≡ length (led_of self.now t) }
        ensures led { is_spent self.now ≡ false → AreLed self.now t (led_of self.now t) }
    {
        if self.spent {
            return 0;
        }
        self.index.led(t)
    }

    /// The number of one of these slots. Each is there once; threads come first, by their numbers.
    pub fn led_slot(&self, t: u32, i: usize) -> usize
        requires inside { in_block_at self.now t ≡ true }
        requires within { i < length (led_of self.now t) }
        ensures { slice_get (led_of self.now t) i ≡ Some result }
    {
        self.index.led_slot(t, i, self.threads.len())
    }

    /// Joins the clock of the slot with this number with the clock of thread `t`, which is in a
    /// block. Where the slot is a thread in a block whose begin clock the clock of `t` is at least
    /// in every place, that thread is returned, as for an event.
    pub fn absorb(&mut self, t: u32, slot: usize) -> Result<Option<u32>, Spent>
        requires closed { closed_by self.old ≡ None }
        requires inside { in_block_at self.old t ≡ true }
        requires slot { slot < slots_of self.old }
        requires other { slot ≢ t }
        ensures answers { Answers self.old self.new result }
        ensures tests { HaveSameTests self.old self.new }
        ensures told { IfOk result (λ o. (u : ℕ) →
            (o ≡ Some u) ↔ ClosesBack self.old t (slot_at self.old slot) u) }
        ensures absorbed { IfOk result (λ o. o ≡ None →
            AbsorbsClock self.old self.new t (slot_at self.old slot)) }
        ensures led { IsBehind self.old t (clock_of self.old (slot_at self.old slot)) →
            IfOk result (λ o. o ≡ None → led_of self.new t ≡ led_of self.old t) }
        ensures threads { threads_of self.new ≡ threads_of self.old }
    {
        if self.spent {
            return Err(Spent);
        }
        self.spent = true;
        let told = changes::absorb(&mut self.threads, &mut self.table, &mut self.index, t, slot)?;
        self.closed = told;
        self.spent = false;
        Ok(told)
    }

    /// Ends the open block of thread `t`. After a refusal it changes nothing.
    pub fn close_block(&mut self, t: u32)
        requires closed { closed_by self.old ≡ None }
        requires inside { in_block_at self.old t ≡ true }
        ensures spent { is_spent self.old ≡ true → self.new ≡ self.old }
        ensures closes { is_spent self.old ≡ false → ClosesBlock self.old self.new t }
        ensures threads { threads_of self.new ≡ threads_of self.old }
    {
        if self.spent {
            return;
        }
        self.index.close(t);
        let thread = &mut self.threads[t as usize];
        thread.begin = None;
        thread.acted = true;
    }

    // Begins a call, which is spent until it is finished, and makes room for thread t.
    fn start(&mut self, t: u32) -> Result<(), Spent>
        ensures ok { OnOk result (IsStarted self.old self.new t) }
        ensures err { OnErr result (IsRefused self.old self.new) }
        ensures spent { is_spent self.old ≡ true → IsErr result }
        ensures indexed { OnOk result (IsIndex self.new.threads.items self.new.table self.new.index) }
        ensures room { OnOk result (t < vec_len self.new.index.blocks) }
    {
        if self.spent {
            return Err(Spent);
        }
        self.spent = true;
        changes::reach(&mut self.threads, &mut self.index, t)?;
        Ok(())
    }

    // Ends a call: thread t has acted, or its block is told.
    fn finish(&mut self, t: u32, closes: bool) -> Option<u32>
        requires actor { t < vec_len self.old.threads }
        requires indexed { IsIndex self.old.threads.items self.old.table self.old.index }
        ensures told { closes ≡ true → result ≡ Some t }
        ensures closed { closes ≡ true → IsClosed self.old self.new t }
        ensures untold { closes ≡ false → result ≡ None }
        ensures finished { closes ≡ false → IsFinished self.old self.new t }
        ensures threads { threads_of self.new ≡ threads_of self.old }
    {
        self.spent = false;
        if closes {
            self.closed = Some(t);
            return self.closed;
        }
        self.threads[t as usize].acted = true;
        None
    }
}
