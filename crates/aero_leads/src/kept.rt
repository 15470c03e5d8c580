//! What is kept of a trace, and how each event changes it. A function for an event returns whether
//! that closes a cycle through the open block of its thread; then it leaves the blocks as they were.
ghost use Rattle.std.specs.Prelude.{◌≡◌, ◌≢◌, ◌<◌, ◌-◌, ◌^◌, ℕ, suc, [], true, false, IfOk, OnOk, OnErr, vec_len};
ghost use Rattle.aero_model.specs.declared.numbered.What.TheVariants.{Read, Write, Acquire, Release, Fork, Join, Begin};
ghost use Rattle.aero_engine.specs.Events.{event};
ghost use Rattle.aero_leads.specs.Kept.{last, IsLeastBack};
ghost use Rattle.aero_leads.specs.Leasts.{IsLeastOf};

use crate::last::Last;
use crate::least::least;
use crate::table;
use crate::table::{Table, gain, may_be_led, no_thread, take, take_reads};
use crate::thread::row_of;
use crate::variable::{
    Variable, last_release, last_write, latest_read, note_read, note_release, note_write,
    other_reads,
};
use std::alloc::{AllocError, Global};

/// The threads, variables and locks, each by its number, and how many events there are.
#[derive(Drop)]
pub struct Kept {
    pub table: Table,
    pub variables: Vec<Variable>,
    pub releases: Vec<Last>,
    pub events: u32,
}

impl Kept {
    ghost use Rattle.aero_leads.specs.States.{IsStateOf, Moves, acting};
    ghost use Rattle.aero_leads.specs.Standing.{state_in, AreSame, AreSameBlocks, EndsState, HasRoom};

    /// No event.
    pub(crate) fn new(alloc: Global) -> Kept
        ensures { IsStateOf (state_in result) [] }
    {
        Kept {
            table: no_thread(alloc),
            variables: Vec::new(alloc),
            releases: Vec::new(alloc),
            events: 0,
        }
    }

    /// Whether thread `t` is in a block.
    pub(crate) fn in_block(&self, t: u32) -> bool
        ensures { result ≡ (state_in self.now).in_block t }
    {
        match self.table.threads.get(t as usize) {
            Some(thread) => thread.in_block,
            None => false,
        }
    }

    /// How many outermost begins thread `t` has made.
    pub(crate) fn begins(&self, t: u32) -> u32
        ensures { result ≡ (state_in self.now).begins t }
    {
        match self.table.threads.get(t as usize) {
            Some(thread) => thread.begins,
            None => 0,
        }
    }

    /// Whether thread `t` has made an event.
    pub(crate) fn acted(&self, t: u32) -> bool
        ensures { result ≡ (state_in self.now).acted t }
    {
        match self.table.threads.get(t as usize) {
            Some(thread) => thread.acted,
            None => false,
        }
    }

    /// The place of the first event of thread `t` to which an open block leads.
    pub(crate) fn least_place(&self, t: u32) -> Option<u32>
        ensures { IsLeastOf ((state_in self.now).rows t) result }
    {
        least(row_of(&self.table.threads, t))
    }

    /// Makes room for thread `t` and an event. An event whose number doesn't fit 32 bits is refused
    /// as memory is.
    pub(crate) fn reach(&mut self, t: u32) -> Result<(), AllocError>
        ensures room { OnOk result (HasRoom self.new t) }
        ensures same { AreSame (state_in self.old) (state_in self.new) }
    {
        if self.events == u32::MAX {
            return Err(AllocError);
        }
        table::reach(&mut self.table, t)
    }

    /// Thread `t` has made an event.
    pub(crate) fn act(&mut self, t: u32)
        requires { HasRoom self.old t }
        ensures { AreSame (acting (state_in self.old) t) (state_in self.new) }
    {
        table::act(&mut self.table, t);
        self.events += 1;
    }

    /// Thread `t` reads variable `x`.
    pub(crate) fn read(&mut self, t: u32, x: u32) -> Result<bool, AllocError>
        requires { HasRoom self.old t }
        ensures moves { IfOk result (Moves (state_in self.old) (state_in self.new)
            (event t (Read x))) }
        ensures same { AreSameBlocks (state_in self.old) (state_in self.new) }
        ensures room { HasRoom self.new t }
    {
        let write = last_write(&self.variables, x);
        let latest = latest_read(&self.variables, x);
        let is_kept = may_be_led(&self.table, latest, t);
        if take(&mut self.table, t, write, self.events)? {
            return Ok(true);
        }
        let event = self.event(t);
        note_read(&mut self.variables, x, event, is_kept)?;
        Ok(false)
    }

    /// Thread `t` writes variable `x`.
    pub(crate) fn write(&mut self, t: u32, x: u32) -> Result<bool, AllocError>
        requires { HasRoom self.old t }
        ensures moves { IfOk result (Moves (state_in self.old) (state_in self.new)
            (event t (Write x))) }
        ensures same { AreSameBlocks (state_in self.old) (state_in self.new) }
        ensures room { HasRoom self.new t }
    {
        let write = last_write(&self.variables, x);
        if take(&mut self.table, t, write, self.events)? {
            return Ok(true);
        }
        let read = latest_read(&self.variables, x);
        let others = other_reads(&self.variables, x);
        if take_reads(&mut self.table, t, others, read, self.events)? {
            return Ok(true);
        }
        let event = self.event(t);
        note_write(&mut self.variables, x, event)?;
        Ok(false)
    }

    /// Thread `t` acquires lock `l`.
    pub(crate) fn acquire(&mut self, t: u32, l: u32) -> Result<bool, AllocError>
        requires { HasRoom self.old t }
        ensures moves { IfOk result (Moves (state_in self.old) (state_in self.new)
            (event t (Acquire l))) }
        ensures same { AreSameBlocks (state_in self.old) (state_in self.new) }
        ensures room { HasRoom self.new t }
    {
        let release = last_release(&self.releases, l);
        let closes = take(&mut self.table, t, release, self.events)?;
        Ok(closes)
    }

    /// Thread `t` releases lock `l`.
    pub(crate) fn release(&mut self, t: u32, l: u32) -> Result<(), AllocError>
        requires { HasRoom self.old t }
        ensures moves { OnOk result (Moves (state_in self.old) (state_in self.new)
            (event t (Release l)) false) }
        ensures same { AreSameBlocks (state_in self.old) (state_in self.new) }
        ensures room { HasRoom self.new t }
    {
        let event = self.event(t);
        note_release(&mut self.releases, l, event)?;
        Ok(())
    }

    /// Thread `t` forks thread `u`.
    pub(crate) fn fork(&mut self, t: u32, u: u32) -> Result<(), AllocError>
        requires room { HasRoom self.old t }
        requires target { u < vec_len self.old.table.threads }
        requires other { u ≢ t }
        ensures moves { OnOk result (Moves (state_in self.old) (state_in self.new)
            (event t (Fork u)) false) }
        ensures same { AreSameBlocks (state_in self.old) (state_in self.new) }
        ensures room { HasRoom self.new t }
    {
        gain(&mut self.table, u, t, self.events, self.events)?;
        Ok(())
    }

    /// Thread `t` joins thread `u`.
    pub(crate) fn join(&mut self, t: u32, u: u32) -> Result<bool, AllocError>
        requires room { HasRoom self.old t }
        requires other { u ≢ t }
        requires acted { (state_in self.old).acted u ≡ true }
        ensures moves { IfOk result (Moves (state_in self.old) (state_in self.new)
            (event t (Join u))) }
        ensures same { AreSameBlocks (state_in self.old) (state_in self.new) }
        ensures room { HasRoom self.new t }
    {
        let last = Last {
            thread: u,
            count: self.events,
        };
        let closes = take(&mut self.table, t, last, self.events)?;
        Ok(closes)
    }

    /// Thread `t` begins a block, and is in none.
    pub(crate) fn begin(&mut self, t: u32) -> Result<(), AllocError>
        requires room { HasRoom self.old t }
        requires outside { (state_in self.old).in_block t ≡ false }
        requires count { (state_in self.old).begins t < 2 ^ 32 - 1 }
        ensures moves { OnOk result (Moves (state_in self.old) (state_in self.new)
            (event t (Begin None)) false) }
        ensures err { OnErr result (AreSameBlocks (state_in self.old) (state_in self.new)) }
        ensures room { HasRoom self.new t }
    {
        table::begin(&mut self.table, t, self.events)?;
        Ok(())
    }

    /// The least thread whose open block closes a cycle through the block that thread `t` ends now.
    pub(crate) fn least_back(&mut self, t: u32) -> Result<Option<u32>, AllocError>
        ensures least { IfOk result (IsLeastBack (state_in self.new).rows t) }
        ensures same { AreSame (state_in self.old) (state_in self.new) }
        ensures room { HasRoom self.old t → HasRoom self.new t }
    {
        table::least_back(&mut self.table, t)
    }

    /// Thread `t` ends its outermost block.
    pub(crate) fn end(&mut self, t: u32) -> Result<(), AllocError>
        requires { HasRoom self.old t }
        ensures ends { OnOk result (EndsState (state_in self.old) (state_in self.new) t) }
        ensures err { OnErr result (AreSameBlocks (state_in self.old) (state_in self.new)) }
        ensures room { HasRoom self.new t }
    {
        table::end(&mut self.table, t)?;
        Ok(())
    }

    // The next event, by thread t.
    fn event(&self, t: u32) -> Last
        requires { HasRoom self.now t }
        ensures { result ≡ last t (suc self.now.events) }
    {
        Last {
            thread: t,
            count: self.events + 1,
        }
    }
}
