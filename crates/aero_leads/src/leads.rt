//! The first places of a trace, kept event by event.
ghost use Rattle.std.specs.Prelude.{◌≡◌, ◌≢◌, ◌<◌, ◌-◌, ◌^◌, ◌++◌, ◌∷◌, [], ℕ, true, false, None, Some, List, length, IsErr, IfOk, OnOk, OnErr};
ghost use Rattle.aero_model.specs.declared.numbered.Numbered.{Numbered};
ghost use Rattle.aero_model.specs.declared.numbered.What.{What};
ghost use Rattle.aero_model.specs.declared.numbered.What.TheVariants.{Read, Write, Acquire, Release, Fork, Join, Begin, End};
ghost use Rattle.aero_model.specs.Blocks.{closes};
ghost use Rattle.aero_model.specs.Shape.{IsWellFormed};
ghost use Rattle.aero_engine.specs.Events.{event, IsIdle};

use crate::kept::Kept;
use aero_engine::Spent;
use std::alloc::Global;

/// The first places of the events so far. Threads, variables and locks go by numbers from 0.
///
/// A call for an event returns the thread whose open block closes a cycle with it, if there is
/// one. Then `closed` returns that thread, and no further event may be given. Where memory is
/// refused, or the event would be the 2^32nd, a call returns `Spent`, and so does each later call
/// for an event; then `in_block`, `begins`, `acted` and `closed` return what they did before the first of these.
#[derive(Drop)]
pub struct Leads {
    kept: Kept,
    closed: Option<u32>,
    spent: bool,
}

impl Leads {
    ghost use Rattle.aero_engine.specs.Protocol.{quiet};
    ghost use Rattle.aero_leads.specs.Kept.{IsLeastBack};
    ghost use Rattle.aero_leads.specs.Leasts.{IsLeastOf};
    ghost use Rattle.aero_leads.specs.Standing.{state_of, in_block_at, begins_at, acted_at, closed_by, is_spent, StandsFor, Answers, Follows, Tells, IsStarted, IsRefused, IsFinished, IsClosed, IsToldOf, HasRoom};

    /// No event.
    pub fn new(alloc: Global) -> Leads
        ensures { StandsFor result [] }
    {
        Leads {
            kept: Kept::new(alloc),
            closed: None,
            spent: false,
        }
    }

    /// Whether thread `t` is in a block.
    pub fn in_block(&self, t: u32) -> bool
        ensures { result ≡ in_block_at self.now t }
    {
        self.kept.in_block(t)
    }

    /// How many outermost begins thread `t` has made.
    pub fn begins(&self, t: u32) -> u32
        ensures { result ≡ begins_at self.now t }
    {
        self.kept.begins(t)
    }

    /// Whether thread `t` has made an event.
    pub fn acted(&self, t: u32) -> bool
        ensures { result ≡ acted_at self.now t }
    {
        self.kept.acted(t)
    }

    /// The thread that an earlier call returned, if one did.
    pub fn closed(&self) -> Option<u32>
        ensures { result ≡ closed_by self.now }
    {
        self.closed
    }

    /// The place of the first event of thread `t`, or of its fork, to which an open block leads. `None` where none leads
    /// to one.
    pub fn least_place(&self, t: u32) -> Option<u32>
        ensures { IsLeastOf ((state_of self.now).rows t) result }
    {
        self.kept.least_place(t)
    }

    /// Thread `t` reads variable `x`.
    pub fn read(&mut self, t: u32, x: u32) -> Result<Option<u32>, Spent>
        requires { closed_by self.old ≡ None }
        ensures answers { Answers self.old self.new result }
        ensures follows { Follows self.old self.new (event t (Read x)) result }
    {
        self.start(t)?;
        let closes = self.kept.read(t, x)?;
        Ok(self.finish(t, closes))
    }

    /// Thread `t` writes variable `x`.
    pub fn write(&mut self, t: u32, x: u32) -> Result<Option<u32>, Spent>
        requires { closed_by self.old ≡ None }
        ensures answers { Answers self.old self.new result }
        ensures follows { Follows self.old self.new (event t (Write x)) result }
    {
        self.start(t)?;
        let closes = self.kept.write(t, x)?;
        Ok(self.finish(t, closes))
    }

    /// Thread `t` acquires lock `l`.
    pub fn acquire(&mut self, t: u32, l: u32) -> Result<Option<u32>, Spent>
        requires { closed_by self.old ≡ None }
        ensures answers { Answers self.old self.new result }
        ensures follows { Follows self.old self.new (event t (Acquire l)) result }
    {
        self.start(t)?;
        let closes = self.kept.acquire(t, l)?;
        Ok(self.finish(t, closes))
    }

    /// Thread `t` releases lock `l`.
    pub fn release(&mut self, t: u32, l: u32) -> Result<Option<u32>, Spent>
        requires { closed_by self.old ≡ None }
        ensures answers { Answers self.old self.new result }
        ensures follows { Follows self.old self.new (event t (Release l)) result }
    {
        self.start(t)?;
        self.kept.release(t, l)?;
        Ok(self.finish(t, false))
    }

    /// Thread `t` forks thread `u`, which has made no event.
    pub fn fork(&mut self, t: u32, u: u32) -> Result<Option<u32>, Spent>
        requires closed { closed_by self.old ≡ None }
        requires other { u ≢ t }
        requires fresh { acted_at self.old u ≡ false }
        ensures answers { Answers self.old self.new result }
        ensures follows { Follows self.old self.new (event t (Fork u)) result }
    {
        self.start(t.max(u))?;
        self.kept.fork(t, u)?;
        Ok(self.finish(t, false))
    }

    /// Thread `t` joins thread `u`, which has made an event.
    pub fn join(&mut self, t: u32, u: u32) -> Result<Option<u32>, Spent>
        requires closed { closed_by self.old ≡ None }
        requires other { u ≢ t }
        requires acted { acted_at self.old u ≡ true }
        ensures answers { Answers self.old self.new result }
        ensures follows { Follows self.old self.new (event t (Join u)) result }
    {
        self.start(t)?;
        let closes = self.kept.join(t, u)?;
        Ok(self.finish(t, closes))
    }

    /// Thread `t`, which is in no block, begins one.
    pub fn begin(&mut self, t: u32) -> Result<Option<u32>, Spent>
        requires closed { closed_by self.old ≡ None }
        requires outside { in_block_at self.old t ≡ false }
        requires count { begins_at self.old t < 2 ^ 32 - 1 }
        ensures answers { Answers self.old self.new result }
        ensures follows { Follows self.old self.new (event t (Begin None)) result }
    {
        self.start(t)?;
        self.kept.begin(t)?;
        Ok(self.finish(t, false))
    }

    /// Thread `t` makes an event that takes no other: an exempt begin or end, a begin or an end
    /// within a block, or a join of a thread that has made no event.
    pub fn plain(&mut self, t: u32) -> Result<(), Spent>
        requires { closed_by self.old ≡ None }
        ensures answers { Answers self.old self.new (quiet result) }
        ensures follows { (h : List Numbered) (what : What)
            → StandsFor self.old h
            → IsWellFormed (h ++ event t what ∷ [])
            → IsIdle h t what
            → OnOk result (Tells self.new (h ++ event t what ∷ []) (length h) None) }
    {
        self.start(t)?;
        self.finish(t, false);
        Ok(())
    }

    /// Ends the outermost block of thread `t`, which is in a block. Returns the least thread whose
    /// open block closes a cycle through the block that ends, and `None` where there is none: then
    /// thread `t` is in no block any more.
    pub fn end(&mut self, t: u32) -> Result<Option<u32>, Spent>
        requires inside { in_block_at self.old t ≡ true }
        requires closed { closed_by self.old ≡ None }
        ensures answers { Answers self.old self.new result }
        ensures follows { (h : List Numbered)
            → StandsFor self.old h
            → IsWellFormed (h ++ event t End ∷ [])
            → closes (h ++ event t End ∷ []) t (length h) ≡ true
            → IfOk result (Tells self.new (h ++ event t End ∷ []) (length h)) }
    {
        let closing = self.start_end(t)?;
        if closing.is_some() {
            self.tell(closing);
            return Ok(closing);
        }
        self.kept.end(t)?;
        Ok(self.finish(t, false))
    }

    // Begins a call, which is spent until it is finished, and makes room for thread t.
    fn start(&mut self, t: u32) -> Result<(), Spent>
        ensures ok { OnOk result (IsStarted self.old self.new t) }
        ensures err { OnErr result (IsRefused self.old self.new) }
        ensures spent { is_spent self.old ≡ true → IsErr result }
    {
        if self.spent {
            return Err(Spent);
        }
        self.spent = true;
        self.kept.reach(t)?;
        Ok(())
    }

    // Begins a call that ends the block of thread t. The least thread that closes a cycle with that.
    fn start_end(&mut self, t: u32) -> Result<Option<u32>, Spent>
        ensures ok { OnOk result (IsStarted self.old self.new t) }
        ensures least { IfOk result (IsLeastBack (state_of self.new).rows t) }
        ensures err { OnErr result (IsRefused self.old self.new) }
        ensures spent { is_spent self.old ≡ true → IsErr result }
    {
        self.start(t)?;
        let closing = self.kept.least_back(t)?;
        Ok(closing)
    }

    // Ends a call: this block is told.
    fn tell(&mut self, closing: Option<u32>)
        ensures { IsToldOf self.old self.new closing }
    {
        self.spent = false;
        self.closed = closing;
    }

    // Ends a call: thread t has acted, or its block is told.
    fn finish(&mut self, t: u32, closes: bool) -> Option<u32>
        requires { HasRoom self.old.kept t }
        ensures told { closes ≡ true → result ≡ Some t }
        ensures closed { closes ≡ true → IsClosed self.old self.new t }
        ensures untold { closes ≡ false → result ≡ None }
        ensures finished { closes ≡ false → IsFinished self.old self.new t }
    {
        self.spent = false;
        if closes {
            self.closed = Some(t);
            return self.closed;
        }
        self.kept.act(t);
        None
    }
}
