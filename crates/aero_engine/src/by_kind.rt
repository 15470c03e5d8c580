//! An engine by what it does with each kind of event.
ghost use Rattle.std.specs.Prelude.{◌≡◌, ◌++◌, ◌∷◌, [], List, length, None, IfOk};
ghost use Rattle.aero_model.specs.declared.numbered.Numbered.{Numbered};
ghost use Rattle.aero_model.specs.declared.numbered.What.{What};
ghost use Rattle.aero_model.specs.Exempt.{IsJudgedAs, IsJudgedWhat};
ghost use Rattle.aero_model.specs.Shape.{IsWellFormed};
ghost use Rattle.aero_shape.specs.declared.admission.Admitted.TheVariants.{IdleJoin};
ghost use Rattle.aero_engine.specs.Events.{event, IsIdle};
ghost use Rattle.aero_engine.specs.Judging.{IsAdmitted, IsToAct, ComesAfter, ActsAfter, Tells};

use crate::spent::Spent;
use aero_model::{Numbered, What};
use aero_shape::Admitted;

/// What an engine does with each kind of event, threads, variables and locks by their numbers.
///
/// It stands for a list of events as `Engine` says, and between two calls it shows whether a thread is in a
/// block, how many outermost begins it has made, whether it has made an event, and what it has told. Each
/// call takes the next event, and returns the least thread whose open block closes a telling cycle with it,
/// or `None` where there is no telling cycle. `Spent` says that memory was refused.
pub trait ByKind {
    ghost use Rattle.std.specs.Prelude.{◌≡◌, ◌≢◌, ◌<◌, ◌-◌, ◌^◌, ◌++◌, ◌∷◌, [], ℕ, true, false, List, length, None, IfOk, OnOk};
    ghost use Rattle.aero_model.specs.declared.numbered.Numbered.{Numbered};
    ghost use Rattle.aero_model.specs.declared.numbered.What.{What};
    ghost use Rattle.aero_model.specs.declared.numbered.What.TheVariants.{Read, Write, Acquire, Release, Fork, Join, Begin, End};
    ghost use Rattle.aero_model.specs.Blocks.{closes};
    ghost use Rattle.aero_model.specs.Shape.{IsWellFormed};
    ghost use Rattle.aero_engine.specs.Events.{event, IsIdle};
    ghost use Rattle.aero_engine.specs.Protocol.{View, AgreesWith};
    ghost use Rattle.aero_engine.specs.Judging.{Follows, Tells};

    /// Whether it stands for these events.
    ghost stands_for: { Self → List Numbered → Type 0 };

    /// What callers see of it.
    ghost view: { Self → View };

    /// Thread `t`, which is in no block, begins one.
    fn begin(&mut self, t: u32) -> Result<Option<u32>, Spent>
        requires closed { (view self.old).closed ≡ None }
        requires outside { (view self.old).in_block t ≡ false }
        requires count { (view self.old).begins t < 2 ^ 32 - 1 }
        ensures { Follows (stands_for self.old) (stands_for self.new) (event t (Begin None)) result };

    /// Thread `t`, which is in a block, ends its outermost one.
    fn end(&mut self, t: u32) -> Result<Option<u32>, Spent>
        requires closed { (view self.old).closed ≡ None }
        requires inside { (view self.old).in_block t ≡ true }
        ensures { (h : List Numbered)
            → stands_for self.old h
            → IsWellFormed (h ++ event t End ∷ [])
            → closes (h ++ event t End ∷ []) t (length h) ≡ true
            → IfOk result (Tells (stands_for self.new) (h ++ event t End ∷ []) (length h)) };

    /// Thread `t` reads variable `x`.
    fn read(&mut self, t: u32, x: u32) -> Result<Option<u32>, Spent>
        requires { (view self.old).closed ≡ None }
        ensures { Follows (stands_for self.old) (stands_for self.new) (event t (Read x)) result };

    /// Thread `t` writes variable `x`.
    fn write(&mut self, t: u32, x: u32) -> Result<Option<u32>, Spent>
        requires { (view self.old).closed ≡ None }
        ensures { Follows (stands_for self.old) (stands_for self.new) (event t (Write x)) result };

    /// Thread `t` acquires lock `l`.
    fn acquire(&mut self, t: u32, l: u32) -> Result<Option<u32>, Spent>
        requires { (view self.old).closed ≡ None }
        ensures { Follows (stands_for self.old) (stands_for self.new) (event t (Acquire l)) result };

    /// Thread `t` releases lock `l`.
    fn release(&mut self, t: u32, l: u32) -> Result<Option<u32>, Spent>
        requires { (view self.old).closed ≡ None }
        ensures { Follows (stands_for self.old) (stands_for self.new) (event t (Release l)) result };

    /// Thread `t` forks thread `u`, which has made no event.
    fn fork(&mut self, t: u32, u: u32) -> Result<Option<u32>, Spent>
        requires closed { (view self.old).closed ≡ None }
        requires other { u ≢ t }
        requires fresh { (view self.old).acted u ≡ false }
        ensures { Follows (stands_for self.old) (stands_for self.new) (event t (Fork u)) result };

    /// Thread `t` joins thread `u`, which has made an event.
    fn join(&mut self, t: u32, u: u32) -> Result<Option<u32>, Spent>
        requires closed { (view self.old).closed ≡ None }
        requires other { u ≢ t }
        requires acted { (view self.old).acted u ≡ true }
        ensures { Follows (stands_for self.old) (stands_for self.new) (event t (Join u)) result };

    /// Thread `t` makes an event that closes no cycle: an exempt begin or end, a begin or an end within a
    /// block, or a join of a thread that has made no event.
    fn plain(&mut self, t: u32) -> Result<(), Spent>
        requires { (view self.old).closed ≡ None }
        ensures { (h : List Numbered) (what : What)
            → stands_for self.old h
            → IsWellFormed (h ++ event t what ∷ [])
            → IsIdle h t what
            → OnOk result (Tells (stands_for self.new) (h ++ event t what ∷ []) (length h) None) };

    /// What callers see agrees with the events for which it stands.
    ghost agrees: { (engine : Self) (h : List Numbered) → stands_for engine h → AgreesWith (view engine) h };
}

/// Takes the next event by the call of its kind, as `Engine::judge` asks: the least thread whose open block
/// closes a telling cycle with it, or `None` where there is no telling cycle. `Spent` says that memory was
/// refused; then the engine can only be let go.
pub fn judge<E: ByKind>(
    engine: &mut E,
    event: &Numbered,
    admitted: Admitted,
) -> Result<Option<u32>, Spent>
    requires { IsAdmitted (E.stands_for engine.old) event.now admitted }
    ensures { (h : List Numbered) (judged : Numbered) → IsJudgedAs event.now judged →
        ComesAfter (E.stands_for engine.old) h judged admitted →
        IfOk result (Tells (E.stands_for engine.new) (h ++ judged ∷ []) (length h)) }
{
    let t = event.thread;
    match admitted {
        Admitted::OuterBegin => engine.begin(t),
        Admitted::OuterEnd => engine.end(t),
        Admitted::IdleJoin => join_idle(engine, event),
        Admitted::Plain { .. } => act(engine, t, event.what),
    }
}

// The same of an event that is no outermost begin or end, and no join of a thread that has not acted.
fn act<E: ByKind>(engine: &mut E, t: u32, what: What) -> Result<Option<u32>, Spent>
    requires { IsToAct (E.stands_for engine.old) t what }
    ensures { (h : List Numbered) (judged : What) → IsJudgedWhat what judged →
        ActsAfter (E.stands_for engine.old) h t judged →
        IfOk result (Tells (E.stands_for engine.new) (h ++ event t judged ∷ []) (length h)) }
{
    match what {
        What::Read(x) => engine.read(t, x),
        What::Write(x) => engine.write(t, x),
        What::Acquire(l) => engine.acquire(t, l),
        What::Release(l) => engine.release(t, l),
        What::Fork(u) => engine.fork(t, u),
        What::Join(u) => engine.join(t, u),
        What::Begin(_) | What::End | What::Exempt => pass(engine, t),
    }
}

// The same of a join of a thread that has not acted.
fn join_idle<E: ByKind>(engine: &mut E, event: &Numbered) -> Result<Option<u32>, Spent>
    requires { IsAdmitted (E.stands_for engine.old) event.now IdleJoin }
    ensures { (h : List Numbered) (judged : Numbered) → IsJudgedAs event.now judged →
        ComesAfter (E.stands_for engine.old) h judged IdleJoin →
        IfOk result (Tells (E.stands_for engine.new) (h ++ judged ∷ []) (length h)) }
{
    pass(engine, event.thread)
}

// An event to which no block leads that does not lead to its thread, and so closes no cycle.
fn pass<E: ByKind>(engine: &mut E, t: u32) -> Result<Option<u32>, Spent>
    requires { (E.view engine.old).closed ≡ None }
    ensures { (h : List Numbered) (what : What) → E.stands_for engine.old h →
        IsWellFormed (h ++ event t what ∷ []) → IsIdle h t what →
        IfOk result (Tells (E.stands_for engine.new) (h ++ event t what ∷ []) (length h)) }
{
    engine.plain(t)?;
    Ok(None)
}
