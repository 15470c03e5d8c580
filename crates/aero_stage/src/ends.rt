//! The ends of the job queue: the Poster, and a Taker for each worker.
ghost use Rattle.std.specs.Prelude.{◌≡◌, ℕ, ◌<◌, ◌≤◌, true, false, IfOk, OnOk, IfErr, IfSome, IfNone, MatchResult, MatchBool, List, [], ◌∷◌, ◌++◌};
ghost use Rattle.crossbeam_channel.specs.Claims.{view, IsSeatAt};
ghost use Rattle.crossbeam_channel.specs.Ends.{sends_on, receives_on, ruled_capacity};
ghost use Rattle.crossbeam_channel.specs.Fifo.{Held};
ghost use Rattle.aero_stage.specs.Ends.{WasFull, WasEmpty, WasFront, IsSettled, IsStage, new_taker};
ghost use Rattle.aero_stage.specs.Rule.{desk_of, hand_of, IsPoster, IsTaker, IsTake, Posted, TakenBack, Taken, Queued, with_post, with_stop, with_back};
ghost use Rattle.aero_stage.specs.Rule.{with_taker, with_hand};

use crate::job::{Job, Slip, View};
use crate::rule::{Law, Post, Roles, Room, Take, TakeBack};
use crossbeam_channel::{Pass, RuledReceiver, RuledSender, bounded_with};
use std::alloc::{AllocError, Global};
use std::marker::{Brand, Model};
use std::sync::Wait;

/// The end that posts jobs and stops, takes jobs back and lets Takers rejoin.
#[derive(Drop)]
pub struct Poster {
    sender: RuledSender<Slip, View, Law>,
    receiver: RuledReceiver<Slip, View, Law>,
    pass: Pass<Slip, View>,
}

impl Model for Poster {
    ghost use Rattle.std.specs.Prelude.{◌≡◌, ◌≤◌};
    ghost use Rattle.aero_stage.specs.Ends.{Posting, mark_of};

    ghost Value = { Posting };

    ghost use Rattle.crossbeam_channel.specs.Claims.{view as known, IsSeatAt};
    ghost use Rattle.crossbeam_channel.specs.Ends.{sends_on, receives_on, ruled_capacity};
    ghost use Rattle.aero_stage.specs.declared.job.View.TheVariants.{Posts};
    ghost use Rattle.aero_stage.specs.Rule.{desk_of};

    ghost view = { λ p. record { stage = mark_of p.pass; capacity = ruled_capacity (sends_on p.sender); desk = desk_of (known p.pass) } };

    ghost invariant = { λ p. record {
      seated : IsSeatAt (sends_on p.sender) p.pass;
      joined : receives_on p.receiver ≡ sends_on p.sender;
      posts : known p.pass ≡ Posts (desk_of (known p.pass));
      small : (desk_of (known p.pass)).bound ≤ ruled_capacity (sends_on p.sender);
    } };
}

/// An end that takes jobs until it meets a stop.
#[derive(Drop)]
pub struct Taker {
    receiver: RuledReceiver<Slip, View, Law>,
    pass: Pass<Slip, View>,
    over: bool,
}

impl Model for Taker {
    ghost use Rattle.std.specs.Prelude.{◌≡◌};
    ghost use Rattle.aero_stage.specs.Ends.{Taking, mark_of};

    ghost Value = { Taking };

    ghost use Rattle.crossbeam_channel.specs.Claims.{view as known, IsSeatAt};
    ghost use Rattle.crossbeam_channel.specs.Ends.{receives_on};
    ghost use Rattle.aero_stage.specs.declared.job.View.TheVariants.{Takes};
    ghost use Rattle.aero_stage.specs.Rule.{hand_of};

    ghost view = { λ t. record { stage = mark_of t.pass; hand = hand_of (known t.pass); over = t.over } };

    ghost invariant = { λ t. record { seated : IsSeatAt (receives_on t.receiver) t.pass; takes : known t.pass ≡ Takes (hand_of (known t.pass)) } };
}

// Adds a slip. It comes back where the queue was full.
fn add<K: Room, R: Wait>(
    rt: &R,
    sender: &RuledSender<Slip, View, Law>,
    pass: &mut Pass<Slip, View>,
    mut slip: Slip,
) -> Result<(), Slip>
    requires room { K.room ≡ ruled_capacity (sends_on sender.now) }
    requires seat { IsSeatAt (sends_on sender.now) pass.old }
    requires poster { IsPoster (view pass.old) }
    ensures seat { IsSeatAt (sends_on sender.now) pass.new }
    ensures rule { MatchResult result (λ _. Posted K.room (view pass.old) slip (view pass.new))
        (λ e. (e ≡ slip) × (view pass.new ≡ view pass.old) ×
        Held K.room (Queued (desk_of (view pass.old)))) }
{
    for _ in rt.forever() {
        match sender.try_send_as::<Post<K>, R>(rt, pass, slip) {
            Ok(()) => return Ok(()),
            Err(e) => {
                let full = e.is_full();
                slip = e.into_inner();
                if full {
                    return Err(slip);
                }
            }
        }
    }
    unreachable!()
}

// Takes the front job back, and drops the stops before it.
fn remove<R: Wait>(
    rt: &R,
    receiver: &RuledReceiver<Slip, View, Law>,
    pass: &mut Pass<Slip, View>,
) -> Option<Job>
    requires seat { IsSeatAt (receives_on receiver.now) pass.old }
    requires poster { IsPoster (view pass.old) }
    ensures seat { IsSeatAt (receives_on receiver.now) pass.new }
    ensures some { IfSome result (λ job. TakenBack (view pass.old) (Slip.Work job) (view pass.new)) }
    ensures none { IfNone result ((view pass.new ≡ view pass.old) × Queued (desk_of (view pass.old))
        []) }
{
    for _ in rt.forever() {
        match receiver.try_recv_as::<TakeBack, R>(rt, pass) {
            Ok(Slip::Work(job)) => return Some(job),
            Ok(Slip::Stop) => {}
            Err(_) => return None,
        }
    }
    unreachable!()
}

/// The queue is full, and the job comes back.
#[derive(Drop)]
pub struct Full {
    pub job: Job,
}

impl Poster {
    /// Posts a job: it joins the queue at the back. `Full`, which changes nothing and holds the
    /// job, only where, as far as the Poster can know, the queue was full at a moment of the call. It
    /// can't know what Takers that are out have taken.
    pub fn post<R: Wait>(&mut self, rt: &R, job: Job) -> Result<(), Full>
        ensures posted { OnOk result (self.new ≡
            record self.old { desk = with_post self.old.capacity self.old.desk job }) }
        ensures full { IfErr result (λ e. (e.job ≡ job) × (self.new ≡ self.old) × WasFull self.old) }
        ensures bound { self.new.desk.bound ≤ self.new.capacity }
    {
        match add::<Brand, R>(rt, &self.sender, &mut self.pass, Slip::Work(job)) {
            Ok(()) => Ok(()),
            Err(Slip::Work(job)) => Err(Full { job }),
            Err(Slip::Stop) => unreachable!(),
        }
    }

    /// Posts a stop, which ends the Taker that takes it. False, which changes nothing, only where,
    /// as far as the Poster can know, the queue was full at a moment of the call.
    pub fn stop<R: Wait>(&mut self, rt: &R) -> bool
        ensures { MatchBool result (self.new ≡ record self.old { desk = with_stop self.old.desk })
            ((self.new ≡ self.old) × WasFull self.old) }
    {
        add::<Brand, R>(rt, &self.sender, &mut self.pass, Slip::Stop).is_ok()
    }

    /// Takes the job at the front back. A stop that stands at the front is dropped, and the next is
    /// taken. `None` only where, as far as the Poster can know, the queue was empty at a moment of the
    /// call. Once each Taker has rejoined it knows: what was taken back and the hands of the Takers
    /// then have each job as often as it was posted.
    pub fn take_back<R: Wait>(&mut self, rt: &R) -> Option<Job>
        ensures back { IfSome result (λ job.
            (self.new ≡ record self.old { desk = with_back self.old.desk job }) ×
            WasFront self.old job) }
        ensures lower { IfSome result (λ _. self.new.desk.bound < self.old.desk.bound) }
        ensures empty { IfNone result ((self.new ≡ self.old) × WasEmpty self.old) }
        ensures settled { IfNone result (IsSettled self.old) }
    {
        remove(rt, &self.receiver, &mut self.pass)
    }

    // A new Taker.
    fn taker(&mut self) -> Result<Taker, AllocError>
        ensures { IfOk result (λ t. (t ≡ new_taker self.old.stage) ×
            (self.new ≡ record self.old { desk = with_taker self.old.desk })) }
    {
        let receiver = self.receiver.try_clone()?;
        let pass = self.sender.another::<Roles>(&mut self.pass);
        Ok(Taker {
            receiver,
            pass,
            over: false,
        })
    }

    /// Lets a Taker rejoin that the same call of `stage` made, and keeps what it has taken.
    pub fn rejoin(&mut self, taker: Taker)
        requires { taker.stage ≡ self.old.stage }
        ensures { self.new ≡ record self.old { desk = with_hand self.old.desk taker.hand } }
    {
        let Taker { pass, .. } = taker;
        self.sender.absorb::<Roles>(&mut self.pass, pass);
    }
}

impl Taker {
    /// Takes the job at the front, for which it waits. `None` where it took a stop, or where the
    /// Poster is gone and the queue was empty, and at once on every later call. No clause says that
    /// it returns, nor that `None` comes only there.
    pub fn take<R: Wait>(&mut self, rt: &R) -> Option<Job>
        ensures took { IfSome result (λ job. (self.old.over ≡ false) × (self.new.over ≡ false) ×
            (self.new.stage ≡ self.old.stage)
            × IsTake self.old.hand job self.new.hand) }
        ensures over { IfNone result (self.new ≡ record self.old { over = true }) }
    {
        if self.over {
            return None;
        }
        match self.receiver.recv_as::<Take, R>(rt, &mut self.pass) {
            Ok(Slip::Work(job)) => Some(job),
            _ => {
                self.over = true;
                None
            }
        }
    }
}

/// A queue of at most `capacity` jobs and stops, with its Poster and `takers` Takers: 1 at least, as
/// many as the capacity at most, and the capacity is at most 64. Memory is taken here alone, and
/// an `AllocError` says that it was refused.
pub fn stage(alloc: Global, capacity: u32, takers: u32) -> Result<(Poster, Vec<Taker>), AllocError>
    requires takers { 1 ≤ takers }
    requires places { takers ≤ capacity }
    requires capacity { capacity ≤ 64 }
    ensures { IfOk result (λ r. IsStage capacity takers r.0 r.1.items) }
{
    let (sender, receiver, pass) = bounded_with(alloc, capacity as usize)?;
    let mut poster = Poster {
        sender,
        receiver,
        pass,
    };
    let mut all = Vec::with_capacity(alloc, takers as usize)?;
    for _ in 0..takers {
        all.push(poster.taker()?)?;
    }
    Ok((poster, all))
}
