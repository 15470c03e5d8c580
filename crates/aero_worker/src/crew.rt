//! The crew: its start, its jobs and replies, and its close.
ghost use Rattle.std.specs.Prelude.{◌≡◌, ℕ, ◌+◌, ◌-◌, ◌≤◌, IfOk, OnOk, IfErr, OnErr, All, [], ◌∷◌, ◌++◌, length, map, sum_by, vec_len, vec_capacity};
ghost use Rattle.aero_pieces.specs.Invariants.{IsSubsequence, times};
ghost use Rattle.aero_stage.specs.Ends.{IsSettled, IsStage};
ghost use Rattle.aero_worker.specs.Shifts.{lists_of, number_of, Tells};

use crate::gate::Gate;
use crate::reply::Reply;
use crate::seed::{Staff, hire, make_seeds};
use crate::shift::{Channels, Honest, LET_GO, Shift};
use aero_pieces::Question;
use aero_stage::{Full, Job, Poster, Taker, stage};
use crossbeam_channel::{Receiver, Sender};
use std::alloc::{AllocError, Global};
use std::marker::Model;
use std::sync::{Arc, Wait};
use std::thread;
use std::thread::{PromisedHandle, Threads};

// How many jobs the queue may hold.
const PLACES: u32 = 64;

// How many bytes the stack of a worker has.
const STACK: usize = 8 << 20;

/// Where the posted jobs went, by their numbers.
#[derive(Drop)]
pub struct CrewReport {
    /// For each worker the jobs that it took, in the order in which it took them.
    pub by_worker: Vec<Vec<u64>>,
    /// The jobs that no worker took, in the order in which they were posted.
    pub left: Vec<u64>,
}

// Takes back all jobs, and notes their numbers.
fn take_all_back<R: Wait>(rt: &R, poster: &mut Poster, left: &mut Vec<u64>)
    requires room { vec_len left.old + poster.old.desk.bound ≤ vec_capacity left.old }
    requires same { left.old.items ≡ map number_of poster.old.desk.back }
    ensures room { vec_len left.new + poster.new.desk.bound ≤ vec_capacity left.new }
    ensures same { left.new.items ≡ map number_of poster.new.desk.back }
    ensures rest { poster.new ≡ record poster.old {
      desk = record poster.old.desk
          { back = poster.new.desk.back; bound = poster.new.desk.bound };
    } }
    ensures settled { IsSettled poster.new }
{
    loop {
        match poster.take_back(rt) {
            Some(job) => left.push_reserved(job.number),
            None => return,
        }
    }
}

// Posts a stop, once there is a place for it.
fn stop_one<R: Wait>(rt: &R, poster: &mut Poster)
    ensures { poster.new ≡ record poster.old
        { desk = record poster.old.desk { stops = poster.new.desk.stops } } }
{
    for _ in rt.forever() {
        if poster.stop(rt) {
            return;
        }
        thread::yield_now();
    }
}

// Posts so many stops.
fn stop_all<R: Wait>(rt: &R, poster: &mut Poster, count: usize)
    ensures { poster.new ≡ record poster.old
        { desk = record poster.old.desk { stops = poster.new.desk.stops } } }
{
    for _ in 0..count {
        stop_one(rt, poster);
    }
}

// Joins the workers, takes their Takers back, and notes what they took.
fn join_all<R: Threads>(
    rt: &R,
    poster: &mut Poster,
    running: Vec<PromisedHandle<Shift, Honest>>,
    by_worker: &mut Vec<Vec<u64>>,
)
    requires stage { All (λ h. h.promise.0.value.stage ≡ poster.old.stage) running.items }
    requires room { vec_len by_worker.old + vec_len running ≤ vec_capacity by_worker.old }
    requires tells { Tells (lists_of by_worker.old.items) poster.old.desk.kept }
    ensures count { vec_len by_worker.new ≡ vec_len by_worker.old + vec_len running }
    ensures tells { Tells (lists_of by_worker.new.items) poster.new.desk.kept }
    ensures takers { poster.new.desk.takers ≡ poster.old.desk.takers - vec_len running }
    ensures rest { poster.new ≡ record poster.old {
      desk = record poster.old.desk
          { kept = poster.new.desk.kept; takers = poster.new.desk.takers };
    } }
{
    let mut running = running;
    while let Some(handle) = running.pop() {
        let Shift { taker, numbers } = handle.join(rt);
        poster.rejoin(taker);
        by_worker.push_reserved(numbers);
    }
}

// The queue of so many workers, and a Taker for each.
fn queue_for(alloc: Global, workers: u32) -> Result<(Poster, Vec<Taker>), AllocError>
    requires some { 1 ≤ workers }
    requires few { workers ≤ 16 }
    ensures { IfOk result (λ queue. IsStage 64 workers queue.0 queue.1.items) }
{
    stage(alloc, PLACES, workers)
}

// Sends what is to be freed by a worker. Where that can't be it is dropped here.
fn send_or_drop<T: Drop, R: Wait>(rt: &R, let_go: &Sender<T>, last: T) {
    let _ = let_go.try_send(rt, last);
}

/// Workers, and the queue of their jobs. `close` joins the workers, and a drop doesn't.
#[derive(Drop)]
pub struct Crew {
    poster: Poster,
    running: Vec<PromisedHandle<Shift, Honest>>,
    by_worker: Vec<Vec<u64>>,
    left: Vec<u64>,
    replies: Receiver<Reply>,
    let_go: Sender<Arc<Question, Global>>,
}

impl Model for Crew {
    ghost use Rattle.std.specs.Prelude.{◌≡◌, ◌+◌, ◌≤◌, All, map, vec_len, vec_capacity};
    ghost use Rattle.aero_worker.specs.Crews.{Crewing};

    ghost Value = { Crewing };

    ghost use Rattle.std.specs.Prelude.{[]};
    ghost use Rattle.aero_worker.specs.Shifts.{lists_of, number_of, Tells};

    ghost view = { λ c. record { posted = map number_of c.poster.desk.posted; workers = vec_len c.running + vec_len c.by_worker } };

    ghost invariant = { λ c. record {
      stage : All (λ h. h.promise.0.value.stage ≡ c.poster.stage) c.running.items;
      takers : c.poster.desk.takers ≡ vec_len c.running;
      tells : Tells (lists_of c.by_worker.items) c.poster.desk.kept;
      back : c.poster.desk.back ≡ [];
      left : c.left.items ≡ [];
      room : vec_len c.running + vec_len c.by_worker ≤ vec_capacity c.by_worker;
      capacity : c.poster.capacity ≡ 64;
      places : 64 ≤ vec_capacity c.left;
      bound : c.poster.desk.bound ≤ 64;
      stops : c.poster.desk.stops ≡ 0;
      few : vec_len c.running + vec_len c.by_worker ≤ 16;
    } };
}

impl Crew {
    /// Starts as many of the `n` workers, 1 to 16, as the system gives, perhaps none. Nothing is posted
    /// yet. Memory for the jobs, for the replies and for questions that are let go is taken here. The call
    /// may wait, as each call that takes jobs may.
    ///
    /// # Errors
    ///
    /// An `AllocError` says that memory was refused. No worker was started then.
    pub fn start<G: Gate + Drop + 'static, R: Threads + Wait + Copy + Send + 'static>(
        rt: R,
        alloc: Global,
        n: u32,
        gate: Arc<G>,
    ) -> Result<Crew, AllocError>
        requires some { 1 ≤ n }
        requires few { n ≤ 16 }
        ensures posted { IfOk result (λ crew. crew.posted ≡ []) }
        ensures workers { IfOk result (λ crew. crew.workers ≤ n) }
    {
        Crew::start_with(rt, alloc, n, gate, STACK)
    }

    /// The same, with so many bytes for the stack of each worker, in the place of 8 MiB. Where the system
    /// gives no stack of so many no worker is started.
    ///
    /// # Errors
    ///
    /// An `AllocError` says that memory was refused. No worker was started then.
    pub fn start_with<G: Gate + Drop + 'static, R: Threads + Wait + Copy + Send + 'static>(
        rt: R,
        alloc: Global,
        n: u32,
        gate: Arc<G>,
        stack: usize,
    ) -> Result<Crew, AllocError>
        requires some { 1 ≤ n }
        requires few { n ≤ 16 }
        ensures posted { IfOk result (λ crew. crew.posted ≡ []) }
        ensures workers { IfOk result (λ crew. crew.workers ≤ n) }
    {
        let (poster, takers) = queue_for(alloc, n)?;
        let left = Vec::with_capacity(alloc, PLACES as usize)?;
        let by_worker = Vec::with_capacity(alloc, n as usize)?;
        let running = Vec::with_capacity(alloc, n as usize)?;
        // A place for the reply to each job that may be posted and of each worker: a send takes no memory.
        let (sender, replies) = crossbeam_channel::bounded(alloc, (PLACES + n) as usize)?;
        let (let_go, last) = crossbeam_channel::bounded(alloc, LET_GO as usize)?;
        let channels = Channels {
            replies: sender,
            let_go: last,
        };
        let mut seeds = make_seeds(alloc, &poster, takers, &channels, &gate)?;
        drop(channels);
        let mut staff = Staff {
            poster,
            running,
            by_worker,
        };
        while let Some(seed) = seeds.pop() {
            hire(rt, alloc, stack, &mut staff, seed);
        }
        let Staff {
            poster,
            running,
            by_worker,
        } = staff;
        Ok(Crew {
            poster,
            running,
            by_worker,
            left,
            replies,
            let_go,
        })
    }

    /// How many workers were started, from 0 to 16.
    pub fn workers(&self) -> u32
        ensures { result ≡ self.now.workers }
    {
        (self.running.len() + self.by_worker.len()) as u32
    }

    /// Posts a job.
    ///
    /// # Errors
    ///
    /// `Full` gives the job back, and nothing was changed. It comes only where 64 jobs or more were
    /// posted before. Where 64 replies and one for each worker are still to be received, a worker waits
    /// with its reply and takes no job meanwhile.
    pub fn post<R: Wait>(&mut self, rt: &R, job: Job) -> Result<(), Full>
        ensures posted { OnOk result (self.new ≡
            record self.old { posted = self.old.posted ++ job.number ∷ [] }) }
        ensures full { IfErr result (λ full. (full.job ≡ job) × (self.new ≡ self.old)) }
        ensures places { OnErr result (64 ≤ length self.old.posted) }
    {
        self.poster.post(rt, job)
    }

    /// Waits for a reply. `None` stands for none to come, where no worker is left; that it comes only
    /// there isn't proved.
    pub fn next_answer<R: Wait>(&mut self, rt: &R) -> Option<Reply>
        ensures { self.new ≡ self.old }
    {
        self.replies.recv(rt).ok()
    }

    /// A reply that has come, without waiting for one. `None` doesn't say that none is to come.
    pub fn ready_answer<R: Wait>(&mut self, rt: &R) -> Option<Reply>
        ensures { self.new ≡ self.old }
    {
        self.replies.try_recv(rt).ok()
    }

    /// Lets a question go that the caller needs no more: it is handed to the workers, and one of them frees it as
    /// soon as it takes a job or has replied to one. Where 64 of them are still to be freed, or no worker is
    /// left, it is freed here. The call waits for nobody. Who frees it isn't proved.
    pub fn let_go<R: Wait>(&mut self, rt: &R, question: Arc<Question, Global>)
        ensures { self.new ≡ self.old }
    {
        send_or_drop(rt, &self.let_go, question);
    }

    /// Takes back what no worker has taken, gives up the replies that nobody has received yet, waits
    /// until each worker has ended, and says where each job went that was posted. What was let go is
    /// freed by then.
    pub fn close<R: Threads + Wait>(self, rt: &R) -> CrewReport
        ensures workers { vec_len result.by_worker ≡ self.workers }
        ensures each { (n : ℕ) → sum_by (λ list. times n list.items) result.by_worker.items + times
            n result.left.items ≡ times n self.posted }
        ensures left { IsSubsequence result.left.items self.posted }
        ensures by_worker { All (λ list. IsSubsequence list.items self.posted)
            result.by_worker.items }
    {
        let Crew {
            mut poster,
            running,
            mut by_worker,
            mut left,
            replies,
            let_go,
        } = self;
        take_all_back(rt, &mut poster, &mut left);
        // No worker waits any more for room for its reply.
        drop(replies);
        // What was let go and isn't freed yet is freed by the last worker as it ends, or here where there is none.
        drop(let_go);
        stop_all(rt, &mut poster, running.len());
        join_all(rt, &mut poster, running, &mut by_worker);
        take_all_back(rt, &mut poster, &mut left);
        CrewReport { by_worker, left }
    }
}
