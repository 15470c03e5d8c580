// What one worker does.
ghost use Rattle.std.specs.Prelude.{◌≡◌, ◌<◌, ◌++◌, ◌∷◌, [], map, vec_len, vec_capacity};
ghost use Rattle.aero_worker.specs.Shifts.{IsShiftOf, number_of};

use crate::gate::Gate;
use crate::reply::{Reply, reply_to};
use aero_pieces::Question;
use aero_stage::{Job, Taker};
use crossbeam_channel::{Receiver, Sender};
use std::alloc::{AllocError, Global};
use std::snapshot::Snapshot;
use std::sync::atomic::{AtomicBool, Ordering};
use std::sync::{Arc, Wait};
use std::thread::Promise;

// How many questions that were let go may be still to be freed.
pub(crate) const LET_GO: u32 = 64;

// A worker's ends of the channels: where its replies go, and where questions come from that it is to free.
#[derive(Drop)]
pub(crate) struct Channels {
    pub(crate) replies: Sender<Reply>,
    pub(crate) let_go: Receiver<Arc<Question, Global>>,
}

impl Channels {
    // The same ends once more.
    pub(crate) fn try_clone(&self) -> Result<Channels, AllocError> {
        Ok(Channels {
            replies: self.replies.clone()?,
            let_go: self.let_go.clone()?,
        })
    }
}

// What a worker works with.
#[derive(Drop)]
pub(crate) struct Tools<G: Drop> {
    pub(crate) channels: Channels,
    pub(crate) gate: Arc<G>,
    // Whether it is to take no job.
    pub(crate) unused: Arc<AtomicBool>,
}

// What a worker gives back: its Taker, and the numbers of the jobs that it took, in order.
#[derive(Drop)]
pub(crate) struct Shift {
    pub(crate) taker: Taker,
    pub(crate) numbers: Vec<u64>,
}

// The promise that a worker is started with. The snapshot is of its Taker before.
#[derive(Drop)]
pub(crate) struct Honest(pub(crate) Snapshot<Taker>);

impl Promise<Shift> for Honest {
    ghost kept_by = { λ p r. IsShiftOf p.0.value r };
}

// Sends a reply, which takes no memory. It waits for room, and where the receiver is gone the reply is dropped.
fn tell<T: Drop, R: Wait>(rt: &R, replies: &Sender<T>, reply: T) {
    let _ = replies.send(rt, reply);
}

// Frees what was let go, without waiting for more.
fn free_all<T: Drop, R: Wait>(rt: &R, let_go: &Receiver<T>) {
    for _ in 0..LET_GO {
        if let_go.try_recv(rt).is_err() {
            return;
        }
    }
}

// Notes the number of a job that was taken, for which there is room.
fn note(numbers: &mut Vec<u64>, job: &Job)
    requires { vec_len numbers.old < vec_capacity numbers.old }
    ensures { numbers.new.items ≡ numbers.old.items ++ job.now.number ∷ [] }
{
    numbers.push_reserved(job.number);
}

// Replies to a job, and lets it go. What was let go before is freed first, since the answer may take long, and then
// what was let go meanwhile.
fn serve<G: Gate + Drop, R: Wait>(rt: &R, alloc: Global, tools: &Tools<G>, job: Job) {
    free_all(rt, &tools.channels.let_go);
    tell(
        rt,
        &tools.channels.replies,
        reply_to(alloc, &*tools.gate, &job),
    );
    drop(job);
    free_all(rt, &tools.channels.let_go);
}

// Takes jobs and replies to them until there are none, or memory for one number more is refused.
// With the flag set it takes none.
pub(crate) fn work<G: Gate + Drop, R: Wait>(
    rt: &R,
    alloc: Global,
    taker: Taker,
    tools: &Tools<G>,
) -> Shift
    requires { taker.hand.jobs ≡ [] }
    ensures { IsShiftOf taker result }
{
    let mut taker = taker;
    let mut numbers = Vec::new(alloc);
    if tools.unused.load(Ordering::SeqCst) {
        return Shift { taker, numbers };
    }
    for _ in rt.forever() {
        if numbers.reserve(1).is_err() {
            break;
        }
        let Some(job) = taker.take(rt) else {
            break;
        };
        note(&mut numbers, &job);
        serve(rt, alloc, tools, job);
    }
    Shift { taker, numbers }
}
