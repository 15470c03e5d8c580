// Starting the workers.
ghost use Rattle.std.specs.Prelude.{◌≡◌, ◌+◌, ◌<◌, ◌≤◌, IfOk, All, [], vec_len, vec_capacity};
ghost use Rattle.aero_stage.specs.Ends.{new_taker};
ghost use Rattle.aero_worker.specs.Shifts.{lists_of, IsShiftOf, Tells};

use crate::gate::Gate;
use crate::shift::{Channels, Honest, Shift, Tools, work};
use aero_stage::{Poster, Taker};
use std::alloc::{AllocError, Global};
use std::snapshot::Snapshot;
use std::sync::atomic::{AtomicBool, Ordering};
use std::sync::{Arc, Wait};
use std::thread::{Builder, PromisedHandle, Threads};

// What a worker is made of, with a second handle of its flag.
#[derive(Drop)]
pub(crate) struct Seed<G: Drop> {
    pub(crate) taker: Taker,
    tools: Tools<G>,
    flag: Arc<AtomicBool>,
}

// The workers that are hired, and the queue of their jobs.
#[derive(Drop)]
pub(crate) struct Staff {
    pub(crate) poster: Poster,
    // Those that run.
    pub(crate) running: Vec<PromisedHandle<Shift, Honest>>,
    // Of those that have ended, the numbers of the jobs that each took.
    pub(crate) by_worker: Vec<Vec<u64>>,
}

fn make_seed<G: Gate + Drop>(
    alloc: Global,
    taker: Taker,
    channels: &Channels,
    gate: &Arc<G>,
) -> Result<Seed<G>, AllocError>
    ensures { IfOk result (λ seed. seed.taker ≡ taker) }
{
    let unused = Arc::new(alloc, AtomicBool::new(false))?;
    let flag = Arc::try_clone(&unused)?;
    Ok(Seed {
        taker,
        tools: Tools {
            channels: channels.try_clone()?,
            gate: Arc::try_clone(gate)?,
            unused,
        },
        flag,
    })
}

// A seed for each Taker.
pub(crate) fn make_seeds<G: Gate + Drop>(
    alloc: Global,
    poster: &Poster,
    takers: Vec<Taker>,
    channels: &Channels,
    gate: &Arc<G>,
) -> Result<Vec<Seed<G>>, AllocError>
    requires { All (λ taker. taker ≡ new_taker poster.now.stage) takers.items }
    ensures count { IfOk result (λ seeds. vec_len seeds ≡ vec_len takers) }
    ensures takers { IfOk result (λ seeds. All (λ seed. seed.taker ≡ new_taker poster.now.stage)
        seeds.items) }
{
    let mut takers = takers;
    let mut seeds = Vec::with_capacity(alloc, takers.len())?;
    while let Some(taker) = takers.pop() {
        seeds.push(make_seed(alloc, taker, channels, gate)?)?;
    }
    Ok(seeds)
}

// Starts a worker with a stack of so many bytes. Where no thread can be made its Taker comes back unused.
pub(crate) fn hire<G: Gate + Drop + 'static, R: Threads + Wait + Copy + Send + 'static>(
    rt: R,
    alloc: Global,
    stack: usize,
    staff: &mut Staff,
    seed: Seed<G>,
)
    requires seed { seed.taker ≡ new_taker staff.old.poster.stage }
    requires stage { All (λ h. h.promise.0.value.stage ≡ staff.old.poster.stage)
        staff.old.running.items }
    requires tells { Tells (lists_of staff.old.by_worker.items) staff.old.poster.desk.kept }
    requires takers { 0 < staff.old.poster.desk.takers }
    requires handles { vec_len staff.old.running < vec_capacity staff.old.running }
    requires lists { vec_len staff.old.by_worker < vec_capacity staff.old.by_worker }
    ensures stage { All (λ h. h.promise.0.value.stage ≡ staff.old.poster.stage)
        staff.new.running.items }
    ensures tells { Tells (lists_of staff.new.by_worker.items) staff.new.poster.desk.kept }
    ensures takers { staff.new.poster.desk.takers + vec_len staff.old.running + 1 ≡
        staff.old.poster.desk.takers + vec_len staff.new.running }
    ensures few { vec_len staff.new.running + vec_len staff.new.by_worker ≤ vec_len
        staff.old.running + vec_len staff.old.by_worker + 1 }
    ensures handles { vec_capacity staff.new.running ≡ vec_capacity staff.old.running }
    ensures lists { vec_capacity staff.new.by_worker ≡ vec_capacity staff.old.by_worker }
    ensures rest { staff.new.poster ≡
        record staff.old.poster {
          desk = record staff.old.poster.desk
              { kept = staff.new.poster.desk.kept; takers = staff.new.poster.desk.takers };
        } }
{
    let Seed { taker, tools, flag } = seed;
    let promise = Honest(Snapshot::of(&taker));
    let shift = move || -> Shift
        requires { taker.hand.jobs ≡ [] }
        ensures { IsShiftOf taker result }
    {
        let own = taker;
        work(&rt, alloc, own, &tools)
    };
    match Builder::new()
        .stack_size(stack)
        .spawn_with(&rt, promise, shift)
    {
        Ok(handle) => staff.running.push_reserved(handle),
        Err(refused) => {
            flag.store(true, Ordering::SeqCst);
            let Shift { taker, numbers } = (refused.value)();
            staff.poster.rejoin(taker);
            if !numbers.is_empty() {
                staff.by_worker.push_reserved(numbers);
            }
        }
    }
}
