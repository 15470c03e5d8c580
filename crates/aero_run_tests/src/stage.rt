ghost use Rattle.std.specs.Prelude.{◌≡◌};

use crate::pieces::block_question;
use aero_pieces::Question;
use aero_stage::{Job, Poster, Taker, stage};
use std::alloc::{AllocError, Global};
use std::process::Abort;
use std::sync::Wait;
use std::test::Fail;

// A job with this number, and a question about the block with this one. `None` where memory is refused.
fn job(alloc: Global, number: u64, block: u64) -> Option<Job> {
    let question = block_question(alloc, 0, block, "T1|r(x)")?;
    Some(Job {
        number,
        question: question.share(alloc).ok()?,
    })
}

// The numbers of the job, and of the block that it asks about.
fn numbers(job: Job) -> (u64, u64) {
    let block = match &*job.question {
        Question::Parse { number, .. } => *number,
        Question::Check { .. } => u64::MAX,
    };
    (job.number, block)
}

fn take<R: Wait>(rt: &R, taker: &mut Taker) -> Option<(u64, u64)>
    ensures { taker.new.stage ≡ taker.old.stage }
{
    taker.take(rt).map(numbers)
}

fn take_back<R: Wait>(rt: &R, poster: &mut Poster) -> Option<(u64, u64)>
    ensures { poster.new.stage ≡ poster.old.stage }
{
    poster.take_back(rt).map(numbers)
}

// Posts the job with these numbers. What comes back is its numbers, or `None` where memory was refused.
fn post<R: Wait + AllocGlobal>(
    rt: &R,
    poster: &mut Poster,
    number: u64,
    block: u64,
) -> Result<(), Option<(u64, u64)>>
    ensures { poster.new.stage ≡ poster.old.stage }
{
    let Some(job) = job(rt.alloc(), number, block) else {
        return Err(None);
    };
    poster.post(rt, job).map_err(|full| Some(numbers(full.job)))
}

// Posts, takes and stops of a queue of two places with one taker, which was full.
fn expect_full<T: Abort + AllocGlobal + Wait>(rt: &T, poster: &mut Poster, taker: &mut Taker)
    ensures poster { poster.new.stage ≡ poster.old.stage }
    ensures taker { taker.new.stage ≡ taker.old.stage }
{
    assert_eq!(rt; post(rt, poster, 1, 11), Ok(()));
    assert_eq!(rt; post(rt, poster, 2, 12), Ok(()));
    assert_eq!(rt; post(rt, poster, 3, 13), Err(Some((3, 13))));
    assert!(rt; !poster.stop(rt));
    assert_eq!(rt; take(rt, taker), Some((1, 11)));
    assert!(rt; poster.stop(rt));
    assert_eq!(rt; take(rt, taker), Some((2, 12)));
    assert_eq!(rt; take(rt, taker), None);
    assert_eq!(rt; take(rt, taker), None);
    // a queue that was full has room again once it is drained
    assert_eq!(rt; post(rt, poster, 4, 14), Ok(()));
    assert!(rt; poster.stop(rt));
}

// A full queue gives the job back.
fn expect_job_back<T: Abort + AllocGlobal + Wait>(rt: &T) -> Result<(), AllocError> {
    let (mut poster, mut takers) = stage(rt.alloc(), 2, 1)?;
    let mut taker = takers.remove(0);
    expect_full(rt, &mut poster, &mut taker);
    poster.rejoin(taker);
    assert_eq!(rt; take_back(rt, &mut poster), Some((4, 14)));
    assert_eq!(rt; take_back(rt, &mut poster), None);
    Ok(())
}

// A stop that nobody took is dropped.
fn expect_stop_dropped<T: Abort + AllocGlobal + Wait>(rt: &T) -> Result<(), AllocError> {
    let (mut poster, _takers) = stage(rt.alloc(), 2, 1)?;
    assert!(rt; poster.stop(rt));
    assert_eq!(rt; post(rt, &mut poster, 1, 11), Ok(()));
    assert_eq!(rt; take_back(rt, &mut poster), Some((1, 11)));
    assert_eq!(rt; take_back(rt, &mut poster), None);
    Ok(())
}

// A Taker takes what a Poster left.
fn expect_left_taken<T: Abort + AllocGlobal + Wait>(rt: &T) -> Result<(), AllocError> {
    let (mut poster, mut takers) = stage(rt.alloc(), 1, 1)?;
    let mut taker = takers.remove(0);
    assert_eq!(rt; post(rt, &mut poster, 7, 17), Ok(()));
    drop(poster);
    assert_eq!(rt; take(rt, &mut taker), Some((7, 17)));
    assert_eq!(rt; take(rt, &mut taker), None);
    Ok(())
}

#[test]
fn one_taker_of_a_full_a_stopped_and_an_abandoned_queue(rt: HostRuntime) -> Result<(), Fail> {
    expect_job_back(&rt)?;
    expect_stop_dropped(&rt)?;
    expect_left_taken(&rt)?;
    Ok(())
}

// Posts and takes of a queue with two takers, of which the second is told to stop.
fn expect_shared<T: Abort + AllocGlobal + Wait>(
    rt: &T,
    poster: &mut Poster,
    first: &mut Taker,
    second: &mut Taker,
)
    ensures poster { poster.new.stage ≡ poster.old.stage }
    ensures first { first.new.stage ≡ first.old.stage }
    ensures second { second.new.stage ≡ second.old.stage }
{
    assert_eq!(rt; post(rt, poster, 1, 11), Ok(()));
    assert_eq!(rt; post(rt, poster, 2, 12), Ok(()));
    assert_eq!(rt; post(rt, poster, 3, 13), Ok(()));
    assert_eq!(rt; post(rt, poster, 4, 14), Ok(()));
    assert_eq!(rt; take(rt, second), Some((1, 11)));
    assert_eq!(rt; take(rt, first), Some((2, 12)));
    assert_eq!(rt; take_back(rt, poster), Some((3, 13)));
    assert!(rt; poster.stop(rt));
    assert_eq!(rt; take(rt, second), Some((4, 14)));
    assert_eq!(rt; take(rt, second), None);
}

#[test]
fn two_takers_and_the_poster_share_a_queue(rt: HostRuntime) -> Result<(), Fail> {
    let (mut poster, mut takers) = stage(rt.alloc(), 64, 2)?;
    let mut first = takers.remove(0);
    let mut second = takers.remove(0);
    expect_shared(&rt, &mut poster, &mut first, &mut second);
    poster.rejoin(second);
    assert_eq!(rt; post(&rt, &mut poster, 5, 15), Ok(()));
    assert_eq!(rt; take(&rt, &mut first), Some((5, 15)));
    poster.rejoin(first);
    assert_eq!(rt; take_back(&rt, &mut poster), None);
    Ok(())
}
