//! What a worker tells of a job that it took.
ghost use Rattle.std.specs.Prelude.{◌≡◌, IfOk, IfErr};
ghost use Rattle.aero_worker.specs.Shifts.{IsReplyTo};

use crate::gate::Gate;
use aero_pieces::{Answer, Question};
use aero_stage::Job;
use std::alloc::{AllocError, Global};

/// What a worker tells of a job that it took.
#[derive(Drop)]
pub enum Reply {
    /// The answer of the job's question.
    Done(Answer),
    /// Memory for the answer was refused. This is the job's number.
    Missed(u64),
}

/// The reply to the job with this number, whose answer was worked out, or to which memory was refused, by
/// a worker or by a helper of the caller's own. The gate is lent the answer, if there is one.
pub fn reply_with<G: Gate>(gate: &G, number: u64, answer: Result<Answer, AllocError>) -> Reply
    ensures done { IfOk answer (λ answer. result ≡ Reply.Done answer) }
    ensures missed { IfErr answer (λ _. result ≡ Reply.Missed number) }
{
    match answer {
        Ok(answer) => {
            gate.after(&answer);
            Reply::Done(answer)
        }
        Err(_) => Reply::Missed(number),
    }
}

// Works out the answer of the job's question, between the two calls of the gate.
pub(crate) fn reply_to<G: Gate>(alloc: Global, gate: &G, job: &Job) -> Reply
    ensures { IsReplyTo job.now result }
{
    gate.before(&job.question);
    reply_with(gate, job.number, Question::answer(&job.question, alloc))
}
