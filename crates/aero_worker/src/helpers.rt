//! Whoever takes jobs and may reply.
ghost use Rattle.std.specs.Prelude.{◌≡◌, ℕ};

use crate::crew::Crew;
use crate::reply::Reply;
use aero_pieces::Question;
use aero_stage::{Full, Job};
use std::alloc::Global;
use std::sync::{Arc, Wait};

/// Those to whom jobs are posted, and who may reply, in any order, more than once, or never. Nothing
/// is promised of them but that they say how many they are.
pub trait Helpers {
    ghost count: { Self → ℕ };

    /// How many there are.
    fn workers(&self) -> u32
        ensures { result ≡ count self.now };

    /// Posts a job, or gives it back.
    fn post<R: Wait>(&mut self, rt: &R, job: Job) -> Result<(), Full>;

    /// Waits for a reply. `None` says that none is to be awaited any more.
    fn next_answer<R: Wait>(&mut self, rt: &R) -> Option<Reply>;

    /// A reply that has come, without waiting for one. `None` doesn't say that none is to come.
    fn ready_answer<R: Wait>(&mut self, rt: &R) -> Option<Reply>;

    /// Takes a question that the caller needs no more, to free it.
    fn let_go<R: Wait>(&mut self, rt: &R, question: Arc<Question, Global>);
}

impl Helpers for Crew {
    ghost count = { λ crew. crew.workers };

    fn workers(&self) -> u32 {
        self.workers()
    }

    fn post<R: Wait>(&mut self, rt: &R, job: Job) -> Result<(), Full> {
        self.post(rt, job)
    }

    fn next_answer<R: Wait>(&mut self, rt: &R) -> Option<Reply> {
        self.next_answer(rt)
    }

    fn ready_answer<R: Wait>(&mut self, rt: &R) -> Option<Reply> {
        self.ready_answer(rt)
    }

    fn let_go<R: Wait>(&mut self, rt: &R, question: Arc<Question, Global>) {
        self.let_go(rt, question)
    }
}
