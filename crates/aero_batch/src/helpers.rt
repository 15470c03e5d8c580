//! Those who may answer questions while the sources are read.
use aero_pieces::Question;
use aero_stage::{Full, Job};
pub use aero_worker::Helpers;
use aero_worker::Reply;
use std::alloc::Global;
use std::sync::{Arc, Wait};

/// Nobody helps: all is worked out by the caller's own thread.
#[derive(Drop)]
pub struct Nobody;

impl Helpers for Nobody {
    ghost count = { λ _. 0 };

    fn workers(&self) -> u32 {
        0
    }

    fn post<R: Wait>(&mut self, _rt: &R, job: Job) -> Result<(), Full> {
        Err(Full { job })
    }

    fn next_answer<R: Wait>(&mut self, _rt: &R) -> Option<Reply> {
        None
    }

    fn ready_answer<R: Wait>(&mut self, _rt: &R) -> Option<Reply> {
        None
    }

    fn let_go<R: Wait>(&mut self, _rt: &R, _question: Arc<Question, Global>) {}
}
