//! A caller's own code round each answer.
use aero_pieces::{Answer, Question};

/// What a caller does in the workers, before each answer is worked out and after. Several workers
/// may be in it at once.
pub trait Gate: Send + Sync {
    /// Is lent the question of a job that was taken, before its answer is worked out.
    fn before(&self, question: &Question);

    /// Is lent the answer before it is sent. Where memory for an answer was refused there is no call.
    fn after(&self, answer: &Answer);
}

/// A gate that does nothing.
#[derive(Drop)]
pub struct NoGate;

impl Gate for NoGate {
    fn before(&self, _question: &Question) {}

    fn after(&self, _answer: &Answer) {}
}
