// What goes through the queue, and what each end knows of it.
use aero_pieces::Question;
use std::alloc::Global;
use std::collections::LinkedList;
use std::sync::Arc;

/// One piece of work: a question, and the number that its poster gave it.
#[derive(Drop)]
pub struct Job {
    pub number: u64,
    pub question: Arc<Question, Global>,
}

// What the queue holds: jobs, and the stops that end Takers.
#[derive(Drop)]
pub enum Slip {
    Work(Job),
    Stop,
}

// What a Taker has taken, in order, and what had been posted at its last take. No value of it is
// made.
pub struct Hand {
    pub jobs: LinkedList<Job>,
    pub seen: LinkedList<Job>,
}

// What the Poster knows: the jobs that it posted and those that it took back, the hands of the Takers
// that rejoined, and how many Takers are out. `bound` and `stops` are upper bounds: the queue holds
// at most so many jobs and so many stops, since a Taker may have taken some unseen. No value of it
// is made.
pub struct Desk {
    pub posted: LinkedList<Job>,
    pub back: LinkedList<Job>,
    pub kept: LinkedList<Hand>,
    pub bound: u64,
    pub stops: u64,
    pub takers: u64,
}

// What a pass knows. No value of it is made.
pub enum View {
    Posts(Desk),
    Takes(Hand),
    Spent,
}
