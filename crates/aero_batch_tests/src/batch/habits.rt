// Helpers that answer in another order, more than once, wrongly, or never.
use aero_pieces::question::{Bytes, Question};
use aero_stage::{Full, Job};
use aero_worker::{Helpers, Reply};
use std::alloc::{AllocError, Global};
use std::sync::{Arc, Wait};

// What a helper does with the jobs that are posted.
#[derive(Clone, Copy, PartialEq, Eq)]
pub(crate) enum Habit {
    // Answers the newest job first.
    Newest,
    // Gives each answer twice.
    Twice,
    // Before each answer to a question on a block, gives the answer to one with the same numbers and
    // other bytes.
    Forges,
    // Says that no answer comes.
    Misses,
    // Gives the answer to one question that nobody asked, for ever.
    Babbles,
    // Gives that answer so many times before each answer to a job.
    Chatters(u32),
    // Says that there are no more replies.
    Leaves,
    // Takes no job.
    Refuses,
    // Answers at once, but questions on blocks when they are awaited, the oldest first.
    LateBlocks,
    // Answers at once, but questions on verdicts when they are awaited, the newest first.
    LateVerdicts,
}

// Two helpers with this habit.
#[derive(Drop)]
pub(crate) struct Helper {
    alloc: Global,
    habit: Habit,
    jobs: Vec<Job>,
    // The jobs that are answered at once, where others are late.
    early: Vec<Job>,
    next: Vec<Reply>,
    // How often the answer that nobody wants was given since the last one to a job.
    chatted: u32,
    // How many late answers they owed at once, at most.
    pub(crate) held: usize,
    // How many questions they were given to free.
    pub(crate) freed: usize,
    pub(crate) has_refused: bool,
    pub(crate) was_awaited: bool,
}

pub(crate) fn helper_with(alloc: Global, habit: Habit) -> Helper {
    Helper {
        alloc,
        habit,
        jobs: Vec::new(alloc),
        early: Vec::new(alloc),
        next: Vec::new(alloc),
        chatted: 0,
        held: 0,
        freed: 0,
        has_refused: false,
        was_awaited: false,
    }
}

fn answer(alloc: Global, job: &Job) -> Reply {
    match Question::answer(&job.question, alloc) {
        Ok(answer) => Reply::Done(answer),
        Err(_) => Reply::Missed(job.number),
    }
}

// The answer to a question with the same numbers and other bytes.
fn forged(alloc: Global, question: &Question) -> Result<Option<Reply>, AllocError> {
    match question {
        Question::Parse { trace, number, .. } => Ok(Some(other_answer(alloc, *trace, *number)?)),
        Question::Check { .. } => Ok(None),
    }
}

// The answer to a question with these numbers on a block that no source has.
fn other_answer(alloc: Global, trace: u64, number: u64) -> Result<Reply, AllocError> {
    let bytes = Bytes::new(b"T9|end\n".to_vec(alloc)?).ok_or(AllocError)?;
    let other = Question::Parse {
        trace,
        number,
        bytes,
    }
    .share(alloc)?;
    Ok(Reply::Done(Question::answer(&other, alloc)?))
}

// Whether who has this habit answers the question at once, and another kind late.
fn is_early(habit: Habit, question: &Question) -> bool {
    match question {
        Question::Parse { .. } => habit == Habit::LateVerdicts,
        Question::Check { .. } => habit == Habit::LateBlocks,
    }
}

impl Helper {
    fn take(&mut self) -> Option<Job> {
        let is_newest_first = matches!(self.habit, Habit::Newest | Habit::LateVerdicts);
        if is_newest_first || self.jobs.is_empty() {
            return self.jobs.pop();
        }
        Some(self.jobs.remove(0))
    }

    // The answer to a job that isn't late, if there is one.
    fn early_answer(&mut self) -> Option<Reply> {
        let job = self.early.pop()?;
        Some(answer(self.alloc, &job))
    }

    fn reply(&mut self, job: &Job) -> Result<Reply, AllocError> {
        match self.habit {
            Habit::Twice => self.next.push(answer(self.alloc, job))?,
            Habit::Forges => {
                if let Some(reply) = forged(self.alloc, &job.question)? {
                    self.next.push(answer(self.alloc, job))?;
                    return Ok(reply);
                }
            }
            Habit::Misses => return Ok(Reply::Missed(job.number)),
            _ => {}
        }
        Ok(answer(self.alloc, job))
    }
}

impl Helpers for Helper {
    ghost count = { λ _. 2 };

    fn workers(&self) -> u32 {
        2
    }

    fn post<R: Wait>(&mut self, _rt: &R, job: Job) -> Result<(), Full> {
        if self.habit == Habit::Refuses {
            self.has_refused = true;
            return Err(Full { job });
        }
        let pushed = if is_early(self.habit, &job.question) {
            self.early.push(job)
        } else {
            self.jobs.push(job)
        };
        match pushed {
            Ok(()) => Ok(()),
            Err(refused) => Err(Full { job: refused.value }),
        }
    }

    fn next_answer<R: Wait>(&mut self, _rt: &R) -> Option<Reply> {
        self.was_awaited = true;
        match self.habit {
            Habit::Leaves => return None,
            Habit::Babbles => return other_answer(self.alloc, 0, 0).ok(),
            Habit::Chatters(times) if self.chatted < times => {
                self.chatted = self.chatted.saturating_add(1);
                return other_answer(self.alloc, 0, 0).ok();
            }
            _ => {}
        }
        self.chatted = 0;
        if let Some(reply) = self.next.pop() {
            return Some(reply);
        }
        if let Some(reply) = self.early_answer() {
            return Some(reply);
        }
        self.held = self.held.max(self.jobs.len());
        let job = self.take()?;
        match self.reply(&job) {
            Ok(reply) => Some(reply),
            Err(_) => Some(Reply::Missed(job.number)),
        }
    }

    // Who gives each answer twice, none or a strange one does so at once, and the others when they are awaited, but for
    // the answers that aren't late.
    fn ready_answer<R: Wait>(&mut self, rt: &R) -> Option<Reply> {
        match self.habit {
            Habit::Twice | Habit::Misses | Habit::Babbles => self.next_answer(rt),
            _ => self.early_answer(),
        }
    }

    fn let_go<R: Wait>(&mut self, _rt: &R, _question: Arc<Question>) {
        self.freed = self.freed.saturating_add(1);
    }
}
