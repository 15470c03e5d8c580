//! Open questions in their order, and the answers that are kept for them.
ghost use Rattle.std.specs.Prelude.{◌≡◌, ◌<◌, ◌≤◌, ◌^◌, ◌+◌, ◌-◌, ◌↔◌, length, slice_get, option_map, IsTrue, IfOk, IfErr, OnOk, OnErr};
ghost use Rattle.std.specs.Arc.{arc_value};
ghost use Rattle.aero_gather.specs.Gathered.{IsGathered, Accepts, Settles, GivesKnown, IsAwaited, nothing_gathered, with_asked, with_missed, oldest_of};
ghost use Rattle.aero_gather.specs.Given.{value_of};

use crate::open_question::{
    OpenQuestion, has_question, miss, oldest_waiting, question_alone, state, with_its_value,
};
use aero_pieces::{Answer, Question, Value};
use std::alloc::{AllocError, Global};
use std::marker::Model;
use std::sync::Arc;

/// The number of a question among those that were asked. The first has 0.
#[derive(Clone, Copy)]
pub struct Ticket {
    pub number: u64,
}

/// The window is full, and the question comes back.
#[derive(Drop)]
pub struct WindowFull {
    pub question: Arc<Question, Global>,
}

/// What became of an answer.
#[derive(Clone, Copy, Debug, PartialEq, Eq)]
pub enum Accepted {
    /// The oldest open question that it answers, and that had no answer, keeps its value.
    Kept,
    /// Each open question that it answers has an answer, and there is one at least.
    Repeated,
    /// It answers no open question.
    Stranger,
}

/// What is known of the oldest open question.
#[derive(Clone, Copy, Debug, PartialEq, Eq)]
pub enum Oldest {
    /// No question is open.
    Nothing,
    /// It has an answer.
    Kept,
    /// It has no answer yet.
    Awaited,
    /// It has no answer, and none is to be awaited.
    Missed,
}

/// A question that was settled, and its value.
#[derive(Drop)]
pub struct Settled {
    pub question: Arc<Question, Global>,
    pub value: Value,
}

/// How many questions were asked, how many answers were kept, and how many values were worked out
/// where the question was settled.
#[derive(Clone, Copy)]
pub struct Tally {
    pub asked: u64,
    pub kept: u64,
    pub done_here: u64,
}

/// Open questions, the oldest first, and the values that were kept for them.
#[derive(Drop)]
pub struct Gather {
    alloc: Global,
    window: u32,
    slots: Vec<OpenQuestion>,
    tally: Tally,
}

impl Model for Gather {
    ghost use Rattle.aero_gather.specs.Gathered.{Gathered};

    ghost Value = { Gathered };

    ghost use Rattle.std.specs.Prelude.{◌≤◌};
    ghost use Rattle.std.specs.Vec.{vec_capacity};
    ghost use Rattle.aero_gather.specs.Gathered.{IsGathered};

    ghost view = { λ g. record { window = g.window; entries = g.slots.items; tally = g.tally } };

    ghost invariant = { λ g. record {
      gathered : IsGathered (record { window = g.window; entries = g.slots.items; tally = g.tally });
      roomy : g.window ≤ vec_capacity g.slots;
    } };
}

impl Gather {
    /// A gatherer of at most `window` open questions: 1 to 64. Memory for them is taken here, and
    /// an `AllocError` says that it was refused.
    pub fn new(alloc: Global, window: u32) -> Result<Gather, AllocError>
        requires some { 0 < window }
        requires few { window ≤ 64 }
        ensures { IfOk result (λ gather. gather ≡ nothing_gathered window) }
    {
        Ok(Gather {
            alloc,
            window,
            slots: Vec::with_capacity(alloc, window as usize)?,
            tally: Tally {
                asked: 0,
                kept: 0,
                done_here: 0,
            },
        })
    }

    /// Asks a question. `WindowFull`, which changes nothing and holds the question, only where as
    /// many questions are open as the window allows.
    pub fn ask(&mut self, question: Arc<Question, Global>) -> Result<Ticket, WindowFull>
        requires { self.old.tally.asked < 2 ^ 64 - 1 }
        ensures ticket { IfOk result (λ ticket. ticket.number ≡ self.old.tally.asked) }
        ensures room { OnOk result (length self.old.entries < self.old.window) }
        ensures asked { OnOk result (self.new ≡ with_asked self.old (arc_value question)) }
        ensures full { OnErr result (length self.old.entries ≡ self.old.window) }
        ensures unchanged { OnErr result (self.new ≡ self.old) }
        ensures returned { IfErr result (λ full. full.question ≡ question) }
    {
        if self.slots.len() >= self.window as usize {
            return Err(WindowFull { question });
        }
        let slot = OpenQuestion {
            question,
            value: None,
            missed: false,
        };
        self.slots.push(slot).unwrap();
        let number = self.tally.asked;
        self.tally.asked += 1;
        Ok(Ticket { number })
    }

    /// Takes an answer. The oldest open question with the same content keeps its value, if it has
    /// none, or else the next oldest. Where none keeps it nothing changes.
    pub fn accept(&mut self, answer: Answer) -> Accepted
        ensures { Accepts answer.question answer.value self.old self.new result }
    {
        match oldest_waiting(&self.slots, answer.question()) {
            Some(place) => {
                let slot = &mut self.slots[place];
                slot.value = Some(answer.into_value());
                self.tally = with_kept(self.tally);
                Accepted::Kept
            }
            None if has_question(&self.slots, answer.question()) => Accepted::Repeated,
            None => Accepted::Stranger,
        }
    }

    /// Notes that no answer is to be awaited for the question with this ticket, and says whether that
    /// is news: the question is open, has no answer and wasn't noted as missed. Where it isn't news
    /// nothing changes.
    pub fn note_missed(&mut self, ticket: Ticket) -> bool
        ensures news { IsTrue result ↔ IsAwaited self.old ticket.number }
        ensures noted { self.new ≡ with_missed self.old ticket.number }
    {
        let settled = self.tally.asked - self.slots.len() as u64;
        if ticket.number < settled || self.tally.asked <= ticket.number {
            return false;
        }
        miss(&mut self.slots[(ticket.number - settled) as usize])
    }

    /// How many questions are open: as many as the window allows at most.
    pub fn len(&self) -> usize
        ensures count { result ≡ length self.now.entries }
        ensures within { result ≤ self.now.window }
    {
        self.slots.len()
    }

    /// The ticket of the oldest open question. As many were settled as its number says. Where none is open it is that
    /// which the next question gets.
    pub fn oldest_ticket(&self) -> Ticket
        ensures { result.number ≡ self.now.tally.asked - length self.now.entries }
    {
        Ticket {
            number: self.tally.asked - self.slots.len() as u64,
        }
    }

    /// What is known of the oldest open question.
    pub fn oldest(&self) -> Oldest
        ensures { result ≡ oldest_of self.now.entries }
    {
        match self.slots.first() {
            None => Oldest::Nothing,
            Some(slot) => state(slot),
        }
    }

    /// The oldest open question.
    pub fn front(&self) -> Option<&Question>
        ensures { option_map (λ question. question.now) result ≡
            option_map (λ entry. entry.question) (slice_get self.now.entries 0) }
    {
        match self.slots.first() {
            Some(slot) => Some(&slot.question),
            None => None,
        }
    }

    /// How many questions were asked, answers kept and values worked out here, so far. Each
    /// question that was asked has an answer that was kept, was worked out here, or is open and has
    /// no answer.
    pub fn tally(&self) -> Tally
        ensures tally { result ≡ self.now.tally }
        ensures gathered { IsGathered self.now }
    {
        self.tally
    }

    /// Takes the oldest open question away and gives its value, which is worked out here where no
    /// answer was kept. `None` where no question is open. An `AllocError`, which changes nothing,
    /// says that memory for working it out was refused.
    pub fn settle(&mut self) -> Result<Option<Value>, AllocError>
        ensures settled { IfOk result (λ given. Settles self.old self.old.entries self.new given) }
        ensures known { IfOk result (λ given. GivesKnown self.old.entries given) }
        ensures unchanged { OnErr result (self.new ≡ self.old) }
    {
        match self.settle_with_question()? {
            Some(settled) => Ok(Some(value_alone(settled))),
            None => Ok(None),
        }
    }

    /// The same, and gives the question along with its value, so that the caller says where it is freed.
    pub fn settle_with_question(&mut self) -> Result<Option<Settled>, AllocError>
        ensures settled { IfOk result (λ given. Settles self.old self.old.entries self.new
            (value_of given)) }
        ensures known { IfOk result (λ given. GivesKnown self.old.entries (value_of given)) }
        ensures question { IfOk result
            (λ given. option_map (λ settled. arc_value settled.question) given ≡
            option_map (λ entry. entry.question) (slice_get self.old.entries 0)) }
        ensures unchanged { OnErr result (self.new ≡ self.old) }
    {
        if self.slots.is_empty() {
            return Ok(None);
        }
        let front = &self.slots[0];
        if front.value.is_none() {
            let value = front.question.value(self.alloc)?;
            let question = question_alone(self.slots.remove(0));
            self.tally = with_done_here(self.tally);
            return Ok(Some(Settled { question, value }));
        }
        Ok(with_its_value(self.slots.remove(0)))
    }
}

// The value of what was settled.
fn value_alone(settled: Settled) -> Value
    ensures { result ≡ settled.value }
{
    let Settled { question: _, value } = settled;
    value
}

// With one more answer that was kept.
fn with_kept(tally: Tally) -> Tally
    requires { tally.kept < tally.asked }
    ensures { result ≡ record tally { kept = tally.kept + 1 } }
{
    let Tally {
        asked,
        kept,
        done_here,
    } = tally;
    Tally {
        asked,
        kept: kept + 1,
        done_here,
    }
}

// With one more value that was worked out where its question was settled.
fn with_done_here(tally: Tally) -> Tally
    requires { tally.done_here < tally.asked }
    ensures { result ≡ record tally { done_here = tally.done_here + 1 } }
{
    let Tally {
        asked,
        kept,
        done_here,
    } = tally;
    Tally {
        asked,
        kept,
        done_here: done_here + 1,
    }
}
