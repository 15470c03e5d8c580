//! The questions that are open, and those who may answer them.
ghost use Rattle.std.specs.Prelude.{◌≡◌, ◌<◌, ◌≤◌, ◌+◌, ◌*◌, ◌^◌, ◌++◌, ◌∷◌, ◌↔◌, [], length, true, false, IfOk, OnOk, OnErr, IsTrue, MatchBool};
ghost use Rattle.std.specs.Arc.{arc_value};
ghost use Rattle.aero_gather.specs.Gathered.{with_asked};
ghost use Rattle.aero_gather.specs.Given.{value_of};
ghost use Rattle.aero_batch.specs.declared.kind.Kind.TheVariants.{Parse};
ghost use Rattle.aero_batch.specs.Inquiries.{nothing_asked, with_question, open_of, open_count, with_open, job_number};
ghost use Rattle.aero_batch.specs.Inquiries.{Gives, SettlesKnown, TakesFront};
ghost use Rattle.aero_batch.specs.Replies.{AllStay, Misses};
ghost use Rattle.aero_intake.specs.Stories.{trace_of};

use crate::gathers::Gathers;
use crate::helpers::Helpers;
use crate::kind::Kind;
use crate::replies::{Listening, answered, await_oldest, hear, miss_job};
use aero_gather::{Gather, Settled, Tally, Ticket};
use aero_pieces::{Question, Value};
use aero_stage::Job;
use std::alloc::{AllocError, Global};
use std::marker::Model;
use std::sync::{Arc, Wait};

/// How many questions may be open.
const WINDOW: u32 = 64;

/// Questions that were asked of helpers, in the order of each kind. Each is given back with its value, the
/// oldest of its kind first, whatever the helpers reply.
#[derive(Drop)]
pub struct Inquiry {
    gathers: Gathers,
    listening: Listening,
}

impl Model for Inquiry {
    ghost use Rattle.aero_batch.specs.Inquiries.{Inquired};

    ghost Value = { Inquired };

    ghost use Rattle.std.specs.Prelude.{◌≡◌, ◌+◌, ◌≤◌, ◌^◌};
    ghost use Rattle.aero_batch.specs.Replies.{inquired};

    ghost view = { λ i. inquired i.gathers };

    ghost invariant = { λ i. record {
      chunk_window : i.gathers.chunks.window ≡ 64;
      verdict_window : i.gathers.verdicts.window ≡ 64;
      few : i.gathers.chunks.tally.asked + i.gathers.verdicts.tally.asked ≤ 2 ^ 63;
    } };
}

impl Inquiry {
    /// Nothing is asked yet. Where nobody helps, nothing is posted and no reply is awaited.
    pub fn new(alloc: Global, is_alone: bool) -> Result<Inquiry, AllocError>
        ensures { IfOk result (λ inquiry. inquiry ≡ nothing_asked) }
    {
        Ok(Inquiry {
            gathers: Gathers {
                chunks: Gather::new(alloc, WINDOW)?,
                verdicts: Gather::new(alloc, WINDOW)?,
            },
            listening: Listening {
                is_alone,
                useless: 0,
            },
        })
    }

    /// Whether one more question may be asked: fewer than 64 are open.
    pub fn has_room(&self) -> bool
        ensures { IsTrue result ↔ (open_count self.now < 64) }
    {
        self.gathers.chunks.len() + self.gathers.verdicts.len() < WINDOW as usize
    }

    /// Whether no question is open.
    pub fn is_settled(&self) -> bool
        ensures { IsTrue result ↔ (open_count self.now ≡ 0) }
    {
        self.gathers.chunks.len() == 0 && self.gathers.verdicts.len() == 0
    }

    /// The kind of which a question is to be awaited next: chunks, where one is asked about.
    pub fn awaited(&self) -> Kind
        ensures { (result ≡ Parse) ↔ (0 < length self.now.chunks) }
    {
        if self.gathers.chunks.len() == 0 {
            Kind::Check
        } else {
            Kind::Parse
        }
    }

    /// How many questions were asked, answers kept, and values worked out here.
    pub fn tally(&self) -> Tally
        ensures asked { result.asked ≡ self.now.asked }
        ensures counted { result.kept + result.done_here ≤ result.asked }
        ensures settled { open_count self.now ≡ 0 → result.asked ≡ result.kept + result.done_here }
    {
        let chunks = self.gathers.chunks.tally();
        let verdicts = self.gathers.verdicts.tally();
        Tally {
            asked: chunks.asked + verdicts.asked,
            kept: chunks.kept + verdicts.kept,
            done_here: chunks.done_here + verdicts.done_here,
        }
    }

    /// Asks a question of this kind, and posts it as a job. Where it can't be posted no reply is awaited.
    pub fn ask<H: Helpers, R: Wait>(
        &mut self,
        rt: &R,
        helpers: &mut H,
        kind: Kind,
        question: Arc<Question, Global>,
    ) -> Result<(), AllocError>
        requires room { open_count self.old < 64 }
        requires few { self.old.asked < 2 ^ 63 }
        ensures { OnOk result (self.new ≡ with_question kind self.old (arc_value question)) }
    {
        let shared = Arc::try_clone(&question)?;
        let ticket = ask_in(self.gathers.of_mut(kind), question);
        let job = job_of(kind, ticket, shared);
        post(rt, helpers, &mut self.gathers, self.listening.is_alone, job);
        Ok(())
    }

    /// Takes replies that have come, without waiting for one. The answer says of which kind the oldest
    /// open question can be settled without waiting, if of one.
    pub fn hear<H: Helpers, R: Wait>(&mut self, rt: &R, helpers: &mut H) -> Option<Kind>
        ensures { self.new ≡ self.old }
    {
        self.listening = hear(rt, helpers, &mut self.gathers, self.listening);
        answered(&self.gathers)
    }

    /// Takes the oldest open question of this kind away, and gives the number of its trace and its value.
    /// Waits for its answer as long as one is to be awaited, but for no more than 1,024 replies in a row
    /// that are of no use, and else works the value out. `None` where no question of the kind is open. What
    /// was parsed goes to the helpers to be freed, where one of them does that before more is kept:
    /// `is_last` says that no source is left to be read.
    pub fn settle<H: Helpers, R: Wait>(
        &mut self,
        rt: &R,
        helpers: &mut H,
        kind: Kind,
        is_last: bool,
    ) -> Result<Option<(u64, Value)>, AllocError>
        ensures { IfOk result (λ given. Gives (open_of kind self.old) (with_open kind self.old)
            self.new given) }
    {
        self.listening = await_oldest(rt, helpers, &mut self.gathers, kind, self.listening);
        let hands_on = self.is_freed_soon(helpers, kind, is_last);
        take_front(rt, helpers, hands_on, self.gathers.of_mut(kind))
    }

    // Whether a helper frees what is let go at a verdict before more is kept. Not each may be at another verdict,
    // which can take long; and either chunks are asked about, before which it is freed, or nothing more is read. Before
    // the first chunk of a source that may be slow it would be kept meanwhile.
    fn is_freed_soon<H: Helpers>(&self, helpers: &H, kind: Kind, is_last: bool) -> bool {
        let is_one_free = self.gathers.verdicts.len() <= helpers.workers() as usize;
        let is_next_soon = is_last || self.gathers.chunks.len() > 0;
        kind == Kind::Check && !self.listening.is_alone && is_one_free && is_next_soon
    }
}

// Asks a question, for which there is room.
fn ask_in(gather: &mut Gather, question: Arc<Question, Global>) -> Ticket
    requires room { length gather.old.entries < gather.old.window }
    requires few { gather.old.tally.asked < 2 ^ 63 }
    ensures ticket { result.number ≡ gather.old.tally.asked }
    ensures asked { gather.new ≡ with_asked gather.old (arc_value question) }
{
    let Ok(ticket) = gather.ask(question) else {
        unreachable!()
    };
    ticket
}

// Posts the job, unless nobody helps, and says whether an answer is to be awaited. Where none is, its question is
// noted as missed.
fn post<H: Helpers, R: Wait>(
    rt: &R,
    helpers: &mut H,
    gathers: &mut Gathers,
    is_alone: bool,
    job: Job,
) -> bool
    ensures awaited { MatchBool result (gathers.new ≡ gathers.old)
        (Misses job.number gathers.old gathers.new) }
    ensures alone { is_alone ≡ true → result ≡ false }
    ensures stay { AllStay gathers.old gathers.new }
{
    let number = job.number;
    if !is_alone && is_posted(rt, helpers, job) {
        return true;
    }
    miss_job(gathers, number);
    false
}

// Whether the helpers took the job.
fn is_posted<H: Helpers, R: Wait>(rt: &R, helpers: &mut H, job: Job) -> bool {
    helpers.post(rt, job).is_ok()
}

// The job of a question of this kind with this ticket.
fn job_of(kind: Kind, ticket: Ticket, question: Arc<Question, Global>) -> Job
    requires { ticket.number < 2 ^ 63 }
    ensures number { result.number ≡ job_number kind ticket.number }
    ensures question { result.question ≡ question }
{
    let even = ticket.number * 2;
    let number = match kind {
        Kind::Parse => even,
        Kind::Check => even + 1,
    };
    Job { number, question }
}

// Takes the oldest open question away, and gives the number of its trace and its value. The question is freed, by
// the helpers if it is handed on.
fn take_front<H: Helpers, R: Wait>(
    rt: &R,
    helpers: &mut H,
    hands_on: bool,
    gather: &mut Gather,
) -> Result<Option<(u64, Value)>, AllocError>
    ensures front { IfOk result (λ given. TakesFront gather.old gather.old.entries gather.new given) }
    ensures window { gather.new.window ≡ gather.old.window }
    ensures asked { gather.new.tally.asked ≡ gather.old.tally.asked }
{
    let trace = match gather.front() {
        Some(question) => trace_number(question),
        None => return Ok(None),
    };
    let Some(Settled { question, value }) = settle_known(gather)? else {
        return Ok(None);
    };
    let_go(rt, helpers, hands_on, question);
    Ok(Some((trace, value)))
}

// Takes the oldest open question away, and gives it and its value.
fn settle_known(gather: &mut Gather) -> Result<Option<Settled>, AllocError>
    ensures known { IfOk result (λ given. SettlesKnown gather.old gather.old.entries gather.new
        (value_of given)) }
    ensures unchanged { OnErr result (gather.new ≡ gather.old) }
{
    gather.settle_with_question()
}

// Frees a settled question, or hands it to the helpers, to be freed there.
fn let_go<H: Helpers, R: Wait>(
    rt: &R,
    helpers: &mut H,
    hands_on: bool,
    question: Arc<Question, Global>,
) {
    if hands_on {
        helpers.let_go(rt, question);
    }
}

fn trace_number(question: &Question) -> u64
    ensures { result ≡ trace_of question.now }
{
    match question {
        Question::Parse { trace, .. } => *trace,
        Question::Check { trace, .. } => *trace,
    }
}
