//! Taking the replies of helpers, who may say what they like.
ghost use Rattle.std.specs.Prelude.{◌≡◌, ◌<◌, ◌-◌, ◌+◌, ◌↔◌, ◌⊎◌, true, false, length, IsTrue, IfSome, IfNone, if◌then◌else◌};
ghost use Rattle.aero_gather.specs.Gathered.{IsAwaited, oldest_of, with_missed};
ghost use Rattle.aero_gather.specs.declared.gather.Oldest.TheVariants.{Awaited};
ghost use Rattle.aero_batch.specs.Inquiries.{StaysOpen, kind_of as asked_kind};
ghost use Rattle.aero_batch.specs.Replies.{AllStay, ChangesOne, Heeds, of_kind, IsAnswered};

use crate::gathers::Gathers;
use crate::helpers::Helpers;
use crate::kind::Kind;
use aero_gather::{Accepted, Gather, Oldest, Ticket};
use aero_pieces::{Answer, Question};
use aero_worker::Reply;
use std::sync::Wait;

/// How many replies in a row may be of no use.
const PATIENCE: u32 = 1024;

/// How many replies are taken at once without waiting, at most.
const AT_ONCE: u32 = 64;

/// Whether nobody replies any more, and how many replies in a row were of no use.
#[derive(Clone, Copy, Drop)]
pub struct Listening {
    pub is_alone: bool,
    pub useless: u32,
}

/// Takes replies until the oldest open question of this kind has an answer or is noted as missed. After 1,024
/// replies in a row that were of no use it is noted as missed. Where nobody replies nothing is awaited.
pub fn await_oldest<H: Helpers, R: Wait>(
    rt: &R,
    helpers: &mut H,
    gathers: &mut Gathers,
    kind: Kind,
    listening: Listening,
) -> Listening
    ensures ended { result.is_alone ≡ false →
        (oldest_of (of_kind kind gathers.new).entries ≡ Awaited → ⊥) }
    ensures stay { AllStay gathers.old gathers.new }
{
    if listening.is_alone {
        return listening;
    }
    let mut useless = listening.useless;
    'replies: for _ in rt.forever() {
        if oldest_state(gathers, kind) != Oldest::Awaited {
            return replied(useless);
        }
        if !is_patient(useless) {
            give_up(gathers, kind);
            return replied(0);
        }
        let Some(reply) = helpers.next_answer(rt) else {
            return nobody_left();
        };
        useless = useless_after(useless, take_reply(gathers, reply));
    }
    unreachable!()
}

/// Takes replies that have come, 64 at most and without waiting for one, until the oldest open
/// question of one kind awaits none, or 1,024 in a row were of no use.
pub fn hear<H: Helpers, R: Wait>(
    rt: &R,
    helpers: &mut H,
    gathers: &mut Gathers,
    listening: Listening,
) -> Listening
    ensures alone { result.is_alone ≡ listening.is_alone }
    ensures stay { AllStay gathers.old gathers.new }
{
    if listening.is_alone {
        return listening;
    }
    let mut useless = listening.useless;
    for _ in 0..AT_ONCE {
        if answered(gathers).is_some() || !is_patient(useless) {
            return replied(useless);
        }
        let Some(reply) = helpers.ready_answer(rt) else {
            return replied(useless);
        };
        useless = useless_after(useless, take_reply(gathers, reply));
    }
    replied(useless)
}

// There may be more replies.
fn replied(useless: u32) -> Listening
    ensures { result ≡ record { is_alone = false; useless = useless } }
{
    Listening {
        is_alone: false,
        useless,
    }
}

// There are no more replies.
fn nobody_left() -> Listening
    ensures { result ≡ record { is_alone = true; useless = 0 } }
{
    Listening {
        is_alone: true,
        useless: 0,
    }
}

/// A kind of which a question is open, and the oldest has an answer or none is to be awaited: that of
/// verdicts, where both are.
pub fn answered(gathers: &Gathers) -> Option<Kind>
    ensures some { IfSome result (λ kind. IsAnswered kind gathers.now) }
    ensures none { IfNone result ((kind : Kind) → IsAnswered kind gathers.now → ⊥) }
{
    if is_answered(&gathers.verdicts) {
        return Some(Kind::Check);
    }
    if is_answered(&gathers.chunks) {
        return Some(Kind::Parse);
    }
    None
}

// Whether a question is open, and the oldest has an answer or none is to be awaited.
fn is_answered(gather: &Gather) -> bool
    ensures { IsTrue result ↔ ((oldest_of gather.now.entries ≡ Oldest.Kept) ⊎
        (oldest_of gather.now.entries ≡ Oldest.Missed)) }
{
    match gather.oldest() {
        Oldest::Kept | Oldest::Missed => true,
        Oldest::Awaited | Oldest::Nothing => false,
    }
}

// What is known of the oldest open question of this kind.
fn oldest_state(gathers: &Gathers, kind: Kind) -> Oldest
    ensures { result ≡ oldest_of (of_kind kind gathers.now).entries }
{
    gathers.of(kind).oldest()
}

// Whether one more reply is awaited after so many in a row that were of no use.
fn is_patient(useless: u32) -> bool
    ensures { IsTrue result ↔ (useless < 1024) }
{
    useless < PATIENCE
}

// How many replies in a row were of no use, once one more was taken.
fn useless_after(useless: u32, is_of_use: bool) -> u32
    requires { useless < 1024 }
    ensures { result ≡ if is_of_use then 0 else useless + 1 }
{
    if is_of_use { 0 } else { useless + 1 }
}

// Notes the oldest open question of this kind as missed, unless it has an answer.
fn give_up(gathers: &mut Gathers, kind: Kind)
    ensures ended { oldest_of (of_kind kind gathers.new).entries ≡ Awaited → ⊥ }
    ensures stay { AllStay gathers.old gathers.new }
{
    let oldest = gathers.of(kind).oldest_ticket();
    miss(gathers, kind, oldest);
}

// Takes a reply: an answer is accepted, and where none comes the question is noted as missed. The
// answer says whether it was of use: an answer that is kept, or a note that is news.
fn take_reply(gathers: &mut Gathers, reply: Reply) -> bool
    ensures heeds { Heeds reply gathers.old gathers.new result }
    ensures stay { AllStay gathers.old gathers.new }
{
    match reply {
        Reply::Done(answer) => accept(gathers, answer),
        Reply::Missed(number) => miss_job(gathers, number),
    }
}

// Takes an answer, for the oldest open question with the same content, and says whether one keeps it.
fn accept(gathers: &mut Gathers, answer: Answer) -> bool
    ensures heeds { Heeds (Reply.Done answer) gathers.old gathers.new result }
    ensures stay { AllStay gathers.old gathers.new }
{
    let kind = kind_of(answer.question());
    gathers.of_mut(kind).accept(answer) == Accepted::Kept
}

// What the question is about.
fn kind_of(question: &Question) -> Kind
    ensures { result ≡ asked_kind question.now }
{
    match question {
        Question::Parse { .. } => Kind::Parse,
        Question::Check { .. } => Kind::Check,
    }
}

/// Notes the question of the job with this number as missed, unless it has an answer or isn't open, and
/// says whether that is news.
pub fn miss_job(gathers: &mut Gathers, number: u64) -> bool
    ensures heeds { Heeds (Reply.Missed number) gathers.old gathers.new result }
    ensures stay { AllStay gathers.old gathers.new }
{
    let ticket = Ticket { number: number / 2 };
    let kind = if number % 2 == 0 {
        Kind::Parse
    } else {
        Kind::Check
    };
    miss(gathers, kind, ticket)
}

// Notes the question of this kind with this ticket as missed, unless it has an answer or isn't open, and
// says whether that is news.
fn miss(gathers: &mut Gathers, kind: Kind, ticket: Ticket) -> bool
    ensures news { IsTrue result ↔ IsAwaited (of_kind kind gathers.old) ticket.number }
    ensures noted { ChangesOne kind gathers.old gathers.new (λ a b. b ≡ with_missed a ticket.number) }
    ensures stay { AllStay gathers.old gathers.new }
{
    note(gathers.of_mut(kind), ticket)
}

// Notes the question with this ticket as missed, unless it has an answer or isn't open, and says
// whether that is news.
fn note(gather: &mut Gather, ticket: Ticket) -> bool
    ensures news { IsTrue result ↔ IsAwaited gather.old ticket.number }
    ensures noted { gather.new ≡ with_missed gather.old ticket.number }
    ensures stays { StaysOpen gather.old gather.new }
{
    gather.note_missed(ticket)
}
