//! An open question, and the search for the one that an answer is for.
ghost use Rattle.std.specs.Prelude.{◌≡◌, ◌↔◌, length, IsTrue, IfSome, IfNone, None, true, false, is_none, option_map, if◌then◌else◌};
ghost use Rattle.std.specs.Arc.{arc_value};
ghost use Rattle.aero_pieces.specs.Schedule.{NoneWaits};
ghost use Rattle.aero_gather.specs.Gathered.{IsOldestWaiting, IsOpenQuestion, state_of};

use crate::gather::{Oldest, Settled};
use aero_pieces::{Question, Value, same};
use std::alloc::Global;
use std::marker::Model;
use std::mem;
use std::sync::Arc;

/// An open question, the value that was kept for it, and whether no answer is to be awaited.
#[derive(Drop)]
pub struct OpenQuestion {
    pub question: Arc<Question, Global>,
    pub value: Option<Value>,
    pub missed: bool,
}

impl Model for OpenQuestion {
    ghost use Rattle.std.specs.Arc.{arc_value};
    ghost use Rattle.aero_pieces.specs.Schedule.{Entry};

    ghost Value = { Entry };

    ghost view = { λ s. record { question = arc_value s.question; value = s.value; missed = s.missed } };
}

// The place of the oldest slot that waits for an answer to the question.
pub fn oldest_waiting(slots: &[OpenQuestion], question: &Question) -> Option<usize>
    ensures some { IfSome result (λ place. IsOldestWaiting question.now slots.now place) }
    ensures none { IfNone result (NoneWaits question.now slots.now (length slots.now)) }
{
    for i in 0..slots.len() {
        let slot = &slots[i];
        if slot.value.is_none() && same(&slot.question, question) {
            return Some(i);
        }
    }
    None
}

// Whether a slot has the question.
pub fn has_question(slots: &[OpenQuestion], question: &Question) -> bool
    ensures { IsTrue result ↔ IsOpenQuestion question.now slots.now }
{
    for i in 0..slots.len() {
        let slot = &slots[i];
        if same(&slot.question, question) {
            return true;
        }
    }
    false
}

// Notes that no answer is to be awaited, where there is none yet. The answer says whether it is news.
pub fn miss(slot: &mut OpenQuestion) -> bool
    ensures news { IsTrue result ↔ ((slot.old.value ≡ None) × (slot.old.missed ≡ false)) }
    ensures noted { slot.new ≡ if is_none slot.old.value then record slot.old { missed = true } else
        slot.old }
{
    if slot.value.is_some() {
        return false;
    }
    !mem::replace(&mut slot.missed, true)
}

// The slot's question.
pub fn question_alone(slot: OpenQuestion) -> Arc<Question, Global>
    ensures { arc_value result ≡ slot.question }
{
    let OpenQuestion { question, .. } = slot;
    question
}

// The slot's question with the value that was kept, if one was.
pub fn with_its_value(slot: OpenQuestion) -> Option<Settled>
    ensures value { option_map (λ settled. settled.value) result ≡ slot.value }
    ensures question { IfSome result (λ settled. arc_value settled.question ≡ slot.question) }
{
    let OpenQuestion {
        question,
        value,
        ..
    } = slot;
    match value {
        Some(value) => Some(Settled { question, value }),
        None => None,
    }
}

// What is known of an open question.
pub fn state(slot: &OpenQuestion) -> Oldest
    ensures { result ≡ state_of slot.now.value slot.now.missed }
{
    if slot.value.is_some() {
        return Oldest::Kept;
    }
    if slot.missed {
        return Oldest::Missed;
    }
    Oldest::Awaited
}
