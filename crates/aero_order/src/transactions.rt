//! The transactions of a trace, event by event, and their serial order.
ghost use Rattle.std.specs.Prelude.{◌≡◌, ◌↔◌, ◌<◌, ◌≤◌, ◌+◌, ◌^◌, List, [], ◌∷◌, ◌++◌, length, vec_len, All, OnOk, OnErr, IfOk, IfSome, IsSome};
ghost use Rattle.aero_model.specs.declared.numbered.Numbered.{Numbered};
ghost use Rattle.aero_model.specs.Cycle.{IsSerializable};
ghost use Rattle.aero_model.specs.Serial.{IsSerialOrder};
ghost use Rattle.aero_model.specs.Shape.{IsWellFormed};
ghost use Rattle.aero_order.specs.Came.{Came, places_in, IsOf, AreOf};
ghost use Rattle.aero_order.specs.Numbering.{IsNumbered};
ghost use Rattle.aero_order.specs.TransactionNumbers.{AreFirsts, AreEdges};

use crate::first::First;
use crate::lookup::look_up;
use crate::marks::Marks;
use crate::order::least_order;
use aero_model::Numbered;
use std::alloc::{AllocError, Global};

/// The transactions of the events so far, by numbers in the order of their first events.
#[derive(Drop)]
pub struct Transactions {
    events: u32,
    firsts: Vec<First>,
    edges: Vec<(u32, u32)>,
    marks: Marks,
    ghost few: { vec_len firsts ≤ events },
}

impl Transactions {
    ghost use Rattle.std.specs.Prelude.{nat_lt};
    ghost use Rattle.aero_model.specs.Blocks.{depth};
    ghost use Rattle.aero_model.specs.Exempt.{IsJudgedAs};
    ghost use Rattle.aero_order.specs.Standing.{StandsFor, KeepsCame, events_of};

    /// Of no event.
    pub fn new(alloc: Global) -> Transactions
        ensures stands { StandsFor result [] }
        ensures none { KeepsCame result [] }
    {
        Transactions {
            events: 0,
            firsts: Vec::new(alloc),
            edges: Vec::new(alloc),
            marks: Marks::new(alloc),
        }
    }

    /// Adds the next event as it was read on this line, which is judged as one of its thread; `inside` says
    /// whether its thread is in a block before it.
    ///
    /// An `AllocError` says that memory was refused. Then the event has come, and some of its edges may be
    /// missing, so these transactions stand for no trace any more.
    pub fn add(&mut self, line: u32, event: &Numbered, inside: bool) -> Result<(), AllocError>
        requires { events_of self.old < u32.MAX }
        ensures counted { events_of self.new ≡ events_of self.old + 1 }
        ensures stands { OnOk result ((trace : List Numbered) (judged : Numbered) →
            IsJudgedAs event.now judged → inside ≡
            nat_lt 0 (depth trace event.now.thread (length trace)) → StandsFor self.old trace →
            StandsFor self.new (trace ++ judged ∷ [])) }
        ensures kept { (came : List Came) → KeepsCame self.old came →
            KeepsCame self.new (came ++ record { line = line; thread = event.now.thread } ∷ []) }
    {
        let place = self.events;
        self.events = place + 1;
        let known = if inside {
            self.marks.own(event.thread)
        } else {
            None
        };
        let first = First {
            place,
            line,
            thread: event.thread,
        };
        let number = number_of(&mut self.firsts, known, first)?;
        self.marks.look_back(event, number, &mut self.edges)?;
        self.marks.note(event, number)
    }

    /// The transactions' first events in the serial order, unless there is a cycle.
    pub fn order(self, alloc: Global) -> Result<Option<Vec<First>>, AllocError>
        requires { (trace : List Numbered) × StandsFor self trace }
        ensures exact { IfOk result (λ order. (trace : List Numbered) → IsWellFormed trace →
            StandsFor self trace → IsSome order ↔ IsSerializable trace (length trace)) }
        ensures serial { IfOk result (λ order. IfSome order (λ found. (trace : List Numbered) →
            IsWellFormed trace → StandsFor self trace →
            IsSerialOrder trace (places_in found.items))) }
        ensures kept { IfOk result (λ order. IfSome order (λ found. (came : List Came) →
            KeepsCame self came → All (IsOf came) found.items)) }
    {
        let firsts = self.firsts;
        let edges = self.edges;
        order_of(alloc, &firsts, &edges)
    }
}

// The number of an event's transaction. A new one gets the next, and this is its first event.
fn number_of(firsts: &mut Vec<First>, known: Option<u32>, first: First) -> Result<u32, AllocError>
    requires { vec_len firsts.old ≤ first.place }
    ensures numbered { IfOk result (λ v. IsNumbered known first firsts.old.items firsts.new.items v) }
    ensures few { vec_len firsts.new ≤ first.place + 1 }
    ensures refused { OnErr result (firsts.new.items ≡ firsts.old.items) }
{
    match known {
        Some(number) => Ok(number),
        None => {
            let number = firsts.len() as u32;
            firsts.push(first)?;
            Ok(number)
        }
    }
}

// The first events in the order along the edges, if it has all of them.
fn order_of(
    alloc: Global,
    firsts: &[First],
    edges: &[(u32, u32)],
) -> Result<Option<Vec<First>>, AllocError>
    requires few { length firsts.now < 2 ^ 32 }
    requires stands { (trace : List Numbered) × AreFirsts trace (places_in firsts.now) ×
        AreEdges trace (places_in firsts.now) edges.now }
    ensures exact { IfOk result (λ order. (trace : List Numbered) → IsWellFormed trace →
        AreFirsts trace (places_in firsts.now) → AreEdges trace (places_in firsts.now) edges.now →
        IsSome order ↔ IsSerializable trace (length trace)) }
    ensures serial { IfOk result (λ order. IfSome order (λ found. (trace : List Numbered) →
        IsWellFormed trace → AreFirsts trace (places_in firsts.now) →
        AreEdges trace (places_in firsts.now) edges.now →
        IsSerialOrder trace (places_in found.items))) }
    ensures kept { IfOk result (λ order. IfSome order (λ found. (came : List Came) →
        AreOf came firsts.now → All (IsOf came) found.items)) }
{
    let order = least_order(alloc, firsts.len() as u32, edges)?;
    if order.len() < firsts.len() {
        return Ok(None);
    }
    Ok(Some(look_up(alloc, firsts, &order)?))
}
