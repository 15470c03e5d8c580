//! The list of the events that were admitted, as far as the rules ask of it.
ghost use Rattle.std.specs.Prelude.{◌≡◌, ◌≢◌, ◌<◌, ◌++◌, Bool, false, List, [], ◌∷◌, length, OnOk, OnErr, OnSome, IfSome, IfNone};
ghost use Rattle.aero_model.specs.Exempt.{Marked, read_events, nest};

use crate::admission::Admitted;
use crate::exempt::{Around, close_exempt, exempt_blocks};
use crate::growth::make_room;
use crate::judge::judge;
use crate::notes::{note_lock, note_threads};
use crate::rules::{access_of, fault_of, kind_of};
use crate::states::{IDLE, LockState, ThreadState, state_at};
use aero_model::{Numbered, ShapeFault};
use std::alloc::Global;
use std::marker::Model;

/// Stands for the list of the events that it has admitted, which is well-formed, with its begins
/// exempt or not.
///
/// It keeps a place of eight bytes for each thread up to the greatest number that an admitted event
/// has named, and one for each lock, and four bytes for each open exempt block in a table by thread
/// that grows with exempt begins alone. So where threads and locks are numbered in order of first
/// appearance, an event takes constant time, amortized over the growth of the tables; a number far
/// above the others takes room and time for all those below it.
#[derive(Drop)]
pub struct Shape {
    threads: Vec<ThreadState>,
    locks: Vec<LockState>,
    exempt: Vec<Around>,
    admitted: u32,
}

impl Model for Shape {
    ghost use Rattle.aero_shape.specs.States.{Tables, AreBounded};

    ghost Value = { Tables };

    ghost view = { λ s.
        record { threads = s.threads.items; locks = s.locks.items; exempt = s.exempt.items; admitted = s.admitted } };

    ghost invariant = { λ s. AreBounded s.threads.items s.locks.items s.admitted };
}

impl Shape {
    ghost use Rattle.aero_shape.specs.Admission.{TellsEvent};
    ghost use Rattle.aero_shape.specs.Standing.{StandsFor, Reaches, begins_exempt};
    ghost use Rattle.aero_shape.specs.Told.{IsUsualAccess};

    /// Stands for the empty list, and takes no memory until an event is admitted.
    pub fn new(alloc: Global) -> Shape
        ensures { StandsFor result [] }
    {
        Shape {
            threads: Vec::new(alloc),
            locks: Vec::new(alloc),
            exempt: Vec::new(alloc),
            admitted: 0,
        }
    }

    /// How many events were admitted.
    pub fn admitted(&self) -> u32
        ensures { result ≡ self.now.admitted }
    {
        self.admitted
    }

    /// How many blocks of the thread with this number are open, exempt ones too: 0 if no event that was admitted names
    /// it.
    pub fn open_blocks(&self, thread: u32) -> usize
        ensures { (h : List Marked) → StandsFor self.now h → result ≡ nest h thread (length h) }
    {
        let unexempt = state_at(&self.threads, thread, IDLE).depth;
        unexempt as usize + exempt_blocks(&self.exempt, thread)
    }

    /// Admits the event after those that were admitted, if it is well-formed after them, and says
    /// what it is. A begin can be exempt: it and the end that matches it are then told as any other
    /// event, and open and close no block. Of no other event `exempt` is looked at. Fewer than
    /// `u32::MAX` may have been admitted.
    ///
    /// # Errors
    ///
    /// The first cause for which the event isn't well-formed, in the order of the variants of
    /// `ShapeFault`, or `Memory`, if it is well-formed and memory for it was refused. An exempt
    /// begin may ask for some each time. Any other event asks for none where no number of a thread
    /// or a lock in it is above all those of its kind that admitted events have named. On any error
    /// it counts for nothing. It is never `TooManyThreads` or `TooManyNames`: limits are for the
    /// caller.
    #[inline(always)]
    pub fn admit(&mut self, event: &Numbered, exempt: bool) -> Result<Admitted, ShapeFault>
        requires { self.old.admitted < u32.MAX }
        ensures told { (h : List Marked)
            → StandsFor self.old h
            → TellsEvent h (record { event = event.now; exempt = exempt }) result }
        ensures ok { OnOk result ((h : List Marked)
            → StandsFor self.old h
            → StandsFor self.new (h ++ record { event = event.now; exempt = exempt } ∷ [])) }
        ensures err { OnErr result (self.new ≡ self.old) }
        ensures room { (h : List Marked)
            → StandsFor self.old h
            → Reaches (read_events h) event.now
            → begins_exempt event.now.what exempt ≡ false
            → result ≢ Err ShapeFault.Memory }
        ensures threads_unlimited { result ≢ Err ShapeFault.TooManyThreads }
        ensures names_unlimited { result ≢ Err ShapeFault.TooManyNames }
    {
        match self.admit_access(event) {
            Some(kind) => Ok(kind),
            None => self.admit_any(event, exempt),
        }
    }

    // Admits a read or a write by a thread that has acted and that nobody joined, as most events
    // are. It changes nothing but the number of events. All else is left alone.
    #[inline(always)]
    fn admit_access(&mut self, event: &Numbered) -> Option<Admitted>
        requires { self.old.admitted < u32.MAX }
        ensures told { IfSome result (λ admitted. (h : List Marked) (exempt : Bool)
            → StandsFor self.old h
            → TellsEvent h (record { event = event.now; exempt = exempt }) (Ok admitted)) }
        ensures some { OnSome result ((h : List Marked) (exempt : Bool)
            → StandsFor self.old h
            → StandsFor self.new (h ++ record { event = event.now; exempt = exempt } ∷ [])) }
        ensures none { IfNone result (self.new ≡ self.old) }
        ensures missed { IfNone result ((admitted : Admitted) →
            IsUsualAccess self.old.threads event.now admitted → ⊥) }
    {
        let kind = access_of(&self.threads, event)?;
        self.admitted += 1;
        Some(kind)
    }

    // Admits the event as `admit` does, whatever it is.
    #[inline(never)]
    fn admit_any(&mut self, event: &Numbered, exempt: bool) -> Result<Admitted, ShapeFault>
        requires { self.old.admitted < u32.MAX }
        ensures told { (h : List Marked)
            → StandsFor self.old h
            → TellsEvent h (record { event = event.now; exempt = exempt }) result }
        ensures ok { OnOk result ((h : List Marked)
            → StandsFor self.old h
            → StandsFor self.new (h ++ record { event = event.now; exempt = exempt } ∷ [])) }
        ensures err { OnErr result (self.new ≡ self.old) }
        ensures room { (h : List Marked)
            → StandsFor self.old h
            → Reaches (read_events h) event.now
            → begins_exempt event.now.what exempt ≡ false
            → result ≢ Err ShapeFault.Memory }
        ensures threads_unlimited { result ≢ Err ShapeFault.TooManyThreads }
        ensures names_unlimited { result ≢ Err ShapeFault.TooManyNames }
    {
        let judged = judge(&self.threads, &self.exempt, event, exempt);
        if let Some(fault) = fault_of(&self.threads, &self.locks, &judged.event) {
            return Err(fault);
        }
        let admitted = kind_of(&self.threads, &judged.event);
        if make_room(
            &mut self.threads,
            &mut self.locks,
            &mut self.exempt,
            &judged,
        )
        .is_err()
        {
            return Err(ShapeFault::Memory);
        }
        note_threads(&mut self.threads, &judged.event);
        note_lock(&mut self.locks, &judged.event);
        close_exempt(&mut self.exempt, judged.event.thread, judged.closes);
        self.admitted += 1;
        Ok(admitted)
    }
}
