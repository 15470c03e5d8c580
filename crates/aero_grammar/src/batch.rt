//! Events that come one by one, as a block whose text is never written.
ghost use Rattle.std.specs.Prelude.{◌≡◌, ◌↔◌, ◌++◌, ◌∷◌, [], length, option_copied, Some, IsTrue, IfSome, IfNone, OnOk};
ghost use Rattle.std.specs.List.{list_any};
ghost use Rattle.aero_model.specs.Names.{is_barred as is_barred_byte};
ghost use Rattle.aero_names.specs.Additions.{with_event};
ghost use Rattle.aero_grammar.specs.Lists.{lists_in, labels_in, labels_after, numbered_in_turn, HasRoom, HasGrown};
ghost use Rattle.aero_grammar.specs.Words.{named_of, IsName, IsEvent};

use crate::block::parsed;
use crate::line_event::LineEvent;
use crate::names::is_long_name;
use crate::parsed::Parsed;
use crate::tables::Tables;
use crate::words::Words;
use aero_model::Event;
use aero_model::bytes::is_bad_byte;
use std::alloc::{AllocError, Global};
use std::marker::Model;

// An event may name two threads that are new, and fewer than 2^32 have numbers.
const MOST_LINES: u32 = 2_147_483_647;

/// Events, each on a line of its own, as a block of these lines reads: for a program that sees events and
/// has no text of them. Lines count from 1, in the order in which they are put in.
///
/// Contracts see what the lines say, and whether one was refused.
#[derive(Drop)]
pub struct Batch {
    tables: Tables,
    events: Vec<LineEvent>,
    lines: u32,
    is_spent: bool,
}

impl Model for Batch {
    ghost use Rattle.std.specs.Prelude.{◌≡◌, false};
    ghost use Rattle.aero_grammar.specs.Batched.{Batched, said_by, IsBatch};

    ghost Value = { Batched };

    ghost view = { λ b. record { reading = said_by b.tables b.events.items b.lines; is_spent = b.is_spent } };

    ghost invariant = { λ b. b.is_spent ≡ false → IsBatch b.tables b.events.items b.lines };
}

impl Batch {
    ghost use Rattle.std.specs.Prelude.{◌≡◌, [], true, false, IfOk, OnOk, OnErr};
    ghost use Rattle.aero_grammar.specs.Meaning.{Blank, Means};
    ghost use Rattle.aero_grammar.specs.Reading.{followed_by, line_reading, whole_reading};

    /// No line yet. It takes no memory.
    pub fn new(alloc: Global) -> Batch
        ensures none { result ≡ record { reading = whole_reading []; is_spent = false } }
    {
        Batch {
            tables: Tables::new(alloc),
            events: Vec::new(alloc),
            lines: 0,
            is_spent: false,
        }
    }

    /// Puts the event on the next line.
    ///
    /// # Errors
    ///
    /// `AllocError` where memory is refused, where there are 2^31 - 1 lines, or where the names of a
    /// kind would have over 2^32 - 1 bytes in all; and at each call from then on.
    pub fn push(&mut self, event: &Event) -> Result<(), AllocError>
        ensures said { OnOk result (self.new.reading ≡
            followed_by self.old.reading (line_reading (Means event.now))) }
        ensures fresh { OnOk result (self.new.is_spent ≡ false) }
        ensures spent { OnErr result (self.new.is_spent ≡ true) }
        ensures stays { self.old.is_spent ≡ true → self.new.is_spent ≡ true }
    {
        if self.is_spent || self.lines >= MOST_LINES {
            self.is_spent = true;
            return Err(AllocError);
        }
        let line = self.lines + 1;
        let added = add(&mut self.tables, &mut self.events, line, event);
        self.lines = line;
        self.is_spent = added.is_err();
        added
    }

    /// Leaves the next line blank.
    ///
    /// # Errors
    ///
    /// `AllocError` where there are 2^31 - 1 lines, or where a line was refused; and at each call from
    /// then on.
    pub fn push_blank(&mut self) -> Result<(), AllocError>
        ensures said { OnOk result (self.new.reading ≡
            followed_by self.old.reading (line_reading Blank)) }
        ensures fresh { OnOk result (self.new.is_spent ≡ false) }
        ensures spent { OnErr result (self.new.is_spent ≡ true) }
        ensures stays { self.old.is_spent ≡ true → self.new.is_spent ≡ true }
    {
        if self.is_spent || self.lines >= MOST_LINES {
            self.is_spent = true;
            return Err(AllocError);
        }
        self.lines += 1;
        Ok(())
    }

    /// How many lines there are.
    pub fn lines(&self) -> u32
        ensures { result ≡ self.now.reading.lines }
    {
        self.lines
    }

    /// What the lines say, as `parse_block` gives it of a text with the same lines.
    ///
    /// # Errors
    ///
    /// `AllocError` where a line was refused.
    pub fn into_parsed(self) -> Result<Parsed, AllocError>
        ensures said { IfOk result (λ parsed. parsed ≡ self.reading) }
        ensures fresh { OnOk result (self.is_spent ≡ false) }
        ensures spent { OnErr result (self.is_spent ≡ true) }
    {
        let Batch {
            tables,
            events,
            lines,
            is_spent,
        } = self;
        if is_spent {
            return Err(AllocError);
        }
        Ok(parsed(tables, events, lines, None))
    }
}

// Puts the event on this line behind the others, and its names into the tables.
fn add(
    tables: &mut Tables,
    events: &mut Vec<LineEvent>,
    line: u32,
    event: &Event,
) -> Result<(), AllocError>
    requires { HasRoom tables.old 2 }
    ensures event { OnOk result (IsEvent event.now) }
    ensures names { OnOk result (lists_in tables.new ≡ with_event (lists_in tables.old) event.now) }
    ensures labels { OnOk result (labels_in tables.new ≡ labels_after (labels_in tables.old)
        event.now.op event.now.target) }
    ensures events { OnOk result (events.new.items ≡ events.old.items ++
        (line, numbered_in_turn (lists_in tables.old) (labels_in tables.old) event.now) ∷ []) }
    ensures grown { OnOk result (HasGrown tables.old tables.new 2) }
{
    let Some(words) = words_in(event) else {
        return Err(AllocError);
    };
    let numbered = tables.number(words)?;
    events.push(LineEvent::new(line, numbered))?;
    Ok(())
}

// The words of the event. Its names are ones, but what a `Name` ensures doesn't say so: they are looked at again.
fn words_in(event: &Event) -> Option<Words<'_>>
    ensures same { IfSome result (λ words. named_of words ≡ event.now) }
    ensures event { IfSome result (λ words. IsEvent (named_of words)) }
    ensures none { IfNone result (IsEvent event.now → ⊥) }
{
    let thread = event.thread.bytes();
    let target = match &event.target {
        Some(name) => Some(name.bytes()),
        None => None,
    };
    let op = event.op;
    if is_name(thread) && is_name_if_any(target) {
        Some(Words { thread, op, target })
    } else {
        None
    }
}

// Whether the target, if there is one, is a name.
fn is_name_if_any(target: Option<&[u8]>) -> bool
    ensures { IsTrue result ↔ IfSome (option_copied target.entry) IsName }
{
    match target {
        Some(target) => is_name(target),
        None => true,
    }
}

// Whether the bytes are a name.
fn is_name(bytes: &[u8]) -> bool
    ensures { IsTrue result ↔ IsName bytes.now }
{
    !bytes.is_empty() && !is_long_name(bytes) && !has_barred_byte(bytes)
}

// Whether one of the bytes stands in no name.
fn has_barred_byte(bytes: &[u8]) -> bool
    ensures { result ≡ list_any is_barred_byte bytes.now }
{
    bytes.iter().any(|byte| is_barred(*byte))
}

// Whether no name has the byte.
#[inline(always)]
fn is_barred(byte: u8) -> bool
    ensures { result ≡ is_barred_byte byte }
{
    is_bad_byte(byte) || byte == b'|'
}
