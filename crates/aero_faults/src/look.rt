//! What a second look at a faulty line found, and the sentence on the line.
ghost use Rattle.std.specs.Prelude.{◌≡◌, ◌++◌, OnOk};
ghost use Rattle.aero_faults.specs.Sentences.{line_sentence, shape_sentence};

use crate::hindrance::Hindrance;
use crate::texts::{append_hindrance, append_line};
use aero_model::words::{line_words, shape_words};
use aero_model::{Event, LineFault, ShapeFault};
use std::alloc::AllocError;

/// What a second look at a faulty line found.
#[derive(Drop)]
pub enum Look {
    /// Nothing that explains the fault.
    Nothing,
    /// The bytes of a malformed line.
    Line(Vec<u8>),
    /// An ill-formed event, and what stands in its way.
    Event(Event, Hindrance),
}

/// Adds the sentence on a malformed line: what is told of its bytes, where they were seen, and else
/// the fault in words.
///
/// # Errors
///
/// `AllocError` where memory is refused. A front of it may be there.
pub fn append_malformed(text: &mut Vec<u8>, fault: LineFault, look: &Look) -> Result<(), AllocError>
    ensures { OnOk result (text.new.items ≡ text.old.items ++ line_sentence fault look.now) }
{
    match look {
        Look::Line(line) => append_line(text, fault, line),
        Look::Nothing => append_str(text, line_words(fault)),
        Look::Event(_, _) => append_str(text, line_words(fault)),
    }
}

/// Adds the sentence on an ill-formed event: what is told of it and of what stands in its way, where
/// that was seen, and else the fault in words.
///
/// # Errors
///
/// `AllocError` where memory is refused. A front of it may be there.
pub fn append_ill_formed(
    text: &mut Vec<u8>,
    fault: ShapeFault,
    look: &Look,
) -> Result<(), AllocError>
    ensures { OnOk result (text.new.items ≡ text.old.items ++ shape_sentence fault look.now) }
{
    match look {
        Look::Event(event, hindrance) => append_hindrance(text, fault, event, hindrance),
        Look::Nothing => append_str(text, shape_words(fault)),
        Look::Line(_) => append_str(text, shape_words(fault)),
    }
}

fn append_str(text: &mut Vec<u8>, words: &str) -> Result<(), AllocError>
    ensures { OnOk result (text.new.items ≡ text.old.items ++ words.now) }
{
    text.extend_from_slice(words.as_bytes())
}
