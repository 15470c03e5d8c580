//! Labels that come as a text, each ended by a byte 10.
ghost use Rattle.std.specs.Prelude.{◌≡◌, ◌⊎◌, ◌<◌, ◌∷◌, ◌++◌, [], true, false, length, IfErr, IfOk, OnOk};
ghost use Rattle.std.specs.List.{list_any};
ghost use Rattle.aero_model.specs.Lines.{lines_of};
ghost use Rattle.aero_c.specs.Answers.{IsRefusal};
ghost use Rattle.aero_c.specs.Statuses.{many_labels, no_memory, no_name};
ghost use Rattle.aero_c.specs.Labels.{IsListOf, is_ended as is_ended_text, is_no_name};

use crate::status::{MANY_LABELS, NO_MEMORY, NO_NAME};
use aero_grammar::bytes::first_line;
use aero_model::{Except, Name, NameFault};
use std::alloc::Global;

// The labels of the text, each ended by a byte 10: of blocks that are no transactions, or of the only blocks that are. Or
// the status that says why there is no such list.
pub(crate) fn list(alloc: Global, text: &[u8], is_only: bool) -> Result<Except, u32>
    ensures read { IfOk result (λ listed. IsListOf listed is_only text.now) }
    ensures refused { IfErr result (IsRefusal text.now) }
{
    if !is_ended(text) {
        return Err(NO_NAME);
    }
    list_of(names(alloc, text)?, is_only)
}

// Whether the text is empty or ends in a byte 10.
fn is_ended(text: &[u8]) -> bool
    ensures { result ≡ is_ended_text text.now }
{
    text.is_empty() || text[text.len() - 1] == b'\n'
}

fn list_of(labels: Vec<Name>, is_only: bool) -> Result<Except, u32>
    ensures read { IfOk result (λ listed. (listed.labels ≡ labels.items) × (listed.only ≡ is_only)) }
    ensures refused { IfErr result (λ status. (status ≡ many_labels) × (64 < length labels.items)) }
{
    if is_only {
        Except::all_but(labels).ok_or(MANY_LABELS)
    } else {
        Except::new(labels).ok_or(MANY_LABELS)
    }
}

// The names that the lines are.
fn names(alloc: Global, text: &[u8]) -> Result<Vec<Name>, u32>
    ensures read { IfOk result (λ labels. labels.items ≡ lines_of text.now) }
    ensures named { OnOk result (list_any is_no_name (lines_of text.now) ≡ false) }
    ensures refused { IfErr result
        (λ status. ((status ≡ no_name) × (list_any is_no_name (lines_of text.now) ≡ true)) ⊎
        (status ≡ no_memory)) }
{
    let mut labels = Vec::new(alloc);
    let mut rest = text;
    while !rest.is_empty() {
        let (line, behind) = first_line(rest);
        push_name(alloc, &mut labels, line)?;
        rest = behind;
    }
    Ok(labels)
}

// Adds the name that the line is, or says why not.
fn push_name(alloc: Global, labels: &mut Vec<Name>, line: &[u8]) -> Result<(), u32>
    ensures pushed { OnOk result (labels.new.items ≡ labels.old.items ++ line.now ∷ []) }
    ensures named { OnOk result (is_no_name line.now ≡ false) }
    ensures refused { IfErr result (λ status. ((status ≡ no_name) × (is_no_name line.now ≡ true)) ⊎
        (status ≡ no_memory)) }
{
    let label = match Name::read(alloc, line) {
        Ok(label) => label,
        Err(NameFault::Memory) => return Err(NO_MEMORY),
        Err(_) => return Err(NO_NAME),
    };
    match labels.push(label) {
        Ok(()) => Ok(()),
        Err(_) => Err(NO_MEMORY),
    }
}
