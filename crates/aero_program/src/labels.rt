//! The labels of `--only` and `--except` with which no block of any source begins, as a run tells them.
ghost use Rattle.std.specs.Prelude.{◌≡◌, ◌++◌, ℕ, List, not, flat_map, map, IfOk, IfSome, OnOk};
ghost use Rattle.std.specs.List.{filter};
ghost use Rattle.aero_program.specs.Labels.{is_flagged, unflagged};
ghost use Rattle.aero_program.specs.Notes.{label_line, label_lines, more_line};

use crate::notes::append_said;
use aero_intake::Begun;
use aero_model::{Except, Name, Terms};
use itoa::Buffer;
use std::alloc::{AllocError, Global};

// How many labels with which no block begins have a line of their own.
const MOST_LINES: usize = 10;

/// Returns the listed labels with which no block begins, in order, by the flags of a run on these terms. It returns none of them if
/// the run has no flags, or reads sources no further than it must, and `None` if memory is refused.
pub fn unused_labels<'a>(
    alloc: Global,
    terms: &'a Terms,
    begun: &Option<Begun>,
) -> Option<Vec<&'a Name>>
    ensures { IfSome result (λ unused. map (λ label. label.now) unused.items ≡
        unflagged terms.now begun.now) }
{
    if terms.stop() {
        return Some(Vec::new(alloc));
    }
    let Some(begun) = begun else {
        return Some(Vec::new(alloc));
    };
    match unbegun(alloc, terms.except(), begun) {
        Ok(unused) => Some(unused),
        Err(_) => None,
    }
}

// The listed labels whose flags aren't set.
fn unbegun<'a>(
    alloc: Global,
    except: &'a Except,
    begun: &Begun,
) -> Result<Vec<&'a Name>, AllocError>
    ensures { IfOk result (λ unused. map (λ label. label.now) unused.items ≡
        filter (λ label. not (is_flagged except.now.labels begun.now.flags.items label))
        except.now.labels) }
{
    unbegun_among(alloc, except.labels(), except, begun)
}

// Those of these labels whose flags aren't set.
fn unbegun_among<'a>(
    alloc: Global,
    labels: &'a [Name],
    except: &Except,
    begun: &Begun,
) -> Result<Vec<&'a Name>, AllocError>
    ensures { IfOk result (λ unused. map (λ label. label.now) unused.items ≡
        filter (λ label. not (is_flagged except.now.labels begun.now.flags.items label))
        labels.now) }
{
    let mut unused = Vec::new(alloc);
    for label in labels {
        if !is_flagged(except, begun, label) {
            unused.push(label)?;
        }
    }
    Ok(unused)
}

// Whether the label's flag is set.
fn is_flagged(except: &Except, begun: &Begun, label: &Name) -> bool
    ensures { result ≡ is_flagged except.now.labels begun.now.flags.items label.now }
{
    match except.place_of(label.bytes()) {
        Some(place) => begun.has(place),
        None => false,
    }
}

/// The lines on the first ten of these labels, in order, and behind them one that says how many more there are, if there
/// are. A terminal is shown no control characters of them.
///
/// # Errors
///
/// `AllocError` where memory is refused.
pub fn lines_on(alloc: Global, labels: &[&Name], on_terminal: bool) -> Result<Vec<u8>, AllocError>
    ensures { IfOk result (λ text. text.items ≡
        label_lines on_terminal (map (λ label. label.now) labels.now)) }
{
    let shown = labels.len().min(MOST_LINES);
    let mut text = lines_on_each(alloc, &labels[..shown], on_terminal)?;
    append_more(&mut text, labels.len() - shown)?;
    Ok(text)
}

// A line on each of these labels.
fn lines_on_each(alloc: Global, labels: &[&Name], on_terminal: bool) -> Result<Vec<u8>, AllocError>
    ensures { IfOk result (λ text. text.items ≡ flat_map (label_line on_terminal)
        (map (λ label. label.now) labels.now)) }
{
    let mut text = Vec::new(alloc);
    for label in labels {
        append_line(&mut text, label.bytes(), on_terminal)?;
    }
    Ok(text)
}

// The line on labels that have none of their own.
fn append_more(text: &mut Vec<u8>, more: usize) -> Result<(), AllocError>
    ensures { OnOk result (text.new.items ≡ text.old.items ++ more_line more) }
{
    if more == 0 {
        return Ok(());
    }
    text.extend_from_slice(b"aerodrome: no block begins with ")?;
    text.extend_from_slice(Buffer::new().format(more).as_bytes())?;
    text.extend_from_slice(b" more of the labels\n")?;
    Ok(())
}

// The line on a label.
fn append_line(text: &mut Vec<u8>, label: &[u8], on_terminal: bool) -> Result<(), AllocError>
    ensures { OnOk result (text.new.items ≡ text.old.items ++ label_line on_terminal label.now) }
{
    text.extend_from_slice(b"aerodrome: no block begins with begin(")?;
    append_said(text, label, on_terminal)?;
    text.extend_from_slice(b")")?;
    text.extend_from_slice(b"\n")?;
    Ok(())
}
