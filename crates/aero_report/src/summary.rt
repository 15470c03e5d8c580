//! The text of the summary.
ghost use Rattle.std.specs.Prelude.{◌≡◌, ◌+◌, ◌++◌, codes, decimal, IfOk, OnOk};
ghost use Rattle.aero_report.specs.Texts.{summary_line};

use crate::texts::append_number;
use aero_model::Counts;
use itoa::Buffer;
use std::alloc::{AllocError, Global};

/// The last line of a report: how many sources there are, and how many were found to be what, with
/// a newline.
///
/// The first number is the sum of the four counts, also where it is above 2^64 - 1. Fails only
/// where memory runs out.
pub fn summary_text(alloc: Global, counts: &Counts) -> Result<Vec<u8>, AllocError>
    ensures { IfOk result (λ text. text.items ≡ summary_line counts.now) }
{
    let mut text = Vec::new(alloc);
    append_total(&mut text, sources_of(counts))?;
    append_count(&mut text, b": serializable ", counts.serializable)?;
    append_count(&mut text, b", open ", counts.pending)?;
    append_count(&mut text, b", violations ", counts.violations)?;
    append_count(&mut text, b", faults ", counts.faults)?;
    text.push(b'\n')?;
    Ok(text)
}

// How many sources were counted. Four numbers of 64 bits have a sum of 66 bits.
pub fn sources_of(counts: &Counts) -> u128
    ensures { result ≡ counts.now.serializable + counts.now.pending + counts.now.violations +
        counts.now.faults }
{
    u128::from(counts.serializable)
        + u128::from(counts.pending)
        + u128::from(counts.violations)
        + u128::from(counts.faults)
}

fn append_total(text: &mut Vec<u8>, total: u128) -> Result<(), AllocError>
    ensures { OnOk result (text.new.items ≡ text.old.items ++ (codes "traces " ++ decimal total)) }
{
    let mut buffer = Buffer::new();
    text.extend_from_slice(b"traces ")?;
    text.extend_from_slice(buffer.format(total).as_bytes())
}

// A number behind its label.
fn append_count(text: &mut Vec<u8>, label: &[u8], count: u64) -> Result<(), AllocError>
    ensures { OnOk result (text.new.items ≡ text.old.items ++ (label.now ++ decimal count)) }
{
    text.extend_from_slice(label)?;
    append_number(text, count)
}
