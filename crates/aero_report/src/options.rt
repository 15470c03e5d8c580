//! How the sources of a report were judged, and the summary as JSON, which tells it.
ghost use Rattle.std.specs.Prelude.{◌≡◌, [], ◌++◌, codes, map, flat_map, if◌then◌else◌, IfOk, OnOk};
ghost use Rattle.json.specs.Tree.{json_tokens};
ghost use Rattle.aero_report.specs.Asked.{options_of};
ghost use Rattle.aero_report.specs.Json.{count_members, ending_members, json_line, limits_value, list, listed_member, name_value, option_members, stop_members, summary_value, unused_members, ReadsBack};
ghost use Rattle.aero_report.specs.Members.{member_tokens, all_members_tokens};

use crate::line::Line;
use crate::notes::{Note, write_notes};
use crate::summary::sources_of;
use aero_model::{Counts, Except, Limits, Name, Terms};
use std::alloc::{AllocError, Global};

/// The program's version.
pub const VERSION: &str = "0.1.0";

/// How the sources of a report were judged, as its summary says it: on which terms, with which labels of the list no
/// block begins, and what is noted of the sources beside their lines.
#[derive(Clone, Copy)]
pub struct Options<'a> {
    pub terms: &'a Terms,
    pub unused: &'a [&'a Name],
    pub notes: &'a [Note],
}

/// The line of the summary as JSON, with a newline.
pub fn summary_object(
    alloc: Global,
    options: Options<'_>,
    counts: &Counts,
) -> Result<Vec<u8>, AllocError>
    ensures text { IfOk result (λ text. text.items ≡
        json_line (summary_value (options_of options.entry) counts.now)) }
    ensures reads_back { OnOk result
        (ReadsBack (summary_value (options_of options.entry) counts.now)) }
{
    let mut out = Line::new(alloc);
    write_summary(&mut out, options, counts)?;
    out.into_text()
}

fn write_summary(out: &mut Line, options: Options<'_>, counts: &Counts) -> Result<(), AllocError>
    ensures { OnOk result (out.new ≡ out.old ++
        json_tokens (summary_value (options_of options.entry) counts.now)) }
{
    out.begin_object()?;
    write_counts(out, counts)?;
    write_options(out, options)?;
    out.end_object()
}

fn write_counts(out: &mut Line, counts: &Counts) -> Result<(), AllocError>
    ensures { OnOk result (out.new ≡ out.old ++ all_members_tokens (count_members counts.now)) }
{
    out.total("traces", sources_of(counts))?;
    out.long_count("serializable", counts.serializable)?;
    out.long_count("open", counts.pending)?;
    out.long_count("violations", counts.violations)?;
    out.long_count("faults", counts.faults)
}

fn write_options(out: &mut Line, options: Options<'_>) -> Result<(), AllocError>
    ensures { OnOk result (out.new ≡ out.old ++
        all_members_tokens (option_members (options_of options.entry))) }
{
    out.word("version", VERSION)?;
    out.flag("order", options.terms.order())?;
    out.flag("explain", options.terms.explain())?;
    write_limits(out, options.terms.limits())?;
    write_listed(out, options.terms.except())?;
    write_stop(out, options.terms.stop())?;
    write_ending(out, options.terms.end())?;
    write_unused(out, options.unused)?;
    write_notes(out, options.notes)
}

fn write_limits(out: &mut Line, limits: &Limits) -> Result<(), AllocError>
    ensures { OnOk result (out.new ≡ out.old ++
        member_tokens (codes "limits", limits_value limits.now)) }
{
    out.begin_member("limits")?;
    out.long_count("bytes", limits.bytes)?;
    out.count("lines", limits.lines)?;
    out.count("threads", limits.threads)?;
    out.count("names", limits.names)?;
    out.end_object()
}

// The labels of the blocks that are no transactions, or of the only blocks that are.
fn write_listed(out: &mut Line, except: &Except) -> Result<(), AllocError>
    ensures { OnOk result (out.new ≡ out.old ++ member_tokens (listed_member except.now)) }
{
    out.begin_array(list_key(except.is_only()))?;
    write_labels(out, except.labels())?;
    out.end_array()
}

fn list_key(only: bool) -> &'static str
    ensures { result.now ≡ (if only then codes "only" else codes "except") }
{
    if only { "only" } else { "except" }
}

fn write_labels(out: &mut Line, labels: &[Name]) -> Result<(), AllocError>
    ensures { OnOk result (out.new ≡ out.old ++ flat_map (λ l. json_tokens (name_value l))
        labels.now) }
{
    for label in labels {
        out.name_alone(label.bytes())?;
    }
    Ok(())
}

// That a source was read no further once its verdict was certain, where that was asked for.
fn write_stop(out: &mut Line, stop: bool) -> Result<(), AllocError>
    ensures { OnOk result (out.new ≡ out.old ++ all_members_tokens (stop_members stop)) }
{
    if stop {
        return out.flag("stop", true);
    }
    Ok(())
}

// That blocks which were open ended before their thread was joined and at the end of a source, where that was asked for.
fn write_ending(out: &mut Line, end: bool) -> Result<(), AllocError>
    ensures { OnOk result (out.new ≡ out.old ++ all_members_tokens (ending_members end)) }
{
    if end {
        return out.flag("end", true);
    }
    Ok(())
}

// The labels with which no block begins, where there are any.
fn write_unused(out: &mut Line, labels: &[&Name]) -> Result<(), AllocError>
    ensures { OnOk result (out.new ≡ out.old ++
        all_members_tokens (unused_members (map (λ label. label.now) labels.now))) }
{
    if labels.is_empty() {
        return Ok(());
    }
    out.begin_array("unused")?;
    write_unused_labels(out, labels)?;
    out.end_array()
}

fn write_unused_labels(out: &mut Line, labels: &[&Name]) -> Result<(), AllocError>
    ensures { OnOk result (out.new ≡ out.old ++ flat_map (λ l. json_tokens (name_value l))
        (map (λ label. label.now) labels.now)) }
{
    for label in labels {
        out.name_alone(label.bytes())?;
    }
    Ok(())
}
