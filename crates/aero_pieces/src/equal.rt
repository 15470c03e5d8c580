//! Whether two questions have the same content.
ghost use Rattle.std.specs.Prelude.{◌≡◌, ◌↔◌, IsTrue};

use crate::question::Question;
use aero_grammar::{LineEvent, Parsed};
use aero_model::Limits;

/// Whether the questions have the same content. The numbers and lengths are compared first, and the
/// bytes, or the names and events, only where those agree.
pub fn same(a: &Question, b: &Question) -> bool
    ensures { IsTrue result ↔ (a.now ≡ b.now) }
{
    match a {
        Question::Parse {
            trace,
            number,
            bytes,
        } => match b {
            Question::Parse {
                trace: other_trace,
                number: other_number,
                bytes: other_bytes,
            } => {
                *number == *other_number
                    && *trace == *other_trace
                    && bytes.get() == other_bytes.get()
            }
            Question::Check { .. } => false,
        },
        Question::Check {
            trace,
            parsed,
            limits,
            except,
            end,
            order,
            explain,
        } => match b {
            Question::Check {
                trace: other_trace,
                parsed: other_parsed,
                limits: other_limits,
                except: other_except,
                end: other_end,
                order: other_order,
                explain: other_explain,
            } => {
                *trace == *other_trace
                    && *end == *other_end
                    && *order == *other_order
                    && *explain == *other_explain
                    && are_same_limits(limits, other_limits)
                    && except.get().is_same(other_except.get())
                    && are_same_parts(parsed.get(), other_parsed.get())
            }
            Question::Parse { .. } => false,
        },
    }
}

fn are_same_limits(a: &Limits, b: &Limits) -> bool
    ensures { IsTrue result ↔ (a.now ≡ b.now) }
{
    a.bytes == b.bytes && a.lines == b.lines && a.threads == b.threads && a.names == b.names
}

fn are_same_parts(a: &[Parsed], b: &[Parsed]) -> bool
    ensures { IsTrue result ↔ (a.now ≡ b.now) }
{
    if a.len() != b.len() {
        return false;
    }
    for i in 0..a.len() {
        if !is_same_parsed(&a[i], &b[i]) {
            return false;
        }
    }
    true
}

// The tables and numbers tell the events by their names: what has the same events has the same of both.
fn is_same_parsed(a: &Parsed, b: &Parsed) -> bool
    ensures { IsTrue result ↔ (a.now ≡ b.now) }
{
    a.lines == b.lines
        && a.fault == b.fault
        && are_same_events(&a.events, &b.events)
        && a.threads.has_same_names(&b.threads)
        && a.variables.has_same_names(&b.variables)
        && a.locks.has_same_names(&b.locks)
        && a.labels.has_same_names(&b.labels)
}

fn are_same_events(a: &[LineEvent], b: &[LineEvent]) -> bool
    ensures { IsTrue result ↔ (a.now ≡ b.now) }
{
    a == b
}
