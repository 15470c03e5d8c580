//! Asking for the verdicts of whole sources, and settling what was asked.
ghost use Rattle.std.specs.Prelude.{◌≡◌, ◌<◌, ◌-◌, ◌^◌, Bool, length, vec_len, slice_get, IfOk, OnOk};
ghost use Rattle.std.specs.Arc.{arc_value};
ghost use Rattle.aero_batch.specs.Inquiries.{open_count};
ghost use Rattle.aero_batch.specs.Steps.{MayAsk, ChecksNext, SettlesNext, with_check};
ghost use Rattle.aero_intake.specs.PlanTerms.{terms_of, most_kept};
ghost use Rattle.aero_intake.specs.Tracks.{IsReady, with_value};
ghost use Rattle.aero_intake.specs.Stories.{changed};

use crate::helpers::Helpers;
use crate::inquiry::Inquiry;
use crate::kind::Kind;
use crate::setting::Setting;
use crate::underway::Underway;
use aero_intake::Plan;
use aero_intake::track::{Track, take_parts, take_value};
use aero_pieces::{Parts, Question, Value};
use std::alloc::{AllocError, Global};
use std::sync::{Arc, Wait};

/// Asks for the verdict on the next source, where it needs one.
pub fn check_next<H: Helpers, T: Wait>(
    setting: &Setting<'_, T>,
    helpers: &mut H,
    underway: &mut Underway,
) -> Result<(), AllocError>
    requires may { MayAsk underway.old }
    requires unchecked { underway.old.checked < vec_len underway.old.tracks }
    requires ready { (t : Track) →
        slice_get underway.old.tracks.items underway.old.checked ≡ Some t → IsReady t }
    ensures { OnOk result (ChecksNext (terms_of setting.now.plan.now) underway.old underway.new) }
{
    let place = underway.checked;
    let parts = take_parts(&mut underway.tracks[place])?;
    ask_check(setting, helpers, &mut underway.inquiry, place as u64, parts)?;
    underway.checked += 1;
    Ok(())
}

fn ask_check<H: Helpers, T: Wait>(
    setting: &Setting<'_, T>,
    helpers: &mut H,
    inquiry: &mut Inquiry,
    trace: u64,
    parts: Option<Parts>,
) -> Result<(), AllocError>
    requires room { open_count inquiry.old < 64 }
    requires few { inquiry.old.asked < 2 ^ 63 }
    ensures { OnOk result (inquiry.new ≡ with_check (terms_of setting.now.plan.now) inquiry.old
        trace parts) }
{
    let Some(parts) = parts else {
        return Ok(());
    };
    let question = check_question(setting.alloc, setting.plan, trace, parts)?;
    inquiry.ask(setting.rt, helpers, Kind::Check, question)
}

fn check_question(
    alloc: Global,
    plan: &Plan,
    trace: u64,
    parts: Parts,
) -> Result<Arc<Question, Global>, AllocError>
    ensures { IfOk result (λ question. arc_value question ≡
        Question.Check trace parts plan.now.terms.rules.limits plan.now.terms.rules.labels
        plan.now.terms.rules.end plan.now.terms.order plan.now.terms.explain) }
{
    Question::Check {
        trace,
        parsed: parts,
        limits: *plan.terms.limits(),
        except: plan.terms.shared_except().share()?,
        end: plan.terms.end(),
        order: plan.terms.order(),
        explain: plan.terms.explain(),
    }
    .share(alloc)
}

/// Settles the oldest open question of this kind, if there is one: its value goes to the track of its source.
pub fn settle_next<H: Helpers, T: Wait>(
    setting: &Setting<'_, T>,
    helpers: &mut H,
    underway: &mut Underway,
    kind: Kind,
) -> Result<(), AllocError>
    ensures { OnOk result (SettlesNext kind underway.old underway.new) }
{
    let is_last = underway.read == underway.tracks.len();
    let Some((trace, value)) = underway.inquiry.settle(setting.rt, helpers, kind, is_last)? else {
        return Ok(());
    };
    give_value(
        &mut underway.tracks,
        setting.alloc,
        trace,
        value,
        setting.plan,
    )
}

// Gives a value to the track of its source, if there is one, of which as much is kept as the plan says.
fn give_value(
    tracks: &mut Vec<Track>,
    alloc: Global,
    trace: u64,
    value: Value,
    plan: &Plan,
) -> Result<(), AllocError>
    ensures { OnOk result ((certain : Bool) × (tracks.new.items ≡
        changed trace (λ t. with_value (most_kept plan.now.keeping trace (length tracks.old.items))
        certain t value) tracks.old.items)) }
{
    let count = tracks.len() as u64;
    if trace >= count {
        return Ok(());
    }
    let most = plan.keeping.most(trace + 1 == count);
    take_value(&mut tracks[trace as usize], alloc, value, most)
}
