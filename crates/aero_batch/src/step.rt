//! One step of a run.
ghost use Rattle.std.specs.Prelude.{◌≡◌, ◌<◌, ◌≤◌, ◌↔◌, ℕ, None, length, map, slice_get, true, IfSome, OnOk};
ghost use Rattle.aero_telling.specs.Founds.{sighted, whose};
ghost use Rattle.aero_batch.specs.declared.kind.Kind.TheVariants.{Parse};
ghost use Rattle.aero_batch.specs.Holding.{Counted};
ghost use Rattle.aero_batch.specs.Inquiries.{open_count};
ghost use Rattle.aero_intake.specs.PlanTerms.{terms_of};
ghost use Rattle.aero_batch.specs.Steps.{Steps};

use crate::checking::{check_next, settle_next};
use crate::helpers::Helpers;
use crate::inquiry::Inquiry;
use crate::kind::Kind;
use crate::reading::read_on;
use crate::setting::Setting;
use crate::underway::Underway;
use aero_intake::track::is_ready;
use aero_intake::{Followed, Plan, SourceOf};
use std::alloc::AllocError;
use std::sync::Wait;

/// One step: the verdict on a source is asked for, or a piece is read, or what was read is cut and asked
/// about; or, where the oldest question of a kind has its answer, the window is full, the next read is the first of a
/// source that may wait, or nothing is left to read, that question is settled. So what is known of a
/// source is told before the next read. Where the plan stops early each read waits until no question is open: so it is
/// made or not by what came before it, and never by when an answer came. An `AllocError` says that memory was refused.
pub fn step<R: Followed, H: Helpers, T: Wait>(
    setting: &Setting<'_, T>,
    sources: &mut [SourceOf<R>],
    helpers: &mut H,
    underway: &mut Underway,
) -> Result<(), AllocError>
    requires { Counted (terms_of setting.now.plan.now) (length sources.old) underway.old }
    ensures steps { OnOk result (Steps (terms_of setting.now.plan.now)
        (map (sighted R.sight) sources.old)
        (map (sighted R.sight) sources.new) underway.old underway.new) }
    ensures names { map whose (map (sighted R.sight) sources.new) ≡
        map whose (map (sighted R.sight) sources.old) }
    ensures others { (s : ℕ) → (underway.old.read ≡ s → ⊥) →
        slice_get (map (sighted R.sight) sources.new) s ≡
        slice_get (map (sighted R.sight) sources.old) s }
    ensures waits { (terms_of setting.now.plan.now).stop ≡ true →
        0 < open_count underway.old.inquiry →
        map (sighted R.sight) sources.new ≡ map (sighted R.sight) sources.old }
{
    let answered = underway.inquiry.hear(setting.rt, helpers);
    step_on(setting, sources, helpers, underway, answered)
}

// The same, where it is said of which kind the oldest question has its answer, if of one.
fn step_on<R: Followed, H: Helpers, T: Wait>(
    setting: &Setting<'_, T>,
    sources: &mut [SourceOf<R>],
    helpers: &mut H,
    underway: &mut Underway,
    answered: Option<Kind>,
) -> Result<(), AllocError>
    requires { Counted (terms_of setting.now.plan.now) (length sources.old) underway.old }
    ensures steps { OnOk result (Steps (terms_of setting.now.plan.now)
        (map (sighted R.sight) sources.old)
        (map (sighted R.sight) sources.new) underway.old underway.new) }
    ensures names { map whose (map (sighted R.sight) sources.new) ≡
        map whose (map (sighted R.sight) sources.old) }
    ensures others { (s : ℕ) → (underway.old.read ≡ s → ⊥) →
        slice_get (map (sighted R.sight) sources.new) s ≡
        slice_get (map (sighted R.sight) sources.old) s }
    ensures waits { (terms_of setting.now.plan.now).stop ≡ true →
        0 < open_count underway.old.inquiry →
        map (sighted R.sight) sources.new ≡ map (sighted R.sight) sources.old }
{
    let kind = next_kind(&underway.inquiry, answered);
    if !underway.inquiry.has_room() {
        return settle_next(setting, helpers, underway, kind);
    }
    if underway.checked < underway.read && is_ready(&underway.tracks[underway.checked]) {
        return check_next(setting, helpers, underway);
    }
    let is_settled_first = answered.is_some() || is_held_back(setting.plan, sources, underway);
    if !is_settled_first && underway.read < sources.len() {
        let source = &mut sources[underway.read];
        return read_on(setting, &mut source.reader, helpers, underway);
    }
    settle_next(setting, helpers, underway, kind)
}

// The kind of which a question is settled next, where one is: one that is answered, or else that which is awaited.
fn next_kind(inquiry: &Inquiry, answered: Option<Kind>) -> Kind
    ensures answered { IfSome answered (λ kind. result ≡ kind) }
    ensures awaited { answered ≡ None → ((result ≡ Parse) ↔ (0 < length inquiry.now.chunks)) }
{
    match answered {
        Some(kind) => kind,
        None => inquiry.awaited(),
    }
}

// Whether the next read waits until a question is settled: it is the first of a source that may wait, and what the open
// questions say of those before it is told first. Where the plan stops early that is so of each read: what came may decide.
fn is_held_back<R>(plan: &Plan, sources: &[SourceOf<R>], underway: &Underway) -> bool
    ensures waits { (terms_of plan.now).stop ≡ true → 0 < open_count underway.now.inquiry →
        underway.now.read < length sources.now → result ≡ true }
{
    let Some(source) = sources.get(underway.read) else {
        return false;
    };
    if underway.inquiry.is_settled() {
        return false;
    }
    plan.terms.stop() || source.may_wait && underway.intake.count() == 0
}
