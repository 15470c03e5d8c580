//! What is held of a source whose chunks are being read.
ghost use Rattle.std.specs.Prelude.{◌≡◌, ◌++◌, ◌∷◌, [], length, false, not, ◌&&◌, ◌||◌, nat_lt, IfOk, OnOk, IsTrue};
ghost use Rattle.aero_intake.specs.Held.{parts_in, live_in, certain_in, event_count, turns_live, CountsEvents, FitsTerms, IsDecisive, IsBasis};
ghost use Rattle.aero_judge.specs.Finding.{IsTraceFinding};
ghost use Rattle.aero_model.specs.Terms.{Terms as Asked, to_the_end};

use crate::live::Live;
use aero_grammar::Parsed;
use aero_model::{Finding, Terms};
use aero_pieces::Parts;
use std::alloc::{AllocError, Global};
use std::mem;

/// What the first chunks of a source say, in their order.
#[derive(Drop)]
pub enum Held {
    /// Their parts, and how many events these have, but no more than 2^64 - 1.
    Kept { parts: Vec<Parsed>, events: u64 },
    /// What judges them.
    Live(Live),
}

/// What a whole source is judged by.
#[derive(Drop)]
pub enum Basis {
    ByParts(Parts),
    Already(Finding),
}

/// Nothing is held yet.
pub fn nothing_held(alloc: Global) -> Held
    ensures parts { parts_in result ≡ [] }
    ensures live { live_in result ≡ false }
    ensures certain { certain_in result ≡ false }
    ensures fits { (terms : Asked) → FitsTerms terms result }
    ensures counted { CountsEvents result }
{
    Held::Kept {
        parts: Vec::new(alloc),
        events: 0,
    }
}

/// How many chunks there are.
pub fn held_count(held: &Held) -> u64
    ensures { result ≡ length (parts_in held.now) }
{
    match held {
        Held::Kept { parts, .. } => parts.len() as u64,
        Held::Live(live) => live.len(),
    }
}

/// Whether the verdict on a source that is judged as it comes is certain by now, whatever chunks come.
pub fn is_certain(held: &Held) -> bool
    ensures told { result ≡ certain_in held.now }
    ensures decisive { IsTrue result → (terms : Asked) → FitsTerms terms held.now →
        IsDecisive terms (parts_in held.now) }
{
    match held {
        Held::Kept { .. } => false,
        Held::Live(live) => live.is_certain(),
    }
}

/// Adds what the next chunk says of a source that is judged on these terms, and of which so many events are kept at
/// most. An `AllocError` says that memory was refused.
pub fn add_to(
    held: &mut Held,
    alloc: Global,
    part: Parsed,
    terms: &Terms,
    most: u64,
) -> Result<(), AllocError>
    requires fits { FitsTerms terms.now held.old }
    requires counted { CountsEvents held.old }
    ensures parts { OnOk result (parts_in held.new ≡ parts_in held.old ++ part ∷ []) }
    ensures live { OnOk result (live_in held.new ≡ live_in held.old || turns_live most
        (parts_in held.new)) }
    ensures fits { OnOk result (FitsTerms terms.now held.new) }
    ensures counted { OnOk result (CountsEvents held.new) }
{
    keep_or_feed(held, part, terms)?;
    go_live(held, alloc, terms, most)
}

fn keep_or_feed(held: &mut Held, part: Parsed, terms: &Terms) -> Result<(), AllocError>
    requires fits { FitsTerms terms.now held.old }
    requires counted { CountsEvents held.old }
    ensures parts { OnOk result (parts_in held.new ≡ parts_in held.old ++ part ∷ []) }
    ensures live { OnOk result (live_in held.new ≡ live_in held.old) }
    ensures fits { OnOk result (FitsTerms terms.now held.new) }
    ensures counted { OnOk result (CountsEvents held.new) }
{
    match held {
        Held::Kept { parts, events } => {
            *events = events.saturating_add(part.events.len() as u64);
            parts.push(part)?;
            Ok(())
        }
        Held::Live(live) => live.feed(part, terms.except()),
    }
}

// Where more events are kept than may be, they are to be judged from here on.
fn go_live(held: &mut Held, alloc: Global, terms: &Terms, most: u64) -> Result<(), AllocError>
    requires fits { FitsTerms terms.now held.old }
    requires counted { CountsEvents held.old }
    ensures parts { OnOk result (parts_in held.new ≡ parts_in held.old) }
    ensures live { OnOk result (live_in held.new ≡ live_in held.old || turns_live most
        (parts_in held.old)) }
    ensures fits { OnOk result (FitsTerms terms.now held.new) }
    ensures counted { OnOk result (CountsEvents held.new) }
{
    if !has_more(held, most) {
        return Ok(());
    }
    let kept = mem::replace(held, nothing_held(alloc));
    *held = Held::Live(live_from(kept, alloc, terms, most)?);
    Ok(())
}

// Whether more events are kept.
fn has_more(held: &Held, most: u64) -> bool
    requires { CountsEvents held.now }
    ensures { result ≡ not (live_in held.now) && nat_lt most (event_count (parts_in held.now)) }
{
    match held {
        Held::Kept { events, .. } => *events > most,
        Held::Live(_) => false,
    }
}

fn live_from(held: Held, alloc: Global, terms: &Terms, most: u64) -> Result<Live, AllocError>
    requires fits { FitsTerms terms.now held }
    ensures parts { IfOk result (λ live. live.parts ≡ parts_in held) }
    ensures terms { IfOk result (λ live. live.terms ≡ to_the_end terms.now) }
{
    match held {
        Held::Kept { parts, .. } => {
            let live = Live::new(alloc, terms, parts)?;
            Ok(caught_up(live, alloc, terms, most))
        }
        Held::Live(live) => Ok(live),
    }
}

// With all judged that came, where nothing is to be kept: its verdict may be certain by now.
fn caught_up(live: Live, alloc: Global, terms: &Terms, most: u64) -> Live
    requires fits { live.terms ≡ to_the_end terms.now }
    ensures parts { result.parts ≡ live.parts }
    ensures terms { result.terms ≡ live.terms }
{
    let mut live = live;
    if most == 0 {
        live.catch_up(alloc, terms.except());
    }
    live
}

/// What a whole source is judged by, on these terms. An `AllocError` says that memory was refused.
pub fn basis_of(held: Held, terms: &Terms) -> Result<Basis, AllocError>
    requires { FitsTerms terms.now held }
    ensures { IfOk result (IsBasis (parts_in held) terms.now) }
{
    match held {
        Held::Kept { parts, .. } => Ok(Basis::ByParts(Parts::new(parts))),
        Held::Live(live) => Ok(Basis::Already(found(live, terms)?)),
    }
}

// What is found of a source that was judged as it came.
fn found(live: Live, terms: &Terms) -> Result<Finding, AllocError>
    requires { live.terms ≡ to_the_end terms.now }
    ensures { IfOk result (IsTraceFinding live.parts terms.now) }
{
    live.finish(terms.except())
}
