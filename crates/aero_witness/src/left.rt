//! The targets of all kinds that aren't taken yet, and what a front takes of them.
ghost use Rattle.std.specs.Prelude.{◌≡◌, ◌<◌, ◌≤◌, ◌+◌, ◌^◌, ℕ, Option, [], length, nat_lt, true, false, OnOk, IfOk, All, Contains};
ghost use Rattle.aero_witness.specs.declared.kinds.Kind.{Kind};
ghost use Rattle.aero_witness.specs.Kinds.{source_number, sources, outside};
ghost use Rattle.aero_witness.specs.Buckets.{head_of, IsBucket, AreOrigins, IsFull, IsSameBut, AreDrawn};
ghost use Rattle.aero_witness.specs.Left.{bucket_of, bucket_leads_back, event_leads_back, AreGathered};

use crate::basis::Basis;
use crate::buckets::{Arrival, Bucket, bucket_of, head_of, take};
use crate::kinds::{Kind, source_number};
use aero_model::Numbered;
use std::alloc::{AllocError, Global};

#[derive(Drop)]
pub(crate) struct Left {
    pub threads: Bucket,
    pub forks: Bucket,
    pub joins: Bucket,
    pub writes: Bucket,
    pub reads: Bucket,
    pub releases: Bucket,
}

// Nothing is taken yet.
pub(crate) fn left_of(alloc: Global, events: &[Numbered], basis: &Basis) -> Result<Left, AllocError>
    requires few { length events.now < 2 ^ 32 }
    requires each { length basis.now.transactions.firsts.items ≡ length events.now }
    ensures buckets { IfOk result (λ left. (k : Kind) →
        IsBucket events.now (outside events.now basis.now.transactions.firsts.items basis.now.first)
        k (bucket_of left k)) }
    ensures origins { IfOk result (λ left. (k : Kind) →
        AreOrigins events.now basis.now.transactions.firsts.items basis.now.first k
        (bucket_of left k)) }
    ensures full { IfOk result (λ left. (k : Kind) →
        IsFull events.now basis.now.transactions.firsts.items basis.now.first k (bucket_of left k)) }
{
    Ok(Left {
        threads: bucket_of(alloc, events, basis, Kind::Threads)?,
        forks: bucket_of(alloc, events, basis, Kind::Forks)?,
        joins: bucket_of(alloc, events, basis, Kind::Joins)?,
        writes: bucket_of(alloc, events, basis, Kind::Writes)?,
        reads: bucket_of(alloc, events, basis, Kind::Reads)?,
        releases: bucket_of(alloc, events, basis, Kind::Releases)?,
    })
}

// Takes what the front, in its order, leads to by this kind.
fn gather_bucket(
    events: &[Numbered],
    front: &[u32],
    bucket: &mut Bucket,
    arrivals: &mut Vec<Arrival>,
) -> Result<(), AllocError>
    requires few { length events.now < 2 ^ 32 }
    requires bucket { (outer : Kind → ℕ → Option ℕ) × IsBucket events.now outer bucket.old.kind
        bucket.old }
    requires within { All (λ i. i < length events.now) front.now }
    ensures same { OnOk result (IsSameBut bucket.old bucket.new) }
    ensures drawn { OnOk result ((outer : Kind → ℕ → Option ℕ) →
        IsBucket events.now outer bucket.old.kind bucket.old →
        AreDrawn (sources events.now bucket.old.kind) (outer bucket.old.kind) front.now
        (length events.now) bucket.old.heads.items bucket.new.heads.items arrivals.old.items
        arrivals.new.items) }
{
    for place in front {
        let number = source_number(bucket.kind, &events[*place as usize]);
        take(bucket, number, *place, arrivals)?;
    }
    Ok(())
}

// The same by all kinds.
fn gather(
    events: &[Numbered],
    front: &[u32],
    left: &mut Left,
    arrivals: &mut Vec<Arrival>,
) -> Result<(), AllocError>
    requires few { length events.now < 2 ^ 32 }
    requires buckets { (outer : Kind → ℕ → Option ℕ) × ((k : Kind) →
        IsBucket events.now outer k (bucket_of left.old k)) }
    requires within { All (λ i. i < length events.now) front.now }
    ensures { OnOk result ((outer : Kind → ℕ → Option ℕ) →
        ((k : Kind) → IsBucket events.now outer k (bucket_of left.old k)) →
        AreGathered events.now outer front.now left.old left.new arrivals.old.items
        arrivals.new.items) }
{
    gather_bucket(events, front, &mut left.threads, arrivals)?;
    gather_bucket(events, front, &mut left.forks, arrivals)?;
    gather_bucket(events, front, &mut left.joins, arrivals)?;
    gather_bucket(events, front, &mut left.writes, arrivals)?;
    gather_bucket(events, front, &mut left.reads, arrivals)?;
    gather_bucket(events, front, &mut left.releases, arrivals)?;
    Ok(())
}

// What is taken so.
pub(crate) fn arrivals_of(
    alloc: Global,
    events: &[Numbered],
    front: &[u32],
    left: &mut Left,
) -> Result<Vec<Arrival>, AllocError>
    requires few { length events.now < 2 ^ 32 }
    requires buckets { (outer : Kind → ℕ → Option ℕ) × ((k : Kind) →
        IsBucket events.now outer k (bucket_of left.old k)) }
    requires within { All (λ i. i < length events.now) front.now }
    ensures { IfOk result (λ arrivals. (outer : Kind → ℕ → Option ℕ) →
        ((k : Kind) → IsBucket events.now outer k (bucket_of left.old k)) →
        AreGathered events.now outer front.now left.old left.new [] arrivals.items) }
{
    let mut arrivals = Vec::new(alloc);
    gather(events, front, left, &mut arrivals)?;
    Ok(arrivals)
}

// Whether a later event of the origin conflicts by this kind with the event at this place.
fn bucket_leads_back(bucket: &Bucket, event: &Numbered, place: u32) -> bool
    requires { place + 1 < 2 ^ 32 }
    ensures { result ≡ bucket_leads_back bucket.now event.now place }
{
    place + 1 < head_of(&bucket.origins, source_number(bucket.kind, event))
}

// The same by any.
fn event_leads_back(left: &Left, event: &Numbered, place: u32) -> bool
    requires { place + 1 < 2 ^ 32 }
    ensures { result ≡ event_leads_back left.now event.now place }
{
    bucket_leads_back(&left.threads, event, place)
        || bucket_leads_back(&left.forks, event, place)
        || bucket_leads_back(&left.joins, event, place)
        || bucket_leads_back(&left.writes, event, place)
        || bucket_leads_back(&left.reads, event, place)
        || bucket_leads_back(&left.releases, event, place)
}

// The same of any event of the front: whether some head of the places at the origin is behind it.
pub(crate) fn leads_back(events: &[Numbered], front: &[u32], left: &Left) -> bool
    requires few { length events.now < 2 ^ 32 }
    requires kinds { (k : Kind) → (bucket_of left.now k).kind ≡ k }
    requires within { All (λ i. i < length events.now) front.now }
    ensures some { result ≡ true →
        (i : ℕ) × (k : Kind) × Contains front.now i ×
        (i + 1 < head_of (bucket_of left.now k).origins.items (sources events.now k i)) }
    ensures none { result ≡ false → (i : ℕ) (k : Kind) → Contains front.now i →
        head_of (bucket_of left.now k).origins.items (sources events.now k i) ≤ i + 1 }
{
    for place in front {
        if event_leads_back(left, &events[*place as usize], *place) {
            return true;
        }
    }
    false
}
