//! The blocks that are no transactions, by their labels.
ghost use Rattle.std.specs.Prelude.{◌≡◌, ◌↔◌, IsTrue};

use crate::name::Name;
use indexmap::IndexSet;
use std::alloc::{AllocError, Global};
use std::marker::Model;
use std::sync::Arc;

/// How many labels `Except::new` and `Except::all_but` take at most.
pub const MOST_LABELS: usize = 64;

/// How many labels a set of `Except::of_set` has at most.
pub const MOST_LABELS_OF_SET: usize = 65_536;

// The labels: a short list is searched from its front, and a set by hashes.
#[derive(Drop)]
enum Labels {
    Few(Vec<Name>),
    Set(IndexSet<Name>),
}

/// A list of labels, of at most 64, or a set of at most 65,536. A block that begins with one of them is no
/// transaction. If the list says that its labels are the only ones, it is the other way round: a block that
/// begins with none of them, or without a label, is no transaction.
#[derive(Drop)]
pub struct Except {
    labels: Labels,
    only: bool,
}

impl Model for Except {
    ghost use Rattle.aero_model.specs.Excepts.{AreFew, labels_in};
    ghost use Rattle.aero_model.specs.Exempt.{Listed};

    ghost Value = { Listed };

    ghost view = { λ except. record { labels = labels_in except.labels; only = except.only } };

    ghost invariant = { λ except. AreFew except.labels };
}

impl Except {
    ghost use Rattle.std.specs.Prelude.{◌≡◌, ◌≤◌, ◌↔◌, length, position, bytes_eq, vec_len, Some, None, IsSome, IsTrue, IfSome};
    ghost use Rattle.std.specs.List.{list_any};
    ghost use Rattle.aero_model.specs.Excepts.{most_labels, most_labels_of_set};
    ghost use Rattle.aero_model.specs.Exempt.{these, all_but, leaves_out};

    /// Just the blocks with these labels are no transactions. `None` where there are more than 64.
    pub fn new(labels: Vec<Name>) -> Option<Except>
        ensures few { IsSome result ↔ (vec_len labels ≤ most_labels) }
        ensures labels { IfSome result (λ except. except ≡ these labels.items) }
    {
        Except::listing(labels, false)
    }

    /// The blocks with these labels are the only transactions, beside events outside of them. `None`
    /// where there are more than 64.
    pub fn all_but(labels: Vec<Name>) -> Option<Except>
        ensures few { IsSome result ↔ (vec_len labels ≤ most_labels) }
        ensures labels { IfSome result (λ except. except ≡ all_but labels.items) }
    {
        Except::listing(labels, true)
    }

    fn listing(labels: Vec<Name>, only: bool) -> Option<Except>
        ensures few { IsSome result ↔ (vec_len labels ≤ most_labels) }
        ensures labels { IfSome result
            (λ except. except ≡ record { labels = labels.items; only = only }) }
    {
        if labels.len() > MOST_LABELS {
            return None;
        }
        Some(Except {
            labels: Labels::Few(labels),
            only,
        })
    }

    /// Just the blocks with these labels are no transactions, or, if `only` is true, they are the only transactions,
    /// beside events outside of them. The result is `None` if there are more than 65,536. A look-up takes expected
    /// constant time in the number of labels.
    pub fn of_set(labels: IndexSet<Name>, only: bool) -> Option<Except>
        ensures few { IsSome result ↔ (length labels.keys ≤ most_labels_of_set) }
        ensures labels { IfSome result
            (λ except. except ≡ record { labels = labels.keys; only = only }) }
    {
        if labels.len() > MOST_LABELS_OF_SET {
            return None;
        }
        Some(Except {
            labels: Labels::Set(labels),
            only,
        })
    }

    /// The labels that are listed, in their order.
    pub fn labels(&self) -> &[Name]
        ensures { result.now ≡ self.now.labels }
    {
        match &self.labels {
            Labels::Few(labels) => labels,
            Labels::Set(labels) => labels.as_slice(),
        }
    }

    /// Whether the blocks with these labels are the only transactions, beside events outside of them.
    pub fn is_only(&self) -> bool
        ensures { result ≡ self.now.only }
    {
        self.only
    }

    /// Whether the label is listed.
    pub fn has(&self, label: &Name) -> bool
        ensures { result ≡ list_any (bytes_eq label.now) self.now.labels }
    {
        self.has_bytes(label.bytes())
    }

    /// Whether a label of these bytes is listed.
    pub fn has_bytes(&self, label: &[u8]) -> bool
        ensures { result ≡ list_any (bytes_eq label.now) self.now.labels }
    {
        match &self.labels {
            Labels::Few(labels) => labels.iter().any(|listed| listed.bytes() == label),
            Labels::Set(labels) => labels.contains(label),
        }
    }

    /// The place of the label with these bytes, from 0: the first one in a list that repeats it. The result is `None`
    /// if it isn't listed.
    pub fn place_of(&self, label: &[u8]) -> Option<usize>
        ensures { result ≡ position (bytes_eq label.now) self.now.labels }
    {
        match &self.labels {
            Labels::Few(labels) => labels.iter().position(|listed| listed.bytes() == label),
            Labels::Set(labels) => labels.get_index_of(label),
        }
    }

    /// Whether a block that begins with a label of these bytes is no transaction.
    pub fn leaves_out(&self, label: &[u8]) -> bool
        ensures { result ≡ leaves_out self.now (Some label.now) }
    {
        if self.only {
            !self.has_bytes(label)
        } else {
            self.has_bytes(label)
        }
    }

    /// Whether a block that begins without a label is no transaction.
    pub fn leaves_out_unlabelled(&self) -> bool
        ensures { result ≡ leaves_out self.now None }
    {
        self.only
    }

    /// Whether both leave out the same blocks by the same labels, in the same order.
    pub fn is_same(&self, other: &Except) -> bool
        ensures { IsTrue result ↔ (self.now ≡ other.now) }
    {
        self.only == other.only && are_same_names(self.labels(), other.labels())
    }
}

fn are_same_names(a: &[Name], b: &[Name]) -> bool
    ensures { IsTrue result ↔ (a.now ≡ b.now) }
{
    if a.len() != b.len() {
        return false;
    }
    for i in 0..a.len() {
        if !is_same_name(&a[i], &b[i]) {
            return false;
        }
    }
    true
}

fn is_same_name(a: &Name, b: &Name) -> bool
    ensures { IsTrue result ↔ (a.now ≡ b.now) }
{
    a.bytes() == b.bytes()
}

/// A list of labels that several hold.
#[derive(Drop)]
pub struct SharedExcept {
    except: Arc<Except, Global>,
}

impl Model for SharedExcept {
    ghost use Rattle.std.specs.Arc.{arc_value};
    ghost use Rattle.aero_model.specs.Exempt.{Listed};

    ghost Value = { Listed };

    ghost view = { λ shared. arc_value shared.except };
}

impl SharedExcept {
    ghost use Rattle.std.specs.Prelude.{◌≡◌, IfOk};

    /// The list, so that several can hold it. Where memory is refused it is given up.
    pub fn new(alloc: Global, except: Except) -> Result<SharedExcept, AllocError>
        ensures { IfOk result (λ shared. shared ≡ except) }
    {
        Ok(SharedExcept {
            except: Arc::new(alloc, except)?,
        })
    }

    /// The same list for one holder more. An `AllocError` says that it has too many.
    pub fn share(&self) -> Result<SharedExcept, AllocError>
        ensures { IfOk result (λ shared. shared ≡ self.now) }
    {
        Ok(SharedExcept {
            except: Arc::try_clone(&self.except)?,
        })
    }

    /// The list.
    pub fn get(&self) -> &Except
        ensures { result.now ≡ self.now }
    {
        &self.except
    }
}
