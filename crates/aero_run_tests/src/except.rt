use aero_model::{Except, Name, SharedExcept};
use std::alloc::Global;

// The list of these labels, between which a space stands. `None` where memory is refused.
pub(crate) fn listed(alloc: Global, labels: &str) -> Option<SharedExcept> {
    let names = names_of(alloc, labels)?;
    SharedExcept::new(alloc, Except::new(names)?).ok()
}

fn names_of(alloc: Global, labels: &str) -> Option<Vec<Name>> {
    let mut names = Vec::new(alloc);
    let mut fits = true;
    for label in labels.split(' ') {
        fits &= push_label(alloc, &mut names, label);
    }
    fits.then_some(names)
}

// Puts the label behind the others, if it is one.
fn push_label(alloc: Global, names: &mut Vec<Name>, label: &str) -> bool {
    match Name::read(alloc, label.as_bytes()) {
        Ok(name) => names.push(name).is_ok(),
        Err(_) => true,
    }
}
