//! From which event of a thread on open blocks lead to it.
ghost use Rattle.aero_leads.specs.Kept.{least_in};
ghost use Rattle.aero_leads.specs.Leasts.{IsLeastOf};

use crate::row::{Lead, least_of};

/// The place of the first event of the row's thread to which an open block leads.
pub(crate) fn least(row: &[Lead]) -> Option<u32>
    ensures { IsLeastOf (least_in row.now) result }
{
    let mut least = None;
    for lead in row.iter() {
        least = Some(least_of(least, lead.place));
    }
    least
}
