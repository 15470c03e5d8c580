//! First events by the numbers of their transactions.
ghost use Rattle.std.specs.Prelude.{◌≡◌, map, IfOk};
ghost use Rattle.aero_order.specs.Came.{first_of};

use crate::first::First;
use std::alloc::{AllocError, Global};

/// The first events of these transactions, all zeros at a number that none has.
pub fn look_up(alloc: Global, firsts: &[First], numbers: &[u32]) -> Result<Vec<First>, AllocError>
    ensures { IfOk result (λ found. found.items ≡ map (first_of firsts.now) numbers.now) }
{
    let mut found = Vec::with_capacity(alloc, numbers.len())?;
    for number in numbers {
        found.push(first_at(firsts, *number))?;
    }
    Ok(found)
}

fn first_at(firsts: &[First], number: u32) -> First
    ensures { result ≡ first_of firsts.now number }
{
    let at = number as usize;
    if at < firsts.len() {
        firsts[at]
    } else {
        First {
            place: 0,
            line: 0,
            thread: 0,
        }
    }
}
