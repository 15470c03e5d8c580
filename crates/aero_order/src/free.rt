//! Numbers of which the least is taken first.
ghost use Rattle.std.specs.Prelude.{◌≡◌, ◌+◌, ◌<◌, ◌==◌, ℕ, OnOk, IfSome, IfNone};
ghost use Rattle.std.specs.BinaryHeap.{IsHeap, heap_items};
ghost use Rattle.std.specs.Ordering.{nat_cmp};
ghost use Rattle.std.proofs.Props.{props};

use std::alloc::{AllocError, Global};
use std::cmp::Reverse;
use std::collections::BinaryHeap;

/// Numbers, each as often as it was put in.
#[derive(Drop)]
pub struct Free {
    pub heap: BinaryHeap<Reverse<u32>>,
    ghost ordered: { IsHeap (λ x y. nat_cmp y.0 x.0) (heap_items heap) } by { Prim.hlevel props },
}

impl Free {
    ghost use Rattle.aero_order.specs.Waiting.{one_if};
    ghost use Rattle.aero_order.specs.Held.{held};

    /// None.
    pub fn new(alloc: Global) -> Free
        ensures { (w : ℕ) → held result w ≡ 0 }
    {
        Free {
            heap: BinaryHeap::new(alloc),
        }
    }

    /// Puts the number in.
    pub fn hold(&mut self, v: u32) -> Result<(), AllocError>
        ensures { OnOk result ((w : ℕ) → held self.new w ≡ one_if (v == w) + held self.old w) }
    {
        self.heap.push(Reverse(v))?;
        Ok(())
    }

    /// Takes the least number out.
    pub fn take_least(&mut self) -> Option<u32>
        ensures none { IfNone result ((w : ℕ) → held self.old w ≡ 0) }
        ensures some { IfSome result (λ v. (w : ℕ) →
            held self.old w ≡ one_if (v == w) + held self.new w) }
        ensures least { IfSome result (λ v. (w : ℕ) → w < v → held self.old w ≡ 0) }
    {
        match self.heap.pop() {
            Some(Reverse(v)) => Some(v),
            None => None,
        }
    }
}
