//! The memory of a trace, behind a pointer that crosses to C.
ghost use Rattle.std.specs.Prelude.{◌≡◌, Option, Some, None, is_some, true};
ghost use Rattle.aero_feed.specs.Feeding.{Feeding};
ghost use Rattle.aero_c.specs.Held.{held_owns};

use crate::loose::Loose;
use aero_feed::Feed;
use std::alloc::Global;
use std::marker::Model;

/// A pointer to a trace that is fed and its memory, or nothing.
#[repr(C)]
#[derive(Drop)]
pub struct Pointer {
    at: *mut u8,
    pub ghost held: { Option Feeding },
}

impl Model for Pointer {
    ghost also_owns = { λ s. held_owns s.at s.held };
}

impl Pointer {
    // Nothing.
    pub(crate) fn none() -> Pointer
        ensures { result.held ≡ None }
    {
        Pointer {
            at: std::ptr::null_mut(),
        }
    }

    // The trace.
    pub(crate) fn of(loose: Loose<Feed, Global>) -> Pointer
        ensures { result.held ≡ Some loose.value }
    {
        let Loose { at, alloc: _ } = loose;
        Pointer { at: at as *mut u8 }
    }

    // The trace that is here.
    pub(crate) fn into_loose(self, alloc: Global) -> Loose<Feed, Global>
        requires { is_some self.held ≡ true }
        ensures { self.held ≡ Some result.value }
    {
        let Pointer { at } = self;
        Loose {
            at: at as *mut Feed,
            alloc,
        }
    }
}
