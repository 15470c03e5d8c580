//! What a program in C holds.
ghost use Rattle.std.specs.Prelude.{◌≡◌, Some, None, is_some, option_map};

use crate::loose::Loose;
use crate::pointer::Pointer;
use aero_feed::Feed;
use std::alloc::Global;
use std::mem;

/// A trace, or none. C sees a pointer and whether there is a trace, and changes neither. All bytes 0 are none.
#[repr(C)]
#[derive(Drop)]
pub struct Holder {
    pub pointer: Pointer,
    pub is_held: bool,
    pub ghost told: { is_held ≡ is_some pointer.held },
}

// Takes the trace out, if there is one.
pub(crate) fn take(alloc: Global, monitor: &mut Holder) -> Option<Box<Feed>>
    ensures held { option_map (λ feed. feed.value) result ≡ monitor.old.pointer.held }
    ensures none { monitor.new.pointer.held ≡ None }
{
    let none = Holder {
        pointer: Pointer::none(),
        is_held: false,
    };
    let Holder { pointer, is_held } = mem::replace(monitor, none);
    if is_held {
        return Some(pointer.into_loose(alloc).into_box());
    }
    None
}

// Puts a trace into a monitor that has none.
pub(crate) fn put(monitor: &mut Holder, feed: Box<Feed>)
    ensures { monitor.new.pointer.held ≡ Some feed.value }
{
    *monitor = Holder {
        pointer: Pointer::of(Loose::of(feed)),
        is_held: true,
    };
}
