//! Last events of variables and locks.

/// An event: the thread that made it, and how many events there were up to it and with it. 0 where
/// there was no such event.
#[derive(Clone, Copy)]
pub struct Last {
    pub thread: u32,
    pub count: u32,
}

impl Last {
    ghost use Rattle.std.specs.Prelude.{◌≡◌};
    ghost use Rattle.aero_leads.specs.Kept.{last};

    /// No event.
    pub(crate) fn none() -> Last
        ensures { result ≡ last 0 0 }
    {
        Last {
            thread: 0,
            count: 0,
        }
    }
}
