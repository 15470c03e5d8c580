//! What an event by numbers is.
/// What an event does, with its target's number. A begin has the number of its label, if it has a
/// label. `Exempt` is what a begin or an end is judged as that is no transaction's: an event of its
/// thread, and nothing more. No line says it.
#[derive(Clone, Copy, Debug, PartialEq, Eq)]
pub enum What {
    Read(u32),
    Write(u32),
    Acquire(u32),
    Release(u32),
    Fork(u32),
    Join(u32),
    Begin(Option<u32>),
    End,
    Exempt,
}

/// An event: the number of its thread, and what it does.
#[derive(Clone, Copy, Debug, PartialEq, Eq)]
pub struct Numbered {
    pub thread: u32,
    pub what: What,
}
