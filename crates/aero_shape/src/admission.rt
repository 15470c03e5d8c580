/// What an event is that was admitted.
#[derive(Clone, Copy, Debug, PartialEq, Eq)]
pub enum Admitted {
    /// Any event but those below. `in_block` says whether it lies in a block of its thread, and an
    /// inner begin and an inner end do.
    Plain { in_block: bool },
    /// A begin where no block of the thread was open.
    OuterBegin,
    /// The end of the thread's only open block.
    OuterEnd,
    /// A join of a thread that has made no event, in a block of the joining thread or outside.
    IdleJoin,
}
