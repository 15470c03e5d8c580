//! The faults in words.
ghost use Rattle.std.specs.Prelude.{◌≡◌};
ghost use Rattle.aero_model.specs.Words.{line_words as line_words_of, shape_words as shape_words_of};

use crate::verdict::{LineFault, ShapeFault};

/// What is wrong with a malformed line, whatever it says.
pub fn line_words(fault: LineFault) -> &'static str
    ensures { result.now ≡ line_words_of fault }
{
    match fault {
        LineFault::TooLong => "the line has over 4096 bytes",
        LineFault::BadByte => "the line has a control byte",
        LineFault::NoOperation => "no | after the thread",
        LineFault::EmptyThread => "no thread before the |",
        LineFault::UnknownOperation => "no such operation",
        LineFault::BadParenthesis => "no ) at the operation's end",
        LineFault::MissingTarget => "the operation has no target",
        LineFault::NameTooLong => "a name has over 255 bytes",
        LineFault::TooManyLines => "more lines than an input may have",
        LineFault::Memory => "out of memory",
    }
}

/// What is wrong with an ill-formed event, whatever stands in its way.
pub fn shape_words(fault: ShapeFault) -> &'static str
    ensures { result.now ≡ shape_words_of fault }
{
    match fault {
        ShapeFault::TooManyThreads => "more threads than an input may have",
        ShapeFault::TooManyNames => "more variables or locks than an input may have",
        ShapeFault::ThreadJoined => "the thread acts after it was joined",
        ShapeFault::LockHeldByOther => "another thread holds the lock",
        ShapeFault::LockNotHeld => "the thread doesn't hold the lock",
        ShapeFault::ForkSelf => "the thread forks itself",
        ShapeFault::ForkStarted => "the forked thread has acted, or was forked or joined, before",
        ShapeFault::JoinSelf => "the thread joins itself",
        ShapeFault::EndWithoutBegin => "the thread ends a block, but has no open block",
        ShapeFault::Memory => "out of memory",
    }
}
