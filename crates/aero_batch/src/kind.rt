//! The kinds of questions.

/// What a question is about: what a chunk says, or what the verdict on a whole source is.
#[derive(Clone, Copy, Debug, PartialEq, Eq)]
pub enum Kind {
    Parse,
    Check,
}
