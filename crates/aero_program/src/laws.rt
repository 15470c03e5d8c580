//! The laws of files whose bytes are known.
ghost use Rattle.aero_program.specs.Laws.{KnownBytesAreJudged, KnownFilesAreJudged};

use crate::files::Opener;

/// What a run tells of a source whose bytes are known is told of a front of these, and of all where the source was read to
/// its end.
pub fn known_bytes_are_judged()
    ensures { KnownBytesAreJudged }
{}

/// What the program tells of a file that a word names, where the opener tells its bytes and never fails at its path, is what
/// the definitions say of these bytes, all of them.
pub fn known_files_are_judged<F: Opener>()
    ensures { KnownFilesAreJudged F.can_fail F.holds }
{}
