//! Telling the next source of a run.
ghost use Rattle.std.specs.Prelude.{◌≡◌};
ghost use Rattle.aero_batch.specs.Telling.{TellsNext};
ghost use Rattle.aero_model.specs.CallCounts.{seen_by};
ghost use Rattle.aero_telling.specs.Telling.{HasRoom};

use aero_intake::track::Track;
use aero_model::Counting;
use aero_telling::{Cause, Style, Told, tell_found};
use std::io::Write;

/// Writes the text of the next source, where it is found what is to be said of it, and notes its
/// ending. The answer says whether it is. A refusal changes nothing that was told.
pub(crate) fn tell_next<W: Write>(
    style: Style,
    name: &[u8],
    track: &Track,
    writer: &mut Counting<W>,
    told: &mut Told,
) -> Result<bool, Cause>
    requires room { HasRoom told.old }
    ensures { TellsNext style.form name.now track.now (seen_by W.contents writer.old)
        (seen_by W.contents writer.new) told.old told.new result }
{
    match track {
        Track::Found(found) => tell_found(style, name, found, writer, told),
        Track::Arriving(_) | Track::Arrived { .. } | Track::Checking { .. } => Ok(false),
    }
}
