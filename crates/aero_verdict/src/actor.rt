//! Who made the event on a line.
ghost use Rattle.std.specs.Prelude.{◌≡◌, ◌<◌, length, Some};
ghost use Rattle.std.specs.Option.{option_copied};
ghost use Rattle.aero_model.specs.Named.{Named};
ghost use Rattle.aero_grammar.specs.Reading.{whole_reading};
ghost use Rattle.aero_grammar.specs.Tabled.{name_at};
ghost use Rattle.aero_verdict.specs.Actors.{actor_on};
ghost use Rattle.aero_verdict.specs.Spots.{named_at};

use crate::on_line::spot_on;
use aero_grammar::Parsed;
use aero_names::NameList;

/// The name of the actor of the event on this line, whatever the limits, if there is one. Lines count
/// from 1 through all parts, and what follows a part with a fault is ignored.
pub fn actor_at(parts: &[Parsed], line: u32) -> Option<&[u8]>
    ensures { option_copied result ≡ actor_on line (whole_reading parts.now).events }
{
    match spot_on(parts, line) {
        Some(spot) => Some(thread_at(spot.part, spot.place)),
        None => None,
    }
}

// The thread of the event at this place of the part.
fn thread_at(part: &Parsed, place: usize) -> &[u8]
    requires { place < length part.now.events }
    ensures { (event : Named) × (named_at part.now place ≡ Some event) ×
        (result.now ≡ event.thread) }
{
    let (_, event) = part.events[place].parts();
    name_in(&part.threads, event.thread)
}

fn name_in(names: &NameList, number: u32) -> &[u8]
    requires { number < length names.now }
    ensures { result.now ≡ name_at names.now number }
{
    match names.name(number) {
        Some(name) => name,
        None => unreachable!(),
    }
}
