//! Where the event on a line stands.
ghost use Rattle.std.specs.Prelude.{◌≡◌, map, option_map, Some};
ghost use Rattle.aero_grammar.specs.Reading.{after_lines, whole_reading};
ghost use Rattle.aero_verdict.specs.Actors.{named_on};
ghost use Rattle.aero_verdict.specs.Spots.{named_at, named_spot};

use aero_grammar::Parsed;

// An event of a part, by its place in it.
#[derive(Clone, Copy)]
pub(crate) struct Spot<'a> {
    pub part: &'a Parsed,
    pub place: usize,
}

// Where the event on this line stands, whatever the limits, if there is one. Lines count from 1 through
// all parts, and what follows a part with a fault is ignored.
pub(crate) fn spot_on(parts: &[Parsed], line: u32) -> Option<Spot<'_>>
    ensures { option_map named_spot result ≡
        option_map Some (named_on line (whole_reading parts.now).events) }
{
    let mut before = 0u32;
    for part in parts {
        let place = place_in_part(part, before, line);
        if let Some(place) = place {
            return Some(Spot { part, place });
        }
        if part.fault.is_some() {
            return None;
        }
        before = before.saturating_add(part.lines);
    }
    None
}

// The place of the event of the part that is on this line, where so many lines stand before.
fn place_in_part(part: &Parsed, before: u32, line: u32) -> Option<usize>
    ensures { option_map (named_at part.now) result ≡
        option_map Some (named_on line (map (after_lines before) part.now.events)) }
{
    if before < line && line - before <= part.lines {
        place_in(part, line - before)
    } else {
        None
    }
}

fn place_in(part: &Parsed, line: u32) -> Option<usize>
    ensures { option_map (named_at part.now) result ≡
        option_map Some (named_on line part.now.events) }
{
    let events = part.events.as_slice();
    for place in 0..events.len() {
        let (at, _) = events[place].parts();
        if at == line {
            return Some(place);
        }
    }
    None
}
