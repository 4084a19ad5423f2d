// From raw value to element value: what a raw event is worth to the element of its code.
ghost use Rattle.std.specs.Prelude.{◌≡◌};
ghost use Rattle.line.specs.Maps.{held};
ghost use Rattle.pad.specs.Values.{entry_value, emitted_by, event_of};

use crate::events::{Event, Raw};
use crate::lines::{line_of, raw_step};
use line::ev::Code;
use line::mapping::{Entry, Mapping};

// What a raw value gives to the element of an entry: a value, or none.
pub fn entry_value(e: Entry, raw: Raw) -> Option<i16>
    ensures { result ≡ entry_value e raw }
{
    // The value is computed whatever comes, also where there is none: lines.rt says why no branch asks.
    let line = line_of(e.element, e.ranges, raw);
    let v = raw_step(raw);
    line.counts(v).then_some(line.along(v))
}

// The element of an entry with that value, or none.
pub(crate) fn entry_event(e: Entry, raw: Raw) -> Option<Event>
    ensures { result ≡ emitted_by e raw }
{
    let value = entry_value(e, raw)?;
    let element = e.element;
    Some(Event { element, value })
}

// What a raw value of a code gives by a map: its element and the value, or none.
#[tactic(auto, unfolding(crate::specs::Values::event_of))]
pub fn event(map: &Mapping, code: Code, raw: Raw) -> Option<Event>
    ensures { result ≡ event_of (held map.now) code raw }
{
    let e = map.entry(code)?;
    entry_event(e, raw)
}
