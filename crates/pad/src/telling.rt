// The events between two states of a pad.
ghost use Rattle.std.specs.Prelude.{◌≡◌, ◌+◌, ◌≤◌, ◌<◌};
ghost use Rattle.pad.specs.Pads.{place_from, place_of, element_at, changes};
ghost use Rattle.pad.specs.States.{events_in};
ghost use Rattle.pad.specs.Inner.{event_by, IsPlace};

use crate::events::{ELEMENTS, Event, Events};
use line::ev::{AXIS_LAST, Axis, AxisOrBtn, BUTTON_LAST, Button};

// The values of an element before and after.
#[derive(Clone, Copy)]
pub struct Change {
    pub element: AxisOrBtn,
    pub before: i16,
    pub later: i16,
}

// The place of a number of 1 up to the last, those before it passed over; none for another.
fn place_from(first: usize, last: u16, n: u16) -> Option<usize>
    requires { first + last ≤ 27 }
    ensures { IsPlace (place_from first last n) result }
{
    if 1 <= n && n <= last {
        return Some(first + (n as usize - 1));
    }
    None
}

// The place of an element; one that is left out has none.
pub fn place_of(el: AxisOrBtn) -> Option<usize>
    ensures { IsPlace (place_of el) result }
{
    match el {
        AxisOrBtn::Btn(b) => place_from(0, BUTTON_LAST, b.0),
        AxisOrBtn::Axis(a) => place_from(19, AXIS_LAST, a.0),
    }
}

// The element at a place.
pub fn element_at(k: usize) -> AxisOrBtn
    requires { k < 27 }
    ensures { result ≡ element_at k }
{
    if k < 19 {
        return AxisOrBtn::Btn(Button(k as u16 + 1));
    }
    AxisOrBtn::Axis(Axis((k - 19) as u16 + 1))
}

// The event of a change.
pub fn change_event(change: Option<Change>) -> Option<Event>
    ensures { result ≡ event_by change }
{
    let c = change?;
    if c.before == c.later {
        return None;
    }
    let element = c.element;
    let value = c.later;
    Some(Event { element, value })
}

// The events from values to values.
pub fn differences(before: &[i16; ELEMENTS], after: &[i16; ELEMENTS]) -> Events
    ensures { result ≡ events_in (changes 0 before.now after.now) }
{
    let mut events = Events::none();
    for (k, (old, later)) in before.iter().zip(after).enumerate() {
        let value = *later;
        if *old != value {
            let element = element_at(k);
            events.push(Event { element, value });
        }
    }
    events
}
