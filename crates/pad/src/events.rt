// What a pad reports of a code, and what is told of an element.
ghost use Rattle.std.specs.Prelude.{◌≡◌, ◌<◌, []};
ghost use Rattle.pad.specs.States.{events_in, caught};
ghost use Rattle.pad.specs.Inner.{PushesEvent};

use line::ev::{AxisOrBtn, Button, Code};

// The elements that a pad has events for: buttons 1 to 19 and axes 1 to 8.
pub const ELEMENTS: usize = 27;

// What a pad reports of a code: the event says whether it is a button's or an axis's, not the code.
#[derive(Clone, Copy, PartialEq, Eq)]
pub enum Raw {
    ButtonReleased,
    ButtonPressed,
    AxisValueChanged(i16),
}

// A code with its last raw value.
#[derive(Clone, Copy, PartialEq, Eq)]
pub struct Held {
    pub code: Code,
    pub raw: Raw,
}

// An element's value.
#[derive(Clone, Copy, PartialEq, Eq)]
pub struct Event {
    pub element: AxisOrBtn,
    pub value: i16,
}

impl Event {
    // What stands where no event is.
    pub const UNUSED: Event = Event {
        element: AxisOrBtn::Btn(Button::Unknown),
        value: 0,
    };
}

// At most one event for each element. The count stands beside the array, as in the struct that C reads.
#[derive(Clone, Copy)]
pub struct Events {
    pub count: usize,
    pub list: [Event; ELEMENTS],
}

// The events of one that may be.
impl From<Option<Event>> for Events {
    ghost from_gives = { λ event events. events ≡ events_in (caught event []) };

    fn from(event: Option<Event>) -> Events {
        let mut events = Events::none();
        if let Some(e) = event {
            events.push(e);
        }
        events
    }
}

impl Events {
    // No events.
    #[tactic(auto, unfolding(crate::specs::States::events_in))]
    pub(crate) fn none() -> Events
        ensures { result ≡ events_in [] }
    {
        Events {
            count: 0,
            list: [Event::UNUSED; ELEMENTS],
        }
    }

    // One event more.
    #[tactic(auto, using(crate::proofs::ListLaws::event_pushed))]
    pub(crate) fn push(&mut self, e: Event)
        requires { self.old.count < 27 }
        ensures { PushesEvent self.old e self.new }
    {
        self.list[self.count] = e;
        self.count += 1;
    }
}
