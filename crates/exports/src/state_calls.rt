// The calls of a pad while a game runs.
ghost use Rattle.std.specs.Prelude.{◌≡◌, map};
ghost use Rattle.line.specs.Elements.{code_of};
ghost use Rattle.line.specs.Maps.{held};
ghost use Rattle.pad.specs.ValueClaims.{RawWithin};
ghost use Rattle.pad.specs.States.{new_pad, raw_event_of, change_map_of, pad_value};
ghost use Rattle.pad.specs.PadGuarantee.{ShortAll};
ghost use Rattle.exports.specs.Flat.{element_of};
ghost use Rattle.exports.specs.FlatMaps.{mapping_in};
ghost use Rattle.exports.specs.FlatPads.{raw_of, flat_event, flat_told};

use crate::flat::{FlatElement, FlatRefusal};
use crate::flat_mapping::FlatMapping;
use crate::pad_calls::raw_of;
use line::ev::Code;
use pad::events::{ELEMENTS, Event, Events};
use pad::state::{Pad, TooManyCodes, pad_outcome};
use std::array;

#[repr(C)]
#[derive(Clone, Copy)]
pub struct FlatEvent {
    pub element: FlatElement,
    pub value: i16,
}

// The state after a call, and its events: the first `count` of the list. C's struct, as FlatMapping is.
#[repr(C)]
#[derive(Clone, Copy)]
pub struct FlatTold {
    pub refusal: FlatRefusal,
    pub pad: Pad,
    pub count: usize,
    pub events: [FlatEvent; ELEMENTS],
}

impl FlatEvent {
    pub const NONE: FlatEvent = FlatEvent {
        element: FlatElement::NONE,
        value: 0,
    };
}

impl From<Event> for FlatEvent {
    ghost from_gives = { λ e f. f ≡ flat_event e };

    fn from(e: Event) -> FlatEvent {
        FlatEvent {
            element: e.element.into(),
            value: e.value,
        }
    }
}

// The list of events, laid out one by one; C has its count beside it.
pub fn flat_events(events: &Events) -> [FlatEvent; ELEMENTS]
    ensures { result ≡ map flat_event events.now.list }
{
    array::from_fn(|i| events.list[i].into())
}

impl FlatTold {
    // A state of which nothing is told yet. A call changes the pad where it stands here, which spares a copy.
    fn of(pad: Pad) -> FlatTold
        ensures { result.pad ≡ pad }
    {
        FlatTold {
            refusal: FlatRefusal::NONE,
            pad,
            count: 0,
            events: [FlatEvent::NONE; ELEMENTS],
        }
    }

    // What a call gave.
    #[tactic(auto, unfolding(crate::specs::FlatPads::flat_told))]
    fn tell(&mut self, answer: Result<(), TooManyCodes>, events: &Events)
        ensures { self.new ≡ flat_told (record { answer = answer; pad = self.old.pad; events = events.now }) }
    {
        self.refusal = pad_outcome(answer).into();
        self.count = events.count;
        self.events = flat_events(events);
    }
}

#[unsafe(no_mangle)]
pub extern "C" fn raspteal_pad_new() -> Pad
    ensures { result ≡ new_pad }
{
    Pad::new()
}

#[unsafe(no_mangle)]
pub extern "C" fn raspteal_pad_raw_event(pad: Pad, code: u32, raw: u8, v: i16) -> FlatTold
    ensures { (result ≡ flat_told (raw_event_of pad (code_of code) (raw_of raw v))) × RawWithin (raw_of raw v) }
{
    let mut told = FlatTold::of(pad);
    match told.pad.raw_event(Code(code), raw_of(raw, v)) {
        Ok(event) => told.tell(Ok(()), &Events::from(event)),
        Err(e) => told.tell(Err(e), &Events::from(None)),
    }
    told
}

#[unsafe(no_mangle)]
pub extern "C" fn raspteal_pad_change_map(pad: Pad, map: FlatMapping) -> FlatTold
    ensures { (result ≡ flat_told (change_map_of pad (mapping_in map))) × ShortAll (held (mapping_in map)) }
{
    let mut told = FlatTold::of(pad);
    let events = told.pad.change_map(&map.into());
    told.tell(Ok(()), &events);
    told
}

#[unsafe(no_mangle)]
pub extern "C" fn raspteal_pad_value(pad: Pad, e: FlatElement) -> i16
    ensures { result ≡ pad_value pad (element_of e) }
{
    pad.value(e.into())
}
