// The calls of two pads for one player.
ghost use Rattle.std.specs.Prelude.{◌≡◌};
ghost use Rattle.line.specs.Elements.{code_of};
ghost use Rattle.line.specs.Maps.{held};
ghost use Rattle.pad.specs.ValueClaims.{RawWithin};
ghost use Rattle.pad.specs.PadGuarantee.{ShortAll};
ghost use Rattle.pad.specs.TwoPads.{new_pads, pads_raw_event_of, pads_change_map_of, pads_value};
ghost use Rattle.exports.specs.Flat.{element_of};
ghost use Rattle.exports.specs.FlatMaps.{mapping_in};
ghost use Rattle.exports.specs.FlatPads.{raw_of};
ghost use Rattle.exports.specs.FlatTwo.{which_of, flat_pads_told};

use crate::flat::{FlatElement, FlatRefusal};
use crate::flat_mapping::FlatMapping;
use crate::pad_calls::raw_of;
use crate::state_calls::{FlatEvent, flat_events};
use line::ev::Code;
use pad::events::{ELEMENTS, Events};
use pad::state::{TooManyCodes, pad_outcome};
use pad::two::{Pads, Which};

// The state after a call, and its events: the first `count` of the list. FlatTold with two pads: C has no
// generic structs.
#[repr(C)]
#[derive(Clone, Copy)]
pub struct FlatPadsTold {
    pub refusal: FlatRefusal,
    pub pads: Pads,
    pub count: usize,
    pub events: [FlatEvent; ELEMENTS],
}

// The pad that a call is for, by the flag.
fn which_of(second: bool) -> Which
    ensures { result ≡ which_of second }
{
    if second { Which::Second } else { Which::First }
}

impl FlatPadsTold {
    // A state of which nothing is told yet, as FlatTold has it.
    fn of(pads: Pads) -> FlatPadsTold
        ensures { result.pads ≡ pads }
    {
        FlatPadsTold {
            refusal: FlatRefusal::NONE,
            pads,
            count: 0,
            events: [FlatEvent::NONE; ELEMENTS],
        }
    }

    // What a call gave.
    #[tactic(auto, unfolding(crate::specs::FlatTwo::flat_pads_told))]
    fn tell(&mut self, answer: Result<(), TooManyCodes>, events: &Events)
        ensures { self.new ≡ flat_pads_told (record { answer = answer; pads = self.old.pads; events = events.now }) }
    {
        self.refusal = pad_outcome(answer).into();
        self.count = events.count;
        self.events = flat_events(events);
    }
}

#[unsafe(no_mangle)]
pub extern "C" fn raspteal_pads_new() -> Pads
    ensures { result ≡ new_pads }
{
    Pads::new()
}

#[unsafe(no_mangle)]
pub extern "C" fn raspteal_pads_raw_event(
    pads: Pads,
    second: bool,
    code: u32,
    raw: u8,
    v: i16,
) -> FlatPadsTold
    ensures { (result ≡ flat_pads_told (pads_raw_event_of pads (which_of second) (code_of code) (raw_of raw v)))
        × RawWithin (raw_of raw v) }
{
    let mut told = FlatPadsTold::of(pads);
    match told
        .pads
        .raw_event(which_of(second), Code(code), raw_of(raw, v))
    {
        Ok(event) => told.tell(Ok(()), &Events::from(event)),
        Err(e) => told.tell(Err(e), &Events::from(None)),
    }
    told
}

#[unsafe(no_mangle)]
pub extern "C" fn raspteal_pads_change_map(
    pads: Pads,
    second: bool,
    map: FlatMapping,
) -> FlatPadsTold
    ensures { (result ≡ flat_pads_told (pads_change_map_of pads (which_of second) (mapping_in map)))
        × ShortAll (held (mapping_in map)) }
{
    let mut told = FlatPadsTold::of(pads);
    let events = told.pads.change_map(which_of(second), &map.into());
    told.tell(Ok(()), &events);
    told
}

#[unsafe(no_mangle)]
pub extern "C" fn raspteal_pads_value(pads: Pads, e: FlatElement) -> i16
    ensures { result ≡ pads_value pads (element_of e) }
{
    pads.value(e.into())
}
