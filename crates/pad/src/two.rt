// Two pads for one player: a second pad plays along.
ghost use Rattle.std.specs.Prelude.{◌≡◌};
ghost use Rattle.std.specs.Borrow.{sem};
ghost use Rattle.line.specs.Maps.{held};
ghost use Rattle.pad.specs.ValueClaims.{RawWithin};
ghost use Rattle.pad.specs.States.{events_in, change_map_of};
ghost use Rattle.pad.specs.PadGuarantee.{ShortAll, told_events};
ghost use Rattle.pad.specs.TwoPads.{farther, pads_value, new_pads, pad_of, with_pad, pads_told_by, pads_raw_event_of};
ghost use Rattle.pad.specs.TwoPads.{pads_change_map_of};
ghost use Rattle.pad.specs.Inner.{PutsCode, LendsPad, TellsFew, pad_beside, joined_of, joined_by, refined};

use crate::events::{Event, Events, Raw};
use crate::put::put_code;
use crate::state::{Pad, TooManyCodes};
use crate::telling::{Change, change_event};
use crate::values::value_of;
use line::ev::{AxisOrBtn, Code};
use line::mapping::Mapping;

// The two pads of one player, each with codes and a map of its own. repr(C), since C programs hold the same struct.
#[repr(C)]
#[derive(Clone, Copy)]
pub struct Pads {
    pub first: Pad,
    pub second: Pad,
}

// The pad that a call is for.
#[derive(Clone, Copy, PartialEq, Eq)]
pub enum Which {
    First,
    Second,
}

impl Pads {
    // No codes and the empty map, on both pads.
    #[tactic(auto, unfolding(crate::specs::TwoPads::new_pads))]
    pub fn new() -> Pads
        ensures { result ≡ new_pads }
    {
        Pads {
            first: Pad::new(),
            second: Pad::new(),
        }
    }

    // A raw value of a code of one pad, and the event of its element, if that has another value now. A 257th code of
    // that pad is refused, and nothing is changed.
    pub fn raw_event(
        &mut self,
        which: Which,
        code: Code,
        raw: Raw,
    ) -> Result<Option<Event>, TooManyCodes>
        ensures { (pads_told_by result self.new ≡ pads_raw_event_of self.old which code raw) × RawWithin raw }
    {
        let change = self.put(which, code, raw)?;
        Ok(joined_change(which, change, self.beside(which)))
    }

    // Another map for one pad, and an event for each element that has another value now.
    pub fn change_map(&mut self, which: Which, map: &Mapping) -> Events
        ensures told { result ≡ (pads_change_map_of self.old which map.now).events }
        ensures left { self.new ≡ (pads_change_map_of self.old which map.now).pads }
        ensures short { ShortAll (held map.now) }
    {
        let own = *self.pad(which);
        let told = self.change(which, map);
        joined_events(which, &own, self.beside(which), told)
    }

    // The value of an element: that of the pad where it is farther from zero, the first one's between equals.
    pub fn value(&self, element: AxisOrBtn) -> i16
        ensures { result ≡ pads_value self.now element }
    {
        farthest(
            value_of(&self.first, element),
            value_of(&self.second, element),
        )
    }

    // A raw value of a code put into the pad that a call is for.
    fn put(&mut self, which: Which, code: Code, raw: Raw) -> Result<Option<Change>, TooManyCodes>
        ensures told { PutsCode (pad_of which self.old) code raw result (pad_of which self.new) }
        ensures there { self.new ≡ with_pad which self.old (pad_of which self.new) }
        ensures within { RawWithin raw }
    {
        put_code(self.pad_mut(which), code, raw)
    }

    // Another map for the pad that a call is for, and that pad's events.
    fn change(&mut self, which: Which, map: &Mapping) -> Events
        ensures told { result ≡ (change_map_of (pad_of which self.old) map.now).events }
        ensures left { self.new ≡ with_pad which self.old (change_map_of (pad_of which self.old) map.now).pad }
        ensures short { ShortAll (held map.now) }
    {
        self.pad_mut(which).change_map(map)
    }

    // The pad that a call is for.
    fn pad(&self, which: Which) -> &Pad
        ensures { result.now ≡ pad_of which self.now }
    {
        match which {
            Which::First => &self.first,
            Which::Second => &self.second,
        }
    }

    // The same, lent to be changed: the other one stays as it is.
    fn pad_mut(&mut self, which: Which) -> &mut Pad
        ensures* writes_back { sem 𝓛 (LendsPad which self.entry result) }
        ensures lent { result.now ≡ pad_of which self.old }
    {
        match which {
            Which::First => &mut self.first,
            Which::Second => &mut self.second,
        }
    }

    // The other one. A function of its own beside `pad`: its body is the same two lines the other way round, and a call
    // with the other `Which` would need a function that turns it round.
    fn beside(&self, which: Which) -> &Pad
        ensures { result.now ≡ pad_beside which self.now }
    {
        match which {
            Which::First => &self.second,
            Which::Second => &self.first,
        }
    }
}

// The value that is farther from zero, the first one between equals.
fn farthest(a: i16, b: i16) -> i16
    ensures { result ≡ farther a b }
{
    if a.unsigned_abs() < b.unsigned_abs() {
        return b;
    }
    a
}

// An element's value by a pad and by the one beside it, the first one's between equals.
fn joined(which: Which, own: i16, beside: i16) -> i16
    ensures { result ≡ joined_of which own beside }
{
    match which {
        Which::First => farthest(own, beside),
        Which::Second => farthest(beside, own),
    }
}

// What becomes of a pad's change when another pad plays along.
fn joined_change(which: Which, change: Option<Change>, beside: &Pad) -> Option<Event>
    ensures { result ≡ joined_by which beside.now change }
{
    let c = change?;
    if c.before == c.later {
        return None;
    }
    let element = c.element;
    let other = value_of(beside, element);
    let before = joined(which, c.before, other);
    let later = joined(which, c.later, other);
    change_event(Some(Change {
        element,
        before,
        later,
    }))
}

// What becomes of a pad's events, own being the pad as it was before.
fn joined_events(which: Which, own: &Pad, beside: &Pad, told: Events) -> Events
    requires { TellsFew told }
    ensures { result ≡ events_in (refined which own.now beside.now (told_events told)) }
{
    let mut events = Events::none();
    for e in &told.list[..told.count] {
        let element = e.element;
        let before = value_of(own, element);
        let later = e.value;
        let change = Change {
            element,
            before,
            later,
        };
        if let Some(joint) = joined_change(which, Some(change), beside) {
            events.push(joint);
        }
    }
    events
}
