// A pad while a game runs: the codes that it has reported with their last raw values, and the current map.
ghost use Rattle.std.specs.Prelude.{◌≡◌};
ghost use Rattle.pad.specs.ValueClaims.{RawWithin};
ghost use Rattle.pad.specs.States.{new_pad, told_by, raw_event_of, change_map_of, pad_value, with_map, entry_numbers};
ghost use Rattle.pad.specs.PadGuarantee.{ShortAll};
ghost use Rattle.pad.specs.Refusals.{pad_outcome};
ghost use Rattle.line.specs.Maps as specs;
ghost use Rattle.line.specs.Refusals.{refusal};

use crate::events::{Event, Events, Raw};
use crate::put::put_code;
use crate::telling::{change_event, differences};
use crate::values::{all_values, value_of};
use line::ev::{AxisOrBtn, Code};
use line::mapping::{CODES_MAX, Mapping};
use line::refusal::Refusal;

// The most codes that a pad holds.
pub const HELD_MAX: usize = 256;

// Held codes and the entries of the map, as numbers. Any numbers mean something: counts over 256 are read as 256.
// The counts stand beside the arrays, and the codes are numbers, since this is the struct that a C program holds and
// hands in: a `Held` could not hold each number that may come in, and would ask more of that program.
#[repr(C)]
#[derive(Clone, Copy)]
pub struct Pad {
    pub count: usize,
    pub held: [u64; HELD_MAX],
    pub entry_count: usize,
    pub entries: [u64; CODES_MAX],
}

// A raw event for a 257th code.
#[derive(Clone, Copy, PartialEq, Eq)]
pub struct TooManyCodes;

impl TooManyCodes {
    // Number of the refusal.
    fn refusal(self) -> Refusal
        ensures { result ≡ refusal 27 }
    {
        Refusal::plain(27)
    }
}

// The answer of a raw event or a change of map, with the refusal's number.
pub fn pad_outcome(answer: Result<(), TooManyCodes>) -> Result<(), Refusal>
    ensures { result ≡ pad_outcome answer }
{
    answer.map_err(TooManyCodes::refusal)
}

impl Pad {
    // No codes and the empty map.
    #[tactic(auto, unfolding(crate::specs::States::new_pad))]
    pub fn new() -> Pad
        ensures { result ≡ new_pad }
    {
        Pad {
            count: 0,
            held: [0; HELD_MAX],
            entry_count: 0,
            entries: [0; CODES_MAX],
        }
    }

    // A raw value of a code, which the pad holds then: the event of its element, if that has another value now.
    // A 257th code is refused, and nothing is changed.
    pub fn raw_event(&mut self, code: Code, raw: Raw) -> Result<Option<Event>, TooManyCodes>
        ensures { (told_by result self.new ≡ raw_event_of self.old code raw) × RawWithin raw }
    {
        Ok(change_event(put_code(self, code, raw)?))
    }

    // Another map, and an event for each element that has another value now.
    pub fn change_map(&mut self, map: &Mapping) -> Events
        ensures told { result ≡ (change_map_of self.old map.now).events }
        ensures left { self.new ≡ (change_map_of self.old map.now).pad }
        ensures short { ShortAll (specs.held map.now) }
    {
        let before = all_values(self);
        self.take_map(*map);
        differences(&before, &all_values(self))
    }

    // A map's entries in the place of those before. The map is taken by value: of one that is lent by another crate it
    // is not known that its array has 256 entries.
    fn take_map(&mut self, map: Mapping)
        ensures { (self.new ≡ with_map self.old map) × ShortAll (specs.held map) }
    {
        self.entry_count = map.count.min(CODES_MAX);
        self.entries = entry_numbers(map);
    }

    // The value of an element; 0 for one that is left out.
    pub fn value(&self, element: AxisOrBtn) -> i16
        ensures { result ≡ pad_value self.now element }
    {
        value_of(self, element)
    }
}

// The entries of a map as numbers, and 0 up to 256 of them. By place: `iter_mut().zip(..)` was tried, and once the loop
// is over a proof is told nothing of what it wrote.
fn entry_numbers(map: Mapping) -> [u64; CODES_MAX]
    ensures { (result ≡ entry_numbers (specs.held map)) × ShortAll (specs.held map) }
{
    let n = map.count.min(CODES_MAX);
    let mut numbers = [0u64; CODES_MAX];
    for i in 0..n {
        let e = map.entries[i];
        numbers[i] = e.number();
    }
    numbers
}
