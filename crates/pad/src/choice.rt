// Which of the held codes an element takes its value from. Held codes and entries are numbers in two lent slices, which
// `codes` and `rows` cut from a pad: its counts may be over the most, and here none is left.
ghost use Rattle.std.specs.Prelude.{◌≡◌, ◌≤◌, ◌/◌, ◌%◌, ◌==◌, length, map, position, take};
ghost use Rattle.line.specs.Maps.{entry_at};
ghost use Rattle.line.specs.Numbers.{code_unit, entry_in};
ghost use Rattle.pad.specs.Pads.{gives, preferred, choose, value_of};
ghost use Rattle.pad.specs.States.{held_in};
ghost use Rattle.pad.specs.Values.{event_of};
ghost use Rattle.pad.specs.Inner.{chosen_by, place_in, Marked, AllChosen, CountsIn};
ghost use Rattle.pad.specs.Inner.{is_wanted, Listed_in, FreshFrom, Counts};

use crate::events::{ELEMENTS, Event, Held};
use crate::numbers::held_of;
use crate::telling::place_of;
use crate::value::{entry_event, entry_value};
use line::ev::{AxisOrBtn, Code};
use line::mapping::{CODE_UNIT, CODES_MAX, Entry};

// How many marks there are.
const MARKS: usize = 256;

// A code and the value that it gives.
#[derive(Clone, Copy)]
pub struct Best {
    pub code: u32,
    pub value: i16,
}

// The first place of a code among numbers of held codes or of entries.
fn code_place(numbers: &[u64], code: Code) -> Option<usize>
    ensures { result ≡ position (λ x. (x / code_unit) == code.0) numbers.now }
{
    numbers.iter().position(|x| *x / CODE_UNIT == code.0 as u64)
}

// The place of a code among those that are held; how many there are where it is not there, since a new code is put
// there: the caller has one step for both.
#[tactic(auto, using(crate::proofs::NumberLaws::place_or))]
pub fn held_place(held: &[u64], code: Code) -> usize
    ensures { (result ≡ place_in code.0 held.now) × (result ≤ length held.now) }
{
    code_place(held, code).unwrap_or(held.len())
}

// The first entry of a code.
pub fn first_entry(entries: &[u64], code: Code) -> Option<Entry>
    ensures { result ≡ entry_at (map entry_in entries.now) code }
{
    let i = code_place(entries, code)?;
    Some(Entry::of_number(entries[i]))
}

// What a held code gives to an element: the value of its first entry, if that is of the element.
fn given(entries: &[u64], h: Held, el: AxisOrBtn) -> Option<i16>
    ensures { result ≡ gives (map entry_in entries.now) h el }
{
    let e = first_entry(entries, h.code).filter(|e| e.element == el)?;
    entry_value(e, h.raw)
}

// The farther from zero of the two; between equals that of the smaller code.
fn farther(first: Best, other: Best) -> Best
    ensures { chosen_by (Some result) ≡ preferred first.code first.value (chosen_by (Some other)) }
{
    let far = first.value.unsigned_abs();
    let beside = other.value.unsigned_abs();
    if beside < far {
        return first;
    }
    if far < beside {
        return other;
    }
    if first.code < other.code {
        first
    } else {
        other
    }
}

// The same where there is none to choose from beside the first.
fn prefer(first: Best, rest: Option<Best>) -> Best
    ensures { chosen_by (Some result) ≡ preferred first.code first.value (chosen_by rest) }
{
    rest.map_or(first, |other| farther(first, other))
}

// Whether an entry of an element is wanted: those of one element are, or of each that has events.
fn is_wanted(of: Option<AxisOrBtn>, element: AxisOrBtn) -> bool
    ensures { result ≡ is_wanted of element }
{
    match of {
        Some(el) => element == el,
        None => place_of(element).is_some(),
    }
}

// Whether an entry counts, by those before it: it is wanted, and the first of its code. Codes from `fresh` on have not
// been met, so that entries in the order of their codes, as those of a map are, are not sought among the ones before.
fn counts(before: &[u64], fresh: u64, x: u64, of: Option<AxisOrBtn>) -> bool
    requires { FreshFrom fresh before.now }
    ensures { Counts of before.now x result }
{
    let e = Entry::of_number(x);
    is_wanted(of, e.element) && (fresh <= x / CODE_UNIT || first_entry(before, e.code).is_none())
}

// Lists the entries that count, and says how many there are: the others are passed over once, and not for each held
// code.
fn list_entries(room: &mut [u64; CODES_MAX], entries: &[u64], of: Option<AxisOrBtn>) -> usize
    requires { length entries.now ≤ 256 }
    ensures { Listed_in of entries.now (take result room.new) × (result ≤ 256) }
{
    let mut count = 0;
    let mut fresh = 0;
    for (j, x) in entries.iter().enumerate() {
        if counts(&entries[..j], fresh, *x, of) {
            room[count] = *x;
            count += 1;
        }
        fresh = fresh.max(x / CODE_UNIT + 1);
    }
    count
}

// The codes that may give to an element are marked, by what is left of them over 256: a code that is not marked has no
// entry of the element. Most held codes are passed over by one look at these, and not looked up in the map.
fn mark(marks: &mut [bool; MARKS], entries: &[u64], el: AxisOrBtn)
    ensures { Marked el entries.now marks.new }
{
    for x in entries.iter().rev() {
        let e = Entry::of_number(*x);
        if e.element == el {
            marks[mark_of(*x)] = true;
        }
    }
}

// The place of a number's code among the marks.
fn mark_of(x: u64) -> usize
    ensures { result ≡ x / code_unit % 256 }
{
    (x / CODE_UNIT) as usize % MARKS
}

// The code and the value that an element has. From the last code on, as the definition chooses.
fn best_of(held: &[u64], entries: &[u64], el: AxisOrBtn) -> Option<Best>
    ensures { chosen_by result ≡ choose (map held_in held.now) (map entry_in entries.now) el }
{
    let mut marks = [false; MARKS];
    mark(&mut marks, entries, el);
    let mut best = None;
    for x in held.iter().rev() {
        if marks[mark_of(*x)] {
            let h = held_of(*x);
            if let Some(value) = given(entries, h, el) {
                let code = h.code.0;
                best = Some(prefer(Best { code, value }, best));
            }
        }
    }
    best
}

// The value of an element; 0 where no code gives it one. The entries that count for it are listed first; where there are
// more entries than the list has room for, all of them are asked.
pub fn element_value(held: &[u64], entries: &[u64], el: AxisOrBtn) -> i16
    ensures { result ≡ value_of (map held_in held.now) (map entry_in entries.now) el }
{
    let mut room = [0; CODES_MAX];
    let own = if entries.len() > CODES_MAX {
        entries
    } else {
        let n = list_entries(&mut room, entries, Some(el));
        &room[..n]
    };
    best_of(held, own, el).map_or(0, |best| best.value)
}

// The element of a held code with the value that it gives.
#[tactic(auto, unfolding(crate::specs::Values::event_of))]
fn told_by(entries: &[u64], h: Held) -> Option<Event>
    ensures { result ≡ event_of (map entry_in entries.now) h.code h.raw }
{
    entry_event(first_entry(entries, h.code)?, h.raw)
}

// One held code more, which counts for the element of its entry alone.
fn count_in(bests: &mut [Option<Best>; ELEMENTS], code: u32, e: Event)
    ensures { CountsIn code e bests.old bests.new }
{
    if let Some(k) = place_of(e.element) {
        let value = e.value;
        bests[k] = Some(prefer(Best { code, value }, bests[k]));
    }
}

// The codes and the values that all elements have, in one pass over the held codes.
fn bests_of(held: &[u64], entries: &[u64]) -> [Option<Best>; ELEMENTS]
    ensures { AllChosen (map held_in held.now) (map entry_in entries.now) result }
{
    let mut bests = [None; ELEMENTS];
    for x in held.iter().rev() {
        let h = held_of(*x);
        if let Some(e) = told_by(entries, h) {
            count_in(&mut bests, h.code.0, e);
        }
    }
    bests
}

// The same by the entries that count for any element, which are listed first; where there are more entries than the list
// has room for, by all of them.
pub fn all_bests(held: &[u64], entries: &[u64]) -> [Option<Best>; ELEMENTS]
    ensures { AllChosen (map held_in held.now) (map entry_in entries.now) result }
{
    let mut room = [0; CODES_MAX];
    let counted = if entries.len() > CODES_MAX {
        entries
    } else {
        let n = list_entries(&mut room, entries, None);
        &room[..n]
    };
    bests_of(held, counted)
}

#[cfg(test)]
mod tests {
    use super::*;
    use crate::events::Raw;
    use line::ev::Button;

    // 300 entries, and the last 256 of them. Those of codes 299, 298 and 44 count among both, that of 0 among the 300.
    // Button 20 has no events: it has a value, and no place among all elements.
    #[test]
    fn more_entries_than_a_list_has_room_for(rt: HostRuntime) {
        let south = AxisOrBtn::Btn(Button(1));
        let north = AxisOrBtn::Btn(Button(4));
        let west = AxisOrBtn::Btn(Button(5));
        let other = AxisOrBtn::Btn(Button(20));
        let mut entries = [0; 300];
        for i in 0..300 {
            let element = match i {
                299 => south,
                298 => other,
                _ => west,
            };
            entries[i] = Entry::new(Code(i as u32), element).number();
        }
        let held = [299, 298, 44, 0].map(|code| crate::numbers::held_number(
            Code(code),
            Raw::ButtonPressed,
        ));
        for from in [0, 44] {
            let some = &entries[from..];
            for (el, value) in [(south, 32767), (west, 32767), (other, 32767), (north, 0)] {
                assert_eq!(rt; element_value(&held, some, el), value, "from {from} on");
            }
            for (k, best) in all_bests(&held, some).iter().enumerate() {
                let told = best.map(|best| (best.code, best.value));
                let wanted = match k {
                    0 => Some((299, 32767)),
                    4 => Some((from as u32, 32767)),
                    _ => None,
                };
                assert_eq!(rt; told, wanted, "element {k}, from {from} on");
            }
        }
    }
}
