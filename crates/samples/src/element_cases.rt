// Cases of the element calls, and of maps that no call makes.
use crate::codes::hex_number;
use crate::spelled::{Hex, OrDash, is};
use line::ev::{Axis, AxisOrBtn, Button, Code};
use line::mapping::{Entry, Mapping};
use line::parser::{AxisRange, Ranges};
use parts::cuts::{rest, word};
use parts::numbers::{number, short};
use spelling::{Element, EntryText, Target};
use std::io;

fn flag(on: bool, letter: char) -> char {
    if on { letter } else { '-' }
}

// The element that a word `b1` or `a1` is.
pub fn element(s: &[u8]) -> AxisOrBtn {
    match s {
        [b'a', n @ ..] => AxisOrBtn::Axis(Axis(short(n))),
        [_, n @ ..] => AxisOrBtn::Btn(Button(short(n))),
        [] => AxisOrBtn::Btn(Button(0)),
    }
}

// `button NUMBER ANSWER`: its native code, `d` for a DPad's, `s` for a stick's.
pub fn button_case<R: Print + AllocGlobal>(rt: &R, args: &[u8]) -> io::Result<bool> {
    let b = Button(short(word(args)));
    let nec = b.to_nec().map(|code| Hex(code));
    let dpad = flag(b.is_dpad(), 'd');
    let stick = flag(b.is_stick(), 's');
    let out = format!(in rt.alloc(); "{}{dpad}{stick}", OrDash(nec))?;
    is(rt, out.as_bytes(), rest(args))
}

// `axis NUMBER ANSWER`: `s` for a stick's, and the second axis.
pub fn axis_case<R: Print + AllocGlobal>(rt: &R, args: &[u8]) -> io::Result<bool> {
    let a = Axis(short(word(args)));
    let second = a.second_axis().map(|other| other.0);
    let stick = flag(a.is_stick(), 's');
    let out = format!(in rt.alloc(); "{stick}{}", OrDash(second))?;
    is(rt, out.as_bytes(), rest(args))
}

// `element ELEMENT OTHER ANSWER`: `b` for a button, `e` where the two are the same.
pub fn element_case<R: Print + AllocGlobal>(rt: &R, args: &[u8]) -> io::Result<bool> {
    let e = element(word(args));
    let other = element(word(rest(args)));
    let button = flag(e.is_button(), 'b');
    let same = flag(e == other, 'e');
    let out = format!(in rt.alloc(); "{button}{same}")?;
    is(rt, out.as_bytes(), rest(rest(args)))
}

// The half that a letter is. (C and line's packed ranges have numbers, two tables of their own.)
fn half(b: u8) -> AxisRange {
    match b {
        b'L' => AxisRange::LowerHalf,
        b'U' => AxisRange::UpperHalf,
        _ => AxisRange::Full,
    }
}

// The ranges that a word `UL~` is: input, output, and whether inverted.
pub fn ranges(s: &[u8]) -> Ranges {
    match s {
        [input, output, tilde @ ..] => Ranges {
            input: half(*input),
            output: half(*output),
            inverted: tilde.len() == 1,
        },
        _ => Ranges::FULL,
    }
}

// A map that no call makes, with that count: code 5 to button 1, 3 to axis 2 with its ranges, 5 to button 3, 2 to button 1,
// and unused entries.
pub fn odd_map(count: usize) -> Mapping {
    let mut m = Mapping::new();
    m.entries[0] = Entry::new(Code(5), AxisOrBtn::Btn(Button(1)));
    m.entries[1] = Entry::ranged(Code(3), AxisOrBtn::Axis(Axis(2)), ranges(b"UL~"));
    m.entries[2] = Entry::new(Code(5), AxisOrBtn::Btn(Button(3)));
    m.entries[3] = Entry::new(Code(2), AxisOrBtn::Btn(Button(1)));
    m.count = count;
    m
}

// `map COUNT CODE ANSWER`: the element of a code in the odd map.
pub fn map_case<R: Print + AllocGlobal>(rt: &R, args: &[u8]) -> io::Result<bool> {
    let more = rest(args);
    let code = Code(short(word(more)) as u32);
    let mapped = odd_map(number(word(args))).map(code).map(|e| Element(e));
    let out = format!(in rt.alloc(); "{}", OrDash(mapped))?;
    is(rt, out.as_bytes(), rest(more))
}

// `map-rev COUNT ELEMENT ANSWER`: the least code of an element in the odd map.
pub fn map_rev_case<R: Print + AllocGlobal>(rt: &R, args: &[u8]) -> io::Result<bool> {
    let more = rest(args);
    let map = odd_map(number(word(args)));
    let source = map.map_rev(element(word(more))).map(|code| Hex(code));
    let out = format!(in rt.alloc(); "{}", OrDash(source))?;
    is(rt, out.as_bytes(), rest(more))
}

// `entry COUNT CODE ANSWER`: the first entry of a code in the odd map.
pub fn entry_case<R: Print + AllocGlobal>(rt: &R, args: &[u8]) -> io::Result<bool> {
    let more = rest(args);
    let code = Code(short(word(more)) as u32);
    let map = odd_map(number(word(args)));
    let entered = map.entry(code).map(|e| Target(e.element, e.ranges));
    let out = format!(in rt.alloc(); "{}", OrDash(entered))?;
    is(rt, out.as_bytes(), rest(more))
}

// `number CODE ELEMENT RANGES ANSWER`: an entry as a number, and the entry of that number, if it is the same.
pub fn number_case<R: Print + AllocGlobal>(rt: &R, args: &[u8]) -> io::Result<bool> {
    let to = rest(args);
    let halves = rest(to);
    let code = Code(hex_number(word(args)));
    let e = Entry::ranged(code, element(word(to)), ranges(word(halves)));
    let n = e.number();
    let back = format!(in rt.alloc(); "{}", EntryText(Entry::of_number(n)))?;
    let given = format!(in rt.alloc(); "{}", EntryText(e))?;
    let out = format!(in rt.alloc(); "{n:x}")?;
    Ok(back.as_str() == given.as_str() && is(rt, out.as_bytes(), rest(halves))?)
}
