// Cases of build: the slots are filled one after the other, from lists in which some codes stand twice.
use crate::lines::flag;
use crate::same;
use line::ev::{Axis, Button, Code};
use map::from_data::from_data;
use map::mapping_data::MappingData;
use parts::cuts::{after, before, first, rest, word};
use parts::numbers::{short, uuid_or};
use spelling::{Data, MapText, Refused};
use std::fmt::Write;
use std::io;
use text::uuid::Uuid;

const BUTTONS: [u32; 24] = [
    100, 101, 102, 101, 103, 104, 100, 105, 106, 107, 108, 109, 110, 111, 112, 113, 114, 115, 116,
    117, 118, 119, 120, 200,
];

const AXES: [u32; 12] = [200, 201, 200, 202, 203, 204, 205, 206, 207, 208, 100, 209];

// `b1=101` fills the slot of button 1, `a2=201` that of axis 2. samples_store reads such words too: one function for both
// would need a library of its own, since neither `parts` nor `spelling` knows the slots.
fn fill_slot(slots: &mut MappingData, s: &[u8]) {
    let code = Code(short(after(s, b'=')) as u32);
    match before(s, b'=') {
        [] | [_] => {}
        [b'a', n @ ..] => {
            slots.insert_axis(code, Axis(short(n)));
        }
        [_, n @ ..] => {
            slots.insert_btn(code, Button(short(n)));
        }
    }
}

// The slots of a word, with a comma after each. Each test program spells a slot in its own way: one function for all
// would be handed the filling of a slot, and be no shorter than these lines.
fn slots_of(s: &[u8]) -> MappingData {
    let mut slots = MappingData::new();
    for slot in s.split_inclusive(|b| *b == b',') {
        fill_slot(&mut slots, before(slot, b','));
    }
    slots
}

// `build ANSWER UUID SLOTS NAME`: the answer is the map, a colon and the line, or the refusal and the code it carries.
pub fn build_case<R: Print + AllocGlobal>(rt: &R, args: &[u8]) -> io::Result<bool> {
    let uuid = rest(args);
    let slots = rest(uuid);
    // from_data writes into a lent buffer, which it never grows.
    let mut line = [0u8; 16384];
    let built = from_data(
        slots_of(word(slots)),
        &BUTTONS,
        &AXES,
        rest(slots),
        uuid_or(word(uuid), Uuid::NIL),
        &mut line,
    );
    let mut out = Vec::new(rt.alloc());
    match built.answer {
        Ok(()) => {
            let map = format!(in rt.alloc(); "{}{}:", MapText(&built.map), flag(&built.map))?;
            out.extend_from_slice(map.as_bytes())?;
            out.extend_from_slice(first(&line, built.len))?;
        }
        Err(e) => {
            let refused = format!(in rt.alloc(); "{}", Refused(Data::Recorded, e.refusal()))?;
            out.extend_from_slice(refused.as_bytes())?;
        }
    }
    same(rt, &out, word(args))
}
