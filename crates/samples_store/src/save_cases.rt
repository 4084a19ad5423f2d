// Cases of save.
use crate::cases::{Store, is};
use crate::spelled::{spelled, uuid};
use line::ev::{Axis, Button, Code};
use line::mapping::Mapping;
use line::reading::parse_sdl_mapping;
use map::mapping_data::MappingData;
use parts::cuts::{after, before, first, rest, word};
use parts::numbers::{number, numbered, short};
use std::alloc::{AllocError, Global};
use store::calls::{get, save};
use store::refusal::save_outcome;

// `b1=5`: button 1 has code 5. replay reads such words too, and says why each has its function.
fn fill_slot(slots: &mut MappingData, s: &[u8]) {
    let code = Code(short(after(s, b'=')) as u32);
    match s {
        [] => {}
        [b'a', n @ ..] => {
            slots.insert_axis(code, Axis(short(before(n, b'='))));
        }
        [_, n @ ..] => {
            slots.insert_btn(code, Button(short(before(n, b'='))));
        }
    }
}

// The slots of a word, with a comma between. Each test program spells a slot in its own way: one function for all would
// be handed the filling of a slot, and be no shorter than these lines.
fn slots_of(s: &[u8]) -> MappingData {
    let mut slots = MappingData::new();
    for slot in s.split_inclusive(|b| *b == b',') {
        fill_slot(&mut slots, before(slot, b','));
    }
    slots
}

// Whether the line that is held reads back as that map.
fn reads_back(line: &[u8], map: &Mapping, buttons: &[u32], axes: &[u32]) -> bool {
    let reading = parse_sdl_mapping(line, buttons, axes);
    reading.answer.is_ok() && reading.map == *map
}

impl Store<'_> {
    // `save ANSWER UUID SLOTS BUTTONS AXES NAME`: the lists are the codes from 1 on, so many each. A save that filed
    // reads back as its map, and a refused one has the empty map.
    pub fn save_case(self, alloc: Global, args: &[u8]) -> Result<bool, AllocError> {
        let Store { index, text, party } = self;
        let more = rest(args);
        let lists = rest(rest(more));
        let key = uuid(word(more));
        let slots = slots_of(word(rest(more)));
        let list = numbered();
        let buttons = first(&list, number(word(lists)));
        let axes = first(&list, number(word(rest(lists))));
        let name = spelled(alloc, rest(rest(lists)))?;
        let saved = save(index, text, party, slots, buttons, axes, &name, key);
        let right = match saved.answer {
            Ok(()) => reads_back(get(index, text, party, key), &saved.map, buttons, axes),
            Err(_) => saved.map == Mapping::new(),
        };
        Ok(right && is(save_outcome(saved.answer), word(args)))
    }
}
