// The command save.
use crate::held_maps::Lists;
use crate::mappings::Request;
use crate::reports::{Full, NoRoom};
use desk::console::{Console, argument};
use desk::files::{StoreFile, arg_space};
use desk::say::{ERR, Failure, complain, put_code, say};
use desk::shown::say_shown;
use desk::words::put_refused;
use desk_pads::bound::{say_lost, slot_with, twins};
use desk_pads::elements::{BUTTONS, ELEMENTS, element_at, put_element, put_ident};
use desk_pads::plugged::{is_pad_name, pad_named};
use desk_pads::slots::Slots;
use desk_pads::table::say_map;
use desk_records::holding::say_shown_line;
use desk_records::records::{LineKey, View};
use desk_records::refusals::refused_by;
use desk_records::targets::Target;
use desk_records::wrong::id_named;
use line::ev::Code;
use line::mapping::Mapping;
use map::error::MappingError;
use map::from_data::from_data;
use map::mapping_data::MappingData;
use store::calls::{SaveError, Saved, save};
use text::uuid::Uuid;

// A saved line and its map.
pub fn say_saved(console: &Console, line: &[u8], map: Mapping) {
    say_shown_line(console, line);
    say_map(console, &map, line);
}

// A line that is saved: whose, under which UUID, with which name, slots and lists.
#[derive(Clone, Copy)]
struct Save<'a> {
    key: LineKey,
    name: &'a [u8],
    slots: MappingData,
    lists: Lists,
}

impl Save<'_> {
    fn file(&self, file: &mut StoreFile) -> Saved {
        save(
            &mut file.index,
            &mut file.text,
            self.key.party,
            self.slots,
            self.lists.buttons.as_slice(),
            self.lists.axes.as_slice(),
            self.name,
            self.key.id,
        )
    }

    // The length of the line that it builds.
    fn built_len(&self) -> usize {
        let mut out = arg_space();
        let built = from_data(
            self.slots,
            self.lists.buttons.as_slice(),
            self.lists.axes.as_slice(),
            self.name,
            self.key.id,
            &mut out,
        );
        built.len
    }

    // Which list a code of a slot is not in. Where the buttons' list has it, its slot is an axis's.
    fn complain_slot(&self, console: &Console, code: Code) {
        let is_listed = self.lists.buttons.as_slice().contains(&code.0);
        let from = if is_listed { BUTTONS } else { 0 };
        let e = element_at(slot_with(&self.slots, from, code).unwrap_or(ELEMENTS));
        complain(console, b": ");
        put_ident(console, ERR, e);
        if e.is_button() {
            complain(console, b" is a button; ");
            put_code(console, ERR, code.0);
            complain(console, b" is not in buttons=\n");
        } else {
            complain(console, b" is an axis; ");
            put_code(console, ERR, code.0);
            complain(console, b" is not in axes=\n");
        }
    }

    fn refused_build(&self, console: &Console, e: MappingError) -> Failure {
        let MappingError::InvalidCode(code) = e else {
            return refused_by(console, e.refusal());
        };
        put_refused(console, ERR, usize::from(e.refusal().number));
        self.complain_slot(console, code);
        Failure::Refused
    }

    fn no_room(&self, console: &Console, e: SaveError, full: Full, store: View) -> Failure {
        put_refused(console, ERR, usize::from(e.refusal().number));
        complain(console, b"\n  ");
        let no_room = NoRoom {
            full,
            wanted: self.built_len(),
            freed: store.line(self.key).len(),
            party: self.key.party,
            store,
        };
        no_room.complain(console);
        Failure::Refused
    }

    // A save that was refused, in a store that is as it was.
    fn refused(&self, console: &Console, e: SaveError, store: View) -> Failure {
        match e {
            SaveError::Refused(e) => self.refused_build(console, e),
            SaveError::NoRoom => self.no_room(console, e, Full::Index, store),
            SaveError::NoText => self.no_room(console, e, Full::Text, store),
            _ => refused_by(console, e.refusal()),
        }
    }

    // Saves into a store, and puts it in place.
    fn run(&self, console: &Console, target: Target) -> Result<(), Failure> {
        let former = target.load(console)?;
        let mut file = former.clone()?;
        let saved = self.file(&mut file);
        saved
            .answer
            .map_err(|e| self.refused(console, e, View::from(&file)))?;
        target.replace(console, &former, &file)?;
        let line = View::from(&file).line(self.key);
        say_filed(console, View::from(&former).line(self.key), line, saved.map);
        Ok(())
    }
}

// A saved line, the one that it takes the place of, and what is no longer bound.
fn say_filed(console: &Console, former: &[u8], line: &[u8], map: Mapping) {
    say_saved(console, line, map);
    if former.is_empty() {
        return;
    }
    say(console, b"in place of: ");
    say_shown(console, former);
    say(console, b"\n");
    say_lost(console, former, line);
}

fn complain_anyway(console: &Console) -> Failure {
    complain(console, b"Add 'anyway' to save it all the same.\n");
    Failure::Trouble
}

// Whether nothing is lost in a save: an element at least, and no code on two of them.
fn whole(console: &Console, slots: Slots) -> Result<(), Failure> {
    if slots.given == 0 {
        complain(
            console,
            b"No element is given (as a=10130): the line would bind nothing.\n",
        );
        return Err(complain_anyway(console));
    }
    if let Some((first, second)) = twins(&slots.filled) {
        complain(console, b"One code is given to two elements, ");
        put_element(console, ERR, element_at(first));
        complain(console, b" and ");
        put_element(console, ERR, element_at(second));
        complain(
            console,
            b": when the line is read, only the second has it.\n",
        );
        return Err(complain_anyway(console));
    }
    Ok(())
}

fn save_request(
    console: &Console,
    target: Target,
    id: Uuid,
    name: &[u8],
    asked: Request,
) -> Result<(), Failure> {
    if !asked.anyway {
        whole(console, asked.slots)?;
    }
    let save = Save {
        key: asked.key(id),
        name,
        slots: asked.slots.filled,
        lists: asked.lists,
    };
    save.run(console, target)
}

// `hub save STORE UUID NAME ..`; the name is argument `at`.
pub fn save_mapping(
    console: &Console,
    target: Target,
    key: &[u8],
    at: usize,
) -> Result<(), Failure> {
    target.may_change(console)?;
    let mut space = arg_space();
    let name = argument(console, at, &mut space);
    let asked = Request::named(console, at.wrapping_add(1));
    if is_pad_name(key) {
        let pad = pad_named(console, key)?;
        return save_request(console, target, pad.id, name, asked?.or_of(pad));
    }
    let id = id_named(console, key)?;
    save_request(console, target, id, name, asked?)
}
