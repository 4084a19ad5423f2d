// The main job in one go, on a store in memory and a small list. Each step is headed by the command that does the same.
use crate::reports::Report;
use crate::saving::say_saved;
use desk::console::Console;
use desk::files::{Size, StoreFile};
use desk::say::{Failure, say};
use desk_pads::table::say_reading;
use desk_records::holding::{say_line, say_list, say_sound};
use desk_records::records::{LineKey, View};
use line::ev::{Axis, Button, Code};
use map::mapping_data::MappingData;
use store::calls::{insert, save};
use store::parties::Party;
use text::uuid::Uuid;

// The pad at hand: its UUID and its codes.
const PAD: Uuid = Uuid {
    high: 0x0300000048550000,
    low: 0x4200000001010000,
};

const KEY: LineKey = LineKey {
    party: Party::Hall,
    id: PAD,
};

const BUTTONS: [u32; 4] = [0x10130, 0x10131, 0x10133, 0x10134];

const AXES: [u32; 2] = [0x30000, 0x30001];

// The small list: two lines for Linux, and what else is found in lists.
fn insert_list(console: &Console, file: &mut StoreFile) -> Result<(), Failure> {
    let list = b"# a list of mapping lines
03000000485500001100000011010000,Hall Pad,a:b0,b:b1,leftx:a0,lefty:a1,platform:Linux,
03000000485500002200000011010000,Hall Stick,a:b1,dpup:h0.1,dpdown:h0.4,
03000000485500001100000000000000,Hall Pad,a:b1,b:b2,platform:Windows,
";
    say(console, list);
    let inserted = insert(&mut file.index, &mut file.text, Party::Hall, list);
    let store = View::from(&*file);
    let report = Report {
        list,
        party: Party::Hall,
        inserted,
        held: 0,
        store,
    };
    report.say(console)
}

// Jump is on button code 10131.
fn save_pad(console: &Console, file: &mut StoreFile) {
    let mut slots = MappingData::new();
    slots.insert_btn(Code::BTN_EAST, Button::South);
    slots.insert_axis(Code::AXIS_LSTICKX, Axis::LeftStickX);
    let saved = save(
        &mut file.index,
        &mut file.text,
        Party::Hall,
        slots,
        &BUTTONS,
        &AXES,
        b"Seat 4",
        PAD,
    );
    say_saved(console, View::from(&*file).line(KEY), saved.map);
}

// `hub demo`
pub fn demo(console: &Console) -> Result<(), Failure> {
    let mut file = StoreFile::new(console.alloc(), Size::Small)?;
    say(console, b"1. hub new STORE: a fresh store\n\n");
    say_sound(console, View::from(&file))?;
    say(
        console,
        b"\n2. hub insert STORE FILE: a list of four lines\n\n",
    );
    insert_list(console, &mut file)?;
    say(
        console,
        b"\n3. hub save STORE UUID 'Seat 4' buttons=10130,10131,10133,10134 axes=30000,30001 a=10131 leftx=30000:\n",
    );
    say(
        console,
        b"   jump (a) is on button code 10131; the line that is filed, and its map\n\n",
    );
    save_pad(console, &mut file);
    let store = View::from(&file);
    say(
        console,
        b"\n4. hub find STORE UUID: the line is found again\n\n",
    );
    say_line(console, store, KEY)?;
    say(
        console,
        b"\n5. hub show STORE UUID buttons=10130,10131,10133,10134 axes=30000,30001: and reads back the same\n\n",
    );
    say_reading(console, store.line(KEY), &BUTTONS, &AXES)?;
    say(console, b"\n6. hub list STORE: what the store holds\n\n");
    say_list(console, store)
}
