// Elements by name: the SDL idents, which the library's tables hold, and the source's names.
ghost use Rattle.std.specs.Prelude.{◌<◌};

use desk::console::Console;
use desk::say::{OUT, put, say};
use desk::shown::put_space;
use desk::suggest::Near;
use line::ev::{Axis, AxisOrBtn, Button};
use line::tables::{find_element, ident_of};

// The elements in their order: the buttons by number, then the axes.
pub const ELEMENTS: usize = 29;

pub const BUTTONS: usize = 20;

const AXES: usize = 9;

// The source's names, by number.
const BUTTON_NAMES: [&[u8]; BUTTONS] = [
    b"Unknown",
    b"South",
    b"East",
    b"C",
    b"North",
    b"West",
    b"Z",
    b"LeftTrigger",
    b"RightTrigger",
    b"LeftTrigger2",
    b"RightTrigger2",
    b"Select",
    b"Start",
    b"Mode",
    b"LeftThumb",
    b"RightThumb",
    b"DPadUp",
    b"DPadDown",
    b"DPadLeft",
    b"DPadRight",
];

const AXIS_NAMES: [&[u8]; AXES] = [
    b"Unknown",
    b"LeftStickX",
    b"LeftStickY",
    b"LeftZ",
    b"RightStickX",
    b"RightStickY",
    b"RightZ",
    b"DPadX",
    b"DPadY",
];

// The columns of a name in the table of elements.
const NAME_WIDTH: usize = 15;

// Which name of a list is `key`.
fn name_place(names: &[&[u8]], key: &[u8]) -> Option<u16> {
    let place = names.iter().position(|name| *name == key)?;
    u16::try_from(place).ok()
}

fn source_element(key: &[u8]) -> Option<AxisOrBtn> {
    name_place(&BUTTON_NAMES, key)
        .map(|n| AxisOrBtn::Btn(Button(n)))
        .or_else(|| name_place(&AXIS_NAMES, key).map(|n| AxisOrBtn::Axis(Axis(n))))
}

// The element of an ident or of a name.
pub fn element_named(key: &[u8]) -> Option<AxisOrBtn> {
    find_element(key).or_else(|| source_element(key))
}

pub fn element_at(k: usize) -> AxisOrBtn {
    if k < BUTTONS {
        return AxisOrBtn::Btn(Button(k as u16));
    }
    if k < ELEMENTS {
        return AxisOrBtn::Axis(Axis((k - BUTTONS) as u16));
    }
    AxisOrBtn::Btn(Button::Unknown)
}

// The place of an element in that order; Unknown's are 0 and 20.
pub fn place_of(e: AxisOrBtn) -> usize
    ensures { result < 29 }
{
    match e {
        AxisOrBtn::Btn(b) if (b.0 as usize) < BUTTONS => b.0 as usize,
        AxisOrBtn::Btn(_) => 0,
        AxisOrBtn::Axis(a) if (a.0 as usize) < AXES => BUTTONS + a.0 as usize,
        AxisOrBtn::Axis(_) => BUTTONS,
    }
}

// Whether a pad has no events for an element: those that have are buttons 1 to 19 and axes 1 to 8.
pub fn is_left_out(e: AxisOrBtn) -> bool {
    matches!(place_of(e), 0 | BUTTONS)
}

// The source's name of an element; nothing where its number has none.
fn name_of(e: AxisOrBtn) -> &'static [u8] {
    let name = match e {
        AxisOrBtn::Btn(b) => BUTTON_NAMES.get(b.0 as usize),
        AxisOrBtn::Axis(a) => AXIS_NAMES.get(a.0 as usize),
    };
    name.copied().unwrap_or(b"")
}

fn offer_idents(near: &mut Near<'_>) {
    for k in 0..ELEMENTS {
        let ident = ident_of(element_at(k));
        // An element with no ident is no suggestion.
        if !ident.is_empty() {
            near.offer(ident);
        }
    }
}

// The nearest ident to a key of a line.
pub fn put_nearest_ident(console: &Console, fd: i32, key: &[u8]) {
    let mut near = Near::to(key);
    offer_idents(&mut near);
    near.put(console, fd);
}

// The nearest ident or name.
pub fn put_nearest_element(console: &Console, fd: i32, key: &[u8]) {
    let mut near = Near::to(key);
    offer_idents(&mut near);
    for name in BUTTON_NAMES.into_iter().chain(AXIS_NAMES) {
        near.offer(name);
    }
    near.put(console, fd);
}

// `a`, or the source's name where an element has no ident.
pub fn put_ident(console: &Console, fd: i32, e: AxisOrBtn) {
    let ident = ident_of(e);
    put(
        console,
        fd,
        if ident.is_empty() { name_of(e) } else { ident },
    );
}

// An element's name, with space up to that width.
pub fn say_name(console: &Console, e: AxisOrBtn, width: usize) {
    let name = name_of(e);
    say(console, name);
    put_space(console, OUT, width.saturating_sub(name.len()));
}

// `LeftTrigger    leftshoulder`; Unknown has no row.
fn say_names(console: &Console, e: AxisOrBtn) {
    if is_left_out(e) {
        return;
    }
    say(console, b"  ");
    say_name(console, e, NAME_WIDTH);
    let ident = ident_of(e);
    say(console, if ident.is_empty() { b"-" } else { ident });
    say(console, b"\n");
}

// `hub help elements`
pub fn help_on_elements(console: &Console) {
    say(console, b"  name           SDL name\n");
    for k in 0..ELEMENTS {
        say_names(console, element_at(k));
    }
    say(
        console,
        b"hub save takes both spellings, a mapping line the SDL name alone, as it stands here. LeftTrigger is
the shoulder button (leftshoulder), LeftTrigger2 the trigger (lefttrigger); right likewise. Where
there is a -, no line can name the element.
",
    );
}

// `South (a)`
pub fn put_element(console: &Console, fd: i32, e: AxisOrBtn) {
    put(console, fd, name_of(e));
    let ident = ident_of(e);
    if !ident.is_empty() {
        put(console, fd, b" (");
        put(console, fd, ident);
        put(console, fd, b")");
    }
}
