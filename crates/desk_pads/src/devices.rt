// The devices that Linux lists in /proc/bus/input/devices, or in a copy of it that was mailed. A device is a block of
// lines; a letter and what it says stand at the start of each: `I: Bus=0003 Vendor=045e ..`, `N: Name=".."`,
// `H: Handlers=event5 js0`, `B: KEY=..` and `B: ABS=..`. The last two are bits in hexadecimal, 64 to a word, the word of
// the highest codes first.
ghost use Rattle.std.specs.Prelude.{length};
ghost use Rattle.std.specs.Iterator.{at_most};

use desk::codes::{Codes, Kind, parse_code};
use desk::fields::{after, before, first, without};
use std::iter::Take;
use text::uuid::Uuid;

// The codes of linux/input-event-codes.h: where the buttons of joysticks and pads start, and which codes only these have;
// the axes, and those of them that are hats.
const BTN_JOYSTICK: u16 = 0x120;

const BTN_DIGI: u16 = 0x140;

const BTN_TRIGGER_HAPPY: u16 = 0x2c0;

const KEY_END: u16 = 0x300;

const ABS_HAT0X: u16 = 0x10;

const ABS_HAT_END: u16 = 0x18;

const ABS_END: u16 = 0x40;

// More devices than a machine has: blocks past this many are not looked at.
const DEVICES_MAX: usize = 4096;

// The bytes of a name that a GUID has room for.
const NAME_BYTES: usize = 11;

// The devices of a list.
#[derive(Drop)]
pub struct Devices<'a> {
    rest: &'a [u8],
}

// How long the first block is: up to an empty line.
fn block_len(devices: &[u8]) -> usize {
    if devices.starts_with(b"\n") {
        return 0;
    }
    devices
        .windows(2)
        .position(|ends| ends == b"\n\n".as_slice())
        .map_or(devices.len(), |n| n.wrapping_add(1))
}

impl<'a> Iterator for Devices<'a> {
    type Item = &'a [u8];

    ghost remaining = { λ s. at_most (length s.rest.now) };

    fn next(&mut self) -> Option<&'a [u8]> {
        let devices = self.rest;
        if devices.is_empty() {
            return None;
        }
        let len = block_len(devices);
        self.rest = match devices.get(len..) {
            Some([_, rest @ ..]) => rest,
            _ => &[],
        };
        Some(first(devices, len))
    }
}

// What follows `key` in the first part that starts with it, of those that end at a `b`; nothing where there is none.
fn field_of<'a, 'b>(s: &'a [u8], key: &'b [u8], b: u8) -> &'a [u8] {
    s.split(|x| *x == b)
        .find_map(|part| part.strip_prefix(key))
        .unwrap_or(&[])
}

// The name of a device, without the quotation marks.
pub fn device_name(device: &[u8]) -> &[u8] {
    before(after(field_of(device, b"N: Name=", b'\n'), b'"'), b'"')
}

// The number of the device in /dev/input that a pad's events are read from, as `20` of event20; nothing where none is
// listed.
pub fn device_number(device: &[u8]) -> &[u8] {
    field_of(field_of(device, b"H: Handlers=", b'\n'), b"event", b' ')
}

// Whether bit `k` of a word is set. What is no hexadecimal digit has none.
fn word_has(word: &[u8], k: u16) -> bool {
    word.iter()
        .rev()
        .nth((k / 4) as usize)
        .and_then(|digit| char::from(*digit).to_digit(16))
        .is_some_and(|value| value >> (k % 4) & 1 == 1)
}

// Whether a list of words has the bit of a code.
fn bits_have(bits: &[u8], code: u16) -> bool {
    without(bits, b' ')
        .rsplit(|b| *b == b' ')
        .nth((code / 64) as usize)
        .is_some_and(|word| word_has(word, code % 64))
}

// The codes of a kind from one number up to another that a list of words has, ascending.
fn push_codes(codes: &mut Codes, bits: &[u8], kind: Kind, from: u16, end: u16) {
    for code in from..end {
        if bits_have(bits, code) {
            codes.push(kind.code(code));
        }
    }
}

// The button codes of a device, in the order by which lines count them: those of joysticks and pads, then those below.
pub fn device_buttons(device: &[u8]) -> Codes {
    let bits = field_of(device, b"B: KEY=", b'\n');
    let mut codes = Codes::new();
    push_codes(&mut codes, bits, Kind::Button, BTN_JOYSTICK, KEY_END);
    push_codes(&mut codes, bits, Kind::Button, 0, BTN_JOYSTICK);
    codes
}

// The axis codes, without those of hats.
pub fn device_axes(device: &[u8]) -> Codes {
    let bits = field_of(device, b"B: ABS=", b'\n');
    let mut codes = Codes::new();
    push_codes(&mut codes, bits, Kind::Axis, 0, ABS_HAT0X);
    push_codes(&mut codes, bits, Kind::Axis, ABS_HAT_END, ABS_END);
    codes
}

// The codes of hats.
pub fn device_hats(device: &[u8]) -> Codes {
    let bits = field_of(device, b"B: ABS=", b'\n');
    let mut codes = Codes::new();
    push_codes(&mut codes, bits, Kind::Axis, ABS_HAT0X, ABS_HAT_END);
    codes
}

// Whether a device is a pad: it has a button of a joystick or a pad.
pub fn is_pad(device: &[u8]) -> bool {
    let bits = field_of(device, b"B: KEY=", b'\n');
    (BTN_JOYSTICK..BTN_DIGI)
        .chain(BTN_TRIGGER_HAPPY..KEY_END)
        .any(|code| bits_have(bits, code))
}

// The first devices of a list, each a block of lines.
pub fn devices_in(list: &[u8]) -> Take<Devices<'_>> {
    Devices { rest: list }.take(DEVICES_MAX)
}

// A number of the line `I:`, as `Vendor=045e`; 0 where there is none.
fn id_number(device: &[u8], key: &[u8]) -> u16 {
    parse_code(field_of(field_of(device, b"I: ", b'\n'), key, b' ')).map_or(
        0,
        |n| (n % 65536) as u16,
    )
}

// Two numbers, two bytes each with the low one first, and two zeros behind each.
fn half_guid(first: u16, second: u16) -> u64 {
    let a = first.to_le_bytes();
    let b = second.to_le_bytes();
    u64::from_be_bytes([a[0], a[1], 0, 0, b[0], b[1], 0, 0])
}

// The bus, two zeros, and the first bytes of the name.
fn name_guid(bus: u16, name: &[u8]) -> Uuid {
    let bus = bus.to_le_bytes();
    let mut b = [0u8; NAME_BYTES];
    for (place, byte) in b.iter_mut().zip(name) {
        *place = *byte;
    }
    Uuid {
        high: u64::from_be_bytes([bus[0], bus[1], 0, 0, b[0], b[1], b[2], b[3]]),
        low: u64::from_be_bytes([b[4], b[5], b[6], b[7], b[8], b[9], b[10], 0]),
    }
}

// The GUID of a device, as mapping lines have it: bus, vendor, product and version, or the name where there is no such
// number.
pub fn device_guid(device: &[u8]) -> Uuid {
    let bus = id_number(device, b"Bus=");
    let vendor = id_number(device, b"Vendor=");
    let product = id_number(device, b"Product=");
    let version = id_number(device, b"Version=");
    if (vendor, product, version) == (0, 0, 0) {
        return name_guid(bus, device_name(device));
    }
    Uuid {
        high: half_guid(bus, vendor),
        low: half_guid(product, version),
    }
}
