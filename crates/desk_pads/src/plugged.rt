// The command pad: what is plugged in. And `pad:1`, which other commands take for a UUID and lists; `pad:1:FILE` is of
// a copy of /proc/bus/input/devices.
use crate::devices::{
    device_axes, device_buttons, device_guid, device_hats, device_name, device_number, devices_in,
    is_pad,
};
use desk::codes::{Codes, put_codes};
use desk::console::Console;
use desk::fields::{after, before};
use desk::files::read_list;
use desk::say::{Failure, OUT, complain, put_uuid, put_value, say};
use desk::shown::{complain_shown, say_shown};
use std::array;
use text::decimal::parse_u16;
use text::uuid::Uuid;

// More pads than a machine has, and the most that an insert looks for.
const PADS_MAX: usize = 255;

const GUIDS_MAX: usize = 32;

// A pad that an argument names.
#[derive(Clone, Copy)]
pub struct Plugged {
    pub id: Uuid,
    pub buttons: Codes,
    pub axes: Codes,
}

// The codes of hats, where there are any.
fn say_hats(console: &Console, hats: &[u32]) {
    if !hats.is_empty() {
        say(console, b"  hats: ");
        put_codes(console, OUT, hats);
        say(console, b"\n");
    }
}

// The device that a pad's events are read from, where one is listed. The script `hub` reads this row.
fn say_device(console: &Console, number: &[u8]) {
    if !number.is_empty() {
        say(console, b"  device: /dev/input/event");
        say_shown(console, number);
        say(console, b"\n");
    }
}

// `pad 1: Microsoft X-Box 360 pad`, its GUID, its lists as other commands take them, its hats and its device
fn say_pad(console: &Console, n: usize, device: &[u8]) {
    put_value(console, OUT, format_args!("pad {n}: "));
    say_shown(console, device_name(device));
    say(console, b"\n  ");
    put_uuid(console, OUT, device_guid(device));
    say(console, b"\n  buttons=");
    put_codes(console, OUT, device_buttons(device).as_slice());
    say(console, b"\n  axes=");
    put_codes(console, OUT, device_axes(device).as_slice());
    say(console, b"\n");
    say_hats(console, device_hats(device).as_slice());
    say_device(console, device_number(device));
}

fn say_pads(console: &Console, list: &[u8]) -> Result<(), Failure> {
    let mut none = true;
    for (n, device) in (1..=PADS_MAX).zip(devices_in(list).filter(|device| is_pad(device))) {
        none = false;
        say_pad(console, n, device);
    }
    if none {
        complain(
            console,
            b"none: no pad is plugged in, or none that the list of devices shows\n",
        );
        return Err(Failure::Refused);
    }
    Ok(())
}

// Reads the list of devices: a copy where one is named, else the machine's own.
fn read_devices(console: &Console, copy: &[u8]) -> Result<Vec<u8>, Failure> {
    let path = if copy.is_empty() {
        b"/proc/bus/input/devices".as_slice()
    } else {
        copy
    };
    read_list(console, path)
}

// `hub pad`, `hub pad from=FILE`
pub fn list_pads(console: &Console, copy: &[u8]) -> Result<(), Failure> {
    say_pads(console, &read_devices(console, copy)?)
}

// The GUIDs of the first pads, as many as there are.
#[derive(Clone, Copy)]
pub struct Guids {
    pub list: [Option<Uuid>; GUIDS_MAX],
}

impl Guids {
    fn of_devices(list: &[u8]) -> Guids {
        let mut pads = devices_in(list).filter(|device| is_pad(device));
        Guids {
            list: array::from_fn(|_| pads.next().map(|device| device_guid(device))),
        }
    }

    // Whether a UUID, checksum or not, is one of the GUIDs.
    pub fn has(&self, id: Uuid) -> bool {
        let plain = id.without_checksum();
        self.list.iter().flatten().any(|guid| *guid == plain)
    }
}

// The GUIDs of the pads that are plugged in, or of those in a copy.
pub fn plugged_guids(console: &Console, copy: &[u8]) -> Result<Guids, Failure> {
    Ok(Guids::of_devices(&read_devices(console, copy)?))
}

// Whether an argument names a pad, as `pad:1`.
pub fn is_pad_name(arg: &[u8]) -> bool {
    arg.starts_with(b"pad:")
}

// Pad `n` of a list of devices, from 1 on; None where there are fewer.
pub fn pad_device(list: &[u8], n: usize) -> Option<&[u8]> {
    let before = n.checked_sub(1)?;
    devices_in(list).filter(|device| is_pad(device)).nth(before)
}

// The pad that `pad:1` or `pad:1:FILE` names.
pub fn pad_named(console: &Console, arg: &[u8]) -> Result<Plugged, Failure> {
    let rest = after(arg, b':');
    let Some(n) = parse_u16(before(rest, b':')) else {
        complain_shown(console, arg);
        complain(
            console,
            b": a pad is pad:1, pad:2, ..; hub pad lists them\n",
        );
        return Err(Failure::Trouble);
    };
    let list = read_devices(console, after(rest, b':'))?;
    let Some(device) = pad_device(&list, usize::from(n)) else {
        complain_shown(console, arg);
        complain(console, b": there is no such pad; hub pad lists them\n");
        return Err(Failure::Refused);
    };
    Ok(Plugged {
        id: device_guid(device),
        buttons: device_buttons(device),
        axes: device_axes(device),
    })
}
