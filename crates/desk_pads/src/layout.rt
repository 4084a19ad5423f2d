// The default layout of the buttons, for a hall's wall: key code, button and SDL name.
use crate::elements::{put_ident, say_name};
use desk::console::Console;
use desk::help::wrong_use;
use desk::say::{Failure, OUT, put_code, say};
use line::ev::{AxisOrBtn, Button};
use map::keys::{KEY_FIRST, key_table};

// `10130     South          a`, or with commas `10130,South,a`. `commas` is what was asked for, a table or values with
// commas: a row has one of two forms, and nothing more comes with either.
fn say_row(console: &Console, code: u32, button: AxisOrBtn, commas: bool) {
    put_code(console, OUT, code);
    if commas {
        say(console, b",");
        say_name(console, button, 0);
        say(console, b",");
    } else {
        say(console, b"     ");
        say_name(console, button, 15);
    }
    put_ident(console, OUT, button);
    say(console, b"\n");
}

// The buttons of the table of key codes, in its order; a code whose number is 0 has none.
fn say_rows(console: &Console, commas: bool) {
    for (code, n) in (KEY_FIRST..u32::MAX).zip(key_table().buttons) {
        if n != 0 {
            say_row(console, code, AxisOrBtn::Btn(Button(n as u16)), commas);
        }
    }
}

// `hub default layout`, a table; `hub default layout --csv`, values with commas between.
pub fn default_layout(console: &Console, how: &[u8]) -> Result<(), Failure> {
    match how {
        b"" => {
            say(console, b"key code  button         SDL name\n");
            say_rows(console, false);
        }
        b"--csv" => {
            say(console, b"key code,button,SDL name\n");
            say_rows(console, true);
        }
        _ => return Err(wrong_use(console, b"default")),
    }
    Ok(())
}
