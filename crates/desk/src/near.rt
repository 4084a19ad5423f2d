// A pad whose UUID may carry a checksum.
use crate::console::Console;
use crate::say::{ERR, complain, put_uuid};
use text::uuid::Uuid;

// Says under which UUID a line is held, where none is held under the one that was asked for.
pub fn complain_near(console: &Console, id: Uuid) {
    complain(console, b"near: held under ");
    put_uuid(console, ERR, id.without_checksum());
    complain(console, b", without a checksum\n");
}
