// The line of a build: its length, and its bytes in a lent output that has room for them.
ghost use Rattle.std.specs.Prelude.{◌≡◌, ◌≤◌, length};
ghost use Rattle.text.specs.Decimal.{decimal};
ghost use Rattle.text.specs.Uuid.{uuid_text};
ghost use Rattle.text.specs.Inner.{Put};
ghost use Rattle.map.specs.Build.{name_max};
ghost use Rattle.map.specs.Inner.{letter_of, pair_of, pairs_of, head_text, line_text};
ghost use Rattle.map.specs.Inner.{Room, Holds, Puts, length_of, lengths_of, line_len_of, short_of};

use crate::from_data::filled::{Filled, Pairs, Placed};
use crate::from_data::gather::Kind;
use crate::from_data::{BUILT_MAX, NAME_START};
use line::tables::ident_of;
use text::bytes::write_bytes;
use text::decimal::{index_len, write_index};
use text::uuid::Uuid;

// How long the pair of a slot is, with its comma.
#[tactic(auto, using(crate::proofs::LengthLaws::pair_fits))]
fn pair_len(slot: Placed) -> usize
    ensures is { result ≡ length_of slot }
    ensures short { result ≤ 36 }
{
    let entry = slot.entry;
    ident_of(entry.element).len() + 2 + index_len(slot.place) + 1
}

fn pairs_len(filled: &Filled) -> usize
    ensures is { result ≡ lengths_of filled.now.items }
    ensures short { result ≤ 720 }
{
    let mut len: usize = 0;
    for slot in filled.as_slice() {
        len += pair_len(*slot);
    }
    len
}

// How long the line is: `checked` has refused a longer name, and so the sum is a `usize`.
fn line_len(pairs: &Pairs, name: &[u8]) -> usize
    requires { length name.now ≤ name_max }
    ensures { result ≡ line_len_of pairs.now name.now }
{
    NAME_START + name.len() + 1 + pairs_len(&pairs.buttons) + pairs_len(&pairs.axes)
}

// Whether an output of so many bytes is too short for the line, of a name that `checked` has let pass. One that holds
// every line needs no count.
pub fn too_short(room: usize, pairs: &Pairs, name: &[u8]) -> bool
    requires { length name.now ≤ name_max }
    ensures { result ≡ short_of room (line_len_of pairs.now name.now) }
{
    room < BUILT_MAX && room < line_len(pairs, name)
}

// A lent output, and the place after what is put.
#[derive(Drop)]
struct Output<'a> {
    out: &'a mut [u8],
    at: usize,
}

impl Output<'_> {
    // The writers of the text layer, where there is room.
    fn put(&mut self, v: &[u8])
        requires { Holds self.old v.now }
        ensures { Puts self.old v.now self.new }
    {
        self.at = write_bytes(self.out, self.at, v).unwrap_or(self.at);
    }

    fn put_index(&mut self, n: usize)
        requires { Holds self.old (decimal n) }
        ensures { Puts self.old (decimal n) self.new }
    {
        self.at = write_index(self.out, self.at, n).unwrap_or(self.at);
    }

    fn put_uuid(&mut self, uuid: Uuid)
        requires { Holds self.old (uuid_text uuid) }
        ensures { Puts self.old (uuid_text uuid) self.new }
    {
        self.at = uuid.write_simple(self.out, self.at).unwrap_or(self.at);
    }

    // The pair of a slot, with its comma.
    fn put_pair(&mut self, kind: Kind, slot: Placed)
        requires { Holds self.old (pair_of (letter_of kind) slot) }
        ensures { Puts self.old (pair_of (letter_of kind) slot) self.new }
    {
        let entry = slot.entry;
        self.put(ident_of(entry.element));
        self.put(&[b':', kind.letter()]);
        self.put_index(slot.place);
        self.put(b",");
    }

    // The pairs of the filled slots.
    fn put_pairs(&mut self, kind: Kind, slots: &[Placed])
        requires { Holds self.old (pairs_of (letter_of kind) slots.now) }
        ensures { Puts self.old (pairs_of (letter_of kind) slots.now) self.new }
    {
        for slot in slots {
            self.put_pair(kind, *slot);
        }
    }

    // The UUID and the name, each with its comma.
    fn put_head(&mut self, uuid: Uuid, name: &[u8])
        requires { Holds self.old (head_text uuid name.now) }
        ensures { Puts self.old (head_text uuid name.now) self.new }
    {
        self.put_uuid(uuid);
        self.put(b",");
        self.put(name);
        self.put(b",");
    }
}

// The line, at the output's start.
pub fn put_line(out: &mut [u8], pairs: &Pairs, name: &[u8], uuid: Uuid) -> usize
    requires { Room out.old 0 (line_text pairs.now name.now uuid) }
    ensures { Put out.old 0 (line_text pairs.now name.now uuid) result out.new }
{
    let mut line = Output { out, at: 0 };
    line.put_head(uuid, name);
    line.put_pairs(Kind::Button, pairs.buttons.as_slice());
    line.put_pairs(Kind::Axis, pairs.axes.as_slice());
    line.at
}
