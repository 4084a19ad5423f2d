// The records of the shares, which stand first in an index (document 02, P10 and P12): read, found and changed. A
// change of their form changes this file alone.
ghost use Rattle.std.specs.Prelude.{◌≡◌, true, false, ◌++◌, ◌+◌, ◌-◌, ◌≤◌, ◌<◌, length, take, drop, replicate};
ghost use Rattle.text.specs.Bytes.{pick};
ghost use Rattle.store.specs.Held.{is_long};
ghost use Rattle.store.specs.Layout.{share_bytes};
ghost use Rattle.store.specs.Shares.{owners, no_shares, share_size, share_sizes};
ghost use Rattle.store.specs.Decode.{front_share};
ghost use Rattle.store.specs.Fronts.{starts_share, Fronts, Moved, Changes, Changed};

use crate::bytes::{move_down, put_u32, put_word, u32_at, word_at};
use crate::records;

// So many parties: the hall and the organisers from 1 to 255.
pub const OWNERS: usize = 256;

// The greatest share that a record of kind 4 holds; of a larger one the record has kind 6.
const SHORT_MAX: u32 = records::SHORT_MAX as u32;

// The bytes of a record: the kind, the owner, and two bytes or four.
const SHORT_SIZE: usize = 4;

const LONG_SIZE: usize = 6;

// Whether a whole record of kind 4 or 6 stands at the front.
pub fn starts_share(index: &[u8]) -> bool
    ensures { result ≡ starts_share index.now }
{
    matches!(index, [4, _, _, _, ..] | [6, _, _, _, _, _, ..])
}

// The share of kind 6 in those four bytes; 0 where kind 4 would hold it.
fn long_share(share: u32) -> u32
    ensures { result ≡ pick (is_long share) share 0 }
{
    if SHORT_MAX < share {
        return share;
    }
    0
}

// The share in the record at the front, if it is that owner's and has the kind that it needs; else 0.
pub fn front_share(index: &[u8], owner: usize) -> u32
    requires { starts_share index.now ≡ true }
    ensures { result ≡ front_share owner index.now }
{
    if index[1] as usize != owner {
        return 0;
    }
    if index[0] == 4 {
        return word_at(index, 2) as u32;
    }
    long_share(u32_at(index, 2))
}

// The bytes of the record of a share; share 0 has none.
pub fn share_size(share: u32) -> usize
    ensures { result ≡ share_size share }
{
    match share {
        0 => 0,
        1..=SHORT_MAX => SHORT_SIZE,
        _ => LONG_SIZE,
    }
}

// Reads the shares at the index's front, by owner, and answers where the records of the lines start.
pub fn read_shares(index: &[u8], shares: &mut [u32; OWNERS]) -> usize
    requires { shares.old ≡ no_shares }
    ensures { Fronts index.now shares.new result }
{
    let mut at = 0;
    // By owner: the number is asked for in a record and is the place of its share; `iter_mut` would give it beside.
    for owner in 0..OWNERS {
        if !starts_share(&index[at..]) {
            return at;
        }
        let share = front_share(&index[at..], owner);
        shares[owner] = share;
        at += share_size(share);
    }
    at
}

// Whether any party has a share.
pub fn any_share(shares: &[u32; OWNERS]) -> bool
    ensures { result ≡ false → shares.now ≡ no_shares }
{
    shares.iter().any(|share| *share != 0)
}

// Where the record of an owner's share stands, or would stand: behind those of smaller owners.
pub fn share_place(shares: &[u32; OWNERS], owner: usize) -> usize
    requires { owner ≤ owners }
    ensures { result ≡ share_sizes (take owner shares.now) }
{
    let mut at = 0;
    for share in &shares[..owner] {
        at += share_size(*share);
    }
    at
}

// Writes a share's record at the front. This and the next two ask for the bytes that they write, and take no type with
// that fact, since document 01 names what they take: the index from there on, `&mut index[at..]`.
fn put_share(part: &mut [u8], owner: u8, share: u32)
    requires { share_size share ≤ length part.old }
    ensures { part.new ≡ share_bytes owner share ++ drop (share_size share) part.old }
{
    if share == 0 {
        return;
    }
    part[1] = owner;
    if share <= SHORT_MAX {
        part[0] = 4;
        put_word(part, 2, share as usize);
    } else {
        part[0] = 6;
        put_u32(part, 2, share);
    }
}

// Takes the first `gap` bytes out: the rest moves down, and 0 follows it.
fn close_gap(part: &mut [u8], gap: usize)
    requires { gap ≤ length part.old }
    ensures { part.new ≡ drop gap part.old ++ replicate gap 0 }
{
    move_down(part, gap);
    let behind = part.len() - gap;
    part[behind..].fill(0);
}

// Moves the bytes before the last `gap` up by so many; the first `gap` stay as they are.
fn open_gap(part: &mut [u8], gap: usize)
    requires { gap ≤ length part.old }
    ensures { part.new
        ≡ take gap part.old ++ take (length part.old - gap) part.old }
{
    part.copy_within(..part.len() - gap, gap);
}

// Gives the record at the front, which was so many bytes long, another size: what stands behind it moves. A longer one
// needs zeros at the end.
fn fit_record(part: &mut [u8], was: usize, size: usize)
    requires { (was ≤ length part.old) × (size ≤ length part.old) }
    ensures { Moved part.old was size part.new }
{
    if was < size {
        open_gap(part, size - was);
    } else if size < was {
        close_gap(part, was - size);
    }
}

// Sets the share of an owner, whose record stands, or would stand, at the front: `had` is the former one.
pub fn change_share(part: &mut [u8], owner: u8, had: u32, share: u32)
    requires { Changes part.old owner had share }
    ensures { Changed part.old owner had share part.new }
{
    fit_record(part, share_size(had), share_size(share));
    put_share(part, owner, share);
}
