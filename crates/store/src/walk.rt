// The records of an index and the lines of a text, one after the other: for programs that list what these hold. Each
// call takes any buffer and place.
ghost use Rattle.std.specs.Prelude.{◌≡◌, ◌<◌, ◌≤◌, length, drop};
ghost use Rattle.store.specs.Held.{record_size};
ghost use Rattle.text.specs.Bytes.{first_of};
ghost use Rattle.text.specs.Search.{lf};
ghost use Rattle.store.specs.Walks.{share_told, record_told, record_at, behind_line, next_line};

use crate::lines::line_length;
use crate::parties::Key;
use crate::records::{Kind, SHORT_MAX, size_by, stands, whole_head};
use crate::shares::{front_share, share_size, starts_share};
use text::search::find_far;

// The record of a line: whose it is, and where the line lies in the text.
#[derive(Clone, Copy, PartialEq, Eq)]
pub struct LineRecord {
    pub key: Key,
    pub off: usize,
    pub len: usize,
}

// The record of a share: the party's owner byte, 0 being the hall, and the bytes of the text.
#[derive(Clone, Copy, PartialEq, Eq)]
pub struct ShareRecord {
    pub owner: u8,
    pub share: usize,
}

// What a record is about.
#[derive(Clone, Copy, PartialEq, Eq)]
pub enum Record {
    Line(LineRecord),
    Share(ShareRecord),
}

// A record that stands in an index, and how many bytes it has there.
#[derive(Clone, Copy, PartialEq, Eq)]
pub struct Stands {
    pub told: Record,
    pub size: usize,
}

// A line cut off a text: how long it is, and where the next one starts.
#[derive(Clone, Copy, PartialEq, Eq)]
pub struct Cut {
    pub len: usize,
    pub next: usize,
}

// The bytes of a record of that owner, 0 being the hall, of a line at that offset.
pub fn line_size(owner: u8, off: usize) -> usize
    ensures size { result ≡ record_size owner off }
    ensures some { 1 ≤ result }
{
    size_by(Kind {
        owner,
        long: SHORT_MAX < off,
    })
}

// The share at an index's front.
fn share_told(index: &[u8]) -> Option<Stands>
    ensures { result ≡ share_told index.now }
{
    if !starts_share(index) {
        return None;
    }
    let owner = index[1];
    let share = front_share(index, owner as usize);
    if share == 0 {
        return None;
    }
    let told = Record::Share(ShareRecord {
        owner,
        share: share as usize,
    });
    let size = share_size(share);
    Some(Stands { told, size })
}

// The record at an index's front.
fn record_told(index: &[u8]) -> Option<Stands>
    ensures { result ≡ record_told index.now }
{
    if !stands(index) {
        return share_told(index);
    }
    let head = whole_head(index);
    let told = Record::Line(LineRecord {
        key: head.key,
        off: head.off,
        len: head.len,
    });
    let size = head.size;
    Some(Stands { told, size })
}

// The record that stands at a place of an index; None where no whole one does.
pub fn record_at(index: &[u8], at: usize) -> Option<Stands>
    ensures { result ≡ record_at index.now at }
{
    if index.len() <= at {
        return None;
    }
    record_told(&index[at..])
}

// The place behind the LF that ends the line from `at` on; the text's end where no LF follows.
fn behind_line(text: &[u8], at: usize, end: usize) -> usize
    requires { (at < length text.now) × (end ≡ first_of lf (drop at text.now)) }
    ensures { result ≡ behind_line text.now at }
{
    if text.len() - at <= end {
        return text.len();
    }
    at + end + 1
}

// Cuts the line that starts at a place off a text, as an insert does; None at the end.
pub fn next_line(text: &[u8], at: usize) -> Option<Cut>
    ensures { result ≡ next_line text.now at }
{
    if text.len() <= at {
        return None;
    }
    let rest = &text[at..];
    let end = find_far(rest, b'\n');
    let len = line_length(rest, end);
    let next = behind_line(text, at, end);
    Some(Cut { len, next })
}
