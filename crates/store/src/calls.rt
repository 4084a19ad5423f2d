// The public calls of a store. Each takes any buffers and arguments; specs/Refusals gives document 01's numbers. The
// index and the text are two parameters: C lends them as two buffers of its own.
ghost use Rattle.std.specs.Prelude.{◌≡◌, true, length};
ghost use Rattle.store.specs.Decode.{decode};
ghost use Rattle.store.specs.Inner.{known, insert_full, save_full};
ghost use Rattle.store.specs.Keys.{Enough};
ghost use Rattle.store.specs.Table.{InsertsAll};
ghost use Rattle.store.specs.Saves.{save_args, store_save};
ghost use Rattle.store.specs.Store.{store_clear, store_walk, store_insert, look_up, line_of, says_of};

use crate::batch::insert_batch;
use crate::look::{line_at, look};
use crate::owners::owner_of;
use crate::parties::{Key, Party};
use crate::rows::by_area;
use crate::saving::{file_built, refused_save, saved_as, unsaved_name};
use crate::shares::{OWNERS, read_shares};
use crate::soundness::{INDEX_MAX, LINE_MAX, TEXT_MAX, sound_in};
use crate::spellings::other_spellings;
use crate::table::Full;
use line::mapping::Mapping;
use map::error::MappingError;
use map::from_data::from_data;
use map::mapping_data::MappingData;
use text::utf8::{is_utf8, valid_up_to};
use text::uuid::Uuid;

// Why a call is refused; `NotUtf8` with the length of the text's valid run, `NoOwner` where an organiser names itself
// 0, `NoText` and `ShareTooLarge` where shares and uses would exceed the text.
#[derive(Clone, Copy, PartialEq, Eq)]
pub enum StoreError {
    NotUtf8(usize),
    Unsound,
    LineTooLong,
    NoRoom,
    BufferTooLarge,
    NoOwner,
    NoText,
    ShareTooLarge,
}

// What an insert says where there is no room. Beside that of a save: each names cases of its own error.
impl From<Full> for StoreError {
    ghost from_gives = { λ full error. error ≡ insert_full full };

    fn from(full: Full) -> StoreError {
        match full {
            Full::Index => StoreError::NoRoom,
            Full::Text => StoreError::NoText,
        }
    }
}

// What a walk over the lines of an insert comes to: the answer, and the lines walked.
#[derive(Clone, Copy)]
pub struct Tally {
    pub answer: Result<(), StoreError>,
    pub count: usize,
}

// An insert's answer, the lines walked, and how many of them were filed in another form of the UUID than 32 digits.
#[derive(Clone, Copy)]
pub struct Inserted {
    pub answer: Result<(), StoreError>,
    pub count: usize,
    pub not_simple: usize,
}

// Why a save is refused: build's refusal, a name that has LF or `platform:`, or as the other calls.
#[derive(Clone, Copy, PartialEq, Eq)]
pub enum SaveError {
    Refused(MappingError),
    UnsavedName,
    Unsound,
    NoRoom,
    NoOwner,
    NoText,
}

// What a save says where there is no room.
impl From<Full> for SaveError {
    ghost from_gives = { λ full error. error ≡ save_full full };

    fn from(full: Full) -> SaveError {
        match full {
            Full::Index => SaveError::NoRoom,
            Full::Text => SaveError::NoText,
        }
    }
}

// A save's answer, and its map: document 01 has a refused save hand back the empty map, which a Result could not.
#[derive(Clone, Copy)]
pub struct Saved {
    pub answer: Result<(), SaveError>,
    pub map: Mapping,
}

// Why a look-up is refused: the store is not sound, or an organiser names itself 0.
#[derive(Clone, Copy, PartialEq, Eq)]
pub enum LookError {
    Unsound,
    NoOwner,
}

// Whether a party holds a line under that UUID.
pub fn found(index: &[u8], text: &[u8], party: Party, uuid: Uuid) -> Result<bool, LookError>
    ensures { result ≡ says_of (look_up party uuid index.now text.now) }
{
    Ok(look(index, text, party, uuid)?.is_some())
}

// The line that a party holds under a UUID, as a part of the text; an empty part where it holds none, the store is not
// sound, or an organiser names itself 0.
pub fn get<'a>(index: &[u8], text: &'a [u8], party: Party, uuid: Uuid) -> &'a [u8]
    ensures { result.now ≡ line_of (look_up party uuid index.now text.now) }
{
    let part = look(index, text, party, uuid).ok().flatten();
    line_at(text, part)
}

// Sets every byte of both buffers to 0, whether the store was sound or not.
pub fn clear(index: &mut [u8], text: &mut [u8]) -> Result<(), StoreError>
    ensures { record { answer = result; index = index.new; text = text.new }
        ≡ store_clear index.old text.old }
{
    if INDEX_MAX < index.len() {
        return Err(StoreError::BufferTooLarge);
    }
    if TEXT_MAX < text.len() {
        return Err(StoreError::BufferTooLarge);
    }
    index.fill(0);
    text.fill(0);
    Ok(())
}

// Files the wanted lines of a text for an owner, in order, up to one that is too long or has no room: into a sound
// store, of whose index the part behind the shares is lent.
fn insert_all<const N: usize>(
    part: &mut [u8],
    text: &mut [u8],
    shares: &[u32; OWNERS],
    owner: u8,
    lines: &[u8],
) -> Tally
    requires enough { Enough N (length part.old) }
    requires text_value { known (decode part.old text.old) ≡ true }
    ensures { InsertsAll shares.now part.old text.old owner lines.now result
        part.new text.new }
{
    let mut at = 0;
    let mut count = 0;
    // A `while`, since no index is counted: each batch says how far it came.
    while at < lines.len() {
        let some = insert_batch::<N>(part, text, shares, owner, lines, at);
        count += some.count;
        match some.answer {
            Ok(()) => at = some.at,
            Err(e) => {
                return Tally {
                    answer: Err(e),
                    count,
                };
            }
        }
    }
    Tally {
        answer: Ok(()),
        count,
    }
}

// An insert into a store that is not sound.
const UNSOUND: Tally = Tally {
    answer: Err(StoreError::Unsound),
    count: 0,
};

// The same, for buffers that may not be a sound store and a text that may not be UTF-8, by tables of that size.
fn walk_in<const N: usize>(index: &mut [u8], text: &mut [u8], owner: u8, lines: &[u8]) -> Tally
    requires { Enough N (length index.old) }
    ensures { record { answer = result; index = index.new; text = text.new }
        ≡ store_walk index.old text.old owner lines.now }
{
    if !sound_in::<N>(index, text) {
        return UNSOUND;
    }
    if !is_utf8(lines) {
        return Tally {
            answer: Err(StoreError::NotUtf8(valid_up_to(lines))),
            count: 0,
        };
    }
    let mut shares = [0u32; OWNERS];
    let front = read_shares(index, &mut shares);
    insert_all::<N>(&mut index[front..], text, &shares, owner, lines)
}

// The same, by tables for that index.
fn walk_insert(index: &mut [u8], text: &mut [u8], owner: u8, lines: &[u8]) -> Tally
    ensures { record { answer = result; index = index.new; text = text.new }
        ≡ store_walk index.old text.old owner lines.now }
{
    by_area!(index, UNSOUND, walk_in(index, text, owner, lines))
}

// The same for a party, with the number of lines that were filed in another form of the UUID than 32 digits.
pub fn insert(index: &mut [u8], text: &mut [u8], party: Party, lines: &[u8]) -> Inserted
    ensures { record { answer = result; index = index.new; text = text.new }
        ≡ store_insert index.old text.old party lines.now }
{
    let Some(owner) = owner_of(party) else {
        return Inserted {
            answer: Err(StoreError::NoOwner),
            count: 0,
            not_simple: 0,
        };
    };
    let walked = walk_insert(index, text, owner, lines);
    let answer = walked.answer;
    let count = walked.count;
    let not_simple = other_spellings(lines, count);
    Inserted {
        answer,
        count,
        not_simple,
    }
}

// Builds a line and files it for a party. What is built is told by build's own parameters, as C lends them.
pub fn save(
    index: &mut [u8],
    text: &mut [u8],
    party: Party,
    data: MappingData,
    buttons: &[u32],
    axes: &[u32],
    name: &[u8],
    uuid: Uuid,
) -> Saved
    ensures { record { answer = result; index = index.new; text = text.new }
        ≡ store_save index.old text.old party
        (save_args «data» buttons.now axes.now name.now uuid) }
{
    let Some(owner) = owner_of(party) else {
        return refused_save(SaveError::NoOwner);
    };
    let mut scratch = [0u8; LINE_MAX];
    let built = from_data(data, buttons, axes, name, uuid, &mut scratch);
    let answer = built.answer;
    if let Err(e) = answer {
        return refused_save(SaveError::Refused(e));
    }
    if unsaved_name(name) {
        return refused_save(SaveError::UnsavedName);
    }
    let len = built.len;
    let filed = file_built(index, text, Key { owner, uuid }, &scratch[0..len]);
    let map = built.map;
    saved_as(filed, map)
}
