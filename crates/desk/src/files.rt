// Files that are read: lists, and stores. A store is the index and then the text, in one of two sizes.
ghost use Rattle.std.specs.Prelude.{◌≡◌, length};

use crate::console::{Console, NO_ERROR, NO_TEXT, open_read};
use crate::say::{Failure, complain};
use crate::shown::{complain_shown, fail};
use crate::words::refused_file;
use std::alloc::{AllocError, Global};
use std::fs::File;
use std::io;
use std::io::{Error, ErrorKind, Read};

// The most bytes of a list.
const LIST_MAX: usize = 4194304;

// The most bytes of an argument.
pub const ARG_ROOM: usize = 16384;

// The room for an argument. The length is said, since a repeat of so many is long to count.
pub fn arg_space() -> [u8; ARG_ROOM]
    ensures { 16384 ≡ length result }
{
    [0u8; ARG_ROOM]
}

// The sizes of a store: the first one, and that of `hub new STORE large`.
#[derive(Clone, Copy, PartialEq, Eq)]
pub enum Size {
    Small,
    Large,
}

impl Size {
    // The bytes of the index.
    pub fn index(self) -> usize {
        match self {
            Size::Small => 65535,
            Size::Large => 1048576,
        }
    }

    // The bytes of the text.
    fn text(self) -> usize {
        match self {
            Size::Small => 65535,
            Size::Large => 16777216,
        }
    }

    // The bytes of a file.
    fn whole(self) -> usize {
        self.index().wrapping_add(self.text())
    }

    // That of a file of so many bytes.
    fn of_file(bytes: usize) -> Option<Size> {
        [Size::Small, Size::Large]
            .into_iter()
            .find(|size| size.whole() == bytes)
    }
}

// What a store file holds: the index and the text.
#[derive(Clone, PartialEq, Eq, Drop)]
pub struct StoreFile {
    pub index: Vec<u8>,
    pub text: Vec<u8>,
}

// An index and a text of any length, which stand elsewhere.
#[derive(Clone, Copy, PartialEq, Eq)]
pub struct Halves<'a> {
    pub index: &'a [u8],
    pub text: &'a [u8],
}

impl StoreFile {
    // A fresh one, all 0.
    pub fn new(alloc: Global, size: Size) -> Result<StoreFile, AllocError> {
        Ok(StoreFile {
            index: vec![in alloc; 0; size.index()]?,
            text: vec![in alloc; 0; size.text()]?,
        })
    }

    // The store of a file's bytes; None where no store has so many.
    fn of_bytes(alloc: Global, bytes: &[u8]) -> Result<Option<StoreFile>, AllocError> {
        let halves = Size::of_file(bytes.len()).and_then(|size| bytes.split_at_checked(
            size.index(),
        ));
        let Some((index, text)) = halves else {
            return Ok(None);
        };
        Ok(Some(StoreFile {
            index: Vec::from_slice(alloc, index)?,
            text: Vec::from_slice(alloc, text)?,
        }))
    }

    pub fn is_large(&self) -> bool {
        Size::Large.index() <= self.index.len()
    }

    // The large store with the same bytes, and zeros behind them in each half. The crate store's law `grown` says that it
    // is as sound as this one, and holds the same lines.
    pub fn grown(&self) -> Result<StoreFile, AllocError> {
        let mut large = self.clone()?;
        large.index.resize(Size::Large.index(), 0)?;
        large.text.resize(Size::Large.text(), 0)?;
        Ok(large)
    }
}

impl<'a> From<&'a StoreFile> for Halves<'a> {
    fn from(file: &'a StoreFile) -> Halves<'a> {
        Halves {
            index: &file.index,
            text: &file.text,
        }
    }
}

// Reads until the room is full, the file ends or a read fails: how many bytes came, and that read's error.
fn fill(file: &mut File, space: &mut [u8]) -> (usize, Option<Error>) {
    let mut len: usize = 0;
    // Each turn asks for what is left of the room, and the system says how much came: no item to go over.
    while len < space.len() {
        match file.read(&mut space[len..]) {
            Ok(0) => break,
            Ok(n) => len += n,
            Err(error) => return (len, Some(error)),
        }
    }
    (len, None)
}

// Reads until the room is full or the file ends. Where less was read, one read more tells whether the file ends there:
// else a read failed.
pub fn read_all(file: &mut File, space: &mut [u8]) -> io::Result<usize> {
    let (len, failed) = fill(file, space);
    if len == space.len() {
        return Ok(len);
    }
    let mut more = [0u8; 1];
    match file.read(&mut more)? {
        0 => Ok(len),
        _ => Err(failed.unwrap_or(Error::from_raw_os_error(NO_ERROR))),
    }
}

// The first bytes of a file, one more than `most` where it has more.
fn read_first(console: &Console, path: &[u8], most: usize) -> io::Result<Vec<u8>> {
    let mut bytes = Vec::new(console.alloc());
    open_read(console, path)?
        .take(most.wrapping_add(1) as u64)
        .read_to_end(&mut bytes)?;
    Ok(bytes)
}

// Reads a list. What is too long, or can't be read, is said.
pub fn read_list(console: &Console, path: &[u8]) -> Result<Vec<u8>, Failure> {
    let list = read_first(console, path, LIST_MAX).map_err(|error| fail(console, path, error))?;
    if LIST_MAX < list.len() {
        complain_shown(console, path);
        complain(console, b": a list may have at most 4194304 bytes\n");
        return Err(Failure::Trouble);
    }
    Ok(list)
}

// Reads a store file.
pub fn load(console: &Console, path: &[u8]) -> Result<StoreFile, Failure> {
    let bytes = read_first(console, path, Size::Large.whole()).map_err(|error| fail(
        console, path, error,
    ))?;
    StoreFile::of_bytes(console.alloc(), &bytes)?.ok_or_else(|| refused_file(console, path))
}

// Whether there is a file of that name, or something that can't be opened. A name that is no text names none.
pub fn stands(console: &Console, path: &[u8]) -> bool {
    !open_read(console, path).is_err_and(|error| {
        error.kind() == ErrorKind::NotFound || error.raw_os_error() == Some(NO_TEXT)
    })
}
