// A stream of Linux input events, as a pad's device gives it: struct input_event of linux/input.h on a 64-bit machine,
// 24 bytes a record. Its time in seconds (8 bytes) and microseconds (8); then type (2 bytes), code (2) and value (4,
// signed), the low byte first. What is done with an event stands elsewhere.
use crate::files::read_all;
use std::fs::File;
use std::io::Error;

const RECORD: usize = 24;

// When a record was made. The less is the earlier.
#[derive(Clone, Copy, PartialEq, Eq, PartialOrd, Ord)]
pub struct Time {
    pub seconds: u64,
    pub micros: u64,
}

// A record: type and code are numbers of linux/input-event-codes.h.
#[derive(Clone, Copy)]
pub struct Input {
    pub time: Time,
    pub kind: u16,
    pub number: u16,
    pub value: i32,
}

// Why there is no whole record: only so many bytes are left, or the stream can't be read on.
#[derive(Clone, Copy)]
pub enum InputError {
    Cut(usize),
    Failed(Error),
}

fn input_in(r: &[u8; RECORD]) -> Input {
    Input {
        time: Time {
            seconds: u64::from_le_bytes([r[0], r[1], r[2], r[3], r[4], r[5], r[6], r[7]]),
            micros: u64::from_le_bytes([r[8], r[9], r[10], r[11], r[12], r[13], r[14], r[15]]),
        },
        kind: u16::from_le_bytes([r[16], r[17]]),
        number: u16::from_le_bytes([r[18], r[19]]),
        value: i32::from_le_bytes([r[20], r[21], r[22], r[23]]),
    }
}

// Reads one record; None at the end.
pub fn next_input(file: &mut File) -> Option<Result<Input, InputError>> {
    let mut record = [0u8; RECORD];
    match read_all(file, &mut record) {
        Ok(0) => None,
        Ok(RECORD) => Some(Ok(input_in(&record))),
        Ok(left) => Some(Err(InputError::Cut(left))),
        Err(error) => Some(Err(InputError::Failed(error))),
    }
}
