// The text layer: bytes, UTF-8 (RFC 3629), UUIDs (RFC 4122) and index numbers in base ten.
#![tactic(auto)]

pub mod bytes;
pub mod decimal;
pub mod search;
pub mod utf8;
pub mod uuid;
