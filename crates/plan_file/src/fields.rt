//! Fields of a plan file, each read from the start of the remaining bytes. A field that is not whole is an error with
//! the cause `Short`.
ghost use Rattle.std.specs.Prelude.{◌≢◌};
ghost use Rattle.std.specs.Int.{w16, w32, w64};
ghost use Rattle.plan_file.specs.Faults.{Gives};
ghost use Rattle.plan_file.specs.Reading.{byte_at, bytes_at, number_at};

use crate::fault::{Cause, Stop, stop_at};

/// The byte at the start, and the bytes after it.
pub fn first_byte(bytes: &[u8]) -> Result<(u8, &[u8]), Stop>
    ensures { Gives (λ x. (x.0, x.1.now)) result (byte_at bytes.now) }
{
    match bytes {
        [] => Err(stop_at(bytes, Cause::Short)),
        [byte, rest @ ..] => Ok((*byte, rest)),
    }
}

/// The number in two bytes at the start, and the bytes after it.
pub fn first_u16(bytes: &[u8]) -> Result<(u16, &[u8]), Stop>
    ensures number { Gives (λ x. (x.0, x.1.now)) result (number_at w16 bytes.now) }
    ensures not_starved { result ≢ Err Stop.OutOfMemory }
{
    match bytes.split_first_chunk::<2>() {
        None => Err(stop_at(bytes, Cause::Short)),
        Some((number, rest)) => Ok((u16::from_be_bytes(*number), rest)),
    }
}

/// The number in four bytes at the start, and the bytes after it.
pub fn first_u32(bytes: &[u8]) -> Result<(u32, &[u8]), Stop>
    ensures number { Gives (λ x. (x.0, x.1.now)) result (number_at w32 bytes.now) }
    ensures not_starved { result ≢ Err Stop.OutOfMemory }
{
    match bytes.split_first_chunk::<4>() {
        None => Err(stop_at(bytes, Cause::Short)),
        Some((number, rest)) => Ok((u32::from_be_bytes(*number), rest)),
    }
}

/// The number in eight bytes at the start, and the bytes after it.
pub fn first_u64(bytes: &[u8]) -> Result<(u64, &[u8]), Stop>
    ensures { Gives (λ x. (x.0, x.1.now)) result (number_at w64 bytes.now) }
{
    match bytes.split_first_chunk::<8>() {
        None => Err(stop_at(bytes, Cause::Short)),
        Some((number, rest)) => Ok((u64::from_be_bytes(*number), rest)),
    }
}

/// `count` bytes at the start, and the bytes after them.
pub fn first_bytes(count: usize, bytes: &[u8]) -> Result<(&[u8], &[u8]), Stop>
    ensures { Gives (λ x. (x.0.now, x.1.now)) result (bytes_at count bytes.now) }
{
    if bytes.len() < count {
        return Err(stop_at(bytes, Cause::Short));
    }
    Ok(bytes.split_at(count))
}
