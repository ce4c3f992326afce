//! The fields of a line.
use crate::stop::Stop;
use base_io::Bytes;
use hex::{FromHexError, decode, decode_to_slice};
use std::alloc::Global;

/// The first field, and the others.
pub(crate) fn cut(line: &str) -> (&str, &str) {
    match line.split_once(' ') {
        Some(cut) => cut,
        None => (line, ""),
    }
}

/// Bytes in hexadecimal.
pub(crate) fn bytes(alloc: Global, field: &str) -> Result<Bytes, Stop> {
    match decode(alloc, field.as_bytes()) {
        Ok(bytes) => Ok(Bytes::from(bytes)),
        Err(FromHexError::OutOfMemory) => Err(Stop::NoMemory),
        Err(_) => Err(Stop::Line),
    }
}

/// 24 bytes in hexadecimal.
pub(crate) fn entropy(field: &str) -> Result<[u8; 24], Stop> {
    let mut entropy = [0u8; 24];
    match decode_to_slice(field.as_bytes(), &mut entropy) {
        Ok(()) => Ok(entropy),
        Err(_) => Err(Stop::Line),
    }
}

/// A number.
pub(crate) fn number(field: &str) -> Result<u32, Stop> {
    match field.parse() {
        Ok(number) => Ok(number),
        Err(_) => Err(Stop::Line),
    }
}
