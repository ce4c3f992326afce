//! Bytes written whole.
ghost use Rattle.std.specs.Prelude.{◌≡◌, OnOk};
ghost use Rattle.std.specs.Io.KnownBytes.{Appends};
ghost use Rattle.base_io.specs.Counts.{HasCause};
ghost use Rattle.base_io.specs.Prefixes.{AppendsPrefix};

use crate::sink::Sink;
use std::error::Error;
use std::fmt;

/// A write failed.
#[derive(Clone, Copy, Debug, PartialEq, Eq)]
pub struct WriteFault;

impl fmt::Display for WriteFault {
    fn fmt<W: fmt::Write>(&self, f: &mut fmt::Formatter<W>) -> fmt::Result {
        f.write_str("a write failed")
    }
}

impl Error for WriteFault {}

/// Writes all of `bytes`. It takes no memory.
///
/// `WriteFault` comes exactly where a write failed, and then a prefix of `bytes` went out, and no other byte.
pub fn write_all<K: Sink>(sink: &mut K, bytes: &[u8]) -> Result<(), WriteFault>
    ensures all { OnOk result (Appends (K.written sink.old) (K.written sink.new) bytes.now) }
    ensures prefix { AppendsPrefix (K.written sink.old) (K.written sink.new) bytes.now }
    ensures cause { HasCause (K.faults sink.old) (K.faults sink.new) result }
{
    let mut rest = bytes;
    while !rest.is_empty() {
        match sink.write(rest) {
            Ok(n) => rest = &rest[n..],
            Err(_) => return Err(WriteFault),
        }
    }
    Ok(())
}
