//! A source read whole, to its end.
//!
//! A source is read 4,096 bytes at a time into a buffer on the stack. No clause depends on the number.
ghost use Rattle.std.specs.Prelude.{◌≡◌, ◌<◌, ◌≤◌, ◌++◌, length, ⊤, IfOk, IfSome, OnOk, IsErrOf};
ghost use Rattle.std.specs.Io.KnownBytes.{IsAtEnd};
ghost use Rattle.base_io.specs.Counts.{Rose};
ghost use Rattle.base_io.specs.Given.{Gave};

use crate::bytes::Bytes;
use crate::fault::NoMemory;
use crate::source::Source;
use std::alloc::Global;
use std::error::Error;
use std::fmt;

/// The most bytes that `read_all` reads.
pub const MOST_BYTES_READ: usize = 67_108_864;

/// Why a source was not read whole.
#[derive(Clone, Copy, Debug, PartialEq, Eq)]
pub enum ReadAllFault {
    /// A read failed.
    ReadFault,
    /// The source gave more than `MOST_BYTES_READ` bytes.
    TooLong,
    /// Memory ran out.
    NoMemory,
}

impl fmt::Display for ReadAllFault {
    fn fmt<W: fmt::Write>(&self, f: &mut fmt::Formatter<W>) -> fmt::Result {
        f.write_str(match self {
            ReadAllFault::ReadFault => "a read failed",
            ReadAllFault::TooLong => "more than 67,108,864 bytes",
            ReadAllFault::NoMemory => "out of memory",
        })
    }
}

impl Error for ReadAllFault {}

impl From<NoMemory> for ReadAllFault {
    ghost use Rattle.std.specs.Prelude.{◌≡◌};
    ghost use Rattle.base_io.specs.declared.whole_reads.ReadAllFault.TheVariants.{NoMemory as OutOfMemory};

    ghost from_gives = { λ _ fault. fault ≡ OutOfMemory };

    fn from(_e: NoMemory) -> ReadAllFault {
        ReadAllFault::NoMemory
    }
}

/// Reads a source to its end.
///
/// `ReadFault` comes exactly where a read failed, `TooLong` exactly where no read failed and the source gave
/// more than `MOST_BYTES_READ` bytes, and `NoMemory` where no memory was left for the bytes. After an error the bytes
/// that were read are gone.
pub fn read_all<S: Source>(alloc: Global, source: &mut S) -> Result<Bytes, ReadAllFault>
    ensures all { IfOk result (λ bytes. IfSome (S.left source.old) (λ left. bytes.items ≡ left)) }
    ensures given { IfOk result (λ bytes. S.given source.new ≡ S.given source.old ++ bytes.items) }
    ensures gave { Gave (S.given source.old) (S.given source.new) (λ _. ⊤) }
    ensures end { OnOk result (IsAtEnd (S.left source.new)) }
    ensures short { IfOk result (λ bytes. length bytes.items ≤ MOST_BYTES_READ) }
    ensures gave_more { IsErrOf result ReadAllFault.TooLong → Gave (S.given source.old) (S.given source.new) (λ given. MOST_BYTES_READ < length given) }
    ensures too_long { IsErrOf result ReadAllFault.TooLong → IfSome (S.left source.old) (λ left. MOST_BYTES_READ < length left) }
    ensures read_fault { IsErrOf result ReadAllFault.ReadFault → Rose (S.faults source.old) (S.faults source.new) }
    ensures later { S.faults source.old ≤ S.faults source.new }
    ensures quiet { S.faults source.old < S.faults source.new → IsErrOf result ReadAllFault.ReadFault }
{
    let mut buf = [0u8; 4096];
    let mut all = Bytes::new(alloc);
    while all.as_slice().len() <= MOST_BYTES_READ {
        match source.read(&mut buf) {
            Ok(0) => return Ok(all),
            Ok(n) => all.append(&buf[..n])?,
            Err(_) => return Err(ReadAllFault::ReadFault),
        }
    }
    Err(ReadAllFault::TooLong)
}
