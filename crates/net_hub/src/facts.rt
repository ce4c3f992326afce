//! A fact of bytes.
ghost use Rattle.std.specs.Prelude.{IsTrue};
ghost use Rattle.cmd_journal.specs.Journals;

/// Bytes are numbers below 256. It does nothing.
pub(crate) fn are_bytes(bytes: &[u8])
    ensures { IsTrue (Journals.are_bytes bytes.now) }
{
    let _ = bytes;
}
