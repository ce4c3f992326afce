//! The law.
ghost use Rattle.std.specs.Prelude.{◌≡◌, ◌↔◌, ℕ, List, true};
ghost use Rattle.law_commands.specs.Checks.{IsClientStream, IsToldOf};
ghost use Rattle.xml_check.specs.Checked.{Told, told};
ghost use Rattle.xml_framer.specs.Limits.{server_limits};

use law_xml::byte_rows::faults_are_rows_of_bytes;
use law_xml::prefixes::{unfinished_streams_are_told, whole_streams_are_told};
use xml_framer::{a_fault_stays, any_pieces};

/// A law: what `check` tells of a stream is the grammar's, under the limits of a server. Of each list of bytes it tells what
/// `IsToldOf` says (`is`), and no other text is one that `IsToldOf` says (`alone`): the items, where an unfinished one begins,
/// which fault there is and at which offset are those of the grammar and of its table of faults. Nothing is wrong exactly where
/// the bytes are a stream within the limits whose headers open streams between a client and its server (`sound`).
pub fn told_is_the_grammars()
    ensures is { (bytes : List ℕ) → IsToldOf server_limits bytes (told bytes) }
    ensures alone { (bytes : List ℕ) (t : Told) → IsToldOf server_limits bytes t → t ≡ told bytes }
    ensures sound { (bytes : List ℕ) → ((told bytes).sound ≡ true) ↔ IsClientStream server_limits bytes }
{
    any_pieces();
    a_fault_stays();
    unfinished_streams_are_told();
    whole_streams_are_told();
    faults_are_rows_of_bytes();
}
