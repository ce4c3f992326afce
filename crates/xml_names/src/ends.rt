//! End tags.
ghost use Rattle.std.specs.Option.{option_map};
ghost use Rattle.std.specs.Prelude.{◌≡◌};
ghost use Rattle.xml_names.specs.Ends.{end_of};

use xml_tokens::read_end_tag;

/// Reads an end tag off its whole bytes, from its `</` to its `>` (XML 1.0, section 3.1, ETag), and answers the name as
/// it is spelled, borrowed from them. `None` comes exactly where the bytes are no end tag.
#[tactic(auto, unfolding(crate::specs::Ends::end_of))]
pub fn read_end(bytes: &[u8]) -> Option<&str>
    ensures { option_map (λ name. name.now) result ≡ end_of bytes.now }
{
    read_end_tag(bytes)
}
