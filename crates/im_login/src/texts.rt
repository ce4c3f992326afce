//! Texts in elements, compared where they lie.
ghost use Rattle.std.specs.Prelude.{◌≡◌, ◌≢◌, ℕ, List, ◌++◌};
ghost use Rattle.std.specs.Option.{MatchOption};
ghost use Rattle.std.specs.Str.{bytes_eq};
ghost use Rattle.xml_trees.specs.Readers.{text_of};
ghost use Rattle.xml_trees.specs.Views.{nodes_view};

use xml_trees::Node;

// What stands behind a text. `None` where it isn't there.
fn following<'a>(bytes: &'a [u8], text: &str) -> Option<&'a [u8]>
    ensures { MatchOption result ((rest : List ℕ) → bytes.now ≢ text.now ++ rest) (λ rest. bytes.now ≡ text.now ++ rest.now) }
{
    bytes.strip_prefix(text.as_bytes())
}

/// Whether the texts directly among nodes, one behind the other, are this one. It takes no memory.
#[tactic(auto, using(crate::proofs::TextSteps::cut_front, crate::proofs::TextSteps::other_front))]
pub(crate) fn is_text(nodes: &[Node], expected: &str) -> bool
    ensures { result ≡ bytes_eq (text_of (nodes_view nodes.now)) expected.now }
{
    let mut rest = expected.as_bytes();
    for node in nodes {
        if let Node::Text(text) = node {
            match following(rest, text.as_str()) {
                Some(bytes) => rest = bytes,
                None => return false,
            }
        }
    }
    rest.is_empty()
}
