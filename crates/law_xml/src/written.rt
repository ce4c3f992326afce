//! What is written enters a pipe as the item that it is read as.
ghost use Rattle.std.specs.Prelude.{◌≡◌, ◌<◌, ◌^◌, ℕ, List, [], false};
ghost use Rattle.law_xml.specs.Carries.{Carries};
ghost use Rattle.xml_framer.specs.States.{State, from_start};
ghost use Rattle.xml_framer.specs.declared.limits.Limits.{Limits};
ghost use Rattle.xml_framer.specs.declared.states.Phase.TheVariants as phase;
ghost use Rattle.xml_framer.specs.declared.items.Item.{Item};
ghost use Rattle.xml_framer.specs.declared.states.Phase.{Phase};
ghost use Rattle.law_xml.specs.Spells.{placed};
ghost use Rattle.law_xml.specs.Standing.{Gives};
ghost use Rattle.xml_names.specs.Scopes.{Scope};
ghost use Rattle.net_pipes.specs.Pipes.{Pipe};
ghost use Rattle.xml_writer.specs.Items.{ItemOut};
ghost use Rattle.law_xml.specs.Puts.{Entered, HasPut, MayPut, OutFits, StandsAt};

/// A law: bytes that the framer reads as an item behind what an open pipe carries enter it as that item.
pub fn what_is_read_enters()
    ensures { (s : State) (part : List ℕ) (p : Pipe) (items : List Item) (t : State) (bytes : List ℕ) (i : Item) (following : Phase) (scope : Scope) (name : List ℕ)
        → Carries s part p items t → p.ended ≡ false → Gives t [] bytes i following scope name
        → Entered s part p items t bytes (placed t.positions.at i) following scope name }
{}

/// A law: a new framer stands before the first header, and what an end puts enters an open pipe as that item, a header
/// with the declaration before it. It is plain and within the limits of the framer, which its writer shows.
pub fn what_an_end_puts_enters()
    ensures start { (limits : Limits) → StandsAt (from_start limits) phase.First }
    ensures put { (s : State) (part : List ℕ) (p : Pipe) (items : List Item) (t : State) (now : Phase) (i : ItemOut) → Carries s part p items t → p.ended ≡ false
        → StandsAt t now → MayPut now i → OutFits t.limits i → t.limits.attributes < 2 ^ 32 → t.limits.namespace_bytes < 2 ^ 32 → HasPut s part p items t i }
{}
