//! Laws of reading: what a framer reads is what the bytes spell in XML's grammar, and what they spell is read (RFC
//! 6120, section 4; XML 1.0, sections 2.8 and 3; Namespaces in XML 1.0).
ghost use Rattle.std.specs.Prelude.{◌≡◌, ◌<◌, ◌^◌, ℕ, List, [], None};
ghost use Rattle.xml_framer.specs.Machine.{part_of, run};
ghost use Rattle.law_xml.specs.Spells.{SpellsHeader, SpellsItem, SpellsNextHeader};
ghost use Rattle.law_xml.specs.Standing.{Gives, IsItemWithin, StandsOutside, name_left, phase_left, scope_left};
ghost use Rattle.xml_framer.specs.States.{State, from_start, turn};
ghost use Rattle.law_xml.specs.StreamLimits.{IsReadAs, IsStreamWithin};
ghost use Rattle.law_xml.specs.Streams.{InForce, IsStream, StreamTo};
ghost use Rattle.law_xml.specs.Within.{IsHeaderWithin, IsNextHeaderWithin};
ghost use Rattle.xml_framer.specs.declared.items.Item.{Item};
ghost use Rattle.xml_framer.specs.declared.items.Item.TheVariants as item;
ghost use Rattle.xml_framer.specs.declared.limits.Limits.{Limits};
ghost use Rattle.xml_framer.specs.declared.states.Phase.TheVariants as phase;
ghost use Rattle.xml_names.specs.Scopes.{Scope};
ghost use Rattle.xml_names.specs.declared.headers.Header.{Header};

/// A law: what spells an item is read as that item (XML 1.0, section 3; Namespaces in XML 1.0; RFC 6120, section 4).
/// From a state behind a header in which no element is open and no token is in hand, the bytes that spell an item in the
/// scope in force give exactly that item, a header with its place, and give it at the last of them. They leave the machine
/// in such a state again, in the scope and behind the name that the item leaves in force; behind a footer the stream has
/// ended. Before the first header, and behind a declaration, the same holds of a header.
///
/// The item is within the limits: its bytes, its depth, and in each tag the attributes and the declared namespaces. Of a
/// later header it is asked besides that the limits on these two are numbers of 32 bits, as they are in `Limits`.
pub fn spelled_items_are_read()
    ensures item { (s : State) (items : List Item) (scope : Scope) (name bytes : List ℕ) (i : Item) (spelled : SpellsItem scope name bytes i)
        → StandsOutside s phase.Between scope name → IsItemWithin s.limits scope name bytes i spelled
        → Gives s items bytes i (phase_left scope name bytes i spelled) (scope_left scope name bytes i spelled) (name_left scope name bytes i spelled) }
    ensures first { (s : State) (items : List Item) (scope inner : Scope) (name next bytes : List ℕ) (h : Header) (spelled : SpellsHeader bytes next inner h)
        → StandsOutside s phase.First scope name → IsHeaderWithin s.limits bytes next inner h spelled
        → Gives s items bytes (item.Header s.positions.at h) phase.Between inner next }
    ensures first_declared { (s : State) (items : List Item) (scope inner : Scope) (name next bytes : List ℕ) (h : Header) (spelled : SpellsHeader bytes next inner h)
        → StandsOutside s phase.FirstDeclared scope name → IsHeaderWithin s.limits bytes next inner h spelled
        → Gives s items bytes (item.Header s.positions.at h) phase.Between inner next }
    ensures declared { (s : State) (items : List Item) (scope inner : Scope) (name next bytes : List ℕ) (h : Header) (spelled : SpellsNextHeader scope bytes next inner h)
        → StandsOutside s phase.Declared scope name → IsNextHeaderWithin s.limits scope bytes next inner h spelled
        → Gives s items bytes (item.Header s.positions.at h) phase.Between inner next }
{}

/// A law: what is a stream in the grammar's words, each header, element and declaration within the limits, is read from
/// the first byte on as its items and no others, each header with its place (RFC 6120, section 4; XML 1.0, section 2.8).
/// There is no fault, nothing is unfinished behind the bytes, and the machine knows of the stream what is in force there.
pub fn spelled_streams_are_read()
    ensures { (limits : Limits) (now : InForce) (bytes : List ℕ) (said : List Item) (stream : StreamTo now bytes said) → IsStreamWithin limits now bytes said stream
        → IsReadAs limits now bytes said }
{}

/// A law: what is read is spelled so. Where a framer has read bytes without a fault and nothing is unfinished, the bytes
/// are a stream of exactly the items that it gave. The premises on the limits are the ranges of a `Limits`'s
/// fields, which a variable of a law doesn't have.
pub fn what_is_read_is_spelled()
    ensures { (limits : Limits) (bytes : List ℕ) → limits.attributes < 2 ^ 32 → limits.namespace_bytes < 2 ^ 32
        → let end = run (turn (from_start limits) []) bytes in (end.state.fault ≡ None → part_of end.state ≡ None → IsStream bytes end.items) }
{}

/// A law: what is read is within the limits. Where a framer has read bytes without a fault and nothing is unfinished, they
/// are a stream of exactly its items, and each header, element and declaration of it is within the limits: its bytes, its
/// depth, and in each tag the attributes and the declared namespaces. So with `spelled_streams_are_read` exactly the
/// streams within the limits are read. The premises on the limits are the ranges of a `Limits`'s fields.
pub fn what_is_read_is_within_the_limits()
    ensures { (limits : Limits) (bytes : List ℕ) → limits.bytes < 2 ^ 64 → limits.attributes < 2 ^ 32 → limits.namespace_bytes < 2 ^ 32
        → let end = run (turn (from_start limits) []) bytes in (end.state.fault ≡ None → part_of end.state ≡ None
        → (now : InForce) × (stream : StreamTo now bytes end.items) × IsStreamWithin limits now bytes end.items stream) }
{}
