//! Laws of round trips: what is read can be written again, and what is written is read (RFC 6120, section 4; XML 1.0,
//! section 2.2; Namespaces in XML 1.0).
ghost use Rattle.std.specs.Prelude.{◌≡◌, ◌<◌, ◌≤◌, ◌+◌, ◌*◌, ◌^◌, ℕ, [], ◌∷◌, ◌++◌, List, Some, None, codes, length, take};
ghost use Rattle.std.specs.List.{All};
ghost use Rattle.std.specs.Option.{unwrap_or};
ghost use Rattle.xml_writer.specs.Canon.{canon, client_namespace, streams_namespace, written_footer, written_header};
ghost use Rattle.law_xml.specs.Fitting.{Fits, HeaderFits};
ghost use Rattle.law_xml.specs.Plain.{IsPlain, IsPlainElement, IsPlainHeader};
ghost use Rattle.law_xml.specs.PlainItems.{IsPlainItem, IsPlainScope};
ghost use Rattle.law_xml.specs.Spells.{Spells, SpellsHeader, SpellsTop, as_written, written_scope};
ghost use Rattle.law_xml.specs.Standing.{Gives, StandsOutside};
ghost use Rattle.law_xml.specs.StreamLimits.{IsReadAs, IsStreamWithin};
ghost use Rattle.law_xml.specs.Streams.{InForce, IsStream, StreamTo};
ghost use Rattle.law_xml.specs.WrittenStreams.{CanPass, ItemFits, MayFollow, at_start, now_after, read_items, whole_items, written_item, written_items};
ghost use Rattle.law_xml.specs.Within.{IsElementWithin, IsHeaderWithin};
ghost use Rattle.xml_trees.specs.Trees.{Elem, IsTree};
ghost use Rattle.xml_framer.specs.Limits.{client_limits, server_limits};
ghost use Rattle.xml_framer.specs.Machine.{part_of, run};
ghost use Rattle.xml_framer.specs.States.{State, from_start, turn};
ghost use Rattle.xml_framer.specs.declared.items.Item.{Item};
ghost use Rattle.xml_framer.specs.declared.items.Item.TheVariants as item;
ghost use Rattle.xml_framer.specs.declared.limits.Limits.{Limits};
ghost use Rattle.xml_framer.specs.declared.states.Phase.TheVariants as phase;
ghost use Rattle.xml_names.specs.Grammar.{IsShort};
ghost use Rattle.xml_names.specs.Scopes.{Scope, bound};
ghost use Rattle.xml_names.specs.declared.headers.Header.{Header};

/// A law: what is read can be written again. What spells an element spells a tree, and a plain one in each scope that a
/// header and start tags put in force; a header's values are plain, and so is the scope that it puts in force. All items
/// of a stream are plain. So what is written for a top-level element that was read in such a scope spells that element, in
/// the scope of a written header.
///
/// What is written for a header that was read spells a header with its values, `to`, `from`, `id`, `version` and `lang`. That
/// is the header that was read where this is `stream` in the streams namespace and its content is `jabber:client`: the
/// first tag of a stream is a header whatever its name and its namespaces, and these are not written.
pub fn what_is_read_is_plain()
    ensures tree { (scope : Scope) (bytes : List ℕ) (e : Elem) → Spells scope bytes e → IsTree e }
    ensures element { (scope : Scope) (bytes : List ℕ) (e : Elem) → IsPlainScope scope → Spells scope bytes e → IsPlainElement e }
    ensures top { (scope : Scope) (bytes : List ℕ) (e : Elem) → IsPlainScope scope → SpellsTop scope bytes e → IsPlain e }
    ensures header { (bytes name : List ℕ) (scope : Scope) (h : Header) → SpellsHeader bytes name scope h → IsPlainHeader h × IsPlainScope scope }
    ensures stream { (bytes : List ℕ) (items : List Item) → IsStream bytes items → All IsPlainItem items }
    ensures header_again { (bytes name : List ℕ) (scope : Scope) (h : Header) → SpellsHeader bytes name scope h
        → SpellsHeader (written_header h) (codes "stream:stream") written_scope (as_written h) }
    ensures same_header { (h : Header) → h.ns ≡ streams_namespace → h.name ≡ codes "stream" → h.content ≡ client_namespace → as_written h ≡ h }
    ensures again { (scope : Scope) (bytes : List ℕ) (e : Elem) → IsPlainScope scope → SpellsTop scope bytes e → SpellsTop written_scope (canon e) e }
{}

/// A law: what is written for an item that fits into the limits is read as that item. From a state after a written
/// header in which no element is open and no token is in hand, the bytes of a plain tree give exactly that element, at
/// the last of them, and leave such a state again; and so after each header that puts the same default namespace in
/// force and binds `stream`. The bytes of a header give that header, with its offset, wherever a header may stand, and
/// those of the footer the footer after a written header. Of a header after another it is asked besides that the limits
/// are numbers of 32 bits, as they are in `Limits`.
pub fn written_items_are_read()
    ensures element { (s : State) (items : List Item) (e : Elem) → IsTree e → IsPlain e → Fits s.limits e
        → StandsOutside s phase.Between written_scope (codes "stream:stream")
        → Gives s items (canon e) (item.Element e) phase.Between written_scope (codes "stream:stream") }
    ensures element_in { (s : State) (items : List Item) (scope : Scope) (name : List ℕ) (e : Elem) → unwrap_or (bound scope []) [] ≡ client_namespace
        → bound scope (codes "stream") ≡ Some streams_namespace → IsTree e → IsPlain e → Fits s.limits e → StandsOutside s phase.Between scope name
        → Gives s items (canon e) (item.Element e) phase.Between scope name }
    ensures first { (s : State) (items : List Item) (scope : Scope) (name : List ℕ) (h : Header) → IsPlainHeader h → HeaderFits s.limits h
        → StandsOutside s phase.First scope name
        → Gives s items (written_header h) (item.Header s.positions.at (as_written h)) phase.Between written_scope (codes "stream:stream") }
    ensures first_declared { (s : State) (items : List Item) (scope : Scope) (name : List ℕ) (h : Header) → IsPlainHeader h → HeaderFits s.limits h
        → StandsOutside s phase.FirstDeclared scope name
        → Gives s items (written_header h) (item.Header s.positions.at (as_written h)) phase.Between written_scope (codes "stream:stream") }
    ensures next { (s : State) (items : List Item) (scope : Scope) (name : List ℕ) (h : Header) → IsPlainHeader h → HeaderFits s.limits h
        → s.limits.attributes < 2 ^ 32 → s.limits.namespace_bytes < 2 ^ 32 → StandsOutside s phase.Between scope name
        → Gives s items (written_header h) (item.Header s.positions.at (as_written h)) phase.Between written_scope (codes "stream:stream") }
    ensures declared { (s : State) (items : List Item) (scope : Scope) (name : List ℕ) (h : Header) → IsPlainHeader h → HeaderFits s.limits h
        → s.limits.attributes < 2 ^ 32 → s.limits.namespace_bytes < 2 ^ 32 → StandsOutside s phase.Declared scope name
        → Gives s items (written_header h) (item.Header s.positions.at (as_written h)) phase.Between written_scope (codes "stream:stream") }
    ensures footer { (s : State) (items : List Item) (scope : Scope) → StandsOutside s phase.Between scope (codes "stream:stream")
        → Gives s items written_footer item.Footer phase.Ended scope (codes "stream:stream") }
{}

/// A law: a stream that is written is read as its items and no others. Of plain items that fit into the limits, first a
/// header and after a footer nothing, the bytes one after another are a stream in the grammar's words, and are read from
/// the first byte on without a fault, with nothing unfinished after them: each tree as that tree, and each header with
/// the offset of its first byte. Of so many first bytes of them the items are read of which all bytes are there, without a
/// fault: those before the item in which the bytes end, and all where all bytes are there. The premises on the limits are
/// the ranges of a `Limits`'s fields.
pub fn written_streams_are_read()
    ensures spelled { (limits : Limits) (items : List Item) → limits.attributes < 2 ^ 32 → limits.namespace_bytes < 2 ^ 32
        → MayFollow phase.First items → All (ItemFits limits) items → IsStream (written_items items) (read_items 0 items) }
    ensures in_force { (limits : Limits) (items : List Item) → limits.attributes < 2 ^ 32 → limits.namespace_bytes < 2 ^ 32
        → MayFollow phase.First items → All (ItemFits limits) items
        → IsReadAs limits (now_after at_start items) (written_items items) (read_items 0 items) }
    ensures given { (limits : Limits) (items : List Item) → limits.attributes < 2 ^ 32 → limits.namespace_bytes < 2 ^ 32
        → MayFollow phase.First items → All (ItemFits limits) items
        → let end = run (turn (from_start limits) []) (written_items items)
        in ((end.items ≡ read_items 0 items) × (end.state.fault ≡ None) × (part_of end.state ≡ None)) }
    ensures so_far { (limits : Limits) (items : List Item) (n : ℕ) → limits.attributes < 2 ^ 32 → limits.namespace_bytes < 2 ^ 32
        → MayFollow phase.First items → All (ItemFits limits) items
        → let end = run (turn (from_start limits) []) (take n (written_items items))
        in ((end.items ≡ read_items 0 (whole_items n items)) × (end.state.fault ≡ None)) }
    ensures whole { (done : List Item) (i : Item) (more : List Item) (k : ℕ) → k < length (written_item i)
        → whole_items (length (written_items done) + k) (done ++ i ∷ more) ≡ done }
    ensures all_whole { (items : List Item) (k : ℕ) → whole_items (length (written_items items) + k) items ≡ items }
{}

/// A law: what is read within limits fits, as it is written, into limits as deep and with names as long that admit twice as
/// many attributes and one more, if its bytes are not too many: so what is read within a server's limits fits into a
/// client's. The scope around it has short names, as one that a header puts in force within the limits does; so each
/// element of a stream within the limits is a plain tree that fits, if its bytes are not too many. What was read so can be
/// passed on: its bytes are read as that element.
///
/// More bytes may be written than were read, and more than a client admits: a namespace that is declared once, and in
/// force in many elements, may have to be declared in each of them.
pub fn what_is_read_fits()
    ensures fits { (read most : Limits) (scope : Scope) (bytes : List ℕ) (e : Elem) (spelled : Spells scope bytes e)
        → All (IsShort read.namespace_bytes) scope → IsElementWithin read scope bytes e spelled → 2 * read.attributes + 1 ≤ most.attributes
        → read.namespace_bytes ≤ most.namespace_bytes → read.depth ≤ most.depth → length (canon e) ≤ most.bytes → Fits most e }
    ensures server_to_client { (scope : Scope) (bytes : List ℕ) (e : Elem) (spelled : Spells scope bytes e)
        → All (IsShort server_limits.namespace_bytes) scope → IsElementWithin server_limits scope bytes e spelled
        → length (canon e) ≤ client_limits.bytes → Fits client_limits e }
    ensures header { (limits : Limits) (bytes name : List ℕ) (scope : Scope) (h : Header) (spelled : SpellsHeader bytes name scope h)
        → IsHeaderWithin limits bytes name scope h spelled → All (IsShort limits.namespace_bytes) scope }
    ensures stream { (read most : Limits) (now : InForce) (bytes : List ℕ) (items : List Item) (stream : StreamTo now bytes items)
        → IsStreamWithin read now bytes items stream → 2 * read.attributes + 1 ≤ most.attributes → read.namespace_bytes ≤ most.namespace_bytes
        → read.depth ≤ most.depth → All (CanPass most) items }
    ensures passed_on { (s : State) (items : List Item) (read : Limits) (scope : Scope) (bytes : List ℕ) (e : Elem) (spelled : SpellsTop scope bytes e)
        → IsPlainScope scope → All (IsShort read.namespace_bytes) scope → IsElementWithin read scope bytes e spelled.spelled
        → 2 * read.attributes + 1 ≤ s.limits.attributes → read.namespace_bytes ≤ s.limits.namespace_bytes → read.depth ≤ s.limits.depth
        → length (canon e) ≤ s.limits.bytes → StandsOutside s phase.Between written_scope (codes "stream:stream")
        → Gives s items (canon e) (item.Element e) phase.Between written_scope (codes "stream:stream") }
{}

/// A law: what a framer gives can be written again, and passed on, also where more is unfinished. As long as there is no
/// fault all items that were given are plain, and each element is a tree that fits into limits as deep and with names as
/// long that admit twice as many attributes and one more, if its bytes are not too many: `written_items_are_read` then
/// says that what is written for it is read as it. The premises on the limits are the ranges of a `Limits`'s fields.
pub fn what_is_given_can_be_passed_on()
    ensures plain { (limits : Limits) (bytes : List ℕ) → limits.attributes < 2 ^ 32 → limits.namespace_bytes < 2 ^ 32
        → let end = run (turn (from_start limits) []) bytes in (end.state.fault ≡ None → All IsPlainItem end.items) }
    ensures can_pass { (limits most : Limits) (bytes : List ℕ) → limits.bytes < 2 ^ 64 → limits.attributes < 2 ^ 32
        → limits.namespace_bytes < 2 ^ 32 → 2 * limits.attributes + 1 ≤ most.attributes → limits.namespace_bytes ≤ most.namespace_bytes
        → limits.depth ≤ most.depth
        → let end = run (turn (from_start limits) []) bytes in (end.state.fault ≡ None → All (CanPass most) end.items) }
{}
