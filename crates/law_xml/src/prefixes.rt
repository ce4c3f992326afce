//! Laws of the prefixes of a stream: behind which bytes there is a fault, and what is unfinished behind others (RFC 6120,
//! section 4; XML 1.0, section 2.1).
ghost use Rattle.std.specs.Prelude.{◌≡◌, ◌<◌, ◌^◌, ◌↔◌, ◌++◌, ℕ, List, [], true, None, Some};
ghost use Rattle.std.specs.Option.{is_some};
ghost use Rattle.xml_framer.specs.Machine.{is_too_long, part_of, run};
ghost use Rattle.xml_framer.specs.Readings.{fault_of, items_of, part_at};
ghost use Rattle.xml_framer.specs.States.{from_start, turn};
ghost use Rattle.xml_framer.specs.declared.fault.Why.TheVariants as why;
ghost use Rattle.xml_framer.specs.declared.items.Item.{Item};
ghost use Rattle.xml_framer.specs.declared.limits.Limits.{Limits};
ghost use Rattle.law_xml.specs.FaultRows.{Decides};
ghost use Rattle.law_xml.specs.Prefixes.{IsPrefix};
ghost use Rattle.law_xml.specs.StreamLimits.{IsStreamWithin};
ghost use Rattle.law_xml.specs.Streams.{InForce, StreamTo};

/// A law: no fault comes too soon. Where there is a fault after bytes, they are the first bytes of no stream within the
/// limits: whatever follows them, what they spell isn't in the grammar, or it is past a limit.
pub fn no_fault_comes_too_soon()
    ensures { (limits : Limits) (bytes more : List ℕ) (now : InForce) (items : List Item) (stream : StreamTo now (bytes ++ more) items)
        → is_some (run (turn (from_start limits) []) bytes).state.fault ≡ true → ¬ (IsStreamWithin limits now (bytes ++ more) items stream) }
{}

/// A law: what an unfinished stream is. Bytes after which there is no fault are a stream of exactly the items that were
/// given, and then what is unfinished: nothing, or bytes with no white space before the first of them, whose offset is
/// told: it is `None` exactly where nothing is. What is finished is within the limits, and no more of the bytes are a stream
/// within them. The premises on the limits are the ranges of a `Limits`'s fields, which a variable of a law doesn't have.
pub fn unfinished_streams_are_told()
    ensures { (limits : Limits) (bytes : List ℕ) → limits.attributes < 2 ^ 32 → limits.namespace_bytes < 2 ^ 32
        → let end = run (turn (from_start limits) []) bytes in (end.state.fault ≡ None → IsPrefix limits bytes end.items (part_of end.state)) }
{}

/// A law: nothing is unfinished exactly where the bytes are a stream within the limits. Bytes after which there is no fault
/// and nothing is unfinished are one, and after a stream within the limits there is no fault and nothing unfinished, and
/// its items are those that were given. The premises on the limits are the ranges of a `Limits`'s fields.
pub fn whole_streams_are_told()
    ensures exactly { (limits : Limits) (bytes : List ℕ) → limits.bytes < 2 ^ 64 → limits.attributes < 2 ^ 32 → limits.namespace_bytes < 2 ^ 32
        → ((fault_of limits bytes ≡ None) × (part_at limits bytes ≡ None))
        ↔ ((now : InForce) × (items : List Item) × (stream : StreamTo now bytes items) × IsStreamWithin limits now bytes items stream) }
    ensures given { (limits : Limits) (bytes : List ℕ) (now : InForce) (items : List Item) (stream : StreamTo now bytes items)
        → IsStreamWithin limits now bytes items stream → items_of limits bytes ≡ items }
{}

/// A law: the offset of `TooLong` is that of what is unfinished, which is the first byte of the element, header tag or
/// declaration that is too long.
pub fn long_items_have_the_offset_of_their_first_byte()
    ensures { (limits : Limits) (bytes : List ℕ) (b : ℕ) → limits.attributes < 2 ^ 32 → limits.namespace_bytes < 2 ^ 32
        → let end = run (turn (from_start limits) []) bytes in (end.state.fault ≡ None → is_too_long end.state b ≡ true
        → (n : ℕ) × (part_of end.state ≡ Some n) × Decides end b n why.TooLong) }
{}
