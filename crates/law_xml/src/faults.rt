//! Laws of faults: which byte decides which fault, and at which place (RFC 6120, sections 4.9 and 11; XML 1.0;
//! Namespaces in XML 1.0; RFC 3629, section 4).
ghost use Rattle.std.specs.Prelude.{◌≡◌, ◌≢◌, ◌≤◌, ◌<◌, ◌+◌, ◌^◌, ℕ, List, ◌∷◌, ◌++◌, [], Bool, true, false, Some, None, Ok, Err, codes, length, slice_index};
ghost use Rattle.std.specs.Option.{is_some};
ghost use Rattle.law_xml.specs.FaultRows.{Counts, Decides, EndsTag, Takes, has_limit, is_in_hand, may_stand, whole};
ghost use Rattle.xml_framer.specs.Machine.{is_too_long, run, step};
ghost use Rattle.xml_framer.specs.MarkupSteps.{ends_in_question};
ghost use Rattle.xml_framer.specs.States.{State, Turn, from_start, in_run, may_declare, token_position, turn};
ghost use Rattle.xml_framer.specs.TagSteps.{ends_stream, is_header, is_spelled, is_too_deep, misplaced_why, header_why, start_why, tag_anew, tag_here};
ghost use Rattle.xml_framer.specs.TextSteps.{is_forbidden};
ghost use Rattle.xml_framer.specs.declared.fault.Fault.{Fault};
ghost use Rattle.xml_framer.specs.declared.fault.Why.TheVariants as why;
ghost use Rattle.xml_framer.specs.declared.items.Item.{Item};
ghost use Rattle.xml_framer.specs.declared.limits.Limits.{Limits};
ghost use Rattle.xml_framer.specs.declared.states.Mode.TheVariants as mode;
ghost use Rattle.xml_framer.specs.declared.states.Phase.TheVariants as phase;
ghost use Rattle.xml_names.specs.Ends.{end_of};
ghost use Rattle.xml_names.specs.Starts.{Tag};
ghost use Rattle.xml_names.specs.declared.fault.StartWhy.TheVariants as start;
ghost use Rattle.xml_names.specs.declared.fault.StartWhy.{StartWhy};
ghost use Rattle.xml_tokens.specs.Characters.{is_white};
ghost use Rattle.xml_tokens.specs.Declarations.{declaration_of};
ghost use Rattle.xml_tokens.specs.References.{reference_goes_on, referred};
ghost use Rattle.xml_tokens.specs.Tags.{is_end};
ghost use Rattle.xml_tokens.specs.Utf8.{continues, ends_character};
ghost use Rattle.xml_tokens.specs.declared.declarations.Declaration.TheVariants as declaration;
ghost use Rattle.xml_tokens.specs.declared.references.Reference.TheVariants as reference;

/// A law: a byte one past `Limits.bytes` is told before all else, as `TooLong`, at the first byte of the element, header
/// tag or declaration that it belongs to. A byte within the limit that can't continue the character in hand, or begin
/// one, is told as `Encoding`, at the first byte of its token (RFC 3629, section 4).
pub fn long_and_broken_bytes_are_told()
    ensures long { (t : Turn) (b : ℕ) → t.state.fault ≡ None → is_too_long t.state b ≡ true → Decides t b t.state.positions.item_at why.TooLong }
    ensures broken { (t : Turn) (b : ℕ) → t.state.fault ≡ None → is_too_long t.state b ≡ false → continues t.state.pending b ≡ false
        → Decides t b (token_position t.state) why.Encoding }
{}

/// A law: what is compared with `Limits.bytes` is how many bytes there are from the first one on. The `<` that begins
/// something outside elements is byte 1, and its place the first byte's. Each further byte of the element, tag or
/// declaration adds 1, up to 2^64 - 1, and leaves that place, as long as no fault has come and it isn't whole. So behind
/// fewer than 2^64 bytes from the start on without a fault, where something with a limit is in hand, the place of its
/// first byte and the count add up to all of them. Nor is a footer or a declaration ever in hand there inside an element,
/// as the premise on the state before says.
pub fn bytes_are_counted_from_the_first()
    ensures first { (t : Turn) → Takes t.state mode.Text 60 → is_some t.state.here ≡ false
        → ((step t 60).state.positions.used ≡ 1) × ((step t 60).state.positions.item_at ≡ t.state.positions.at) }
    ensures more { (t : Turn) (b : ℕ) → is_in_hand t.state ≡ true → may_stand t.state ≡ true → 0 < t.state.positions.used → (step t b).state.fault ≡ None
        → has_limit (step t b).state ≡ true → Counts t.state (step t b).state }
    ensures in_runs { (limits : Limits) (bytes : List ℕ) → length bytes < 2 ^ 64 → (run (turn (from_start limits) []) bytes).state.fault ≡ None
        → has_limit (run (turn (from_start limits) []) bytes).state ≡ true → (0 < (run (turn (from_start limits) []) bytes).state.positions.used)
        × ((run (turn (from_start limits) []) bytes).state.positions.item_at + (run (turn (from_start limits) []) bytes).state.positions.used ≡ length bytes) }
    ensures may_stand { (limits : Limits) (bytes : List ℕ) → length bytes < 2 ^ 64 → (run (turn (from_start limits) []) bytes).state.fault ≡ None
        → may_stand (run (turn (from_start limits) []) bytes).state ≡ true }
{}

/// A law: the byte where `<!` departs from `<![CDATA[` tells `Restricted`; so do the `?` of `<?` where no declaration may
/// stand, the byte where `<?` departs from `<?xml`, and a byte behind `<?xml` that isn't white. The last `[` of a CDATA
/// opening outside elements tells `NotWellFormed`. The place of each is the `<` (RFC 6120, section 11.1; XML 1.0, sections
/// 2.7 and 2.8).
pub fn restricted_markup_is_told()
    ensures bang { (t : Turn) (b : ℕ) → Takes t.state mode.Bang b → b ≢ slice_index (codes "<![CDATA[") (length t.state.token)
        → Decides t b t.state.positions.token_at why.Restricted }
    ensures question { (t : Turn) → Takes t.state mode.Opening 63 → may_declare t.state ≡ false → Decides t 63 t.state.positions.token_at why.Restricted }
    ensures departs { (t : Turn) (b : ℕ) → Takes t.state mode.Question b → length t.state.token < 5 → b ≢ slice_index (codes "<?xml") (length t.state.token)
        → Decides t b t.state.positions.token_at why.Restricted }
    ensures unspaced { (t : Turn) (b : ℕ) → Takes t.state mode.Question b → 5 ≤ length t.state.token → is_white b ≡ false
        → Decides t b t.state.positions.token_at why.Restricted }
    ensures section { (t : Turn) → Takes t.state mode.Bang 91 → length t.state.token ≡ 8 → is_some t.state.here ≡ false
        → Decides t 91 t.state.positions.token_at why.NotWellFormed }
{}

/// A law: a declaration is judged at its `?>`, from its `<` to there. Where it names an encoding other than UTF-8 it is
/// `Encoding`, and where it isn't a declaration of XML 1.0 `NotWellFormed`, each at its `<` (XML 1.0, section 2.8; RFC
/// 6120, section 11.6).
pub fn declarations_are_judged()
    ensures encoding { (t : Turn) → Takes t.state mode.Declaration 62 → ends_in_question t.state.token ≡ true
        → declaration_of (t.state.token ++ 62 ∷ []) ≡ declaration.Encoding → Decides t 62 t.state.positions.token_at why.Encoding }
    ensures malformed { (t : Turn) → Takes t.state mode.Declaration 62 → ends_in_question t.state.token ≡ true
        → declaration_of (t.state.token ++ 62 ∷ []) ≡ declaration.NotWellFormed → Decides t 62 t.state.positions.token_at why.NotWellFormed }
{}

/// A law: a reference is judged at its `;`, where an unknown name is `Restricted`, and one to no character
/// `NotWellFormed`. Another byte that can't continue it tells `NotWellFormed` at once, and so does the `&` of any outside
/// elements. The place of each is the `&` (XML 1.0, section 4.1; RFC 6120, section 11.1).
pub fn references_are_judged()
    ensures unknown { (t : Turn) → Takes t.state mode.Reference 59 → referred t.state.token ≡ reference.Unknown
        → Decides t 59 t.state.positions.token_at why.Restricted }
    ensures malformed { (t : Turn) → Takes t.state mode.Reference 59 → referred t.state.token ≡ reference.Malformed
        → Decides t 59 t.state.positions.token_at why.NotWellFormed }
    ensures departs { (t : Turn) (b : ℕ) → Takes t.state mode.Reference b → b ≢ 59 → reference_goes_on t.state.token b ≡ false
        → Decides t b t.state.positions.token_at why.NotWellFormed }
    ensures outside { (t : Turn) → Takes t.state mode.Text 38 → is_some t.state.here ≡ false → Decides t 38 t.state.positions.at why.NotWellFormed }
{}

/// A law: all of these are `NotWellFormed`. A forbidden character is told at its last byte, in a text of an element and in
/// a CDATA section, and `]]>` in such a text at its `>`; outside elements each character but `<`, `&` and white space, at
/// its last byte. The place is the first byte of the text or of the section (XML 1.0, sections 2.2, 2.4 and 2.7).
pub fn characters_are_judged()
    ensures forbidden { (t : Turn) (b : ℕ) → Takes t.state mode.Text b → is_some t.state.here ≡ true → b ≢ 60 → b ≢ 38 → ends_character t.state.pending b ≡ true
        → is_forbidden t.state b ≡ true → Decides t b (in_run t.state).positions.token_at why.NotWellFormed }
    ensures brackets { (t : Turn) → Takes t.state mode.Text 62 → is_some t.state.here ≡ true → t.state.pending ≡ [] → t.state.lexical.in_run ≡ true
        → t.state.lexical.brackets ≡ 2 → Decides t 62 t.state.positions.token_at why.NotWellFormed }
    ensures in_section { (t : Turn) (b : ℕ) → Takes t.state mode.Section b → ends_character t.state.pending b ≡ true → is_forbidden t.state b ≡ true
        → Decides t b t.state.positions.token_at why.NotWellFormed }
    ensures outside { (t : Turn) (b : ℕ) → Takes t.state mode.Text b → is_some t.state.here ≡ false → b ≢ 60 → b ≢ 38 → ends_character t.state.pending b ≡ true
        → is_white b ≡ false → Decides t b (in_run t.state).positions.token_at why.NotWellFormed }
{}

/// A law: a tag in an element is judged at its `>`, and the place of its fault is its `<`. An end tag without the spelled
/// name of the innermost open element is `NotWellFormed`. A start tag is read in the scope in force: it is `Restricted` or
/// `NotWellFormed` where that says so, `TooDeep` where it is a tag one level past `Limits.depth`, and, where it isn't,
/// `TooManyAttributes` or `LongNamespace` where it is past these limits (XML 1.0, sections 3 and 3.1; Namespaces in XML
/// 1.0, sections 3 to 6).
pub fn tags_in_elements_are_judged()
    ensures end { (t : Turn) → EndsTag t.state mode.Tag → is_some t.state.here ≡ true → is_end (whole t.state).token ≡ true
        → is_spelled t.state.here (end_of (whole t.state).token) ≡ false → Decides t 62 t.state.positions.token_at why.NotWellFormed }
    ensures restricted { (t : Turn) → EndsTag t.state mode.Tag → is_some t.state.here ≡ true → is_end (whole t.state).token ≡ false
        → tag_here (whole t.state) ≡ Err start.Restricted → Decides t 62 t.state.positions.token_at why.Restricted }
    ensures malformed { (t : Turn) → EndsTag t.state mode.Tag → is_some t.state.here ≡ true → is_end (whole t.state).token ≡ false
        → tag_here (whole t.state) ≡ Err start.NotWellFormed → Decides t 62 t.state.positions.token_at why.NotWellFormed }
    ensures deep { (t : Turn) (tag : Tag) → EndsTag t.state mode.Tag → is_some t.state.here ≡ true → is_end (whole t.state).token ≡ false
        → tag_here (whole t.state) ≡ Ok tag → is_too_deep t.state ≡ true → Decides t 62 t.state.positions.token_at why.TooDeep }
    ensures many { (t : Turn) → EndsTag t.state mode.Tag → is_some t.state.here ≡ true → is_end (whole t.state).token ≡ false
        → tag_here (whole t.state) ≡ Err start.TooManyAttributes → is_too_deep t.state ≡ false → Decides t 62 t.state.positions.token_at why.TooManyAttributes }
    ensures long { (t : Turn) → EndsTag t.state mode.Tag → is_some t.state.here ≡ true → is_end (whole t.state).token ≡ false
        → tag_here (whole t.state) ≡ Err start.LongNamespace → is_too_deep t.state ≡ false → Decides t 62 t.state.positions.token_at why.LongNamespace }
{}

/// A law: of a start tag past several limits the depth is told first. One that has too many attributes, or declares a
/// namespace that is too long, and lies one level past `Limits.depth`, is `TooDeep`, at its `<`: in an element, and outside
/// elements behind a header, where it isn't a header's tag.
pub fn depth_is_told_first()
    ensures many { (t : Turn) → EndsTag t.state mode.Tag → is_some t.state.here ≡ true → is_end (whole t.state).token ≡ false
        → tag_here (whole t.state) ≡ Err start.TooManyAttributes → is_too_deep t.state ≡ true → Decides t 62 t.state.positions.token_at why.TooDeep }
    ensures long { (t : Turn) → EndsTag t.state mode.Tag → is_some t.state.here ≡ true → is_end (whole t.state).token ≡ false
        → tag_here (whole t.state) ≡ Err start.LongNamespace → is_too_deep t.state ≡ true → Decides t 62 t.state.positions.token_at why.TooDeep }
    ensures many_at_top { (t : Turn) → EndsTag t.state mode.Tag → is_some t.state.here ≡ false → t.state.lexical.phase ≡ phase.Between
        → is_header (whole t.state) ≡ false → tag_here (whole t.state) ≡ Err start.TooManyAttributes → is_too_deep t.state ≡ true
        → Decides t 62 t.state.positions.token_at why.TooDeep }
    ensures long_at_top { (t : Turn) → EndsTag t.state mode.Tag → is_some t.state.here ≡ false → t.state.lexical.phase ≡ phase.Between
        → is_header (whole t.state) ≡ false → tag_here (whole t.state) ≡ Err start.LongNamespace → is_too_deep t.state ≡ true
        → Decides t 62 t.state.positions.token_at why.TooDeep }
{}

/// A law: a tag outside elements is judged at its `>`, and the place of its fault is its `<`. The first tag, also behind a
/// declaration, and each later one with a header's name in the scope in force and its own declarations, also behind a
/// declaration, is read as a header, in no scope, and has the fault that this tells; a header is never too deep. Another
/// tag behind a header is read as an element's, in the scope in force: it has the fault that this tells, and is `TooDeep`
/// where no element may be that deep. Another tag behind a later declaration, and each tag behind the footer, may not stand
/// there: it is `Restricted` where it is read so, and else `NotWellFormed`. An end tag that isn't the footer's is
/// `NotWellFormed` (RFC 6120, sections 4.2 to 4.4, 4.7 and 4.8).
pub fn tags_outside_elements_are_judged()
    ensures first { (t : Turn) (e : StartWhy) → EndsTag t.state mode.Tag → is_some t.state.here ≡ false → t.state.lexical.phase ≡ phase.First
        → tag_anew (whole t.state) ≡ Err e → Decides t 62 t.state.positions.token_at (header_why e) }
    ensures first_declared { (t : Turn) (e : StartWhy) → EndsTag t.state mode.Tag → is_some t.state.here ≡ false → t.state.lexical.phase ≡ phase.FirstDeclared
        → tag_anew (whole t.state) ≡ Err e → Decides t 62 t.state.positions.token_at (header_why e) }
    ensures header { (t : Turn) (e : StartWhy) → EndsTag t.state mode.Tag → is_some t.state.here ≡ false → t.state.lexical.phase ≡ phase.Between
        → is_header (whole t.state) ≡ true → tag_anew (whole t.state) ≡ Err e → Decides t 62 t.state.positions.token_at (header_why e) }
    ensures element { (t : Turn) (e : StartWhy) → EndsTag t.state mode.Tag → is_some t.state.here ≡ false → t.state.lexical.phase ≡ phase.Between
        → is_header (whole t.state) ≡ false → tag_here (whole t.state) ≡ Err e → Decides t 62 t.state.positions.token_at (start_why t.state e) }
    ensures deep { (t : Turn) (tag : Tag) → EndsTag t.state mode.Tag → is_some t.state.here ≡ false → t.state.lexical.phase ≡ phase.Between
        → is_header (whole t.state) ≡ false → tag_here (whole t.state) ≡ Ok tag → is_too_deep t.state ≡ true
        → Decides t 62 t.state.positions.token_at why.TooDeep }
    ensures header_declared { (t : Turn) (e : StartWhy) → EndsTag t.state mode.Tag → is_some t.state.here ≡ false → t.state.lexical.phase ≡ phase.Declared
        → is_header (whole t.state) ≡ true → tag_anew (whole t.state) ≡ Err e → Decides t 62 t.state.positions.token_at (header_why e) }
    ensures declared { (t : Turn) → EndsTag t.state mode.Tag → is_some t.state.here ≡ false → t.state.lexical.phase ≡ phase.Declared
        → is_header (whole t.state) ≡ false → Decides t 62 t.state.positions.token_at (misplaced_why (tag_here (whole t.state))) }
    ensures ended { (t : Turn) → EndsTag t.state mode.Tag → is_some t.state.here ≡ false → t.state.lexical.phase ≡ phase.Ended
        → Decides t 62 t.state.positions.token_at (misplaced_why (tag_here (whole t.state))) }
    ensures footer { (t : Turn) → EndsTag t.state mode.Footer → ends_stream (whole t.state) ≡ false → Decides t 62 t.state.positions.token_at why.NotWellFormed }
{}

/// A law: `<>` is no tag, in an element or outside: its `>` tells `NotWellFormed`, at its `<` (XML 1.0, section 3.1).
pub fn tags_without_a_name_are_told()
    ensures { (t : Turn) → EndsTag t.state mode.Opening → t.state.token ≡ codes "<" → Decides t 62 t.state.positions.token_at why.NotWellFormed }
{}
