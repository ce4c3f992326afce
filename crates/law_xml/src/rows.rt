//! Laws of the table of faults: its rows decide their faults, and nothing else does (RFC 6120, sections 4.9, 11.1 and 11.6;
//! XML 1.0; Namespaces in XML 1.0).
ghost use Rattle.std.specs.Prelude.{◌≡◌, ◌↔◌, ℕ, List, [], ◌∷◌, ◌++◌, Some, None, codes, true, false};
ghost use Rattle.std.specs.List.{list_all};
ghost use Rattle.xml_framer.specs.Readings.{fault_of, framed};
ghost use Rattle.xml_framer.specs.States.{Turn, is_text};
ghost use Rattle.xml_framer.specs.declared.fault.Why.{Why};
ghost use Rattle.xml_framer.specs.declared.limits.Limits.{Limits};
ghost use Rattle.xml_framer.specs.declared.states.Mode.TheVariants as mode;
ghost use Rattle.law_xml.specs.FaultRows.{Decides};
ghost use Rattle.law_xml.specs.Hands.{IsHolding, IsNoneHeld, IsReading, IsRunHeld, IsTokenHeld};
ghost use Rattle.law_xml.specs.Offsets.{AreBefore, AreTokens, IsOpen, IsRun, is_no_end};
ghost use Rattle.law_xml.specs.Rows.{Row};

/// A law: the table of faults is sound and complete. After bytes without a fault, one byte more decides a fault at an offset
/// exactly where a row of the table says so of the state after them: each row decides its fault, and nothing else decides
/// one. `tokens_in_hand_are_told` says of the bytes what the state has of the token in hand. The same holds of any state
/// without a fault, if a token that a `<` has begun is that byte alone, as it is after bytes.
pub fn faults_are_rows()
    ensures bytes { (limits : Limits) (bytes : List ℕ) (b at : ℕ) (why : Why) → fault_of limits bytes ≡ None
        → (fault_of limits (bytes ++ b ∷ []) ≡ Some (record { at = at; why = why })) ↔ Row (framed limits bytes).state b at why }
    ensures state { (t : Turn) (b at : ℕ) (why : Why) → t.state.fault ≡ None
        → (t.state.lexical.mode ≡ mode.Opening → (t.state.token ≡ codes "<") × (t.state.lexical.quote ≡ None)) → Decides t b at why ↔ Row t.state b at why }
{}

/// A law: what a state has of the token in hand is what the bytes say. After bytes without a fault they are whole tokens with
/// texts between them, and then the token, the text or nothing that the state has in hand, from the offset on that it has
/// for it: its bytes are the state's token, of a tag its quote is the state's, of a CDATA section and of a text in an
/// element the `]` that it ends in are, and of a text the first bytes of a character. `tokens_have_one_offset` says that
/// bytes are so in one way. Of an end tag outside elements the state keeps not all bytes, and it isn't said which.
pub fn tokens_in_hand_are_told()
    ensures token { (limits : Limits) (bytes : List ℕ) → fault_of limits bytes ≡ None → is_text (framed limits bytes).state.lexical.mode ≡ false
        → IsTokenHeld (framed limits bytes).state bytes }
    ensures text { (limits : Limits) (bytes : List ℕ) → fault_of limits bytes ≡ None → is_text (framed limits bytes).state.lexical.mode ≡ true
        → (framed limits bytes).state.lexical.in_run ≡ true → IsRunHeld (framed limits bytes).state bytes }
    ensures none { (limits : Limits) (bytes : List ℕ) → fault_of limits bytes ≡ None → is_text (framed limits bytes).state.lexical.mode ≡ true
        → (framed limits bytes).state.lexical.in_run ≡ false → IsNoneHeld (framed limits bytes).state bytes }
{}

/// A law: the bytes tell what is in hand. Where bytes without a fault are whole tokens, a text, and then markup that hasn't
/// ended or a reference without a `;`, the state after them has that token in hand, with its offset and its bytes; and where
/// they are whole tokens and a text, which may be empty, it has that text in hand or nothing.
pub fn bytes_tell_what_is_in_hand()
    ensures markup { (limits : Limits) (bytes before more : List ℕ) → fault_of limits bytes ≡ None → AreBefore before → IsOpen more → bytes ≡ before ++ 60 ∷ more
        → IsHolding (framed limits bytes).state 60 before more }
    ensures reference { (limits : Limits) (bytes before more : List ℕ) → fault_of limits bytes ≡ None → AreBefore before → list_all is_no_end more ≡ true
        → bytes ≡ before ++ 38 ∷ more → IsHolding (framed limits bytes).state 38 before more }
    ensures text { (limits : Limits) (bytes before text : List ℕ) → fault_of limits bytes ≡ None → AreTokens before → IsRun text → bytes ≡ before ++ text
        → IsReading (framed limits bytes).state before text }
{}
