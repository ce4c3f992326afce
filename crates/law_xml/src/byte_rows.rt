//! Laws of the rows of the table of faults that are stated on bytes (RFC 6120, sections 4.9, 11.1 and 11.6; XML 1.0,
//! sections 2.7, 2.8 and 4.1; RFC 3629, section 4).
ghost use Rattle.std.specs.Prelude.{◌≡◌, ◌≢◌, ◌<◌, ◌^◌, ◌↔◌, ℕ, List, [], ◌∷◌, ◌++◌, Some, None, true, false, length};
ghost use Rattle.xml_framer.specs.Readings.{fault_of};
ghost use Rattle.xml_framer.specs.declared.fault.Why.{Why};
ghost use Rattle.xml_framer.specs.declared.fault.Why.TheVariants as why;
ghost use Rattle.xml_framer.specs.declared.limits.Limits.{Limits};
ghost use Rattle.law_xml.specs.AllRows.{FaultRow};
ghost use Rattle.law_xml.specs.ByteRows.{ByteRow, EndInMarkup, EndInReference, InDeclaration, IsNotTooLong, OpensDeclaration, OpensSection};
ghost use Rattle.law_xml.specs.Offsets.{character_left};
ghost use Rattle.law_xml.specs.ReferenceParts.{IsReferencePart};
ghost use Rattle.xml_tokens.specs.References.{reference_goes_on, referred};
ghost use Rattle.xml_tokens.specs.Utf8.{continues};
ghost use Rattle.xml_tokens.specs.declared.references.Reference.TheVariants as reference;

/// A law: a row on bytes decides its fault. After bytes without a fault, one byte more for which a row says so has that
/// fault at that offset, unless it is past the limit on bytes, which is told before all else.
pub fn rows_of_bytes_decide()
    ensures { (limits : Limits) (bytes : List ℕ) (b at : ℕ) (w : Why) → fault_of limits bytes ≡ None → IsNotTooLong limits bytes b → ByteRow bytes b at w
        → fault_of limits (bytes ++ b ∷ []) ≡ Some (record { at = at; why = w }) }
{}

/// A law: of a reference, of `<?..` and of a declaration the rows on bytes are all. Where bytes without a fault end in one
/// that hasn't ended, each fault that one byte more decides has such a row, but for `TooLong`; so has each fault of a
/// byte that breaks a character. Of `<!..` the same holds up to its last byte but one: whether a CDATA section may open
/// there isn't said by the token's bytes.
pub fn faults_of_tokens_are_rows_of_bytes()
    ensures broken { (limits : Limits) (bytes : List ℕ) (b at : ℕ) (w : Why) → fault_of limits bytes ≡ None → continues (character_left [] bytes) b ≡ false
        → fault_of limits (bytes ++ b ∷ []) ≡ Some (record { at = at; why = w }) → w ≢ why.TooLong → ByteRow bytes b at w }
    ensures reference { (limits : Limits) (bytes before name : List ℕ) (b at : ℕ) (w : Why) → fault_of limits bytes ≡ None → EndInReference bytes before name
        → fault_of limits (bytes ++ b ∷ []) ≡ Some (record { at = at; why = w }) → w ≢ why.TooLong → ByteRow bytes b at w }
    ensures bang { (limits : Limits) (bytes before more : List ℕ) (b at : ℕ) (w : Why) → fault_of limits bytes ≡ None → EndInMarkup bytes before more → OpensSection more → length more < 7
        → fault_of limits (bytes ++ b ∷ []) ≡ Some (record { at = at; why = w }) → w ≢ why.TooLong → ByteRow bytes b at w }
    ensures question { (limits : Limits) (bytes before more : List ℕ) (b at : ℕ) (w : Why) → fault_of limits bytes ≡ None → EndInMarkup bytes before more → OpensDeclaration more
        → fault_of limits (bytes ++ b ∷ []) ≡ Some (record { at = at; why = w }) → w ≢ why.TooLong → ByteRow bytes b at w }
    ensures declaration { (limits : Limits) (bytes before more : List ℕ) (b at : ℕ) (w : Why) → fault_of limits bytes ≡ None → EndInMarkup bytes before more → InDeclaration more
        → fault_of limits (bytes ++ b ∷ []) ≡ Some (record { at = at; why = w }) → w ≢ why.TooLong → ByteRow bytes b at w }
{}

/// A law: the table of faults on bytes is sound and complete. After bytes without a fault, one byte more decides a fault at an
/// offset exactly where a row on bytes says so: no row names a field of a state. What a row needs beside the bytes of
/// the token it takes from the bytes before the token, which are whole items and then start tags of open elements with
/// content behind each. The premises on the limits are the ranges of a `Limits`'s fields.
pub fn faults_are_rows_of_bytes()
    ensures { (limits : Limits) (bytes : List ℕ) (b at : ℕ) (w : Why) → limits.bytes < 2 ^ 64 → limits.attributes < 2 ^ 32 → limits.namespace_bytes < 2 ^ 32 → fault_of limits bytes ≡ None
        → (fault_of limits (bytes ++ b ∷ []) ≡ Some (record { at = at; why = w })) ↔ FaultRow limits bytes b at w }
{}

/// A law: how long a reference may go on. Behind a part of a reference a byte other than `;` goes on exactly where what is
/// there then is a part of one: of a number as it is spelled, or of a name. Where a byte goes on none, no more bytes make
/// it a reference (XML 1.0, section 4.1).
pub fn references_go_on_exactly()
    ensures exactly { (name : List ℕ) (b : ℕ) → IsReferencePart name → (reference_goes_on name b ≡ true) ↔ IsReferencePart (name ++ b ∷ []) }
    ensures departs { (name rest : List ℕ) (b : ℕ) → reference_goes_on name b ≡ false → referred (name ++ b ∷ rest) ≡ reference.Malformed }
{}
