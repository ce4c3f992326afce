//! What the definitions come to, in the words of the standards: characters, references, tags, declarations, texts and
//! values (XML 1.0), and UTF-8 (RFC 3629).
ghost use Rattle.std.specs.Prelude.{◌≡◌, ◌≢◌, ◌↔◌, ◌==◌, ◌&&◌, ◌++◌, not, ℕ, List, [], true, false, Some, Ok, Err, codes};
ghost use Rattle.std.specs.List.{list_all};
ghost use Rattle.std.specs.Str.{IsUtf8, chars};
ghost use Rattle.xml_tokens.specs.Characters;
ghost use Rattle.xml_tokens.specs.Declarations.{HasOther, IsGood, declaration_of};
ghost use Rattle.xml_tokens.specs.References;
ghost use Rattle.xml_tokens.specs.Spelling.{spelled_text, spelled_value, text_from};
ghost use Rattle.xml_tokens.specs.Tags;
ghost use Rattle.xml_tokens.specs.Tags.{IsTag, Tag, tag_of};
ghost use Rattle.xml_tokens.specs.Utf8.{IsPending, utf8_run};
ghost use Rattle.xml_tokens.specs.ValueGrammar.{IsValue};
ghost use Rattle.xml_tokens.specs.Values.{text, value_of};
ghost use Rattle.xml_tokens.specs.declared.declarations.Declaration.TheVariants as declaration;
ghost use Rattle.xml_tokens.specs.declared.fault.TagWhy.TheVariants as why;
ghost use Rattle.xml_tokens.specs.declared.references.Reference.TheVariants as reference;

/// Of a text, the test on its bytes is that each of its characters is one of XML's: U+9, U+A, U+D, U+20 to U+D7FF,
/// U+E000 to U+FFFD and U+10000 to U+10FFFF (section 2.2).
pub fn characters_are_those_of_xml()
    ensures { (bs : List ℕ) → IsUtf8 bs → Characters.are_characters bs ≡ list_all Characters.is_character (chars bs) }
{}

/// A reference that is well formed, known or unknown, goes on at each of its bytes.
pub fn references_go_on()
    ensures { (name : List ℕ) → References.referred name ≢ reference.Malformed → References.each_goes_on [] name ≡ true }
{}

/// What stands between quotes is read as the value that the grammar has it as (XML 1.0, sections 2.3, 2.11, 3.3.3 and
/// 4.1), and as none where the grammar has it as none.
pub fn values_are_spelled()
    ensures { (raw v : List ℕ) → (value_of raw ≡ Some v) ↔ IsValue raw v }
{}

/// Bytes that the grammar has as a tag are read as that tag.
pub fn tags_are_read()
    ensures { (bytes : List ℕ) (t : Tag) → IsTag bytes t → tag_of bytes ≡ Ok t }
{}

/// What is read as a tag, the grammar has as that tag.
pub fn what_is_read_is_a_tag()
    ensures { (bytes : List ℕ) (t : Tag) → tag_of bytes ≡ Ok t → IsTag bytes t }
{}

/// `Restricted` is told exactly of a tag that is no end tag and has a reference with an unknown name in its quotes.
pub fn unknown_names_are_restricted()
    ensures { (bytes : List ℕ) → (tag_of bytes ≡ Err why.Restricted) ↔ (Tags.is_restricted bytes ≡ true) }
{}

/// `Good` is told exactly of what the grammar has as a declaration of version 1.0 in UTF-8 (XML 1.0, section 2.8).
pub fn good_declarations_are_well_formed()
    ensures { (bytes : List ℕ) → (declaration_of bytes ≡ declaration.Good) ↔ IsGood bytes }
{}

/// `Encoding` is told exactly where items `name = 'value'` stand behind `<?xml`, and one of them is an encoding other
/// than UTF-8.
pub fn other_encodings_are_told()
    ensures { (bytes : List ℕ) → (declaration_of bytes ≡ declaration.Encoding)
        ↔ ((items : List ℕ) × (bytes ≡ codes "<?xml" ++ items) × HasOther items) }
{}

/// A value that is written is read back as itself, where it is a text of XML's characters (section 2.2). What is
/// written holds neither `'` nor `<`.
pub fn values_are_read_back()
    ensures back { (v : List ℕ) → IsUtf8 v → Characters.are_characters v ≡ true → value_of (spelled_value v) ≡ Some v }
    ensures inside { (v : List ℕ) → list_all (λ b. not (b == 39) && not (b == 60)) (spelled_value v) ≡ true }
{}

/// A text that is written is read back as itself. What is written holds neither `<` nor `>`, and so no `]]>`, and no
/// character that the text doesn't hold but XML's.
pub fn texts_are_read_back()
    ensures back { (t : List ℕ) → text_from (text false) (spelled_text t) ≡ Some t }
    ensures inside { (t : List ℕ) → list_all (λ b. not (b == 60) && not (b == 62)) (spelled_text t) ≡ true }
    ensures characters { (t : List ℕ) → Characters.are_characters t ≡ true → Characters.are_characters (spelled_text t) ≡ true }
{}

/// The characters of a text, a byte at a time, leave none in hand.
pub fn text_runs()
    ensures { (bs : List ℕ) → IsUtf8 bs → utf8_run [] bs ≡ Some [] }
{}

/// Bytes that leave none in hand are whole characters, behind the front of a character as well.
pub fn runs_are_text()
    ensures { (held bs : List ℕ) → IsPending held → utf8_run held bs ≡ Some [] → IsUtf8 (held ++ bs) }
{}
