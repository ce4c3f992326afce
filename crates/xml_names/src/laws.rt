//! What `start_of` and `end_of` come to, in the grammar's words (XML 1.0, section 3.1; Namespaces in XML 1.0, sections 3 to 6).
ghost use Rattle.std.specs.Prelude.{◌≡◌, ◌<◌, ◌≤◌, ◌↔◌, ℕ, true, false, List, Some, Ok, Err, All, length};
ghost use Rattle.xml_names.specs.Declarations.{MayDeclare, may_declare};
ghost use Rattle.xml_names.specs.Ends.{end_of};
ghost use Rattle.xml_names.specs.Grammar.{IsShort, IsStart, IsWithin};
ghost use Rattle.xml_names.specs.Names.{IsName, local_of, prefix_of};
ghost use Rattle.xml_names.specs.Scopes.{Scope};
ghost use Rattle.xml_names.specs.Starts.{Tag, start_of};
ghost use Rattle.xml_names.specs.declared.fault.StartWhy.TheVariants as why;
ghost use Rattle.xml_names.specs.declared.limits.TagLimits.{TagLimits};
ghost use Rattle.xml_names.specs.declared.scopes.Binding.{Binding};
ghost use Rattle.xml_tokens.specs.Tags.{Attribute, IsEndTag, is_restricted};

/// Bytes come to a tag exactly where the grammar has them as a start tag that says this tag inside the scope, and it is
/// within the limits.
pub fn starts_are_read()
    ensures { (limits : TagLimits) (scope : Scope) (bytes : List ℕ) (t : Tag) → ((start_of limits scope bytes ≡ Ok t)
        ↔ ((xs : List Attribute) × IsStart scope bytes xs t × IsWithin limits xs t)) }
{}

/// Each refusal is told exactly where it is due, and the first that fits: a reference with an unknown name inside
/// quotes; bytes that the grammar doesn't have as a start tag inside the scope; too many attributes, declarations
/// counted; the name of a declared namespace too long.
pub fn start_refusals_are_due()
    ensures restricted { (limits : TagLimits) (scope : Scope) (bytes : List ℕ)
        → ((start_of limits scope bytes ≡ Err why.Restricted) ↔ (is_restricted bytes ≡ true)) }
    ensures malformed { (limits : TagLimits) (scope : Scope) (bytes : List ℕ)
        → ((start_of limits scope bytes ≡ Err why.NotWellFormed)
        ↔ ((is_restricted bytes ≡ false) × ((xs : List Attribute) (t : Tag) → ¬ IsStart scope bytes xs t))) }
    ensures attributes { (limits : TagLimits) (scope : Scope) (bytes : List ℕ)
        → ((start_of limits scope bytes ≡ Err why.TooManyAttributes)
        ↔ ((xs : List Attribute) × (t : Tag) × IsStart scope bytes xs t × (limits.attributes < length xs))) }
    ensures namespace { (limits : TagLimits) (scope : Scope) (bytes : List ℕ)
        → ((start_of limits scope bytes ≡ Err why.LongNamespace)
        ↔ ((xs : List Attribute) × (t : Tag) × IsStart scope bytes xs t × (length xs ≤ limits.attributes)
        × (¬ All (IsShort limits.namespace_bytes) t.bindings))) }
{}

/// A declaration passes the test exactly where Namespaces in XML allows it (sections 3 and 5).
pub fn declarations_are_tested()
    ensures { (b : Binding) → ((may_declare b ≡ true) ↔ MayDeclare b) }
{}

/// A name has the parts that the grammar has (Namespaces in XML 1.0, section 4), and no others.
pub fn names_are_split()
    ensures { (name prefix local : List ℕ) → (IsName name prefix local ↔ ((prefix_of name ≡ prefix) × (local_of name ≡ local))) }
{}

/// An end tag is read as what the grammar has it as.
pub fn end_tags_are_read()
    ensures { (bytes name : List ℕ) → ((end_of bytes ≡ Some name) ↔ IsEndTag bytes name) }
{}
