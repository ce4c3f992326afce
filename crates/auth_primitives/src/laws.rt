//! What the base64 texts are that are read byte by byte.
ghost use Rattle.std.specs.Prelude.{◌≡◌, ◌↔◌, ℕ, true, List, ◌++◌};
ghost use Rattle.std.specs.Option.{option_and_then};
ghost use Rattle.base64.specs.GeneralPurpose.{IsBytes};
ghost use Rattle.auth_primitives.specs.Canonical.{IsBase64, is_base64};
ghost use Rattle.auth_primitives.specs.Reading.{base64_after, is_accepted};
ghost use Rattle.auth_primitives.specs.declared.text.Base64Text.{Base64Text};

/// A law: a text is read to an end exactly where it is the base64 of bytes, and, being bytes, exactly where it is decoded.
/// In pieces it is read as in one.
pub fn base64_is_read_exactly()
    ensures canonical { (text : List ℕ) → (is_accepted text ≡ true) ↔ IsBase64 text }
    ensures decoded { (text : List ℕ) → IsBytes text → is_accepted text ≡ is_base64 text }
    ensures pieces { (state : Base64Text) (front rest : List ℕ)
        → base64_after state (front ++ rest) ≡ option_and_then (λ s. base64_after s rest) (base64_after state front) }
{}
