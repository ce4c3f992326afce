//! Laws of normal forms.
ghost use Rattle.std.specs.Prelude.{◌≡◌, ℕ, List, Ok, Option, true};
ghost use Rattle.std.specs.Str.{IsUtf8};
ghost use Rattle.im_jid.specs.Cuts.{bare_of};
ghost use Rattle.im_jid.specs.Forms.{domain_form, local_form, resource_form};
ghost use Rattle.im_jid.specs.Normal.{AreNormalParts, IsAddress, IsJoined, normal};
ghost use Rattle.im_jid.specs.Spellings.{spells_account};

/// A law: what is in normal form stays as it is. The normal form of a text is a text whose parts have 1 to 1,023
/// bytes, and its bare text is in normal form too.
pub fn normal_form_stays()
    ensures again { (text out : List ℕ) → IsUtf8 text → normal text ≡ Ok out → normal out ≡ Ok out }
    ensures bare { (text out : List ℕ) → IsUtf8 text → normal text ≡ Ok out → normal (bare_of out) ≡ Ok (bare_of out) }
    ensures text { (text out : List ℕ) → IsUtf8 text → normal text ≡ Ok out → IsUtf8 out }
    ensures parts { (text out : List ℕ) → IsUtf8 text → normal text ≡ Ok out → IsAddress out }
{}

/// A law: of each part alone too, what is in normal form stays as it is.
pub fn normal_parts_stay()
    ensures local { (given out : List ℕ) → local_form given ≡ Ok out → local_form out ≡ Ok out }
    ensures domain { (given out : List ℕ) → domain_form given ≡ Ok out → domain_form out ≡ Ok out }
    ensures resource { (given out : List ℕ) → IsUtf8 given → resource_form given ≡ Ok out → resource_form out ≡ Ok out }
{}

/// A law: parts that are their own normal forms, put together, are an address in normal form, and its parts are these.
pub fn parts_are_joined()
    ensures { (local : Option (List ℕ)) (domain : List ℕ) (resource : Option (List ℕ))
        → AreNormalParts local domain resource → IsJoined local domain resource }
{}

/// A law: each text whose part before the first `/` reads as an account's bare address is a spelling of it; so is the
/// address itself.
pub fn spellings_are_told()
    ensures read { (account text : List ℕ) → normal (bare_of text) ≡ Ok (bare_of account) → spells_account account text ≡ true }
    ensures own { (account : List ℕ) → normal account ≡ Ok account → spells_account account account ≡ true }
{}
