//! An address in normal form (RFC 7622).
//!
//! Want of memory may stand where a refusal was due in `Jid::parse`, `with_resource` and the calls for one part,
//! which take memory before all is judged. The law that the normal form stays has the premise that the text is UTF-8.
ghost use Rattle.std.specs.Prelude.{◌≡◌, ◌≢◌, ◌↔◌, ◌∷◌, ◌++◌, IfOk, IfErr, IsTrue, IsSome, Ok, Err};
ghost use Rattle.std.specs.Option.{option_copied};
ghost use Rattle.im_jid.specs.Answers.{Answers};
ghost use Rattle.im_jid.specs.Cuts.{bare_of, local_of, domain_of, resource_of};
ghost use Rattle.im_jid.specs.Normal.{IsAddress, normal};

use crate::fault::JidFault;
use crate::forms::{
    domain_offset, local_and_at, push_domain, push_slash_and_resource, split_local, split_resource,
};
use base_io::{Copied, NoMemory, Text};
use std::alloc::Global;
use std::cmp::Ordering;
use std::fmt;
use std::marker::Model;

/// An address `[local@]domain[/resource]` in normal form (RFC 7622, section 3.1). What stands after the first `/` is
/// the resource, and of the rest, what stands before the first `@` is the local part. Each part has 1 to 1,023 bytes.
/// The local part is printable ASCII without space and without `"&'/:<>@`, in lower case. The domain is in its ASCII
/// form, without a full stop at its end. The resource is in Unicode's form NFC and has no control character.
///
/// Two addresses are equal exactly where their texts are, and are ordered by the bytes of their texts. Contracts see
/// an address as the bytes of its text.
#[derive(Drop)]
pub struct Jid {
    text: Text,
    domain_at: usize,
    bare_end: usize,
}

impl Model for Jid {
    ghost use Rattle.std.specs.Prelude.{List, ℕ};
    ghost use Rattle.im_jid.specs.Indexed.{IsIndexed};

    ghost Value = { List ℕ };

    ghost view = { λ j. j.text };

    ghost invariant = { λ j. IsIndexed j.text j.domain_at j.bare_end };
}

impl Jid {
    /// The address that a text spells, in normal form. Each refusal but `NoMemory` comes exactly where the definition
    /// refuses so: part by part from the left, and of one part `Empty`, then its own rule, then `TooLong`.
    pub fn parse(alloc: Global, text: &str) -> Result<Jid, JidFault>
        ensures ok { IfOk result (λ jid. normal text.now ≡ Ok jid) }
        ensures refused { IfErr result (λ fault. fault ≢ JidFault.NoMemory → normal text.now ≡ Err fault) }
        ensures again { IfOk result (λ jid. normal jid ≡ Ok jid) }
    {
        let (bare, resource) = split_resource(text);
        let (local, domain) = split_local(bare);
        let mut out = local_and_at(alloc, local, text.len())?;
        let domain_at = out.len();
        push_domain(alloc, &mut out, domain)?;
        let bare_end = out.len();
        push_slash_and_resource(alloc, &mut out, resource)?;
        Ok(Jid {
            text: Text::from(out),
            domain_at,
            bare_end,
        })
    }

    /// The whole text. It is its own normal form, and each of its parts has the length and the bytes of one.
    pub fn text(&self) -> &str
        ensures text { result.now ≡ self.now }
        ensures normal { normal self.now ≡ Ok self.now }
        ensures parts { IsAddress self.now }
    {
        self.text.as_str()
    }

    /// The bare address: the text before its first `/`, or all of it where there is none. It is in normal form.
    pub fn bare(&self) -> &str
        ensures bare { result.now ≡ bare_of self.now }
        ensures normal { normal (bare_of self.now) ≡ Ok (bare_of self.now) }
    {
        let text = self.text.as_str();
        &text[..self.bare_end]
    }

    /// The resource. `None` exactly where the address has none.
    pub fn resource(&self) -> Option<&str>
        ensures { option_copied result ≡ resource_of self.now }
    {
        let text = self.text.as_str();
        if self.bare_end < text.len() {
            Some(&text[self.bare_end + 1..])
        } else {
            None
        }
    }

    /// The local part. `None` exactly where the address has none.
    pub fn local(&self) -> Option<&str>
        ensures { option_copied result ≡ local_of self.now }
    {
        let text = self.text.as_str();
        if self.domain_at == 0 {
            None
        } else {
            Some(&text[..self.domain_at - 1])
        }
    }

    /// The domain, in its ASCII form.
    pub fn domain(&self) -> &str
        ensures { result.now ≡ domain_of self.now }
    {
        let text = self.text.as_str();
        &text[self.domain_at..self.bare_end]
    }

    /// Whether two addresses have one bare address. It takes no memory.
    pub fn same_bare(&self, other: &Jid) -> bool
        ensures { IsTrue result ↔ (bare_of self.now ≡ bare_of other.now) }
    {
        self.bare() == other.bare()
    }

    /// Whether the address has a resource (RFC 6120, section 1.4).
    pub fn is_full(&self) -> bool
        ensures { IsTrue result ↔ IsSome (resource_of self.now) }
    {
        self.bare_end < self.text.as_str().len()
    }

    /// The bare address, in memory of its own.
    pub fn to_bare(&self, alloc: Global) -> Result<Jid, NoMemory>
        ensures { IfOk result (λ jid. jid ≡ bare_of self.now) }
    {
        let bare = self.bare();
        Ok(Jid {
            text: Text::from_str(alloc, bare)?,
            domain_at: self.domain_at,
            bare_end: self.bare_end,
        })
    }

    /// The bare address with a resource: the normal form of the two with a `/` between them, or why there is none.
    pub fn with_resource(&self, alloc: Global, resource: &str) -> Result<Jid, JidFault>
        ensures { Answers (λ jid. jid) result (normal (bare_of self.now ++ 47 ∷ resource.now)) }
    {
        let bare = self.bare();
        let mut out = String::from_str(alloc, bare)?;
        push_slash_and_resource(alloc, &mut out, Some(resource))?;
        Ok(Jid {
            text: Text::from(out),
            domain_at: self.domain_at,
            bare_end: self.bare_end,
        })
    }

    /// The address that a text in normal form is. It takes no memory.
    pub fn of_normal(text: Text) -> Jid
        requires { normal text ≡ Ok text }
        ensures { result ≡ text }
    {
        let (bare, _) = split_resource(text.as_str());
        let domain_at = domain_offset(bare);
        let bare_end = bare.len();
        Jid {
            text,
            domain_at,
            bare_end,
        }
    }
}

impl Copied for Jid {
    fn copied(&self, alloc: Global) -> Result<Jid, NoMemory> {
        Ok(Jid {
            text: self.text.copied(alloc)?,
            domain_at: self.domain_at,
            bare_end: self.bare_end,
        })
    }
}

impl PartialEq for Jid {
    ghost use Rattle.std.specs.Prelude.{◌≡◌, ◌↔◌, IsTrue};
    ghost use Rattle.std.proofs.lemmas.Cmp.{nat_list_eq_equiv};
    ghost use Rattle.std.specs.Cmp.{partial_equiv_from_equiv};
    ghost use Rattle.std.specs.Str.{bytes_eq};

    ghost eq = { bytes_eq };

    ghost laws = { partial_equiv_from_equiv nat_list_eq_equiv };

    /// Whether the texts are equal.
    fn eq(&self, other: &Jid) -> bool
        ensures answer { result ≡ bytes_eq self.now other.now }
        ensures same { IsTrue result ↔ (self.now ≡ other.now) }
    {
        self.text() == other.text()
    }
}

impl Eq for Jid {
    ghost use Rattle.std.proofs.lemmas.Cmp.{nat_list_eq_equiv};

    ghost laws = { nat_list_eq_equiv };
}

impl PartialOrd for Jid {
    ghost use Rattle.std.proofs.Common.{rules};
    ghost use Rattle.std.specs.Cmp.{partial_order_from_own_ties};
    ghost use Rattle.std.specs.Cmp.Lexicographic.{slice_cmp};
    ghost use Rattle.std.specs.Cmp.Rules.{comparing};
    ghost use Rattle.std.specs.Ordering.{nat_cmp, as_partial_cmp};

    ghost partial_cmp = { as_partial_cmp (slice_cmp nat_cmp) };

    ghost laws = { partial_order_from_own_ties (Prim.search (comparing, rules)) (Prim.search (comparing, rules)) };

    fn partial_cmp(&self, other: &Jid) -> Option<Ordering> {
        Some(self.cmp(other))
    }
}

impl Ord for Jid {
    ghost use Rattle.std.proofs.Common.{rules};
    ghost use Rattle.std.specs.Cmp.Lexicographic.{slice_cmp};
    ghost use Rattle.std.specs.Cmp.Rules.{comparing};
    ghost use Rattle.std.specs.Ordering.{nat_cmp};

    ghost cmp = { slice_cmp nat_cmp };

    ghost total = { Prim.search (comparing, rules) };

    ghost matches_partial_cmp = { Prim.search (comparing, rules) };

    ghost matches_eq = { Prim.search (comparing, rules) };

    fn cmp(&self, other: &Jid) -> Ordering {
        self.text().cmp(other.text())
    }
}

impl fmt::Display for Jid {
    fn fmt<W: fmt::Write>(&self, f: &mut fmt::Formatter<W>) -> fmt::Result {
        f.write_str(self.text())
    }
}

impl fmt::Debug for Jid {
    fn fmt<W: fmt::Write>(&self, f: &mut fmt::Formatter<W>) -> fmt::Result {
        let text = self.text();
        write!(f, "{text:?}")
    }
}
