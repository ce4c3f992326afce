//! The spellings of an account's address that clients take for it (RFC 7622; RFC 3454).
ghost use Rattle.std.specs.Prelude.{◌≡◌, ◌++◌, IfOk, OnOk, Some, string_bytes};
ghost use Rattle.std.specs.Option.{option_copied};
ghost use Rattle.im_jid.specs.Forms.{domain_form};
ghost use Rattle.im_jid.specs.Spellings;
ghost use Rattle.im_jid.specs.Spellings.{is_form, is_same_local, kept_character, kept_text, spells_account};

use crate::fault::JidFault;
use crate::forms::{domain_in_normal_form, split_local, split_resource};
use base_io::NoMemory;
use caseless::compatibility_caseless_match_str;
use std::alloc::Global;

// Whether a character is left out before two local parts are compared (RFC 3454, table B.1).
fn is_left_out(character: char) -> bool
    ensures { result ≡ Spellings.is_left_out character }
{
    matches!(
        character,
        '\u{AD}'
            | '\u{34F}'
            | '\u{1806}'
            | '\u{180B}'..='\u{180D}'
            | '\u{200B}'..='\u{200D}'
            | '\u{2060}'
            | '\u{FE00}'..='\u{FE0F}'
            | '\u{FEFF}'
    )
}

// Adds a character, where it is not left out.
fn push_kept(character: char, kept: &mut String) -> Result<(), NoMemory>
    ensures { OnOk result (string_bytes kept.new ≡ string_bytes kept.old ++ kept_character character) }
{
    if !is_left_out(character) {
        kept.push(character)?;
    }
    Ok(())
}

// A local part without the characters that are left out.
fn kept_of(alloc: Global, part: &str) -> Result<String, NoMemory>
    ensures { IfOk result (λ kept. string_bytes kept ≡ kept_text part.now) }
{
    let mut kept = String::with_capacity(alloc, part.len())?;
    for character in part.chars() {
        push_kept(character, &mut kept)?;
    }
    Ok(kept)
}

// Whether a client takes one local part for the other.
fn same_part(alloc: Global, part: &str, other: &str) -> Result<bool, NoMemory>
    ensures { IfOk result (λ same. same ≡ is_same_local (Some part.now) (Some other.now)) }
{
    let kept = kept_of(alloc, part)?;
    let other = kept_of(alloc, other)?;
    let same = compatibility_caseless_match_str(alloc, kept.as_str(), other.as_str())?;
    Ok(same)
}

// Whether a client takes one local part for the other, where there may be none.
fn is_same_local(alloc: Global, local: Option<&str>, other: Option<&str>) -> Result<bool, NoMemory>
    ensures { IfOk result (λ same. same ≡ is_same_local (option_copied local.entry) (option_copied other.entry)) }
{
    match (local, other) {
        (None, None) => Ok(true),
        (Some(local), Some(other)) => same_part(alloc, local, other),
        _ => Ok(false),
    }
}

// Whether a text spells a domain that is in normal form.
fn is_domain(alloc: Global, domain: &str, text: &str) -> Result<bool, NoMemory>
    ensures { IfOk result (λ is. is ≡ is_form domain.now (domain_form text.now)) }
{
    match domain_in_normal_form(alloc, text) {
        Ok(form) => Ok(form.as_str() == domain),
        Err(JidFault::NoMemory) => Err(NoMemory),
        Err(_) => Ok(false),
    }
}

/// Whether a text, up to its first `/`, is a spelling of an account's bare address that a client may take for it. The
/// address is in normal form. Domains are compared in their ASCII form (RFC 7622, section 3.2). Local parts are compared
/// without regard to case, width and other compatible forms, and without the characters that stringprep leaves out (RFC
/// 7622, section 3.3; RFC 3454, tables B.1 and B.2), since clients follow one of the two rules. It is refused for want of
/// memory alone.
pub fn spells_account(alloc: Global, account: &str, text: &str) -> Result<bool, NoMemory>
    ensures { IfOk result (λ spells. spells ≡ spells_account account.now text.now) }
{
    let (bare, _) = split_resource(text);
    let (local, domain) = split_local(bare);
    let (account, _) = split_resource(account);
    let (account_local, account_domain) = split_local(account);
    if !is_domain(alloc, account_domain, domain)? {
        return Ok(false);
    }
    is_same_local(alloc, local, account_local)
}
