//! Names in normal form.
ghost use Rattle.std.specs.Prelude.{◌≡◌, IfOk};
ghost use Rattle.cmd_journal.specs.AccountsFiles.{is_account_name, is_domain};

use base_io::NoMemory;
use im_jid::{JidFault, domain_in_normal_form, local_in_normal_form};
use std::alloc::Global;

/// Whether a name is a domain in normal form (RFC 7622, section 3.2).
pub fn is_domain(alloc: Global, name: &str) -> Result<bool, NoMemory>
    ensures { IfOk result (λ is. is ≡ is_domain name.now) }
{
    match domain_in_normal_form(alloc, name) {
        Ok(form) => Ok(form.as_str() == name),
        Err(JidFault::NoMemory) => Err(NoMemory),
        Err(_) => Ok(false),
    }
}

/// Whether a name is a local part in normal form (RFC 7622, section 3.3).
pub fn is_account_name(alloc: Global, name: &str) -> Result<bool, NoMemory>
    ensures { IfOk result (λ is. is ≡ is_account_name name.now) }
{
    match local_in_normal_form(alloc, name) {
        Ok(form) => Ok(form.as_str() == name),
        Err(JidFault::NoMemory) => Err(NoMemory),
        Err(_) => Ok(false),
    }
}
