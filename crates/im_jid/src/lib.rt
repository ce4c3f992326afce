//! Addresses of accounts and their sessions (RFC 7622) in one normal form, so that two spellings of one account are
//! one account.
#![tactic(auto)]

mod address;
mod fault;
mod forms;
mod laws;
mod spellings;

pub use address::Jid;
pub use fault::JidFault;
pub use forms::{domain_in_normal_form, local_in_normal_form, resource_in_normal_form};
pub use laws::{normal_form_stays, normal_parts_stay, parts_are_joined, spellings_are_told};
pub use spellings::spells_account;
