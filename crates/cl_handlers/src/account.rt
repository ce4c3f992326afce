//! Whose client it is.
use base_io::Text;
use cl_login::ClientAccount;

/// The account's bare address, the resource that is asked for, and what its login takes.
#[derive(Drop)]
pub struct Account {
    pub bare: Text,
    pub resource: Text,
    pub login: ClientAccount,
}
