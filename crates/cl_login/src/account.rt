//! The account that a client logs in to.
use auth_scram::Password;
use base_io::Text;

/// What a client has to know of an account to log in to it.
#[derive(Drop)]
pub struct ClientAccount {
    /// The local part of its address.
    pub name: Text,
    /// The domain of its address.
    pub domain: Text,
    /// Its password.
    pub password: Password,
}
