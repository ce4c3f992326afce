//! How far a connection has come.
use cl_login::LoginState;

/// How far the connection has come, by what is awaited of the server.
#[derive(Drop)]
pub enum Phase {
    /// No connection stands.
    Apart,
    /// The login isn't done.
    Login(LoginState),
    /// The features behind the login.
    Features2,
    /// The answer to the resumption of a session (XEP-0198, section 5).
    Resuming,
    /// The answer to the binding of a resource (RFC 6120, section 7).
    Binding,
    /// The answer to the wish for acknowledgements (XEP-0198, section 3).
    Enabling,
    /// Stanzas.
    Online,
}
