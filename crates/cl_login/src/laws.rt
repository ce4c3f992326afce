//! Which servers a client logs in at.
ghost use Rattle.cl_login.specs.Logins.{PasswordsLogIn, VerifiersLogIn};

use auth_scram::{ends_agree, judgements_are_exact};

/// A law: a client goes on behind its response exactly where a success carries a final message of the server within the
/// grammar, with the verifier that is expected (RFC 5802, section 3), so only at a server that knows the password's keys.
/// Where such a message has another verifier or none, the login ends by `BadVerifier`.
pub fn only_the_right_verifier_logs_in()
    ensures { VerifiersLogIn }
{
    judgements_are_exact();
}

/// A law: at a server with credentials of the account's password the login goes through, from the first features to the
/// second header. Names and passwords are printable ASCII, and the count of iterations is one that the client takes (4,096
/// to 1,000,000).
pub fn the_right_server_is_accepted()
    ensures { PasswordsLogIn }
{
    ends_agree();
}
