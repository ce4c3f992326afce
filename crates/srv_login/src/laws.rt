//! What accounts are, and who is logged in.
ghost use Rattle.std.specs.Prelude.{◌≡◌, ◌↔◌, List, None};
ghost use Rattle.srv_login.specs.Accounts.{AreAccounts, accounts_fault};
ghost use Rattle.srv_login.specs.Logins.{PasswordsLogIn, ProofsLogIn};
ghost use Rattle.srv_login.specs.declared.account.Account.{Account};

/// A law: nothing is wrong with a list of accounts exactly where each name is a local part in normal form, no two accounts
/// have one name, and each account counts an iteration.
pub fn accounts_are_right()
    ensures { (accounts : List Account) → (accounts_fault accounts ≡ None) ↔ AreAccounts accounts }
{}

/// A law: a client with the right password is logged in. Whatever the other accounts are: an `auth` with its first
/// message is answered by a challenge, the client replies to that, a `response` with the reply succeeds for its account,
/// and the client accepts the server's final message. Names and passwords are printable ASCII, and the count of iterations
/// is one that the client takes (4,096 to 1,000,000).
pub fn the_right_password_logs_in()
    ensures { PasswordsLogIn }
{}

/// A law: only the right proof logs in. A `response` succeeds exactly where it carries a final message within the
/// grammar, with the whole nonce and the right proof (RFC 5802, section 3), and then for the account of the negotiation.
pub fn only_the_right_proof_logs_in()
    ensures { ProofsLogIn }
{}
