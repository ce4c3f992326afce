//! A client's login, before a resource is bound (RFC 6120, sections 4.3 and 6; RFC 5802): the states from the first header
//! of a connection to the second one, and what each header and each element does in them. Each answer is a function of
//! the state and the item.
#![tactic(auto)]

mod account;
mod answers;
mod begun_exchange;
mod laws;
mod login_fault;
mod login_state;
mod nonce;
mod replied_exchange;
mod rows;
mod writing;

pub use account::ClientAccount;
pub use answers::{Answer, Next, NotTaken};
pub use begun_exchange::BegunExchange;
pub use laws::{only_the_right_verifier_logs_in, the_right_server_is_accepted};
pub use login_fault::LoginFault;
pub use login_state::LoginState;
pub use nonce::Nonce;
pub use replied_exchange::RepliedExchange;
