//! How a client logs in (RFC 6120, sections 4.7, 4.8 and 6; RFC 5802): the accounts of a server, the judgement of a
//! stream's header, and the answers to `auth` and `response`. Each answer is a function of what it is given.
#![tactic(auto)]

mod account;
mod accounts;
mod accounts_fault;
mod header_judgement;
mod laws;
mod login;
mod negotiation;
mod sasl_condition;

pub use account::{Account, AccountList, ITERATIONS};
pub use accounts::{Accounts, Found};
pub use accounts_fault::AccountsFault;
pub use header_judgement::{HeaderAnswer, HeaderFault, judge_header};
pub use laws::{accounts_are_right, only_the_right_proof_logs_in, the_right_password_logs_in};
pub use login::{FinalAnswer, Login, final_answer};
pub use negotiation::{AuthAnswer, Negotiation, auth_answer};
pub use sasl_condition::SaslCondition;
