//! Addresses of accounts and of their sessions (RFC 7622, section 3.1).
ghost use Rattle.std.specs.Prelude.{◌≡◌, slice_get, IfOk};
ghost use Rattle.srv_state.specs.Seen.{server_state_of};
ghost use Rattle.srv_state.specs.State;

use crate::context::ServerContext;
use base_io::{NoMemory, Text};

impl ServerContext {
    // The name of an account. Empty where there is no such account.
    fn account_name(&self, account: u32) -> &str
        ensures { result.now ≡ State.name_of (slice_get self.now.accounts account) }
    {
        match self.accounts.get(account) {
            Some(account) => account.name.as_str(),
            None => "",
        }
    }

    /// The address of a client of an account with a resource.
    #[tactic(auto, using(crate::proofs::AddressTexts::full_is))]
    pub fn full_address(&self, account: u32, resource: &str) -> Result<Text, NoMemory>
        ensures { IfOk result (λ text. text ≡ State.full_address account resource.now (server_state_of self.now)) }
    {
        let name = self.account_name(account);
        let domain = self.domain.as_str();
        Ok(Text::from(format!(in self.alloc; "{name}@{domain}/{resource}")?))
    }

    /// The bare address of an account.
    pub fn bare_address(&self, account: u32) -> Result<Text, NoMemory>
        ensures { IfOk result (λ text. text ≡ State.bare_address account (server_state_of self.now)) }
    {
        let name = self.account_name(account);
        let domain = self.domain.as_str();
        Ok(Text::from(format!(in self.alloc; "{name}@{domain}")?))
    }

    /// The full address of the session with a number.
    pub fn session_address(&self, number: u64) -> Result<Text, NoMemory>
        ensures { IfOk result (λ text. text ≡ State.session_address number (server_state_of self.now)) }
    {
        match self.live.view(number) {
            Some(shown) => self.full_address(shown.account, shown.resource.as_str()),
            None => Ok(Text::new(self.alloc)),
        }
    }
}
