//! What a server is started again with, and the exchange of a world's server.
ghost use Rattle.std.specs.Prelude.{◌≡◌};

use crate::world::World;
use base_io::Text;
use srv_core::Server;

impl World {
    /// The server.
    pub fn server(&self) -> &Server
        ensures { result.now ≡ self.now.server }
    {
        &self.server
    }

    /// The names of the accounts, in declared order.
    pub fn accounts(&self) -> &[Text]
        ensures { result.now ≡ self.now.accounts }
    {
        self.accounts.as_slice()
    }

    /// The moment that the clock shows, in milliseconds.
    pub fn moment(&self) -> u64
        ensures { result ≡ self.now.moment }
    {
        self.moment
    }

    /// Another server stands in the place of the world's. All else stays, and no memory is taken.
    pub fn exchange(&mut self, server: Server)
        ensures { self.new ≡ record self.old { server = server } }
    {
        self.server = server;
    }
}
