//! What a server puts out, and what it tells of itself (RFC 6120, section 4).
use base_io::Text;
use srv_core::{Config, Outputs, Server};
use srv_login::AccountList;
use std::alloc::Global;
use std::process::Abort;

const HEADER: &[u8] =
    b"<stream:stream to='chat.example' version='1.0' xmlns='jabber:client' xmlns:stream='http://etherx.jabber.org/streams'>";

// How many outputs there are behind a header and the beginning of an element, and whether that is told of.
fn begun(rt: &impl Abort, server: &mut Server, outputs: &mut Outputs) -> (usize, bool) {
    server.bytes(1, HEADER, 6, outputs).expect(rt, "memory");
    server.bytes(1, b"<au", 7, outputs).expect(rt, "memory");
    (outputs.as_slice().len(), server.part(1))
}

// The same of a server's only connection, which then goes.
fn answers(rt: &impl Abort, alloc: Global, server: &mut Server) -> (usize, bool) {
    let mut outputs = Outputs::new(alloc);
    let told = begun(rt, server, &mut outputs);
    server.gone(1, 8);
    told
}

// A server without accounts, with one connection.
fn server(rt: &impl Abort, alloc: Global) -> Server {
    let config = Config {
        domain: Text::from_str(alloc, "chat.example").expect(rt, "memory"),
        accounts: AccountList::new(alloc),
        keep: 10,
    };
    let mut server = match Server::new(alloc, config) {
        Ok(server) => server,
        Err(_) => panic!(rt; "no server"),
    };
    server.connect(1, &[7; 24], 5).expect(rt, "memory");
    server
}

#[test]
fn a_header_is_answered(rt: HostRuntime) {
    let mut server = server(&rt, rt.alloc());
    assert!(rt; answers(&rt, rt.alloc(), &mut server) == (2, true));
}
