//! A client's session from its dial to its closing, over a loss of its connection (RFC 6120, sections 4 to 7; XEP-0198;
//! XEP-0313): behind it what waits is put again. The messages of the login are from another program, for the password
//! `pw-alice`, a salt of 16 bytes, 4,096 iterations, and nonces of zero bytes and of a one and zero bytes.
use base_io::{Bytes, ListOf};
use cl_core::{Client, ClientOut, Event};
use im_jid::Jid;
use mam_log::PageOutcome;
use std::alloc::Global;
use std::process::Abort;

// What the user does, or that the server sends something.
#[derive(Clone, Copy)]
pub(crate) enum Step {
    Dial,
    Server,
    Say,
    Gone,
    CatchUp,
    Close,
}

// A login, step by step, each with the text that is sent.
pub(crate) static LOGIN: [(Step, &str); 10] = [
    (Step::Dial, ""),
    (
        Step::Server,
        "<?xml version='1.0'?><stream:stream from='chat.example' id='1' version='1.0' xml:lang='en' xmlns='jabber:client' xmlns:stream='http://etherx.jabber.org/streams'>",
    ),
    (
        Step::Server,
        "<stream:features><mechanisms xmlns='urn:ietf:params:xml:ns:xmpp-sasl'><mechanism>SCRAM-SHA-256</mechanism></mechanisms></stream:features>",
    ),
    (
        Step::Server,
        "<challenge xmlns='urn:ietf:params:xml:ns:xmpp-sasl'>cj1BQUFBQUFBQUFBQUFBQUFBQUFBQUFBQUFBUUFBQUFBQUFBQUFBQUFBQUFBQUFBQUEscz10aFQveXVDV0Z5SkhVYU5XUHMyZy9BPT0saT00MDk2</challenge>",
    ),
    (
        Step::Server,
        "<success xmlns='urn:ietf:params:xml:ns:xmpp-sasl'>dj14ZEwxWVRDZVhKU2VpTmY2aEh1OHFtQWZib05RQnloT3lKUUYvY0o1cGxzPQ==</success>",
    ),
    (
        Step::Server,
        "<?xml version='1.0'?><stream:stream from='chat.example' id='2' version='1.0' xml:lang='en' xmlns='jabber:client' xmlns:stream='http://etherx.jabber.org/streams'>",
    ),
    (
        Step::Server,
        "<stream:features><bind xmlns='urn:ietf:params:xml:ns:xmpp-bind'/><sm xmlns='urn:xmpp:sm:3'/></stream:features>",
    ),
    (
        Step::Server,
        "<iq id='bind' type='result'><bind xmlns='urn:ietf:params:xml:ns:xmpp-bind'><jid>alice@chat.example/phone</jid></bind></iq>",
    ),
    (
        Step::Server,
        "<enabled xmlns='urn:xmpp:sm:3' id='0000000000000001' max='300' resume='true'/>",
    ),
    (Step::Server, "<a xmlns='urn:xmpp:sm:3' h='2'/>"),
];

// The session after it, each step with the text that is sent or submitted.
static SESSION: [(Step, &str); 15] = [
    (Step::Say, "hi"),
    (Step::Gone, ""),
    (Step::Dial, ""),
    (
        Step::Server,
        "<?xml version='1.0'?><stream:stream from='chat.example' id='1' version='1.0' xml:lang='en' xmlns='jabber:client' xmlns:stream='http://etherx.jabber.org/streams'>",
    ),
    (
        Step::Server,
        "<stream:features><mechanisms xmlns='urn:ietf:params:xml:ns:xmpp-sasl'><mechanism>SCRAM-SHA-256</mechanism></mechanisms></stream:features>",
    ),
    (
        Step::Server,
        "<challenge xmlns='urn:ietf:params:xml:ns:xmpp-sasl'>cj1BQUFBQUFBQUFBQUFBQUFBQUFBQUFBQUFBUUFBQUFBQUFBQUFBQUFBQUFBQUFBQUEscz10aFQveXVDV0Z5SkhVYU5XUHMyZy9BPT0saT00MDk2</challenge>",
    ),
    (
        Step::Server,
        "<success xmlns='urn:ietf:params:xml:ns:xmpp-sasl'>dj14ZEwxWVRDZVhKU2VpTmY2aEh1OHFtQWZib05RQnloT3lKUUYvY0o1cGxzPQ==</success>",
    ),
    (
        Step::Server,
        "<?xml version='1.0'?><stream:stream from='chat.example' id='2' version='1.0' xml:lang='en' xmlns='jabber:client' xmlns:stream='http://etherx.jabber.org/streams'>",
    ),
    (
        Step::Server,
        "<stream:features><bind xmlns='urn:ietf:params:xml:ns:xmpp-bind'/><sm xmlns='urn:xmpp:sm:3'/></stream:features>",
    ),
    (
        Step::Server,
        "<resumed xmlns='urn:xmpp:sm:3' h='2' previd='0000000000000001'/>",
    ),
    (Step::CatchUp, ""),
    (Step::Server, "<a xmlns='urn:xmpp:sm:3' h='4'/>"),
    (
        Step::Server,
        "<message to='alice@chat.example/phone'><result xmlns='urn:xmpp:mam:2' id='0000000000000001' queryid='q1'><forwarded xmlns='urn:xmpp:forward:0'><delay xmlns='urn:xmpp:delay' stamp='1970-01-01T00:00:00.000Z'/><message xmlns='jabber:client' from='alice@chat.example/phone' id='phone.1.1' to='bob@chat.example' type='chat'><body>hi</body></message></forwarded></result></message>",
    ),
    (
        Step::Server,
        "<iq id='q1' to='alice@chat.example/phone' type='result'><fin xmlns='urn:xmpp:mam:2' complete='true'><set xmlns='http://jabber.org/protocol/rsm'><first index='0'>0000000000000001</first><last>0000000000000001</last><count>1</count></set></fin></iq>",
    ),
    (Step::Close, ""),
];

// What the client puts in all.
static PUT: &str =
    "<?xml version='1.0'?><stream:stream to='chat.example' version='1.0' xmlns='jabber:client' xmlns:stream='http://etherx.jabber.org/streams'><auth xmlns='urn:ietf:params:xml:ns:xmpp-sasl' mechanism='SCRAM-SHA-256'>biwsbj1hbGljZSxyPUFBQUFBQUFBQUFBQUFBQUFBQUFBQUFBQQ==</auth><response xmlns='urn:ietf:params:xml:ns:xmpp-sasl'>Yz1iaXdzLHI9QUFBQUFBQUFBQUFBQUFBQUFBQUFBQUFBQVFBQUFBQUFBQUFBQUFBQUFBQUFBQUFBLHA9SVVQckk4eFFSRDF6c3ByV0hzcDhaVTB0bHZJZjFlanc2VHdIbHZmUXJOaz0=</response><?xml version='1.0'?><stream:stream to='chat.example' version='1.0' xmlns='jabber:client' xmlns:stream='http://etherx.jabber.org/streams'><iq id='bind' type='set'><bind xmlns='urn:ietf:params:xml:ns:xmpp-bind'><resource>phone</resource></bind></iq><enable xmlns='urn:xmpp:sm:3' resume='true'/><iq id='carbons' type='set'><enable xmlns='urn:xmpp:carbons:2'/></iq><presence/><message id='phone.1.1' to='bob@chat.example' type='chat'><body>hi</body><origin-id xmlns='urn:xmpp:sid:0' id='phone.1.1'/></message><r xmlns='urn:xmpp:sm:3'/><?xml version='1.0'?><stream:stream to='chat.example' version='1.0' xmlns='jabber:client' xmlns:stream='http://etherx.jabber.org/streams'><auth xmlns='urn:ietf:params:xml:ns:xmpp-sasl' mechanism='SCRAM-SHA-256'>biwsbj1hbGljZSxyPUFBQUFBQUFBQUFBQUFBQUFBQUFBQUFBQQ==</auth><response xmlns='urn:ietf:params:xml:ns:xmpp-sasl'>Yz1iaXdzLHI9QUFBQUFBQUFBQUFBQUFBQUFBQUFBQUFBQVFBQUFBQUFBQUFBQUFBQUFBQUFBQUFBLHA9SVVQckk4eFFSRDF6c3ByV0hzcDhaVTB0bHZJZjFlanc2VHdIbHZmUXJOaz0=</response><?xml version='1.0'?><stream:stream to='chat.example' version='1.0' xmlns='jabber:client' xmlns:stream='http://etherx.jabber.org/streams'><resume xmlns='urn:xmpp:sm:3' h='0' previd='0000000000000001'/><message id='phone.1.1' to='bob@chat.example' type='chat'><body>hi</body><origin-id xmlns='urn:xmpp:sid:0' id='phone.1.1'/></message><r xmlns='urn:xmpp:sm:3'/><iq id='q1' type='set'><query xmlns='urn:xmpp:mam:2' queryid='q1'><x xmlns='jabber:x:data' type='submit'><field type='hidden' var='FORM_TYPE'><value>urn:xmpp:mam:2</value></field></x><set xmlns='http://jabber.org/protocol/rsm'><max>10</max></set></query></iq><r xmlns='urn:xmpp:sm:3'/></stream:stream>";

// How many bytes of the server's come at a time.
static SIZES: [usize; 3] = [1, 7, 100_000];

// Hands a text to the client, so many bytes at a time.
fn fed(alloc: Global, client: &mut Client, text: &str, size: usize, out: &mut ClientOut) -> bool {
    for piece in text.as_bytes().chunks(size.max(1)) {
        if client.bytes(alloc, piece, out).is_err() {
            return false;
        }
    }
    true
}

// Whether a step is done.
fn is_done(
    alloc: Global,
    client: &mut Client,
    (step, text): (Step, &str),
    to: &Jid,
    size: usize,
    out: &mut ClientOut,
) -> bool {
    match step {
        Step::Dial => client.dial(alloc, &[0; 24], out).is_ok(),
        Step::Server => fed(alloc, client, text, size, out),
        Step::Say => client.say(alloc, to, text, false, out).is_ok(),
        Step::Gone => {
            client.gone();
            true
        }
        Step::CatchUp => client.catch_up(alloc, 10, out).is_ok(),
        Step::Close => client.close(alloc, out).is_ok(),
    }
}

// Whether all these steps are done.
pub(crate) fn are_done(
    alloc: Global,
    client: &mut Client,
    steps: &[(Step, &str)],
    to: &Jid,
    size: usize,
    out: &mut ClientOut,
) -> bool {
    for step in steps {
        if !is_done(alloc, client, *step, to, size, out) {
            return false;
        }
    }
    true
}

// Whether an event is one of those that happen here.
fn is_expected(event: &Event) -> bool {
    match event {
        Event::Bound { epoch } => *epoch == 1,
        Event::Acked { count } => *count == 2 || *count == 0,
        Event::Resumed => true,
        Event::PageDone(PageOutcome::Complete) => true,
        _ => false,
    }
}

// Whether the bytes, the events and the log are those of the session.
fn is_right(client: &Client, out: &ClientOut, put: &str) -> bool {
    out.bytes.as_slice() == put.as_bytes()
        && out.events.as_slice().len() == 6
        && out.events.as_slice().iter().all(is_expected)
        && client.log().entries().len() == 1
        && client.epoch() == 1
}

// What is large is dropped by a call: where its scope drops it, each of its fields is a way of its own in the proof.

// Whether a client's session goes as it should.
fn goes_well(alloc: Global, client: &mut Client, to: &Jid, size: usize, put: &str) -> bool {
    let mut out = ClientOut {
        bytes: Bytes::new(alloc),
        events: ListOf::new(alloc),
    };
    let goes_well = are_done(alloc, client, &LOGIN, to, size, &mut out)
        && are_done(alloc, client, &SESSION, to, size, &mut out)
        && is_right(client, &out, put);
    drop(out);
    goes_well
}

pub(crate) fn address(rt: &impl Abort, alloc: Global, text: &str) -> Jid {
    Jid::parse(alloc, text).expect(rt, "an address")
}

pub(crate) fn client_of(rt: &impl Abort, alloc: Global, address: &Jid) -> Client {
    match Client::new(alloc, address, "pw-alice", "phone") {
        Ok(client) => client,
        Err(_) => panic!(rt; "no client"),
    }
}

// The same of a new client of an account.
fn goes(rt: &impl Abort, alloc: Global, account: &Jid, to: &Jid, size: usize) -> bool {
    let mut client = client_of(rt, alloc, account);
    let goes_well = goes_well(alloc, &mut client, to, size, PUT);
    drop(client);
    goes_well
}

#[test]
fn a_session_goes_in_any_pieces(rt: HostRuntime) {
    let alloc = rt.alloc();
    let alice = address(&rt, alloc, "alice@chat.example");
    let bob = address(&rt, alloc, "bob@chat.example");
    for size in SIZES {
        assert!(rt; goes(&rt, alloc, &alice, &bob, size));
    }
}
