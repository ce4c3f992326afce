//! What is known of intents by a log that is made by hand: an entry of another sender is none of a try, nor is one that was
//! logged before it (XEP-0313; XEP-0359).
use crate::client_sessions::{LOGIN, Step, address, are_done, client_of};
use base_io::{Bytes, ListOf, Text};
use cl_core::{Client, ClientOut};
use cl_intents::{IntentState, Intents};
use im_jid::Jid;
use std::alloc::Global;
use std::process::Abort;

// A page of two entries: one of the device's own, and one of another sender's that has an id as the device makes them.
static PAGE: [(Step, &str); 4] = [
    (Step::CatchUp, ""),
    (
        Step::Server,
        "<message to='alice@chat.example/phone'><result xmlns='urn:xmpp:mam:2' id='0000000000000001' queryid='q1'><forwarded xmlns='urn:xmpp:forward:0'><delay xmlns='urn:xmpp:delay' stamp='1970-01-01T00:00:00.000Z'/><message xmlns='jabber:client' from='alice@chat.example/phone' id='phone.1.1' to='bob@chat.example' type='chat'><body>hi</body><origin-id xmlns='urn:xmpp:sid:0' id='phone.1.1'/></message></forwarded></result></message>",
    ),
    (
        Step::Server,
        "<message to='alice@chat.example/phone'><result xmlns='urn:xmpp:mam:2' id='0000000000000002' queryid='q1'><forwarded xmlns='urn:xmpp:forward:0'><delay xmlns='urn:xmpp:delay' stamp='1970-01-01T00:00:00.000Z'/><message xmlns='jabber:client' from='bob@chat.example/phone' id='phone.1.2' to='alice@chat.example' type='chat'><body>hi</body><origin-id xmlns='urn:xmpp:sid:0' id='phone.1.2'/></message></forwarded></result></message>",
    ),
    (
        Step::Server,
        "<iq id='q1' to='alice@chat.example/phone' type='result'><fin xmlns='urn:xmpp:mam:2' complete='true'><set xmlns='http://jabber.org/protocol/rsm'><first index='0'>0000000000000001</first><last>0000000000000002</last><count>2</count></set></fin></iq>",
    ),
];

// Tries of the first epoch: the number there, how many entries the log had before, and what is known.
static TRIES: [(u64, u64, IntentState); 4] = [
    (1, 0, IntentState::Done),
    (1, 1, IntentState::Undecided),
    (2, 0, IntentState::Undecided),
    (2, 1, IntentState::Undecided),
];

fn text(rt: &impl Abort, alloc: Global, text: &str) -> Text {
    Text::from_str(alloc, text).expect(rt, "memory")
}

// Whether this is known of an intent with such a try.
fn is_known(
    rt: &impl Abort,
    alloc: Global,
    client: &Client,
    (n, logged, wanted): (u64, u64, IntentState),
) -> bool {
    let mut intents = Intents::new(alloc, text(rt, alloc, "alice@chat.example/phone"));
    let (to, said) = (text(rt, alloc, "bob"), text(rt, alloc, "hi"));
    let Ok(intent) = intents.add(alloc, to, said) else {
        return false;
    };
    intents.tried(intent, 1, n, logged);
    intents.state(intent, client) == Some(wanted)
}

fn are_known(rt: &impl Abort, alloc: Global, client: &Client) -> bool {
    for one in TRIES {
        if !is_known(rt, alloc, client, one) {
            return false;
        }
    }
    true
}

// Whether a client logs in and takes the page.
fn has_page(alloc: Global, client: &mut Client, to: &Jid) -> bool {
    let mut out = ClientOut {
        bytes: Bytes::new(alloc),
        events: ListOf::new(alloc),
    };
    let has_page = are_done(alloc, client, &LOGIN, to, 100_000, &mut out)
        && are_done(alloc, client, &PAGE, to, 100_000, &mut out);
    drop(out);
    has_page && client.log().entries().len() == 2
}

#[test]
fn entries_that_look_like_a_try_are_none_of_it(rt: HostRuntime) {
    let alloc = rt.alloc();
    let alice = address(&rt, alloc, "alice@chat.example");
    let bob = address(&rt, alloc, "bob@chat.example");
    let mut client = client_of(&rt, alloc, &alice);
    assert!(rt; has_page(alloc, &mut client, &bob));
    assert!(rt; are_known(&rt, alloc, &client));
    drop(client);
}
