//! What a server says of its own, as it is sent (RFC 6120, sections 4, 6, 7 and 8; XEP-0198).
use crate::made::is_bytes;
use base_io::{Bytes, NoMemory};
use im_replies::{
    Envelope, StreamCondition, account_info, ack, bounced, bounced_presence, bound, challenge,
    empty_result, enabled, failure, footer, header, items, login_features, refusal, refused,
    request, resumable, resumed, roster, server_info, session_features, stream_error, success,
    too_high,
};
use im_stanza::{Condition, ErrorKind, StanzaError};
use std::alloc::Global;

// What a server says: which call, and with what it is called.
#[derive(Clone, Copy)]
enum Reply {
    Header,
    Footer,
    LoginFeatures,
    SessionFeatures,
    StreamError(StreamCondition),
    TooHigh,
    Challenge,
    Success,
    Failure,
    Request,
    Ack,
    Enabled,
    Resumable,
    Resumed,
    Refused,
    EmptyResult(Envelope<'static>),
    Roster,
    ServerInfo,
    AccountInfo,
    Items(&'static str),
    Bound,
    Refusal,
    Bounced(&'static str),
    BouncedPresence(&'static str),
}

const ENTROPY: [u8; 24] = [
    1, 2, 3, 4, 5, 6, 7, 8, 9, 10, 11, 12, 13, 14, 15, 16, 17, 18, 0, 1, 171, 16, 255, 250,
];

const TO_ALICE: Envelope<'static> = Envelope {
    from: Some("alice@chat.example"),
    to: Some("alice@chat.example/phone"),
    id: "i1",
};

const UNNAMED: Envelope<'static> = Envelope {
    from: None,
    to: None,
    id: "it's <1>",
};

// Each reply, and its bytes.
static REPLIES: [(Reply, &str); 28] = [
    (
        Reply::Header,
        "<?xml version='1.0'?><stream:stream from='chat.example' id='0001ab10fffa000000000000002a' version='1.0' xml:lang='en' xmlns='jabber:client' xmlns:stream='http://etherx.jabber.org/streams'>",
    ),
    (Reply::Footer, "</stream:stream>"),
    (
        Reply::LoginFeatures,
        "<stream:features><mechanisms xmlns='urn:ietf:params:xml:ns:xmpp-sasl'><mechanism>SCRAM-SHA-256</mechanism></mechanisms></stream:features>",
    ),
    (
        Reply::SessionFeatures,
        "<stream:features><bind xmlns='urn:ietf:params:xml:ns:xmpp-bind'/><sm xmlns='urn:xmpp:sm:3'/></stream:features>",
    ),
    (
        Reply::StreamError(StreamCondition::Conflict),
        "<stream:error><conflict xmlns='urn:ietf:params:xml:ns:xmpp-streams'/></stream:error>",
    ),
    (
        Reply::StreamError(StreamCondition::UnsupportedVersion),
        "<stream:error><unsupported-version xmlns='urn:ietf:params:xml:ns:xmpp-streams'/></stream:error>",
    ),
    (
        Reply::TooHigh,
        "<stream:error><undefined-condition xmlns='urn:ietf:params:xml:ns:xmpp-streams'/><handled-count-too-high xmlns='urn:xmpp:sm:3' h='10' send-count='4294967295'/></stream:error>",
    ),
    (
        Reply::Challenge,
        "<challenge xmlns='urn:ietf:params:xml:ns:xmpp-sasl'>cj1h</challenge>",
    ),
    (
        Reply::Success,
        "<success xmlns='urn:ietf:params:xml:ns:xmpp-sasl'>dj1iYg==</success>",
    ),
    (
        Reply::Failure,
        "<failure xmlns='urn:ietf:params:xml:ns:xmpp-sasl'><not-authorized/></failure>",
    ),
    (Reply::Request, "<r xmlns='urn:xmpp:sm:3'/>"),
    (Reply::Ack, "<a xmlns='urn:xmpp:sm:3' h='4294967295'/>"),
    (Reply::Enabled, "<enabled xmlns='urn:xmpp:sm:3'/>"),
    (
        Reply::Resumable,
        "<enabled xmlns='urn:xmpp:sm:3' id='00000000000000ff' max='300' resume='true'/>",
    ),
    (
        Reply::Resumed,
        "<resumed xmlns='urn:xmpp:sm:3' h='7' previd='00000000000000ff'/>",
    ),
    (
        Reply::Refused,
        "<failed xmlns='urn:xmpp:sm:3'><item-not-found xmlns='urn:ietf:params:xml:ns:xmpp-stanzas'/></failed>",
    ),
    (
        Reply::EmptyResult(TO_ALICE),
        "<iq from='alice@chat.example' id='i1' to='alice@chat.example/phone' type='result'/>",
    ),
    (
        Reply::EmptyResult(UNNAMED),
        "<iq id='it&apos;s &lt;1&gt;' type='result'/>",
    ),
    (
        Reply::Roster,
        "<iq from='alice@chat.example' id='i1' to='alice@chat.example/phone' type='result'><query xmlns='jabber:iq:roster'/></iq>",
    ),
    (
        Reply::ServerInfo,
        "<iq from='alice@chat.example' id='i1' to='alice@chat.example/phone' type='result'><query xmlns='http://jabber.org/protocol/disco#info'><identity category='server' type='im'/><feature var='http://jabber.org/protocol/disco#info'/><feature var='http://jabber.org/protocol/disco#items'/><feature var='urn:xmpp:carbons:2'/><feature var='urn:xmpp:mam:2'/><feature var='urn:xmpp:ping'/><feature var='urn:xmpp:sid:0'/></query></iq>",
    ),
    (
        Reply::AccountInfo,
        "<iq from='alice@chat.example' id='i1' to='alice@chat.example/phone' type='result'><query xmlns='http://jabber.org/protocol/disco#info'><identity category='account' type='registered'/><feature var='http://jabber.org/protocol/disco#info'/><feature var='http://jabber.org/protocol/disco#items'/><feature var='urn:xmpp:carbons:2'/><feature var='urn:xmpp:mam:2'/><feature var='urn:xmpp:ping'/><feature var='urn:xmpp:sid:0'/></query></iq>",
    ),
    (
        Reply::Items(""),
        "<iq from='alice@chat.example' id='i1' to='alice@chat.example/phone' type='result'><query xmlns='http://jabber.org/protocol/disco#items'/></iq>",
    ),
    (
        Reply::Items("it's <1>"),
        "<iq from='alice@chat.example' id='i1' to='alice@chat.example/phone' type='result'><query xmlns='http://jabber.org/protocol/disco#items' node='it&apos;s &lt;1&gt;'/></iq>",
    ),
    (
        Reply::Bound,
        "<iq id='b1' type='result'><bind xmlns='urn:ietf:params:xml:ns:xmpp-bind'><jid>alice@chat.example/phone</jid></bind></iq>",
    ),
    (
        Reply::Refusal,
        "<iq from='alice@chat.example' id='i1' to='alice@chat.example/phone' type='error'><error type='cancel'><service-unavailable xmlns='urn:ietf:params:xml:ns:xmpp-stanzas'/></error></iq>",
    ),
    (
        Reply::Bounced("m1"),
        "<message from='bob@chat.example' id='m1' type='error'><error type='cancel'><service-unavailable xmlns='urn:ietf:params:xml:ns:xmpp-stanzas'/></error></message>",
    ),
    (
        Reply::BouncedPresence("p1"),
        "<presence from='rooms.example/nick' id='p1' type='error'><error type='cancel'><remote-server-not-found xmlns='urn:ietf:params:xml:ns:xmpp-stanzas'/></error></presence>",
    ),
    (
        Reply::BouncedPresence(""),
        "<presence from='rooms.example/nick' type='error'><error type='cancel'><remote-server-not-found xmlns='urn:ietf:params:xml:ns:xmpp-stanzas'/></error></presence>",
    ),
];

const UNAVAILABLE: StanzaError = StanzaError {
    kind: ErrorKind::Cancel,
    condition: Condition::ServiceUnavailable,
};

const NOT_FOUND: StanzaError = StanzaError {
    kind: ErrorKind::Cancel,
    condition: Condition::RemoteServerNotFound,
};

fn login_reply(alloc: Global, reply: Reply) -> Result<Bytes, NoMemory> {
    match reply {
        Reply::Challenge => challenge(alloc, Bytes::from_slice(alloc, b"r=a")?),
        Reply::Success => success(alloc, Bytes::from_slice(alloc, b"v=bb")?),
        _ => failure(alloc, "not-authorized"),
    }
}

fn management_reply(alloc: Global, reply: Reply) -> Result<Bytes, NoMemory> {
    match reply {
        Reply::Request => request(alloc),
        Reply::Ack => ack(alloc, u32::MAX),
        Reply::Enabled => enabled(alloc),
        Reply::Resumable => resumable(alloc, 255, 300),
        Reply::Resumed => resumed(alloc, 255, 7),
        Reply::Refused => refused(alloc, Condition::ItemNotFound),
        _ => login_reply(alloc, reply),
    }
}

fn answer(alloc: Global, reply: Reply) -> Result<Bytes, NoMemory> {
    match reply {
        Reply::EmptyResult(envelope) => empty_result(alloc, &envelope),
        Reply::Roster => roster(alloc, &TO_ALICE),
        Reply::ServerInfo => server_info(alloc, &TO_ALICE),
        Reply::AccountInfo => account_info(alloc, &TO_ALICE),
        Reply::Items(node) => items(alloc, &TO_ALICE, node),
        Reply::Bound => bound(alloc, "b1", "alice@chat.example/phone"),
        Reply::Refusal => refusal(alloc, &TO_ALICE, &UNAVAILABLE),
        Reply::Bounced(id) => bounced(alloc, "bob@chat.example", id, &UNAVAILABLE),
        Reply::BouncedPresence(id) => {
            bounced_presence(alloc, "rooms.example/nick", id, &NOT_FOUND)
        }
        _ => management_reply(alloc, reply),
    }
}

fn said(alloc: Global, reply: Reply) -> Result<Bytes, NoMemory> {
    match reply {
        Reply::Header => header(alloc, "chat.example", 42, &ENTROPY),
        Reply::Footer => footer(alloc),
        Reply::LoginFeatures => login_features(alloc),
        Reply::SessionFeatures => session_features(alloc),
        Reply::StreamError(condition) => stream_error(alloc, condition),
        Reply::TooHigh => too_high(alloc, 10, u32::MAX),
        _ => answer(alloc, reply),
    }
}

#[test]
fn replies_are_these_bytes(rt: HostRuntime) {
    for (reply, expected) in &REPLIES {
        let bytes = said(rt.alloc(), *reply).expect(&rt, "memory");
        assert!(rt; is_bytes(bytes, expected));
    }
}
