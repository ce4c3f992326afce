//! Each payload is read off an element as the standards have it, and written as that element again.
use crate::made::{spells, tree_of};
use im_extensions::{
    Ack, BindRequest, BindResult, Carbon, CarbonsSwitch, DiscoInfo, Enable, Enabled, Forwarded,
    OriginId, Ping, Request, Resume, Resumed, RosterGet, SessionSet, SmFailed, StanzaId,
    too_high_tree,
};
use im_login::{Abort as Aborted, Auth, Challenge, Response, SaslFailure, Success};
use im_mam::{MamQuery, MamResult, fin_tree, read_fin};
use std::alloc::Global;
use std::process::Abort;
use xml_trees::Tree;

fn enable(rt: &impl Abort, alloc: Global, tree: &Tree) -> Tree {
    let value = Enable::read(tree).expect(rt, "the payload");
    value.tree(alloc).expect(rt, "memory")
}

fn enabled(rt: &impl Abort, alloc: Global, tree: &Tree) -> Tree {
    let value = Enabled::read(alloc, tree).expect(rt, "the payload");
    value.tree(alloc).expect(rt, "memory")
}

fn request(rt: &impl Abort, alloc: Global, tree: &Tree) -> Tree {
    let value = Request::read(tree).expect(rt, "the payload");
    value.tree(alloc).expect(rt, "memory")
}

fn ack(rt: &impl Abort, alloc: Global, tree: &Tree) -> Tree {
    let value = Ack::read(tree).expect(rt, "the payload");
    value.tree(alloc).expect(rt, "memory")
}

fn resume(rt: &impl Abort, alloc: Global, tree: &Tree) -> Tree {
    let value = Resume::read(alloc, tree).expect(rt, "the payload");
    value.tree(alloc).expect(rt, "memory")
}

fn resumed(rt: &impl Abort, alloc: Global, tree: &Tree) -> Tree {
    let value = Resumed::read(alloc, tree).expect(rt, "the payload");
    value.tree(alloc).expect(rt, "memory")
}

// A value with many fields is dropped by a call: where its scope drops it, each field is a way of its own in the proof.

fn failed(rt: &impl Abort, alloc: Global, tree: &Tree) -> Tree {
    let value = SmFailed::read(alloc, tree).expect(rt, "the payload");
    let again = value.tree(alloc).expect(rt, "memory");
    drop(value);
    again
}

fn wish(rt: &impl Abort, alloc: Global, tree: &Tree) -> Tree {
    let value = BindRequest::read(alloc, tree).expect(rt, "the payload");
    value.tree(alloc).expect(rt, "memory")
}

fn bound(rt: &impl Abort, alloc: Global, tree: &Tree) -> Tree {
    let value = BindResult::read(alloc, tree).expect(rt, "the payload");
    value.tree(alloc).expect(rt, "memory")
}

fn stanza_id(rt: &impl Abort, alloc: Global, tree: &Tree) -> Tree {
    let value = StanzaId::read(alloc, tree).expect(rt, "the payload");
    value.tree(alloc).expect(rt, "memory")
}

fn origin_id(rt: &impl Abort, alloc: Global, tree: &Tree) -> Tree {
    let value = OriginId::read(alloc, tree).expect(rt, "the payload");
    value.tree(alloc).expect(rt, "memory")
}

fn switch(rt: &impl Abort, alloc: Global, tree: &Tree) -> Tree {
    let value = CarbonsSwitch::read(tree).expect(rt, "the payload");
    value.tree(alloc).expect(rt, "memory")
}

fn ping(rt: &impl Abort, alloc: Global, tree: &Tree) -> Tree {
    let value = Ping::read(tree).expect(rt, "the payload");
    value.tree(alloc).expect(rt, "memory")
}

fn disco_info(rt: &impl Abort, alloc: Global, tree: &Tree) -> Tree {
    let value = DiscoInfo::read(tree).expect(rt, "the payload");
    value.tree(alloc).expect(rt, "memory")
}

fn roster(rt: &impl Abort, alloc: Global, tree: &Tree) -> Tree {
    let value = RosterGet::read(tree).expect(rt, "the payload");
    value.tree(alloc).expect(rt, "memory")
}

fn session(rt: &impl Abort, alloc: Global, tree: &Tree) -> Tree {
    let value = SessionSet::read(tree).expect(rt, "the payload");
    value.tree(alloc).expect(rt, "memory")
}

fn forwarded(rt: &impl Abort, alloc: Global, tree: &Tree) -> Tree {
    let value = Forwarded::read(alloc, tree).expect(rt, "the payload");
    let again = value.tree(alloc).expect(rt, "memory");
    drop(value);
    again
}

fn carbon(rt: &impl Abort, alloc: Global, tree: &Tree) -> Tree {
    let value = Carbon::read(alloc, tree).expect(rt, "the payload");
    let again = value.tree(alloc).expect(rt, "memory");
    drop(value);
    again
}

fn query(rt: &impl Abort, alloc: Global, tree: &Tree) -> Tree {
    let value = MamQuery::read(alloc, tree).expect(rt, "the payload");
    let again = value.tree(alloc).expect(rt, "memory");
    drop(value);
    again
}

fn result(rt: &impl Abort, alloc: Global, tree: &Tree) -> Tree {
    let value = MamResult::read(alloc, tree).expect(rt, "the payload");
    let again = value.tree(alloc).expect(rt, "memory");
    drop(value);
    again
}

fn fin(rt: &impl Abort, alloc: Global, tree: &Tree) -> Tree {
    let value = read_fin(alloc, tree).expect(rt, "the payload");
    let again = fin_tree(alloc, &value).expect(rt, "memory");
    drop(value);
    again
}

fn auth(rt: &impl Abort, alloc: Global, tree: &Tree) -> Tree {
    let value = Auth::read(alloc, tree).expect(rt, "the payload");
    value.tree(alloc).expect(rt, "memory")
}

fn challenge(rt: &impl Abort, alloc: Global, tree: &Tree) -> Tree {
    let value = Challenge::read(alloc, tree).expect(rt, "the payload");
    value.tree(alloc).expect(rt, "memory")
}

fn response(rt: &impl Abort, alloc: Global, tree: &Tree) -> Tree {
    let value = Response::read(alloc, tree).expect(rt, "the payload");
    value.tree(alloc).expect(rt, "memory")
}

fn success(rt: &impl Abort, alloc: Global, tree: &Tree) -> Tree {
    let value = Success::read(alloc, tree).expect(rt, "the payload");
    value.tree(alloc).expect(rt, "memory")
}

fn failure(rt: &impl Abort, alloc: Global, tree: &Tree) -> Tree {
    let value = SaslFailure::read(alloc, tree).expect(rt, "the payload");
    value.tree(alloc).expect(rt, "memory")
}

fn abort(rt: &impl Abort, alloc: Global, tree: &Tree) -> Tree {
    let value = Aborted::read(tree).expect(rt, "the payload");
    value.tree(alloc).expect(rt, "memory")
}

// Which payload a row is about.
#[derive(Clone, Copy)]
enum Kind {
    Enable,
    Enabled,
    Request,
    Ack,
    Resume,
    Resumed,
    Failed,
    TooHigh,
    Wish,
    Bound,
    StanzaId,
    OriginId,
    Switch,
    Ping,
    DiscoInfo,
    Roster,
    Session,
    Forwarded,
    Carbon,
    Result,
    Fin,
    Auth,
    Challenge,
    Response,
    Success,
    Failure,
    Abort,
}

// What is written of the payload that a tree is read as. Of two counts there is no reader.
fn again(rt: &impl Abort, alloc: Global, kind: Kind, tree: &Tree) -> Tree {
    match kind {
        Kind::Enable => enable(rt, alloc, tree),
        Kind::Enabled => enabled(rt, alloc, tree),
        Kind::Request => request(rt, alloc, tree),
        Kind::Ack => ack(rt, alloc, tree),
        Kind::Resume => resume(rt, alloc, tree),
        Kind::Resumed => resumed(rt, alloc, tree),
        Kind::Failed => failed(rt, alloc, tree),
        Kind::TooHigh => too_high_tree(alloc, 2, 1).expect(rt, "memory"),
        Kind::Wish => wish(rt, alloc, tree),
        Kind::Bound => bound(rt, alloc, tree),
        Kind::StanzaId => stanza_id(rt, alloc, tree),
        Kind::OriginId => origin_id(rt, alloc, tree),
        Kind::Switch => switch(rt, alloc, tree),
        Kind::Ping => ping(rt, alloc, tree),
        Kind::DiscoInfo => disco_info(rt, alloc, tree),
        Kind::Roster => roster(rt, alloc, tree),
        Kind::Session => session(rt, alloc, tree),
        Kind::Forwarded => forwarded(rt, alloc, tree),
        Kind::Carbon => carbon(rt, alloc, tree),
        Kind::Result => result(rt, alloc, tree),
        Kind::Fin => fin(rt, alloc, tree),
        Kind::Auth => auth(rt, alloc, tree),
        Kind::Challenge => challenge(rt, alloc, tree),
        Kind::Response => response(rt, alloc, tree),
        Kind::Success => success(rt, alloc, tree),
        Kind::Failure => failure(rt, alloc, tree),
        Kind::Abort => abort(rt, alloc, tree),
    }
}

// The payloads as the examples of the standards have them: XEP-0198, sections 3 to 5; RFC 6120, sections 6.4, 7.6 and 7.7;
// XEP-0359, section 3; XEP-0280, sections 4, 5, 7 and 8; XEP-0199, section 4; XEP-0030, section 3.1; RFC 6121, section 2.1.3;
// RFC 3921, section 3; XEP-0297, section 3; XEP-0313, section 4; XEP-0059, sections 2.1 to 2.3.
static PAYLOADS: [(Kind, &str); 38] = [
    (Kind::Enable, "<enable xmlns='urn:xmpp:sm:3'/>"),
    (
        Kind::Enable,
        "<enable xmlns='urn:xmpp:sm:3' resume='true'/>",
    ),
    (
        Kind::Enabled,
        "<enabled xmlns='urn:xmpp:sm:3' id='some-long-sm-id' resume='true'/>",
    ),
    (
        Kind::Enabled,
        "<enabled xmlns='urn:xmpp:sm:3' id='x' max='300'/>",
    ),
    (
        Kind::Enabled,
        "<enabled xmlns='urn:xmpp:sm:3' max='4294967295' resume='true'/>",
    ),
    (Kind::Request, "<r xmlns='urn:xmpp:sm:3'/>"),
    (Kind::Ack, "<a xmlns='urn:xmpp:sm:3' h='5'/>"),
    (
        Kind::Resume,
        "<resume xmlns='urn:xmpp:sm:3' h='0' previd='some-long-sm-id'/>",
    ),
    (
        Kind::Resumed,
        "<resumed xmlns='urn:xmpp:sm:3' h='7' previd='some-long-sm-id'/>",
    ),
    (
        Kind::Failed,
        "<failed xmlns='urn:xmpp:sm:3'><item-not-found xmlns='urn:ietf:params:xml:ns:xmpp-stanzas'/></failed>",
    ),
    (
        Kind::Failed,
        "<failed xmlns='urn:xmpp:sm:3'><gone xmlns='urn:ietf:params:xml:ns:xmpp-stanzas'/></failed>",
    ),
    (
        Kind::TooHigh,
        "<handled-count-too-high xmlns='urn:xmpp:sm:3' h='2' send-count='1'/>",
    ),
    (
        Kind::Wish,
        "<bind xmlns='urn:ietf:params:xml:ns:xmpp-bind'/>",
    ),
    (
        Kind::Wish,
        "<bind xmlns='urn:ietf:params:xml:ns:xmpp-bind'><resource>balcony</resource></bind>",
    ),
    (
        Kind::Bound,
        "<bind xmlns='urn:ietf:params:xml:ns:xmpp-bind'><jid>juliet@im.example.com/balcony</jid></bind>",
    ),
    (
        Kind::StanzaId,
        "<stanza-id xmlns='urn:xmpp:sid:0' by='room@muc.example.com' id='5f3d'/>",
    ),
    (
        Kind::OriginId,
        "<origin-id xmlns='urn:xmpp:sid:0' id='de305d54'/>",
    ),
    (Kind::Switch, "<enable xmlns='urn:xmpp:carbons:2'/>"),
    (Kind::Switch, "<disable xmlns='urn:xmpp:carbons:2'/>"),
    (Kind::Ping, "<ping xmlns='urn:xmpp:ping'/>"),
    (
        Kind::DiscoInfo,
        "<query xmlns='http://jabber.org/protocol/disco#info'/>",
    ),
    (Kind::Roster, "<query xmlns='jabber:iq:roster'/>"),
    (
        Kind::Session,
        "<session xmlns='urn:ietf:params:xml:ns:xmpp-session'/>",
    ),
    (
        Kind::Forwarded,
        "<forwarded xmlns='urn:xmpp:forward:0'><delay xmlns='urn:xmpp:delay' stamp='2010-07-10T23:08:25.000Z'/><message xmlns='jabber:client' id='m1' type='chat'>Call me but love</message></forwarded>",
    ),
    (
        Kind::Carbon,
        "<sent xmlns='urn:xmpp:carbons:2'><forwarded xmlns='urn:xmpp:forward:0'><delay xmlns='urn:xmpp:delay' stamp='2010-07-10T23:08:25.000Z'/><message xmlns='jabber:client' id='m1' type='chat'>Call me but love</message></forwarded></sent>",
    ),
    (
        Kind::Carbon,
        "<received xmlns='urn:xmpp:carbons:2'><forwarded xmlns='urn:xmpp:forward:0'><delay xmlns='urn:xmpp:delay' stamp='2010-07-10T23:08:25.000Z'/><message xmlns='jabber:client' id='m1' type='chat'>Call me but love</message></forwarded></received>",
    ),
    (
        Kind::Result,
        "<result xmlns='urn:xmpp:mam:2' id='28482-98726-73623' queryid='f27'><forwarded xmlns='urn:xmpp:forward:0'><delay xmlns='urn:xmpp:delay' stamp='2010-07-10T23:08:25.000Z'/><message xmlns='jabber:client' id='m1' type='chat'>Call me but love</message></forwarded></result>",
    ),
    (
        Kind::Result,
        "<result xmlns='urn:xmpp:mam:2' id='28482-98726-73623'><forwarded xmlns='urn:xmpp:forward:0'><delay xmlns='urn:xmpp:delay' stamp='2010-07-10T23:08:25.000Z'/><message xmlns='jabber:client' id='m1' type='chat'>Call me but love</message></forwarded></result>",
    ),
    (
        Kind::Fin,
        "<fin xmlns='urn:xmpp:mam:2' complete='true'><set xmlns='http://jabber.org/protocol/rsm'><first index='0'>28482-98726-73623</first><last>09af3-cc343-b409f</last><count>20</count></set></fin>",
    ),
    (
        Kind::Fin,
        "<fin xmlns='urn:xmpp:mam:2'><set xmlns='http://jabber.org/protocol/rsm'><first index='18446744073709551615'>a</first><last/><count>18446744073709551615</count></set></fin>",
    ),
    (
        Kind::Fin,
        "<fin xmlns='urn:xmpp:mam:2' complete='true'><set xmlns='http://jabber.org/protocol/rsm'><count>0</count></set></fin>",
    ),
    (
        Kind::Auth,
        "<auth xmlns='urn:ietf:params:xml:ns:xmpp-sasl' mechanism='PLAIN'>AGp1bGlldAByMG0zMG15cjBtMzA=</auth>",
    ),
    (
        Kind::Challenge,
        "<challenge xmlns='urn:ietf:params:xml:ns:xmpp-sasl'>Zm9vYg==</challenge>",
    ),
    (
        Kind::Response,
        "<response xmlns='urn:ietf:params:xml:ns:xmpp-sasl'>Zm9vYg==</response>",
    ),
    (
        Kind::Success,
        "<success xmlns='urn:ietf:params:xml:ns:xmpp-sasl'/>",
    ),
    (
        Kind::Success,
        "<success xmlns='urn:ietf:params:xml:ns:xmpp-sasl'>Zm9vYg==</success>",
    ),
    (
        Kind::Failure,
        "<failure xmlns='urn:ietf:params:xml:ns:xmpp-sasl'><not-authorized/></failure>",
    ),
    (
        Kind::Abort,
        "<abort xmlns='urn:ietf:params:xml:ns:xmpp-sasl'/>",
    ),
];

fn is_written(rt: &impl Abort, alloc: Global, kind: Kind, text: &str) {
    let tree = tree_of(rt, alloc, text);
    spells(rt, alloc, again(rt, alloc, kind, &tree), text);
}

#[test]
fn payloads_are_read_and_written(rt: HostRuntime) {
    for (kind, text) in &PAYLOADS {
        is_written(&rt, rt.alloc(), *kind, text);
    }
}

// Queries as the examples have them, and as they are written: with the form that names the protocol.
static QUERIES: [(&str, &str); 5] = [
    (
        "<query xmlns='urn:xmpp:mam:2'><set xmlns='http://jabber.org/protocol/rsm'><max>10</max><after>09af3-cc343-b409f</after></set></query>",
        "<query xmlns='urn:xmpp:mam:2'><x xmlns='jabber:x:data' type='submit'><field type='hidden' var='FORM_TYPE'><value>urn:xmpp:mam:2</value></field></x><set xmlns='http://jabber.org/protocol/rsm'><after>09af3-cc343-b409f</after><max>10</max></set></query>",
    ),
    (
        "<query xmlns='urn:xmpp:mam:2' queryid='f27'><set xmlns='http://jabber.org/protocol/rsm'><before>09af3-cc343-b409f</before></set></query>",
        "<query xmlns='urn:xmpp:mam:2' queryid='f27'><x xmlns='jabber:x:data' type='submit'><field type='hidden' var='FORM_TYPE'><value>urn:xmpp:mam:2</value></field></x><set xmlns='http://jabber.org/protocol/rsm'><before>09af3-cc343-b409f</before></set></query>",
    ),
    (
        "<query xmlns='urn:xmpp:mam:2'><set xmlns='http://jabber.org/protocol/rsm'><max>0</max><before/></set></query>",
        "<query xmlns='urn:xmpp:mam:2'><x xmlns='jabber:x:data' type='submit'><field type='hidden' var='FORM_TYPE'><value>urn:xmpp:mam:2</value></field></x><set xmlns='http://jabber.org/protocol/rsm'><before/><max>0</max></set></query>",
    ),
    (
        "<query xmlns='urn:xmpp:mam:2'><set xmlns='http://jabber.org/protocol/rsm'><after/></set></query>",
        "<query xmlns='urn:xmpp:mam:2'><x xmlns='jabber:x:data' type='submit'><field type='hidden' var='FORM_TYPE'><value>urn:xmpp:mam:2</value></field></x><set xmlns='http://jabber.org/protocol/rsm'><after/></set></query>",
    ),
    (
        "<query xmlns='urn:xmpp:mam:2'><set xmlns='http://jabber.org/protocol/rsm'/></query>",
        "<query xmlns='urn:xmpp:mam:2'><x xmlns='jabber:x:data' type='submit'><field type='hidden' var='FORM_TYPE'><value>urn:xmpp:mam:2</value></field></x><set xmlns='http://jabber.org/protocol/rsm'/></query>",
    ),
];

fn query_again(rt: &impl Abort, alloc: Global, text: &str) -> Tree {
    query(rt, alloc, &tree_of(rt, alloc, text))
}

#[test]
fn queries_are_read_and_written(rt: HostRuntime) {
    let alloc = rt.alloc();
    for (given, written) in &QUERIES {
        spells(&rt, alloc, query_again(&rt, alloc, given), written);
        spells(&rt, alloc, query_again(&rt, alloc, written), written);
    }
}
