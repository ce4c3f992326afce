//! Messages of one session between two accounts, and what becomes of each.
ghost use Rattle.std.specs.Prelude.{◌≡◌, None, Some};
ghost use Rattle.sm_live.specs.Sessions.{session_at};

use auth_scram::Credentials;
use base_io::{Bytes, Text};
use im_jid::Jid;
use im_payload::CARBONS;
use im_stanza::{CLIENT, Message, MessageKind};
use sm_live::{Live, SessionInfo};
use srv_login::{Account, AccountList, Accounts};
use srv_route::{Archiving, Plan, plan};
use std::alloc::Global;
use std::process::Abort;
use xml_trees::{Element, Node, Nodes};

// A session: its account, its resource, whether it is available, its priority, and whether it wants copies.
type Given = (u32, &'static str, bool, i8, bool);

// The sessions 1 to 3 of alice, and 4 and 5 of bob.
static SESSIONS: [Given; 5] = [
    (0, "phone", true, 0, true),
    (0, "laptop", true, 5, true),
    (0, "tablet", true, -1, true),
    (1, "balcony", true, 0, false),
    (1, "hall", false, 0, true),
];

// What becomes of a message: the condition of the error that answers it, or in whose archives it goes, which sessions it is
// delivered to, and which get a copy of it as sent and as received.
enum Outcome {
    Error(&'static str),
    Goes(Archiving, &'static [u64], &'static [u64], &'static [u64]),
}

// What is in a message: something that is said, openly or in private, or that someone types.
#[derive(Clone, Copy)]
enum Inside {
    Said,
    Private,
    Typing,
}

// A message of session 1: its type, its address, what is in it, and what becomes of it.
type Row = (MessageKind, Option<&'static str>, Inside, Outcome);

static SAID: [(&str, &str); 1] = [(CLIENT, "body")];

static PRIVATE: [(&str, &str); 2] = [(CLIENT, "body"), (CARBONS, "private")];

static TYPING: [(&str, &str); 1] = [("http://jabber.org/protocol/chatstates", "composing")];

static ROWS: [Row; 17] = [
    (
        MessageKind::Chat,
        None,
        Inside::Said,
        Outcome::Goes(Archiving::Once(0), &[1, 2], &[3], &[]),
    ),
    (
        MessageKind::Chat,
        Some("alice@chat.example/laptop"),
        Inside::Said,
        Outcome::Goes(Archiving::Once(0), &[2], &[3], &[]),
    ),
    (
        MessageKind::Chat,
        Some("bob@chat.example"),
        Inside::Said,
        Outcome::Goes(Archiving::Both(0, 1), &[4], &[2, 3], &[5]),
    ),
    (
        MessageKind::Chat,
        Some("bob@chat.example"),
        Inside::Private,
        Outcome::Goes(Archiving::Both(0, 1), &[4], &[], &[]),
    ),
    (
        MessageKind::Chat,
        Some("bob@chat.example"),
        Inside::Typing,
        Outcome::Goes(Archiving::Nowhere, &[4], &[], &[]),
    ),
    (
        MessageKind::Chat,
        Some("bob@chat.example/hall"),
        Inside::Said,
        Outcome::Goes(Archiving::Both(0, 1), &[5], &[2, 3], &[]),
    ),
    (
        MessageKind::Chat,
        Some("bob@chat.example/garden"),
        Inside::Said,
        Outcome::Goes(Archiving::Both(0, 1), &[4], &[2, 3], &[5]),
    ),
    (
        MessageKind::Normal,
        Some("bob@chat.example/garden"),
        Inside::Said,
        Outcome::Goes(Archiving::Both(0, 1), &[], &[2, 3], &[5]),
    ),
    (
        MessageKind::Headline,
        Some("bob@chat.example/garden"),
        Inside::Said,
        Outcome::Goes(Archiving::Nowhere, &[], &[], &[]),
    ),
    (
        MessageKind::Headline,
        Some("bob@chat.example"),
        Inside::Said,
        Outcome::Goes(Archiving::Nowhere, &[4], &[], &[]),
    ),
    (
        MessageKind::Groupchat,
        Some("bob@chat.example/hall"),
        Inside::Said,
        Outcome::Goes(Archiving::Nowhere, &[5], &[], &[]),
    ),
    (
        MessageKind::Groupchat,
        Some("bob@chat.example"),
        Inside::Said,
        Outcome::Error("service-unavailable"),
    ),
    (
        MessageKind::Chat,
        Some("carol@chat.example"),
        Inside::Said,
        Outcome::Error("service-unavailable"),
    ),
    (
        MessageKind::Chat,
        Some("chat.example"),
        Inside::Said,
        Outcome::Error("service-unavailable"),
    ),
    (
        MessageKind::Chat,
        Some("bob@other.example/hall"),
        Inside::Said,
        Outcome::Error("remote-server-not-found"),
    ),
    (
        MessageKind::Error,
        Some("bob@other.example"),
        Inside::Said,
        Outcome::Goes(Archiving::Nowhere, &[], &[], &[]),
    ),
    (
        MessageKind::Error,
        Some("bob@chat.example"),
        Inside::Said,
        Outcome::Goes(Archiving::Nowhere, &[], &[], &[]),
    ),
];

// Reserves a reservation of an account, for a connection that has no session.
fn reservation(rt: &impl Abort, live: &mut Live, account: u32, conn: u64)
    ensures reservation { live.new.reservation ≡ Some account }
    ensures conn { session_at conn live.new.sessions ≡ None }
{
    live.reserve_session(account).expect(rt, "a seat");
    assert!(rt; live.info_at(conn).is_none())
}

fn present(live: &mut Live, number: u64, available: bool, priority: i8) {
    if live.told(number).is_some() {
        live.set_presence(number, available, priority);
    }
}

fn want_copies(live: &mut Live, number: u64, carbons: bool) {
    if live.told(number).is_some() {
        live.set_carbons(number, carbons);
    }
}

fn bind(rt: &impl Abort, alloc: Global, live: &mut Live, given: &Given, conn: u64) {
    reservation(rt, live, given.0, conn);
    let resource = Text::from_str(alloc, given.1).expect(rt, "memory");
    let number = live.bind(given.0, resource, conn).number;
    present(live, number, given.2, given.3);
    want_copies(live, number, given.4)
}

fn bind_all(rt: &impl Abort, alloc: Global, live: &mut Live) {
    let mut conn: u64 = 0;
    for given in &SESSIONS {
        conn = conn.saturating_add(1);
        bind(rt, alloc, live, given, conn);
    }
}

fn account(rt: &impl Abort, alloc: Global, name: &str) -> Account {
    Account {
        name: Text::from_str(alloc, name).expect(rt, "memory"),
        credentials: Credentials {
            salt: Bytes::new(alloc),
            iterations: 4096,
            stored_key: [0; 32],
            server_key: [0; 32],
        },
    }
}

fn accounts(rt: &impl Abort, alloc: Global) -> Accounts {
    let mut list = AccountList::new(alloc);
    list.push(account(rt, alloc, "alice")).expect(rt, "memory");
    list.push(account(rt, alloc, "bob")).expect(rt, "memory");
    Accounts::new(alloc, list).expect(rt, "accounts")
}

fn names(inside: Inside) -> &'static [(&'static str, &'static str)] {
    match inside {
        Inside::Said => &SAID,
        Inside::Private => &PRIVATE,
        Inside::Typing => &TYPING,
    }
}

fn payload(rt: &impl Abort, alloc: Global, inside: Inside) -> Nodes {
    let mut nodes = Nodes::new(alloc);
    for (ns, name) in names(inside) {
        let element = Element::from_strs(alloc, ns, name).expect(rt, "memory");
        nodes.push(Node::Child(element)).expect(rt, "memory");
    }
    nodes
}

fn address(rt: &impl Abort, alloc: Global, to: Option<&str>) -> Option<Jid> {
    match to {
        Some(text) => Some(Jid::parse(alloc, text).expect(rt, "an address")),
        None => None,
    }
}

fn message(rt: &impl Abort, alloc: Global, row: &Row) -> Message {
    Message {
        from: None,
        to: address(rt, alloc, row.1),
        id: Text::new(alloc),
        kind: row.0,
        lang: Text::new(alloc),
        payload: payload(rt, alloc, row.2),
    }
}

fn is(plan: &Plan, expected: &Outcome) -> bool {
    match (plan, expected) {
        (Plan::Bounced(error), Outcome::Error(name)) => error.condition.name() == *name,
        (Plan::Routed(route), Outcome::Goes(archiving, deliver, sent, received)) => {
            route.archiving == *archiving
                && route.deliver.as_slice() == *deliver
                && route.sent.as_slice() == *sent
                && route.received.as_slice() == *received
        }
        _ => false,
    }
}

fn plan_of(
    rt: &impl Abort,
    alloc: Global,
    live: &Live,
    accounts: &Accounts,
    message: Message,
) -> Plan {
    let sender = live.told(1).expect(rt, "a session");
    let plan = plan(alloc, "chat.example", accounts, live, &message, &sender);
    drop(message);
    plan.expect(rt, "memory")
}

fn are_rows(rt: &impl Abort, alloc: Global, live: &Live, accounts: &Accounts) {
    for row in &ROWS {
        let plan = plan_of(rt, alloc, live, accounts, message(rt, alloc, row));
        assert!(rt; is(&plan, &row.3));
    }
}

#[test]
fn messages_go_where_they_belong(rt: HostRuntime) {
    let alloc = rt.alloc();
    let mut live = Live::new(alloc, 1);
    bind_all(&rt, alloc, &mut live);
    are_rows(&rt, alloc, &live, &accounts(&rt, alloc));
}
