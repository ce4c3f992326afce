//! A client's login (RFC 6120, section 6; RFC 5802). The messages are from another program, for the password `pw-alice`, a
//! salt of 16 bytes, 4,096 iterations, and nonces of zero bytes and of a one and zero bytes.
use auth_scram::Password;
use base_io::{Bytes, Text};
use cl_login::{Answer, ClientAccount, LoginState, Next};
use im_login::{Challenge, Features, SaslFailure, Success};
use std::alloc::Global;
use std::process::Abort;
use xml_trees::{Element, Tree};

// What a server sends.
#[derive(Clone, Copy)]
enum Sent {
    Header,
    Features(Features),
    Challenge(&'static str),
    Success(&'static str),
    Failure(&'static str),
    Presence,
}

// How a login stands.
#[derive(Clone, Copy)]
enum Outcome {
    Waits,
    LoggedIn,
    Ends(&'static str),
}

// What a server sent, what goes out behind the last of it, and how the login stands.
type Row = (&'static [Sent], &'static str, Outcome);

const HEADER: &str =
    "<?xml version='1.0'?><stream:stream to='chat.example' version='1.0' xmlns='jabber:client' xmlns:stream='http://etherx.jabber.org/streams'>";

const AUTH: &str =
    "<auth xmlns='urn:ietf:params:xml:ns:xmpp-sasl' mechanism='SCRAM-SHA-256'>biwsbj1hbGljZSxyPUFBQUFBQUFBQUFBQUFBQUFBQUFBQUFBQQ==</auth>";

const RESPONSE: &str =
    "<response xmlns='urn:ietf:params:xml:ns:xmpp-sasl'>Yz1iaXdzLHI9QUFBQUFBQUFBQUFBQUFBQUFBQUFBQUFBQVFBQUFBQUFBQUFBQUFBQUFBQUFBQUFBLHA9SVVQckk4eFFSRDF6c3ByV0hzcDhaVTB0bHZJZjFlanc2VHdIbHZmUXJOaz0=</response>";

const FEATURES: Sent = Sent::Features(Features::BEFORE_SASL);

const CHALLENGE: Sent = Sent::Challenge(
    "r=AAAAAAAAAAAAAAAAAAAAAAAAAQAAAAAAAAAAAAAAAAAAAAAA,s=thT/yuCWFyJHUaNWPs2g/A==,i=4096",
);

const SUCCESS: Sent = Sent::Success("v=xdL1YTCeXJSeiNf6hHu8qmAfboNQByhOyJQF/cJ5pls=");

const UNEXPECTED: Outcome = Outcome::Ends("another item is awaited");

const REFUSED: Outcome = Outcome::Ends("the exchange of SCRAM-SHA-256 failed");

const UNKNOWN: Outcome = Outcome::Ends("the server's verifier is wrong");

static LOGINS: [Row; 21] = [
    (&[], HEADER, Outcome::Waits),
    (&[Sent::Header], "", Outcome::Waits),
    (&[Sent::Header, FEATURES], AUTH, Outcome::Waits),
    (
        &[Sent::Header, FEATURES, CHALLENGE],
        RESPONSE,
        Outcome::Waits,
    ),
    (
        &[Sent::Header, FEATURES, CHALLENGE, SUCCESS],
        HEADER,
        Outcome::Waits,
    ),
    (
        &[Sent::Header, FEATURES, CHALLENGE, SUCCESS, Sent::Header],
        "",
        Outcome::LoggedIn,
    ),
    (&[FEATURES], "", UNEXPECTED),
    (&[Sent::Presence], "", UNEXPECTED),
    (&[Sent::Header, Sent::Header], "", UNEXPECTED),
    (&[Sent::Header, SUCCESS], "", UNEXPECTED),
    (
        &[Sent::Header, Sent::Features(Features::AFTER_SASL)],
        "",
        Outcome::Ends("SCRAM-SHA-256 is not offered"),
    ),
    (
        &[
            Sent::Header,
            FEATURES,
            Sent::Failure("temporary-auth-failure"),
        ],
        "",
        Outcome::Ends("the login is refused: temporary-auth-failure"),
    ),
    (&[Sent::Header, FEATURES, FEATURES], "", UNEXPECTED),
    (&[Sent::Header, FEATURES, SUCCESS], "", UNEXPECTED),
    (
        &[
            Sent::Header,
            FEATURES,
            Sent::Challenge(
                "r=AAAAAAAAAAAAAAAAAAAAAAABAQAAAAAAAAAAAAAAAAAAAAAA,s=thT/yuCWFyJHUaNWPs2g/A==,i=4096",
            ),
        ],
        "",
        REFUSED,
    ),
    // The server adds nothing to the client's nonce.
    (
        &[
            Sent::Header,
            FEATURES,
            Sent::Challenge("r=AAAAAAAAAAAAAAAAAAAAAAAA,s=thT/yuCWFyJHUaNWPs2g/A==,i=4096"),
        ],
        "",
        REFUSED,
    ),
    (
        &[
            Sent::Header,
            FEATURES,
            Sent::Challenge(
                "r=AAAAAAAAAAAAAAAAAAAAAAAAAQAAAAAAAAAAAAAAAAAAAAAA,s=thT/yuCWFyJHUaNWPs2g/A==,i=4095",
            ),
        ],
        "",
        REFUSED,
    ),
    (
        &[
            Sent::Header,
            FEATURES,
            CHALLENGE,
            Sent::Success("v=xdL1YTCeXJSeiNf6hHu8qmAfboNQByhOyJQF/cJ5plw="),
        ],
        "",
        UNKNOWN,
    ),
    (
        &[
            Sent::Header,
            FEATURES,
            CHALLENGE,
            Sent::Success("e=other-error"),
        ],
        "",
        UNKNOWN,
    ),
    (
        &[Sent::Header, FEATURES, CHALLENGE, Sent::Success("")],
        "",
        REFUSED,
    ),
    (
        &[
            Sent::Header,
            FEATURES,
            CHALLENGE,
            SUCCESS,
            Sent::Failure("not-authorized"),
        ],
        "",
        Outcome::Ends("the login is refused: not-authorized"),
    ),
];

fn payload(rt: &impl Abort, alloc: Global, message: &str) -> Bytes {
    Bytes::from_slice(alloc, message.as_bytes()).expect(rt, "memory")
}

fn text(rt: &impl Abort, alloc: Global, text: &str) -> Text {
    Text::from_str(alloc, text).expect(rt, "memory")
}

fn presence(rt: &impl Abort, alloc: Global) -> Tree {
    let element = Element::from_strs(alloc, "jabber:client", "presence").expect(rt, "memory");
    Tree::of(alloc, element).expect(rt, "memory")
}

fn challenge(rt: &impl Abort, alloc: Global, message: &str) -> Tree {
    let payload = payload(rt, alloc, message);
    Challenge { payload }.tree(alloc).expect(rt, "memory")
}

fn success(rt: &impl Abort, alloc: Global, message: &str) -> Tree {
    let payload = payload(rt, alloc, message);
    Success { payload }.tree(alloc).expect(rt, "memory")
}

fn failure(rt: &impl Abort, alloc: Global, condition: &str) -> Tree {
    let condition = text(rt, alloc, condition);
    SaslFailure { condition }.tree(alloc).expect(rt, "memory")
}

fn tree_of(rt: &impl Abort, alloc: Global, sent: &Sent) -> Tree {
    match sent {
        Sent::Features(features) => features.tree(alloc).expect(rt, "memory"),
        Sent::Challenge(message) => challenge(rt, alloc, message),
        Sent::Success(message) => success(rt, alloc, message),
        Sent::Failure(condition) => failure(rt, alloc, condition),
        Sent::Header | Sent::Presence => presence(rt, alloc),
    }
}

fn account(rt: &impl Abort, alloc: Global) -> ClientAccount {
    ClientAccount {
        name: text(rt, alloc, "alice"),
        domain: text(rt, alloc, "chat.example"),
        password: Password::from_str(alloc, "pw-alice").expect(rt, "memory"),
    }
}

// What comes of an element in a state.
fn answer_to(
    rt: &impl Abort,
    alloc: Global,
    account: &mut ClientAccount,
    state: LoginState,
    tree: Tree,
) -> Answer {
    match state.element(alloc, account, &tree) {
        Ok(answer) => answer,
        Err(_) => panic!(rt; "memory"),
    }
}

// What comes of the next item. Behind an end nothing comes.
fn answer_after(
    rt: &impl Abort,
    alloc: Global,
    account: &mut ClientAccount,
    next: Next,
    sent: &Sent,
) -> Answer {
    match (next, sent) {
        (Next::Goes(state), Sent::Header) => state.header(alloc),
        (Next::Goes(state), _) => { answer_to(rt, alloc, account, state, tree_of(rt, alloc, sent)) }
        (next, _) => Answer {
            bytes: Bytes::new(alloc),
            next,
        },
    }
}

fn begun(rt: &impl Abort, alloc: Global, account: &ClientAccount) -> Answer {
    LoginState::begin(alloc, account.domain.as_str(), &[0; 24]).expect(rt, "memory")
}

// What comes of the last of these items.
fn last_answer(
    rt: &impl Abort,
    alloc: Global,
    account: &mut ClientAccount,
    first: Answer,
    sent: &[Sent],
) -> Answer {
    let mut answer = first;
    for item in sent {
        answer = answer_after(rt, alloc, account, answer.next, item);
    }
    answer
}

fn answered(rt: &impl Abort, alloc: Global, sent: &[Sent]) -> Answer {
    let mut account = account(rt, alloc);
    let first = begun(rt, alloc, &account);
    last_answer(rt, alloc, &mut account, first, sent)
}

fn stands(alloc: Global, next: &Next, outcome: &Outcome) -> bool {
    match (next, outcome) {
        (Next::Goes(_), Outcome::Waits) => true,
        (Next::LoggedIn, Outcome::LoggedIn) => true,
        (Next::Ends(fault), Outcome::Ends(text)) => match format!(in alloc; "{fault}") {
            Ok(shown) => shown.as_str() == *text,
            Err(_) => false,
        },
        _ => false,
    }
}

// An answer is dropped by a call: where its scope drops it, each of its fields is a way of its own in the proof.

fn is_row(alloc: Global, answer: &Answer, row: &Row) -> bool {
    answer.bytes.as_slice() == row.1.as_bytes() && stands(alloc, &answer.next, &row.2)
}

fn is_answered(alloc: Global, answer: Answer, row: &Row) -> bool {
    let is_answered = is_row(alloc, &answer, row);
    drop(answer);
    is_answered
}

#[test]
fn logins_are_answered(rt: HostRuntime) {
    let alloc = rt.alloc();
    for row in &LOGINS {
        assert!(rt; is_answered(alloc, answered(&rt, alloc, row.0), row));
    }
}

// What a server sends in a login behind its features, and what goes out in between.
struct Login {
    challenge: &'static str,
    response: &'static str,
    success: &'static str,
}

static AGAIN: [Login; 5] = [
    Login {
        challenge: "r=AAAAAAAAAAAAAAAAAAAAAAAAAQAAAAAAAAAAAAAAAAAAAAAA,s=thT/yuCWFyJHUaNWPs2g/A==,i=4096",
        response: RESPONSE,
        success: "v=xdL1YTCeXJSeiNf6hHu8qmAfboNQByhOyJQF/cJ5pls=",
    },
    // The same salt and count, and another nonce of the server.
    Login {
        challenge: "r=AAAAAAAAAAAAAAAAAAAAAAAABBBBBBBBBBBBBBBBBBBBBBBB,s=thT/yuCWFyJHUaNWPs2g/A==,i=4096",
        response: "<response xmlns='urn:ietf:params:xml:ns:xmpp-sasl'>Yz1iaXdzLHI9QUFBQUFBQUFBQUFBQUFBQUFBQUFBQUFBQkJCQkJCQkJCQkJCQkJCQkJCQkJCQkJCLHA9ZmFBVGxKQTFiVnZYTnlyU3RqcmtyNjNaSXhmNHhTR21oTnd1T0I4T3R3ND0=</response>",
        success: "v=Lm1BiasnFRPtgo0eGuxl35CChCxbj3rP/RiVYJIVbT0=",
    },
    // Another salt.
    Login {
        challenge: "r=AAAAAAAAAAAAAAAAAAAAAAAAAQAAAAAAAAAAAAAAAAAAAAAA,s=AAAAAAAAAAAAAAAAAAAAAA==,i=4096",
        response: "<response xmlns='urn:ietf:params:xml:ns:xmpp-sasl'>Yz1iaXdzLHI9QUFBQUFBQUFBQUFBQUFBQUFBQUFBQUFBQVFBQUFBQUFBQUFBQUFBQUFBQUFBQUFBLHA9MlE1NEdYMUt3RzhPeExxUGNxNnFjMGltMTExR29lR1pJdG9HRnhzbmhhWT0=</response>",
        success: "v=Sf7OY37MQKszRcWvXN43Jk3e4jXdjWdrl+T6beWtgs8=",
    },
    // Another count.
    Login {
        challenge: "r=AAAAAAAAAAAAAAAAAAAAAAAAAQAAAAAAAAAAAAAAAAAAAAAA,s=thT/yuCWFyJHUaNWPs2g/A==,i=4097",
        response: "<response xmlns='urn:ietf:params:xml:ns:xmpp-sasl'>Yz1iaXdzLHI9QUFBQUFBQUFBQUFBQUFBQUFBQUFBQUFBQVFBQUFBQUFBQUFBQUFBQUFBQUFBQUFBLHA9eEJRMmFPV0VWMXVZS0RRRDN5NkxqTXNkMFZaTG9uOXNnbXdwMlMyS0JSVT0=</response>",
        success: "v=97RBerB8bW1NM8b+5v4acfJs9GnsZu6rgqjm7du/sTk=",
    },
    // The first again.
    Login {
        challenge: "r=AAAAAAAAAAAAAAAAAAAAAAAAAQAAAAAAAAAAAAAAAAAAAAAA,s=thT/yuCWFyJHUaNWPs2g/A==,i=4096",
        response: RESPONSE,
        success: "v=xdL1YTCeXJSeiNf6hHu8qmAfboNQByhOyJQF/cJ5pls=",
    },
];

// What comes of an answer and then this. The answer's bytes are these.
fn goes_on(
    rt: &impl Abort,
    alloc: Global,
    account: &mut ClientAccount,
    answer: Answer,
    (bytes, sent): (&str, Sent),
) -> Answer {
    assert!(rt; answer.bytes.as_slice() == bytes.as_bytes());
    answer_after(rt, alloc, account, answer.next, &sent)
}

// A login of an account.
fn logged_in(rt: &impl Abort, alloc: Global, account: &mut ClientAccount, login: &Login) -> Answer {
    let sent = [Sent::Header, FEATURES, Sent::Challenge(login.challenge)];
    let first = begun(rt, alloc, account);
    let replied = last_answer(rt, alloc, account, first, &sent);
    goes_on(
        rt,
        alloc,
        account,
        replied,
        (login.response, Sent::Success(login.success)),
    )
}

fn is_header(answer: Answer) -> bool {
    let is_header = answer.bytes.as_slice() == HEADER.as_bytes();
    drop(answer);
    is_header
}

// Each of these logins goes through, of one account. Its password keeps what it was stretched to.
#[test]
fn one_account_logs_in_again(rt: HostRuntime) {
    let alloc = rt.alloc();
    let mut account = account(&rt, alloc);
    for row in &AGAIN {
        assert!(rt; is_header(logged_in(&rt, alloc, &mut account, row)));
    }
}
