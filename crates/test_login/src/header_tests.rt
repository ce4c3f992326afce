//! Headers, and the stream errors that answer them (RFC 6120, sections 4.7 to 4.9).
use base_io::Text;
use srv_login::{HeaderAnswer, HeaderFault, judge_header};
use std::alloc::Global;
use std::process::Abort;
use xml_names::Header;

// A root: its namespace, its name and its content namespace.
type Root = (&'static str, &'static str, &'static str);

const CLIENT: Root = (
    "http://etherx.jabber.org/streams",
    "stream",
    "jabber:client",
);

const SERVER: Root = (
    "http://etherx.jabber.org/streams",
    "stream",
    "jabber:server",
);

const FEATURES: Root = (
    "http://etherx.jabber.org/streams",
    "features",
    "jabber:client",
);

const NO_STREAM: Root = ("jabber:client", "stream", "jabber:client");

const NAMESPACE: HeaderAnswer = HeaderAnswer::Refused(HeaderFault::InvalidNamespace);

const VERSION: HeaderAnswer = HeaderAnswer::Refused(HeaderFault::UnsupportedVersion);

const HOST: HeaderAnswer = HeaderAnswer::Refused(HeaderFault::HostUnknown);

// A root, a version, whom it addresses, and the answer at chat.example.
type Row = (
    &'static Root,
    Option<&'static str>,
    Option<&'static str>,
    HeaderAnswer,
);

static HEADERS: [Row; 24] = [
    (
        &CLIENT,
        Some("1.0"),
        Some("chat.example"),
        HeaderAnswer::Opens,
    ),
    (&CLIENT, Some("1.0"), None, HeaderAnswer::Opens),
    (
        &CLIENT,
        Some("1.1"),
        Some("Chat.Example."),
        HeaderAnswer::Opens,
    ),
    (&CLIENT, Some("01.0"), None, HeaderAnswer::Opens),
    (&CLIENT, Some("10.00"), None, HeaderAnswer::Opens),
    (
        &CLIENT,
        Some("100000000000000000000.0"),
        None,
        HeaderAnswer::Opens,
    ),
    (&SERVER, Some("1.0"), Some("chat.example"), NAMESPACE),
    (&FEATURES, Some("1.0"), Some("chat.example"), NAMESPACE),
    (&NO_STREAM, None, Some("other.example"), NAMESPACE),
    (&CLIENT, None, Some("chat.example"), VERSION),
    (&CLIENT, Some(""), Some("other.example"), VERSION),
    (&CLIENT, Some("1"), None, VERSION),
    (&CLIENT, Some("0.9"), None, VERSION),
    (&CLIENT, Some("00.1"), None, VERSION),
    (&CLIENT, Some("1."), None, VERSION),
    (&CLIENT, Some(".1"), None, VERSION),
    (&CLIENT, Some("1.0.0"), None, VERSION),
    (&CLIENT, Some("1,0"), None, VERSION),
    (&CLIENT, Some(" 1.0"), None, VERSION),
    (&CLIENT, Some("1.0"), Some("other.example"), HOST),
    (&CLIENT, Some("1.0"), Some(""), HOST),
    (&CLIENT, Some("1.0"), Some("alice@chat.example"), HOST),
    (&CLIENT, Some("1.0"), Some("chat.example/x"), HOST),
    (&CLIENT, Some("1.0"), Some("chat_.example"), HOST),
];

fn text(rt: &impl Abort, alloc: Global, text: &str) -> Text {
    Text::from_str(alloc, text).expect(rt, "memory")
}

fn text_of(rt: &impl Abort, alloc: Global, given: Option<&'static str>) -> Option<Text> {
    match given {
        Some(given) => Some(text(rt, alloc, given)),
        None => None,
    }
}

fn header_of(rt: &impl Abort, alloc: Global, row: &Row) -> Header {
    Header {
        ns: text(rt, alloc, row.0.0),
        name: text(rt, alloc, row.0.1),
        content: text(rt, alloc, row.0.2),
        to: text_of(rt, alloc, row.2),
        from: None,
        id: None,
        version: text_of(rt, alloc, row.1),
        lang: None,
    }
}

fn answer_to(rt: &impl Abort, alloc: Global, header: Header) -> HeaderAnswer {
    let answer = judge_header(alloc, "chat.example", &header);
    drop(header);
    answer.expect(rt, "memory")
}

#[test]
fn headers_are_judged(rt: HostRuntime) {
    let alloc = rt.alloc();
    for row in &HEADERS {
        assert!(rt; answer_to(&rt, alloc, header_of(&rt, alloc, row)) == row.3);
    }
}
