//! Streams behind a header, and the lines that are told of them.
use crate::made::{append, append_times};
use base_io::Bytes;
use std::alloc::Global;
use std::process::Abort;
use xml_check::{Checked, check};

static HEADER: &[u8] =
    b"<stream:stream to='chat.example' version='1.0' xmlns='jabber:client' xmlns:stream='http://etherx.jabber.org/streams'>";

fn told(rt: &impl Abort, alloc: Global, input: Bytes) -> Checked {
    check(alloc, input.as_slice()).expect(rt, "memory")
}

/// Whether a stream is told in this text, and sound or not.
fn is_told(told: Checked, text: Bytes, sound: bool) -> bool {
    told.text.as_slice() == text.as_slice() && told.sound == sound
}

/// The header, a part behind it so many times, and a last part. Before the times stands what ends the header's line.
fn following(rt: &impl Abort, alloc: Global, end: &str, part: (&str, usize), last: &str) -> Bytes {
    let mut bytes = Bytes::new(alloc);
    append(rt, &mut bytes, HEADER);
    append(rt, &mut bytes, end.as_bytes());
    append_times(rt, &mut bytes, part.0.as_bytes(), part.1);
    append(rt, &mut bytes, last.as_bytes());
    bytes
}

/// What stands behind the header, what is told behind the header's line, and whether nothing is wrong.
static STREAMS: [(&str, &str, bool); 9] = [
    ("", "end\n", true),
    ("</stream:stream>", "</stream:stream>\nend\n", true),
    (
        "<message><body>&#x41;<![CDATA[<b>]]>&amp;</body></message>",
        "<message><body>A&lt;b&gt;&amp;</body></message>\nend\n",
        true,
    ),
    (
        "<message><body>a<!-- x --></body></message>",
        "fault 133 Restricted\n",
        false,
    ),
    ("<a/><message><bo", "<a/>\ntruncated 121\n", false),
    ("<a/></b><c/>", "<a/>\nfault 121 NotWellFormed\n", false),
    ("<root xmlns='jabber:client'/>", "<root/>\nend\n", true),
    ("<xml:a/>", "<xml:a/>\nend\n", true),
    (
        "<root><xml:a>b<c xmlns='d'><xml:e/></c></xml:a></root>",
        "<root><xml:a>b<c xmlns='d'><xml:e/></c></xml:a></root>\nend\n",
        true,
    ),
];

#[test]
fn streams_are_told(rt: HostRuntime) {
    let alloc = rt.alloc();
    for (stream, lines, sound) in &STREAMS {
        let told = told(&rt, alloc, following(&rt, alloc, "", ("", 0), stream));
        assert!(rt; is_told(told, following(&rt, alloc, "\n", ("", 0), lines), *sound));
    }
}

/// What stands so often before a stream's end, and before the end of its lines.
type Repeated = (&'static str, &'static str, usize);

/// A message as it is written, many times; and the limits of bytes and of depth.
static REPEATED: [(Repeated, (&str, &str, bool)); 5] = [
    (
        (
            "<message id='1' to='bob@chat.example'><body>hello</body></message>",
            "<message id='1' to='bob@chat.example'><body>hello</body></message>\n",
            200,
        ),
        ("<a><!-", "fault 13320 Restricted\n", false),
    ),
    (("<a>", "", 32), ("", "truncated 117\n", false)),
    (("<a>", "", 33), ("", "fault 213 TooDeep\n", false)),
    ((" ", "", 65_600), ("<a/>", "<a/>\nend\n", true)),
    (
        ("<a/>", "<a/>\n", 600),
        ("</b>", "fault 2517 NotWellFormed\n", false),
    ),
];

#[test]
fn streams_are_told_over_many_pieces(rt: HostRuntime) {
    let alloc = rt.alloc();
    for ((part, lines, times), (stream, last, sound)) in &REPEATED {
        let told = told(
            &rt,
            alloc,
            following(&rt, alloc, "", (part, *times), stream),
        );
        assert!(rt;
            is_told(
                told,
                following(&rt, alloc, "\n", (lines, *times), last),
                *sound
            )
        );
    }
}

/// Headers of another content namespace, and what is told.
static STRANGE: [(&str, &str); 2] = [
    (
        "<?xml version='1.0'?><stream:stream xmlns='jabber:server' xmlns:stream='http://etherx.jabber.org/streams'><a/><!-- -->",
        "fault 21 InvalidNamespace\n",
    ),
    ("<a/>", "fault 0 InvalidNamespace\n"),
];

fn bytes(rt: &impl Abort, alloc: Global, text: &str) -> Bytes {
    Bytes::from_slice(alloc, text.as_bytes()).expect(rt, "memory")
}

#[test]
fn strange_headers_end_what_is_told(rt: HostRuntime) {
    let alloc = rt.alloc();
    for (input, text) in &STRANGE {
        let told = told(&rt, alloc, bytes(&rt, alloc, input));
        assert!(rt; is_told(told, bytes(&rt, alloc, text), false));
    }
}
