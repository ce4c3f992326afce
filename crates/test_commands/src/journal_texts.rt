//! The text of a run that was done again.
use base_io::{Bytes, ListOf, Text};
use cmd_journal::{NamedArchive, Output, Outputs, rerun_text};
use cmd_schedule::Version;
use mam_archive::{Archive, ArchivedMessage, Bodies, Body, Entry};
use std::alloc::Global;
use std::process::Abort;

const TEXT: &str =
    "xmpp-rerun 1\nout 7 3c2f613e\nshut 7\naccount alice 1 1\nentry 0000000000000001 5 bob@chat.example/pad alice@chat.example o 1 two lines \nend\n";

fn text(rt: &impl Abort, alloc: Global, text: &str) -> Text {
    Text::from_str(alloc, text).expect(rt, "memory")
}

fn bodies_with(rt: &impl Abort, alloc: Global, said: &str) -> Bodies {
    let mut bodies = ListOf::new(alloc);
    let body = Body {
        lang: Text::new(alloc),
        text: text(rt, alloc, said),
    };
    bodies.push(body).expect(rt, "memory");
    bodies
}

fn message(rt: &impl Abort, alloc: Global, origin: &str, bodies: Bodies) -> ArchivedMessage {
    ArchivedMessage {
        stamp: 5,
        from: text(rt, alloc, "bob@chat.example/pad"),
        to: text(rt, alloc, "alice@chat.example"),
        normal: false,
        id: Text::new(alloc),
        origin: text(rt, alloc, origin),
        bodies,
    }
}

fn append(rt: &impl Abort, alloc: Global, archive: &mut Archive) {
    archive.reserve().expect(rt, "room");
    let message = message(rt, alloc, "o\u{1}1", bodies_with(rt, alloc, "two\nlines\t"));
    archive.append_reserved(Entry::new(alloc, 0, message).expect(rt, "memory"));
}

fn outputs(rt: &impl Abort, alloc: Global) -> Outputs {
    let mut outputs = Outputs::new(alloc);
    let put = Output::Put {
        connection: 7,
        bytes: Bytes::from_slice(alloc, b"</a>").expect(rt, "memory"),
    };
    outputs.push(put).expect(rt, "memory");
    outputs
        .push(Output::Shut { connection: 7 })
        .expect(rt, "memory");
    outputs
}

fn text_of(rt: &impl Abort, alloc: Global, archive: &Archive) -> Bytes {
    let named = NamedArchive {
        name: "alice",
        archive,
    };
    let outputs = outputs(rt, alloc);
    rerun_text(alloc, Version::Two { keep: 2 }, &outputs, &[named]).expect(rt, "memory")
}

fn is_bytes(bytes: Bytes, expected: &str) -> bool {
    bytes.as_slice() == expected.as_bytes()
}

#[test]
fn a_run_is_written(rt: HostRuntime) {
    let alloc = rt.alloc();
    let mut archive = Archive::new(alloc, text(&rt, alloc, "alice@chat.example"), 2);
    append(&rt, alloc, &mut archive);
    assert!(rt; is_bytes(text_of(&rt, alloc, &archive), TEXT));
}
