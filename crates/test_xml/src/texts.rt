//! Texts and values as they are written, and printed texts.
use crate::made::{prints, shows};
use base_io::Bytes;
use std::alloc::Global;
use std::process::Abort;
use xml_names::{StartFault, StartWhy};
use xml_tokens::{TagFault, TagWhy, append_text, append_value, read_value};

const GIVEN: &str = "a&<>'\"\t\n\r\u{E9}z";

/// The text and the value that are written of the same, one after the other.
fn written(rt: &impl Abort, alloc: Global) -> Bytes {
    let mut out = Bytes::new(alloc);
    append_text(&mut out, GIVEN.as_bytes()).expect(rt, "memory");
    append_value(&mut out, GIVEN.as_bytes()).expect(rt, "memory");
    out
}

fn is_bytes(bytes: Bytes, text: &[u8], value: &[u8]) -> bool {
    match bytes.as_slice().strip_prefix(text) {
        Some(rest) => rest == value,
        None => false,
    }
}

#[test]
fn texts_are_written_and_read(rt: HostRuntime) {
    let text = b"a&amp;&lt;&gt;'\"\t\n&#xD;\xC3\xA9z";
    let value = b"a&amp;&lt;&gt;&apos;\"&#x9;&#xA;&#xD;\xC3\xA9z";
    assert!(rt; is_bytes(written(&rt, rt.alloc()), text, value));
    shows(
        &rt,
        rt.alloc(),
        read_value(rt.alloc(), value),
        "Ok(\"a&<>'\\\"\\t\\n\\r\u{E9}z\")",
    );
}

static TAG_FAULTS: [(TagFault, &str); 3] = [
    (TagFault::Refused(TagWhy::Restricted), "restricted XML"),
    (TagFault::Refused(TagWhy::NotWellFormed), "not well formed"),
    (TagFault::NoMemory, "out of memory"),
];

static START_FAULTS: [(StartFault, &str); 5] = [
    (StartFault::Refused(StartWhy::Restricted), "restricted XML"),
    (
        StartFault::Refused(StartWhy::NotWellFormed),
        "not well formed",
    ),
    (
        StartFault::Refused(StartWhy::TooManyAttributes),
        "too many attributes",
    ),
    (
        StartFault::Refused(StartWhy::LongNamespace),
        "a namespace name that is too long",
    ),
    (StartFault::NoMemory, "out of memory"),
];

#[test]
fn faults_are_printed(rt: HostRuntime) {
    for (fault, text) in &TAG_FAULTS {
        prints(&rt, rt.alloc(), *fault, text);
    }
    for (fault, text) in &START_FAULTS {
        prints(&rt, rt.alloc(), *fault, text);
    }
}
