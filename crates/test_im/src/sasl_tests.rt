//! The base64 of SASL's payloads (RFC 6120, section 6.4), and the texts of faults.
use crate::made::prints;
use base_io::{Bytes, Text};
use im_login::Response;
use im_payload::{ExtFault, Field, SASL};
use std::alloc::Global;
use std::process::Abort;
use xml_trees::Element;

// Texts, and the bytes that they carry (RFC 4648, section 10; RFC 6120, section 6.4.2).
static PAYLOADS: [(&str, &[u8]); 9] = [
    ("", b""),
    ("=", b""),
    ("AGp1bGlldAByMG0zMG15cjBtMzA=", b"\0juliet\0r0m30myr0m30"),
    ("Zg==", b"f"),
    ("Zm8=", b"fo"),
    ("Zm9v", b"foo"),
    ("Zm9vYg==", b"foob"),
    ("Zm9vYmE=", b"fooba"),
    ("Zm9vYmFy", b"foobar"),
];

fn response(rt: &impl Abort, alloc: Global, text: &str) -> Element {
    let mut element = Element::from_strs(alloc, SASL, "response").expect(rt, "memory");
    let text = Text::from_str(alloc, text).expect(rt, "memory");
    element.push_text(text).expect(rt, "memory");
    element
}

// The payload of a `response` that contains a text.
fn payload_of(rt: &impl Abort, alloc: Global, text: &str) -> Result<Bytes, ExtFault> {
    match Response::read_element(alloc, &response(rt, alloc, text)) {
        Ok(response) => Ok(response.payload),
        Err(fault) => Err(fault),
    }
}

fn is_payload(payload: Result<Bytes, ExtFault>, bytes: &[u8]) -> bool {
    match payload {
        Ok(payload) => payload.as_slice() == bytes,
        Err(_) => false,
    }
}

#[test]
fn payloads_are_read(rt: HostRuntime) {
    for (text, bytes) in &PAYLOADS {
        assert!(rt; is_payload(payload_of(&rt, rt.alloc(), text), bytes));
    }
}

// Texts that are no strict base64 (RFC 4648, section 3).
static NO_PAYLOADS: [&str; 8] = ["Zg", "Zg=", "Zh==", "==", "====", "Zg==\n", " ", "-_-_"];

#[test]
fn other_payloads_are_refused(rt: HostRuntime) {
    for text in &NO_PAYLOADS {
        let fault = payload_of(&rt, rt.alloc(), text).err();
        assert!(rt; fault == Some(ExtFault::Bad(Field::Payload)));
    }
}

static FAULTS: [(ExtFault, &str); 7] = [
    (ExtFault::NotThis, "another element"),
    (ExtFault::NoMemory, "out of memory"),
    (ExtFault::Bad(Field::H), "bad field: h"),
    (ExtFault::Bad(Field::FormType), "bad field: form type"),
    (
        ExtFault::Bad(Field::UnknownField),
        "bad field: unknown field",
    ),
    (ExtFault::Bad(Field::Condition), "bad field: condition"),
    (ExtFault::Bad(Field::Payload), "bad field: payload"),
];

#[test]
fn faults_have_texts(rt: HostRuntime) {
    for (fault, text) in &FAULTS {
        prints(&rt, rt.alloc(), *fault, text);
    }
}
