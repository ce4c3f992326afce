//! Addresses: vectors from outside, each call that takes memory, and printed texts.
use crate::made::prints;
use base_io::{Copied, Text};
use im_jid::JidFault::{BadDomain, BadLocal, BadResource, Empty, TooLong};
use im_jid::{
    Jid, JidFault, domain_in_normal_form, local_in_normal_form, resource_in_normal_form,
    spells_account,
};
use std::alloc::Global;
use std::process::Abort;

// Texts and their normal forms. The first rows are those of RFC 7622 section 3.5; the ASCII forms of domains are
// those of the Python package `idna`, and the forms NFC those of Python's `unicodedata`.
static ACCEPTED: [(&str, &str); 50] = [
    ("juliet@example.com", "juliet@example.com"),
    ("juliet@example.com/foo", "juliet@example.com/foo"),
    ("juliet@example.com/foo bar", "juliet@example.com/foo bar"),
    ("juliet@example.com/foo@bar", "juliet@example.com/foo@bar"),
    ("foo\\20bar@example.com", "foo\\20bar@example.com"),
    ("fussball@example.com", "fussball@example.com"),
    ("king@example.com/\u{265A}", "king@example.com/\u{265A}"),
    ("example.com", "example.com"),
    ("example.com/foobar", "example.com/foobar"),
    ("a.example.com/b@example.net", "a.example.com/b@example.net"),
    ("juliet@example.com/ foo", "juliet@example.com/ foo"),
    ("henry..@example.com", "henry..@example.com"),
    ("Alice@Chat.Example/Pad", "alice@chat.example/Pad"),
    ("b\u{FC}cher.example", "xn--bcher-kva.example"),
    ("a/b/c@d", "a/b/c@d"),
    ("a@b/c@d/e", "a@b/c@d/e"),
    ("!#$%()*+,-.;=?[\\]^_`{|}~@b", "!#$%()*+,-.;=?[\\]^_`{|}~@b"),
    ("ABCXYZ.az09@b", "abcxyz.az09@b"),
    ("a..b", "a..b"),
    (".a", ".a"),
    ("-a-.b--c", "-a-.b--c"),
    ("127.0.0.1", "127.0.0.1"),
    ("chat.example.", "chat.example"),
    ("a@chat.example./b", "a@chat.example/b"),
    ("a\u{3002}b", "a.b"),
    ("xn--bcher-kva.example", "xn--bcher-kva.example"),
    ("XN--BCHER-KVA.Example", "xn--bcher-kva.example"),
    ("B\u{DC}CHER.example", "xn--bcher-kva.example"),
    ("bu\u{308}cher.example", "xn--bcher-kva.example"),
    ("\u{FF23}\u{FF28}\u{FF21}\u{FF34}.example", "chat.example"),
    ("fa\u{DF}.de", "xn--fa-hia.de"),
    ("\u{2603}.net", "xn--n3h.net"),
    (
        "\u{4F8B}\u{3048}.\u{30C6}\u{30B9}\u{30C8}",
        "xn--r8jz45g.xn--zckzah",
    ),
    (
        "\u{392}\u{38C}\u{39B}\u{39F}\u{3A3}.com",
        "xn--nxasmq6b.com",
    ),
    (
        "\u{3B2}\u{3CC}\u{3BB}\u{3BF}\u{3C2}.com",
        "xn--nxasmm1c.com",
    ),
    ("ex\u{AD}ample.com", "example.com"),
    ("\u{FB00}.example", "ff.example"),
    ("\u{2173}.example", "iv.example"),
    ("a-b.c-d/e", "a-b.c-d/e"),
    ("a--b.example", "a--b.example"),
    ("b/e\u{301}", "b/\u{E9}"),
    ("b/\u{212B}", "b/\u{C5}"),
    ("b/\u{1100}\u{1161}\u{11A8}", "b/\u{AC01}"),
    ("b/q\u{307}\u{323}", "b/q\u{323}\u{307}"),
    ("b/\u{344}", "b/\u{308}\u{301}"),
    ("b/\u{FB01}", "b/\u{FB01}"),
    ("b/\u{FF26}", "b/\u{FF26}"),
    ("b/\u{2126}~", "b/\u{3A9}~"),
    ("b/\u{A0}", "b/\u{A0}"),
    ("b/Pad 7", "b/Pad 7"),
];

// Texts that are no address.
static REFUSED: [(&str, JidFault); 60] = [
    ("fu\u{DF}ball@example.com", BadLocal),
    ("\u{3C0}@example.com", BadLocal),
    ("\u{3A3}@example.com/foo", BadLocal),
    ("\u{3C3}@example.com/foo", BadLocal),
    ("\u{3C2}@example.com/foo", BadLocal),
    ("\"juliet\"@example.com", BadLocal),
    ("foo bar@example.com", BadLocal),
    ("@example.com/", Empty),
    ("henry\u{2163}@example.com", BadLocal),
    ("\u{265A}@example.com", BadLocal),
    ("juliet@", Empty),
    ("/foobar", Empty),
    ("juliet@example.com/", Empty),
    ("a b@chat.example", BadLocal),
    ("@chat.example", Empty),
    ("chat.example/", Empty),
    ("", Empty),
    ("@", Empty),
    ("/", Empty),
    ("@/", Empty),
    ("a@/b", Empty),
    ("a@b/", Empty),
    ("a@b@c", BadDomain),
    ("a@b@c/d", BadDomain),
    ("a\"b@c", BadLocal),
    ("a&b@c", BadLocal),
    ("a'b@c", BadLocal),
    ("a:b@c", BadLocal),
    ("a<b@c", BadLocal),
    ("a>b@c", BadLocal),
    ("a\x7fb@c", BadLocal),
    ("a\x1fb@c", BadLocal),
    ("\u{FF41}@c", BadLocal),
    (".", BadDomain),
    ("a..", BadDomain),
    ("a\u{3002}", BadDomain),
    ("a_b", BadDomain),
    ("[::1]", BadDomain),
    ("a:1", BadDomain),
    ("a\u{FF20}b", BadDomain),
    ("a\u{FF0F}b", BadDomain),
    ("a b", BadDomain),
    ("*.example", BadDomain),
    ("xn--", BadDomain),
    ("xn--a", BadDomain),
    ("b.xn--", BadDomain),
    ("\u{AD}", BadDomain),
    ("a\u{200D}b.example", BadDomain),
    ("a@\u{301}b", BadDomain),
    ("b/a\x00", BadResource),
    ("b/a\tb", BadResource),
    ("b/\x1f", BadResource),
    ("b/\x7f", BadResource),
    ("b/\u{80}", BadResource),
    ("b/a\u{85}", BadResource),
    ("b/\u{9F}e\u{301}", BadResource),
    ("a b@_/", BadLocal),
    ("@_/", Empty),
    ("a@_/", BadDomain),
    ("a@_/\x00", BadDomain),
];

// Whether this is an address whose text is `normal`.
fn is_normal(read: Result<Jid, JidFault>, normal: &str) -> bool {
    match read {
        Ok(jid) => jid.text() == normal,
        Err(_) => false,
    }
}

// Why a text is no address, if it is none.
fn fault_of(alloc: Global, text: &str) -> Option<JidFault> {
    Jid::parse(alloc, text).err()
}

#[test]
fn reads_addresses(rt: HostRuntime) {
    for (text, normal) in &ACCEPTED {
        assert!(rt; is_normal(Jid::parse(rt.alloc(), text), normal));
    }
}

#[test]
fn refuses_what_is_no_address(rt: HostRuntime) {
    for (text, fault) in &REFUSED {
        assert!(rt; fault_of(rt.alloc(), text) == Some(*fault));
    }
}

// A text of `before`, a part so many times, and `after`.
fn repeated(
    rt: &impl Abort,
    alloc: Global,
    before: &str,
    part: &str,
    times: usize,
    after: &str,
) -> String {
    let mut text = String::from_str(alloc, before).expect(rt, "memory");
    for _ in 0..times {
        text.push_str(part).expect(rt, "memory");
    }
    text.push_str(after).expect(rt, "memory");
    text
}

// Each side of the limit of 1,023 bytes, which is one of the normal form: a part, how often it stands, and what it
// is in normal form.
static LIMITS: [(&str, &str, usize, &str, &str); 12] = [
    ("", "a", 1023, "@b", "a"),
    ("", "A", 1023, "@b/c", "a"),
    ("", "a", 1023, "", "a"),
    ("", "A", 1023, "", "a"),
    ("a@", "a", 1023, "/b", "a"),
    ("a@", "\u{FC}.", 127, "example", "xn--tda."),
    ("b/", "a", 1023, "", "a"),
    ("b/", "e\u{301}", 511, "a", "\u{E9}"),
    ("b/", "\u{344}", 255, "abc", "\u{308}\u{301}"),
    ("", "ab.", 340, "abc", "ab."),
    ("", "a-", 511, "a@b", "a-"),
    ("a@b/", " ", 1023, "", " "),
];

static LONG: [(&str, &str, usize, &str, JidFault); 12] = [
    ("", "a", 1024, "@b", TooLong),
    ("", "A", 1024, "@_/", TooLong),
    ("", "a", 1024, "", TooLong),
    ("", "A", 1024, "", TooLong),
    ("a@", "\u{FC}.", 127, "examples", TooLong),
    ("a@", "\u{FC}.", 127, "examples/", TooLong),
    ("b/", "a", 1024, "", TooLong),
    ("b/", "e\u{301}", 512, "", TooLong),
    ("b/", "\u{344}", 256, "", TooLong),
    ("b/", "a", 5000, "", TooLong),
    ("", "a", 1024, " @b", BadLocal),
    ("b/", "a", 1024, "\n", BadResource),
];

// What is read of a text.
fn parsed(alloc: Global, text: String) -> Result<Jid, JidFault> {
    Jid::parse(alloc, text.as_str())
}

fn is_text(read: Result<Jid, JidFault>, text: String) -> bool {
    is_normal(read, text.as_str())
}

#[test]
fn reads_the_longest_parts(rt: HostRuntime) {
    let alloc = rt.alloc();
    for (before, part, times, after, normal) in &LIMITS {
        let given = repeated(&rt, alloc, before, part, *times, after);
        let form = repeated(&rt, alloc, before, normal, *times, after);
        assert!(rt; is_text(parsed(alloc, given), form));
    }
}

#[test]
fn refuses_longer_parts(rt: HostRuntime) {
    let alloc = rt.alloc();
    for (before, part, times, after, fault) in &LONG {
        let given = repeated(&rt, alloc, before, part, *times, after);
        assert!(rt; parsed(alloc, given).err() == Some(*fault));
    }
}

// Texts, and whether a client may take them for `bob@chat.example`. What Gajim takes for it was asked of its library.
static SPELLINGS: [(&str, bool); 26] = [
    ("bob@chat.example", true),
    ("BOB@Chat.Example.", true),
    ("bob@chat.example/", true),
    ("bob@chat.example/a/b@c", true),
    ("bob@chat\u{3002}example", true),
    ("bob@ch\u{AD}at.example", true),
    ("\u{FF42}\u{FF4F}\u{FF42}@chat.example", true),
    ("\u{1D4D1}\u{1D4F8}\u{1D4EB}@chat.example", true),
    ("\u{24B7}o\u{24B7}@\u{FF43}hat.example", true),
    ("bo\u{AD}b@chat.example", true),
    ("b\u{34F}o\u{1806}b@chat.example", true),
    ("\u{FEFF}b\u{200D}ob\u{FE0F}@chat.example/x", true),
    ("bob@chat.example..", false),
    ("bob@chat.example.x", false),
    ("bob@other.example", false),
    ("bob@", false),
    ("@chat.example", false),
    ("chat.example", false),
    ("chat.example/bob@chat.example", false),
    ("alice@chat.example", false),
    (" bob@chat.example", false),
    ("bob@chat.example ", false),
    ("b\u{F6}b@chat.example", false),
    ("b\u{43E}b@chat.example", false),
    ("bob@chat_example", false),
    ("", false),
];

fn spells(rt: &impl Abort, alloc: Global, account: &str, text: &str) -> bool {
    spells_account(alloc, account, text).expect(rt, "memory")
}

#[test]
fn tells_spellings_of_an_account(rt: HostRuntime) {
    let alloc = rt.alloc();
    for (text, spelled) in &SPELLINGS {
        assert!(rt; spells(&rt, alloc, "bob@chat.example", text) == *spelled);
        let is_domain = *text == "chat.example" || text.starts_with("chat.example/");
        assert!(rt; is_domain || !spells(&rt, alloc, "chat.example", text));
    }
}

// An address, a resource for its bare address, and how that is printed, also for a reader.
static PRINTED_ADDRESSES: [(&str, &str, &str); 2] = [
    (
        "Alice@Chat.Example/Pad",
        "e\u{301}/@",
        "alice@chat.example/\u{E9}/@ \"alice@chat.example/\u{E9}/@\"",
    ),
    (
        "chat.example.",
        "\"",
        "chat.example/\" \"chat.example/\\\"\"",
    ),
];

fn with_resource(rt: &impl Abort, alloc: Global, text: &str, resource: &str) -> Jid {
    let jid = Jid::parse(alloc, text).expect(rt, "an address");
    let bare = jid.to_bare(alloc).expect(rt, "memory");
    bare.with_resource(alloc, resource).expect(rt, "a resource")
}

// A copy of the address made of the text of another.
fn made_again(rt: &impl Abort, alloc: Global, jid: Jid) -> Jid {
    let text = Text::from_str(alloc, jid.text()).expect(rt, "memory");
    Jid::of_normal(text).copied(alloc).expect(rt, "memory")
}

fn printed(rt: &impl Abort, alloc: Global, jid: Jid) -> String {
    format!(in alloc; "{jid} {jid:?}").expect(rt, "memory")
}

#[test]
fn prints_addresses(rt: HostRuntime) {
    let alloc = rt.alloc();
    for (text, resource, shown) in &PRINTED_ADDRESSES {
        let jid = made_again(&rt, alloc, with_resource(&rt, alloc, text, resource));
        prints(&rt, alloc, printed(&rt, alloc, jid), shown);
    }
}

// A part in normal form, or nothing.
fn is_form(part: Result<Text, JidFault>, form: &str) -> bool {
    match part {
        Ok(part) => part.as_str() == form,
        Err(_) => false,
    }
}

#[test]
fn brings_parts_into_normal_form(rt: HostRuntime) {
    let alloc = rt.alloc();
    assert!(rt; is_form(local_in_normal_form(alloc, "Alice"), "alice"));
    assert!(rt;
        is_form(
            domain_in_normal_form(alloc, "B\u{DC}CHER.example."),
            "xn--bcher-kva.example"
        )
    );
    assert!(rt; is_form(resource_in_normal_form(alloc, "e\u{301}/@"), "\u{E9}/@"));
}

static PRINTED: [(JidFault, &str); 6] = [
    (Empty, "a part of the address is empty"),
    (
        BadLocal,
        "the local part has a character that it may not have",
    ),
    (BadDomain, "the domain is not a domain name"),
    (BadResource, "the resource has a control character"),
    (TooLong, "a part of the address is too long"),
    (JidFault::NoMemory, "out of memory"),
];

#[test]
fn prints_faults(rt: HostRuntime) {
    for (fault, text) in &PRINTED {
        prints(&rt, rt.alloc(), *fault, text);
    }
}
