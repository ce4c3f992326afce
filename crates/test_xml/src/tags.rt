//! Tags as they are spelled, declarations and UTF-8.
use crate::made::shows;
use xml_tokens::{Declaration, PartialCharacter, read_declaration, read_tag};

/// Tags, and what is read of them.
static READ: [(&[u8], &str); 13] = [
    (
        b"<a>",
        r#"Ok(Start(StartTag { name: "a", attributes: [], empty: false }))"#,
    ),
    (b"</a >", r#"Ok(End("a"))"#),
    (
        b"<a b='1'  c = \"2\"/>",
        r#"Ok(Start(StartTag { name: "a", attributes: [RawAttribute { name: "b", value: "1" }, RawAttribute { name: "c", value: "2" }], empty: true }))"#,
    ),
    (
        b"<a b='1\n'\nc='2'\t/>",
        r#"Ok(Start(StartTag { name: "a", attributes: [RawAttribute { name: "b", value: "1 " }, RawAttribute { name: "c", value: "2" }], empty: true }))"#,
    ),
    (
        b"<a b='x\r\ny\tz\nw\rq'/>",
        r#"Ok(Start(StartTag { name: "a", attributes: [RawAttribute { name: "b", value: "x y z w q" }], empty: true }))"#,
    ),
    (
        b"<a b='\r\r\n\n&#10;'/>",
        r#"Ok(Start(StartTag { name: "a", attributes: [RawAttribute { name: "b", value: "   \n" }], empty: true }))"#,
    ),
    (
        b"<a b='&#xD;&#x9;&#10;'/>",
        r#"Ok(Start(StartTag { name: "a", attributes: [RawAttribute { name: "b", value: "\r\t\n" }], empty: true }))"#,
    ),
    (
        b"<a b='&lt;&amp;lt;&gt;&apos;&quot;>'/>",
        r#"Ok(Start(StartTag { name: "a", attributes: [RawAttribute { name: "b", value: "<&lt;>'\">" }], empty: true }))"#,
    ),
    (
        b"<a b='&#x1F600;'/>",
        r#"Ok(Start(StartTag { name: "a", attributes: [RawAttribute { name: "b", value: "😀" }], empty: true }))"#,
    ),
    (
        b"<\xC3\xA9 b='\xC3\xA9'/>",
        r#"Ok(Start(StartTag { name: "é", attributes: [RawAttribute { name: "b", value: "é" }], empty: true }))"#,
    ),
    (
        b"<p:a xmlns:p='u'>",
        r#"Ok(Start(StartTag { name: "p:a", attributes: [RawAttribute { name: "xmlns:p", value: "u" }], empty: false }))"#,
    ),
    (
        b"<a b='\xEF\xBF\xBD'/>",
        r#"Ok(Start(StartTag { name: "a", attributes: [RawAttribute { name: "b", value: "�" }], empty: true }))"#,
    ),
    (
        b"<a i='' h='' g='' f='' e='' d='' c='' b='' j=''/>",
        r#"Ok(Start(StartTag { name: "a", attributes: [RawAttribute { name: "i", value: "" }, RawAttribute { name: "h", value: "" }, RawAttribute { name: "g", value: "" }, RawAttribute { name: "f", value: "" }, RawAttribute { name: "e", value: "" }, RawAttribute { name: "d", value: "" }, RawAttribute { name: "c", value: "" }, RawAttribute { name: "b", value: "" }, RawAttribute { name: "j", value: "" }], empty: true }))"#,
    ),
];

#[test]
fn tags_are_read(rt: HostRuntime) {
    for (bytes, read) in &READ {
        shows(&rt, rt.alloc(), read_tag(rt.alloc(), bytes), read);
    }
}

/// Tags that are refused, and why.
static REFUSED: [(&[u8], &str); 26] = [
    (b"</a b='1'>", "Err(Refused(NotWellFormed))"),
    (b"</a b='&x;'>", "Err(Refused(NotWellFormed))"),
    (b"<a b='<'/>", "Err(Refused(NotWellFormed))"),
    (b"<a b='1'c='2'/>", "Err(Refused(NotWellFormed))"),
    (b"<a b='1' b='2'/>", "Err(Refused(NotWellFormed))"),
    (
        b"<a i='' h='' g='' f='' e='' d='' c='' b='' i=''/>",
        "Err(Refused(NotWellFormed))",
    ),
    (b"<a b=1/>", "Err(Refused(NotWellFormed))"),
    (b"<a b/>", "Err(Refused(NotWellFormed))"),
    (b"<a/ >", "Err(Refused(NotWellFormed))"),
    (b"< a/>", "Err(Refused(NotWellFormed))"),
    (b"<1a/>", "Err(Refused(NotWellFormed))"),
    (b"<p:1a/>", "Err(Refused(NotWellFormed))"),
    (b"<a -b='1'/>", "Err(Refused(NotWellFormed))"),
    (b"<a b='&#X41;'/>", "Err(Refused(NotWellFormed))"),
    (b"<a b='&#xFFFE;'/>", "Err(Refused(NotWellFormed))"),
    (b"<a b='&#0;'/>", "Err(Refused(NotWellFormed))"),
    (
        b"<a b='&#99999999999999999999;'/>",
        "Err(Refused(NotWellFormed))",
    ),
    (b"<a b='&;'/>", "Err(Refused(NotWellFormed))"),
    (b"<a b='& '/>", "Err(Refused(NotWellFormed))"),
    (b"<a b='\x01'/>", "Err(Refused(NotWellFormed))"),
    (b"<a b='\xEF\xBF\xBE'/>", "Err(Refused(NotWellFormed))"),
    (b"<a b='\xC0\x80'/>", "Err(Refused(NotWellFormed))"),
    (b"<a b='\xED\xA0\x80'/>", "Err(Refused(NotWellFormed))"),
    (b"<a &nbsp; b='1'/>", "Err(Refused(NotWellFormed))"),
    (b"<a b='&nbsp;'/>", "Err(Refused(Restricted))"),
    (b"<1a b='&; &nbsp;' b=1>", "Err(Refused(Restricted))"),
];

#[test]
fn tags_are_refused(rt: HostRuntime) {
    for (bytes, refused) in &REFUSED {
        shows(&rt, rt.alloc(), read_tag(rt.alloc(), bytes), refused);
    }
}

static DECLARATIONS: [(&[u8], Declaration); 8] = [
    (
        b"<?xml version=\"1.0\" encoding='utf-8' standalone='no' ?>",
        Declaration::Good,
    ),
    (
        b"<?xml version='1.0' encoding='latin1'?>",
        Declaration::Encoding,
    ),
    (
        b"<?xml version='1.1' encoding='' ='x'?>",
        Declaration::Encoding,
    ),
    (
        b"<?xml version='1.0' =x encoding='latin1'?>",
        Declaration::NotWellFormed,
    ),
    (b"<?xml encoding='UTF-8'?>", Declaration::NotWellFormed),
    (
        b"<?xml version='1.0'encoding='UTF-8'?>",
        Declaration::NotWellFormed,
    ),
    (
        b"<?xml version='1.0' standalone='YES'?>",
        Declaration::NotWellFormed,
    ),
    (b"<?xml version='1.1'?>", Declaration::NotWellFormed),
];

#[test]
fn declarations_are_read(rt: HostRuntime) {
    for (bytes, read) in &DECLARATIONS {
        assert!(rt; read_declaration(bytes) == *read);
    }
}

/// Whether bytes are whole characters, a byte at a time.
fn are_whole(bytes: &[u8]) -> bool {
    let mut held = PartialCharacter::new();
    for b in bytes {
        if held.take(*b).is_err() {
            return false;
        }
    }
    held.len() == 0
}

/// The bounds of Unicode's table 3-7.
static BOUNDS: [(&[u8], bool); 12] = [
    (b"a\xC3\xA9", true),
    (b"\xC1\xBF", false),
    (b"\xE0\x9F\xBF", false),
    (b"\xE0\xA0\x80", true),
    (b"\xED\x9F\xBF", true),
    (b"\xED\xA0\x80", false),
    (b"\xF0\x8F\xBF\xBF", false),
    (b"\xF0\x90\x80\x80", true),
    (b"\xF4\x8F\xBF\xBF", true),
    (b"\xF4\x90\x80\x80", false),
    (b"\xF5\x80\x80\x80", false),
    (b"a\xC3", false),
];

#[test]
fn characters_are_whole_within_their_bounds(rt: HostRuntime) {
    for (bytes, whole) in &BOUNDS {
        assert!(rt; are_whole(bytes) == *whole);
    }
}
