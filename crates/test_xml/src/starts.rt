//! Start tags with their names expanded, and headers. The header is that of RFC 6120, section 4.8.
use crate::made::{header, shows, tag};
use base_io::Text;
use std::alloc::Global;
use std::process::Abort;
use xml_names::{ExpandedAttribute, Scopes, TagLimits, opens_stream, read_start};

/// Two attributes, and four bytes for a name.
const NARROW: TagLimits = TagLimits {
    attributes: 2,
    namespace_bytes: 4,
};

/// Adds to a scope the bindings of a tag in it.
fn enter(rt: &impl Abort, alloc: Global, scope: &mut Scopes, bytes: &[u8]) {
    let bindings = tag(rt, alloc, scope, bytes).bindings;
    scope.open(alloc, bindings).expect(rt, "memory")
}

/// The scope inside `<r xmlns='d' xmlns:p='u' xmlns:q='u'><s xmlns:p='v'>`.
fn inside(rt: &impl Abort, alloc: Global) -> Scopes {
    let mut scope = Scopes::new(alloc);
    enter(
        rt,
        alloc,
        &mut scope,
        b"<r xmlns='d' xmlns:p='u' xmlns:q='u'>",
    );
    enter(rt, alloc, &mut scope, b"<s xmlns:p='v'>");
    scope
}

/// The namespace of a tag's name, and its attributes.
fn expanded(
    rt: &impl Abort,
    alloc: Global,
    scope: &Scopes,
    bytes: &[u8],
) -> (Text, Vec<ExpandedAttribute>) {
    let tag = tag(rt, alloc, scope, bytes);
    (tag.ns, tag.attributes)
}

static ALONE: [(&[u8], &str); 9] = [
    (
        b"<a b='1'/>",
        r#"("", [ExpandedAttribute { ns: "", name: "b", value: "1" }])"#,
    ),
    (
        b"<p:a xmlns:p='n' p:b='1' b='2'>",
        r#"("n", [ExpandedAttribute { ns: "n", name: "b", value: "1" }, ExpandedAttribute { ns: "", name: "b", value: "2" }])"#,
    ),
    (
        b"<a xml:lang='en'/>",
        r#"("", [ExpandedAttribute { ns: "http://www.w3.org/XML/1998/namespace", name: "lang", value: "en" }])"#,
    ),
    (
        b"<xml:a/>",
        r#"("http://www.w3.org/XML/1998/namespace", [])"#,
    ),
    (
        b"<a xmlns:xml='http://www.w3.org/XML/1998/namespace' xml:b='1'/>",
        r#"("", [ExpandedAttribute { ns: "http://www.w3.org/XML/1998/namespace", name: "b", value: "1" }])"#,
    ),
    (b"<a xmlns=''/>", r#"("", [])"#),
    (
        b"<a xmlns='n' xmlns:p='n' p:b='1' b='2'/>",
        r#"("n", [ExpandedAttribute { ns: "n", name: "b", value: "1" }, ExpandedAttribute { ns: "", name: "b", value: "2" }])"#,
    ),
    (
        b"<a xmlns:p='n' p:c='1' q:c='2' xmlns:q='m' p:b='3' c='4' d='5'/>",
        r#"("", [ExpandedAttribute { ns: "n", name: "c", value: "1" }, ExpandedAttribute { ns: "m", name: "c", value: "2" }, ExpandedAttribute { ns: "n", name: "b", value: "3" }, ExpandedAttribute { ns: "", name: "c", value: "4" }, ExpandedAttribute { ns: "", name: "d", value: "5" }])"#,
    ),
    (
        b"<a xmlns:a='1' xmlns:b='2' xmlns:c='3' xmlns:d='4' xmlns:e='5' xmlns:f='6' xmlns:g='7' xmlns:h='8' xmlns:i='9' xmlns:j='10' xmlns:k='11' xmlns:l='12' xmlns:m='13' xmlns:n='14' xmlns:o='15' xmlns:p='16' xmlns:q='17' q:x='' a:x='' b:x='' c:x='' d:x='' e:x='' f:x='' g:x='' h:x=''/>",
        r#"("", [ExpandedAttribute { ns: "17", name: "x", value: "" }, ExpandedAttribute { ns: "1", name: "x", value: "" }, ExpandedAttribute { ns: "2", name: "x", value: "" }, ExpandedAttribute { ns: "3", name: "x", value: "" }, ExpandedAttribute { ns: "4", name: "x", value: "" }, ExpandedAttribute { ns: "5", name: "x", value: "" }, ExpandedAttribute { ns: "6", name: "x", value: "" }, ExpandedAttribute { ns: "7", name: "x", value: "" }, ExpandedAttribute { ns: "8", name: "x", value: "" }])"#,
    ),
];

static INSIDE: [(&[u8], &str); 4] = [
    (
        b"<a b='1'/>",
        r#"("d", [ExpandedAttribute { ns: "", name: "b", value: "1" }])"#,
    ),
    (
        b"<p:a q:b='1' p:b='2'/>",
        r#"("v", [ExpandedAttribute { ns: "u", name: "b", value: "1" }, ExpandedAttribute { ns: "v", name: "b", value: "2" }])"#,
    ),
    (
        b"<p:a xmlns:p='w' q:b='1' p:b='2'/>",
        r#"("w", [ExpandedAttribute { ns: "u", name: "b", value: "1" }, ExpandedAttribute { ns: "w", name: "b", value: "2" }])"#,
    ),
    (
        b"<a xmlns='' b='1'/>",
        r#"("", [ExpandedAttribute { ns: "", name: "b", value: "1" }])"#,
    ),
];

#[test]
fn names_are_expanded(rt: HostRuntime) {
    let alloc = rt.alloc();
    for (bytes, said) in &ALONE {
        shows(
            &rt,
            alloc,
            expanded(&rt, alloc, &Scopes::new(alloc), bytes),
            said,
        );
    }
    for (bytes, said) in &INSIDE {
        shows(
            &rt,
            alloc,
            expanded(&rt, alloc, &inside(&rt, alloc), bytes),
            said,
        );
    }
}

/// Tags that are just within the limits.
static TAKEN: [&[u8]; 3] = [
    b"<a b='' c=''/>",
    b"<a xmlns='abcd'/>",
    b"<a xmlns='&lt;'/>",
];

/// Tags that are refused, and why.
static REFUSED: [(&[u8], &str); 19] = [
    (b"<p:a/>", "Err(Refused(NotWellFormed))"),
    (b"<a p:b=''/>", "Err(Refused(NotWellFormed))"),
    (b"<a xmlns:xml='n'/>", "Err(Refused(NotWellFormed))"),
    (
        b"<a xmlns:p='http://www.w3.org/XML/1998/namespace'/>",
        "Err(Refused(NotWellFormed))",
    ),
    (
        b"<a xmlns='http://www.w3.org/XML/1998/namespace'/>",
        "Err(Refused(NotWellFormed))",
    ),
    (
        b"<a xmlns:p='http://www.w3.org/2000/xmlns/'/>",
        "Err(Refused(NotWellFormed))",
    ),
    (
        b"<a xmlns='http://www.w3.org/2000/xmlns/'/>",
        "Err(Refused(NotWellFormed))",
    ),
    (b"<a xmlns:xmlns='n'/>", "Err(Refused(NotWellFormed))"),
    (b"<a xmlns:p=''/>", "Err(Refused(NotWellFormed))"),
    (b"<xmlns:a/>", "Err(Refused(NotWellFormed))"),
    (
        b"<a xmlns:p='n' xmlns:q='n' p:b='1' q:b='2'/>",
        "Err(Refused(NotWellFormed))",
    ),
    (b"</a>", "Err(Refused(NotWellFormed))"),
    (b"<a b='' c='' d='' p:e=''/>", "Err(Refused(NotWellFormed))"),
    (b"<a b='&x;' p:b=''/>", "Err(Refused(Restricted))"),
    (b"<a b='' c='' d=''/>", "Err(Refused(TooManyAttributes))"),
    (
        b"<a xmlns='' b='' c=''/>",
        "Err(Refused(TooManyAttributes))",
    ),
    (
        b"<a xmlns='abcde' b='' c=''/>",
        "Err(Refused(TooManyAttributes))",
    ),
    (b"<a xmlns='abcde'/>", "Err(Refused(LongNamespace))"),
    (b"<a xmlns='a&lt;'/>", "Err(Refused(LongNamespace))"),
];

#[test]
fn start_tags_are_refused(rt: HostRuntime) {
    let alloc = rt.alloc();
    for bytes in &TAKEN {
        assert!(rt; read_start(alloc, NARROW, &Scopes::new(alloc), bytes).err() == None);
    }
    for (bytes, refused) in &REFUSED {
        shows(
            &rt,
            alloc,
            read_start(alloc, NARROW, &Scopes::new(alloc), bytes),
            refused,
        );
    }
}

/// Headers, and what they say.
static HEADERS: [(&[u8], &str); 2] = [
    (
        b"<stream:stream from='im.example.com' id='4' to='juliet@im.example.com' version='1.0' xml:lang='en' xmlns='jabber:client' xmlns:stream='http://etherx.jabber.org/streams'>",
        r#"Header { ns: "http://etherx.jabber.org/streams", name: "stream", content: "jabber:client", to: Some("juliet@im.example.com"), from: Some("im.example.com"), id: Some("4"), version: Some("1.0"), lang: Some("en") }"#,
    ),
    (
        b"<stream xmlns='http://etherx.jabber.org/streams' lang='en' x:to='a' xmlns:x='u'>",
        r#"Header { ns: "http://etherx.jabber.org/streams", name: "stream", content: "http://etherx.jabber.org/streams", to: None, from: None, id: None, version: None, lang: None }"#,
    ),
];

fn opens(rt: &impl Abort, alloc: Global, bytes: &[u8]) -> bool {
    opens_stream(&tag(rt, alloc, &Scopes::new(alloc), bytes))
}

#[test]
fn headers_are_read(rt: HostRuntime) {
    for (bytes, said) in &HEADERS {
        assert!(rt; opens(&rt, rt.alloc(), bytes));
        shows(&rt, rt.alloc(), header(&rt, rt.alloc(), bytes), said);
    }
}
