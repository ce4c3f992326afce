//! A framer over bytes: its fault, its unfinished part and its items.
ghost use Rattle.std.specs.Prelude.{◌≤◌};
ghost use Rattle.xml_framer.specs.declared.limits.TheConstants.{MOST_DEPTH};

use crate::made::{append, append_times, shows};
use base_io::{Bytes, NoMemory};
use std::alloc::Global;
use std::process::Abort;
use xml_framer::{Fault, FeedFault, Framer, Item, Items, Limits, Why};
use xml_writer::{write, write_footer, write_header};

/// What comes of bytes: the fault, the unfinished part, and how many items there are.
type Told = (Option<Fault>, Option<u64>, usize);

/// Feeds bytes in pieces of so many, and gives room back behind each. Of several faults the last is answered.
fn feed_all(
    rt: &impl Abort,
    framer: &mut Framer,
    items: &mut Items,
    bytes: &[u8],
    step: usize,
) -> Option<Fault> {
    let mut last = None;
    for piece in bytes.chunks(step.max(1)) {
        match framer.feed(piece, items) {
            Ok(()) => {}
            Err(FeedFault::Fault(fault)) => last = Some(fault),
            Err(FeedFault::NoMemory) => panic!(rt; "memory"),
        }
        framer.slim();
    }
    last
}

fn append_item(out: &mut Bytes, item: &Item) -> Result<(), NoMemory> {
    match item {
        Item::Header { at: _, header } => write_header(header, out),
        Item::Element(tree) => write(tree, out),
        Item::Footer => write_footer(out),
    }
}

fn append_items(rt: &impl Abort, items: &Items, out: &mut Bytes) {
    for item in items.as_slice() {
        append_item(out, item).expect(rt, "memory");
        append(rt, out, b"\n");
    }
}

/// What comes of bytes, the first of which are fed at once, and the others in pieces of so many. The items are written.
fn told(
    rt: &impl Abort,
    alloc: Global,
    limits: Limits,
    first: &[u8],
    others: (&[u8], usize),
    out: &mut Bytes,
) -> Told
    requires bytes { 1 ≤ limits.bytes }
    requires depth { limits.depth ≤ MOST_DEPTH }
{
    let mut framer = Framer::new(alloc, limits);
    let mut items = Items::new(alloc);
    feed_all(rt, &mut framer, &mut items, first, first.len());
    let fault = feed_all(rt, &mut framer, &mut items, others.0, others.1);
    append_items(rt, &items, out);
    (fault, framer.part(), items.as_slice().len())
}

/// What comes of a stream, the second part of which comes a byte at a time.
fn told_of(rt: &impl Abort, alloc: Global, limits: Limits, first: &[u8], others: &[u8]) -> Told
    requires bytes { 1 ≤ limits.bytes }
    requires depth { limits.depth ≤ MOST_DEPTH }
{
    told(
        rt,
        alloc,
        limits,
        first,
        (others, 1),
        &mut Bytes::new(alloc),
    )
}

/// A fault at a place behind a header of so many bytes.
fn following(header: &[u8], found: Option<(u64, Why)>) -> Option<Fault> {
    let (at, why) = found?;
    Some(Fault {
        at: at.saturating_add(header.len() as u64),
        why,
    })
}

static HEADER: &[u8] =
    b"<stream:stream to='chat.example' version='1.0' xmlns='jabber:client' xmlns:stream='http://etherx.jabber.org/streams'>";

/// What stands behind a header, and the fault.
type Row = (&'static [u8], Option<(u64, Why)>);

static FAULTS: [Row; 62] = [
    // restricted
    (b"<!-- x -->", Some((0, Why::Restricted))),
    (b"<a><!-- x -->", Some((3, Why::Restricted))),
    (b"<a>b<!D", Some((4, Why::Restricted))),
    (b"<a><![CDATb", Some((3, Why::Restricted))),
    (b"<a><?b", Some((3, Why::Restricted))),
    (b" <?x ", Some((1, Why::Restricted))),
    (b"<?xml?", Some((0, Why::Restricted))),
    (b"<?xml version='1.0'?><?", Some((21, Why::Restricted))),
    (b"<a>b&nbsp;", Some((4, Why::Restricted))),
    (b"<a b='&nbsp;'>", Some((0, Why::Restricted))),
    (b"<a b='&nbsp;' b='<'/>", Some((0, Why::Restricted))),
    // not UTF-8
    (b"<a>b\xff", Some((3, Why::Encoding))),
    (b"<a>b\xc3<", Some((3, Why::Encoding))),
    (b"<a>&amp;\xed\xa0", Some((8, Why::Encoding))),
    (b" \xc3 ", Some((0, Why::Encoding))),
    (b"<!\xff", Some((0, Why::Encoding))),
    (b"<a><![CDATA[\x80", Some((3, Why::Encoding))),
    (
        b"<?xml version='1.0' encoding='x'?>",
        Some((0, Why::Encoding)),
    ),
    (
        b"<?xml version='1.0' encoding=''?>",
        Some((0, Why::Encoding)),
    ),
    (
        b"<?xml version='1.0' a:b='1' encoding='x'?>",
        Some((0, Why::Encoding)),
    ),
    (
        b"<?xml version='1.0' \xc3\xa9='1' encoding='x'?>",
        Some((0, Why::Encoding)),
    ),
    // not well formed
    (b"<?xml version='1.1'?>", Some((0, Why::NotWellFormed))),
    (b"<?xml encoding='UTF-8'?>", Some((0, Why::NotWellFormed))),
    (b"<a>&b:c;", Some((3, Why::NotWellFormed))),
    (b"<a>x&;", Some((4, Why::NotWellFormed))),
    (b"<a>x&#X41;", Some((4, Why::NotWellFormed))),
    (b"<a>x&#0;", Some((4, Why::NotWellFormed))),
    (b"<a>x&#xFFFE;", Some((4, Why::NotWellFormed))),
    (b" &amp;", Some((1, Why::NotWellFormed))),
    (b"<a>x\x01", Some((3, Why::NotWellFormed))),
    (b"<a>x\xef\xbf\xbe", Some((3, Why::NotWellFormed))),
    (b"<a>x<![CDATA[y\x02", Some((4, Why::NotWellFormed))),
    (b"<a>x]]>", Some((3, Why::NotWellFormed))),
    (b"<a>&amp;x]]]>", Some((8, Why::NotWellFormed))),
    (b" x", Some((0, Why::NotWellFormed))),
    (b"\n \xc3\xa9", Some((0, Why::NotWellFormed))),
    (b" <![CDATA[", Some((1, Why::NotWellFormed))),
    (b"<>", Some((0, Why::NotWellFormed))),
    (b"<a b>", Some((0, Why::NotWellFormed))),
    (b"<a b='<'>", Some((0, Why::NotWellFormed))),
    (b"<a b='&b'>", Some((0, Why::NotWellFormed))),
    (b"<a b='1' b='2'>", Some((0, Why::NotWellFormed))),
    (
        b"<a xmlns:p='n' xmlns:q='n' p:b='' q:b=''>",
        Some((0, Why::NotWellFormed)),
    ),
    (b"<a></b>", Some((3, Why::NotWellFormed))),
    (b"<a></a b>", Some((3, Why::NotWellFormed))),
    (b"<p:a>", Some((0, Why::NotWellFormed))),
    (b"<a xmlns:p=''>", Some((0, Why::NotWellFormed))),
    (b"<a xmlns:xmlns='b'>", Some((0, Why::NotWellFormed))),
    (b"<a xmlns:xml='b'>", Some((0, Why::NotWellFormed))),
    (
        b"<a xmlns:b='http://www.w3.org/XML/1998/namespace'>",
        Some((0, Why::NotWellFormed)),
    ),
    (
        b"<a xmlns:b='n'><b:a/></a><b:a/>",
        Some((25, Why::NotWellFormed)),
    ),
    (b"<stream:stream>", Some((0, Why::NotWellFormed))),
    (b"<?xml version='1.0'?><a>", Some((21, Why::NotWellFormed))),
    (
        b"<?xml version='1.0'?></stream:stream>",
        Some((21, Why::NotWellFormed)),
    ),
    (b"</stream:strea >", Some((0, Why::NotWellFormed))),
    (b"</stream:streams>", Some((0, Why::NotWellFormed))),
    (b"</stream:stream x>", Some((0, Why::NotWellFormed))),
    (b"</stream:stream '>'>", Some((0, Why::NotWellFormed))),
    (b"</stream:stream> <a/>", Some((17, Why::NotWellFormed))),
    (
        b"</stream:stream></stream:stream>",
        Some((16, Why::NotWellFormed)),
    ),
    (b"</stream:stream><?", Some((16, Why::Restricted))),
    (b"</stream:stream>\tx", Some((16, Why::NotWellFormed))),
];

#[test]
fn each_fault_has_its_position(rt: HostRuntime) {
    for (bytes, found) in &FAULTS {
        let (fault, _, _) = told_of(&rt, rt.alloc(), Limits::server(), HEADER, bytes);
        assert!(rt; fault == following(HEADER, *found));
    }
}

/// A stream that uses every token, and its items.
const STREAM: &str =
    " <?xml version='1.0' encoding='utf-8' ?>\r\n<stream:stream from='a' xml:lang=\"en\" xmlns='jabber:client' xmlns:stream='http://etherx.jabber.org/streams'>\n<message b='1' a = '&lt;&#x41;\r\n' ><body xmlns='urn:b'>\u{e9}\r\n&amp;\r]&#93;><![CDATA[<b>]]\r\n]]]><\u{20ac}/></body >\u{1f600}<x:y xmlns:x='urn:x' x:z=''/></message> <?xml version=\"1.0\"?> <stream:stream xmlns:stream='http://etherx.jabber.org/streams'>\t<a/></stream:stream \n> ";

const WRITTEN: &str =
    "<stream:stream from='a' xml:lang='en' xmlns='jabber:client' xmlns:stream='http://etherx.jabber.org/streams'>\n<message a='&lt;A ' b='1'><body xmlns='urn:b'>\u{e9}\n&amp;\n]]&gt;&lt;b&gt;]]\n]<\u{20ac}/></body>\u{1f600}<y xmlns='urn:x' xmlns:a0='urn:x' a0:z=''/></message>\n<stream:stream xmlns='jabber:client' xmlns:stream='http://etherx.jabber.org/streams'>\n<a xmlns=''/>\n</stream:stream>\n";

/// Whether a stream that is cut in two has these items, and neither a fault nor anything unfinished.
fn is_read(rt: &impl Abort, alloc: Global, stream: &[u8], cut: usize, written: &[u8]) -> bool {
    let (first, others) = stream.split_at(cut.min(stream.len()));
    let mut out = Bytes::new(alloc);
    let (fault, part, items) = told(
        rt,
        alloc,
        Limits::client(),
        first,
        (others, others.len()),
        &mut out,
    );
    fault == None && part == None && items == 5 && out.as_slice() == written
}

#[test]
fn every_cut_gives_the_same(rt: HostRuntime) {
    let stream = STREAM.as_bytes();
    for cut in 0..stream.len() + 1 {
        assert!(rt; is_read(&rt, rt.alloc(), stream, cut, WRITTEN.as_bytes()));
    }
}

/// A part that stands so often between two others, and the fault.
type Repeated = (&'static str, usize, &'static str, Option<(u64, Why)>);

/// An element that counts 65,536 bytes is taken, and one of a byte more isn't; and so with 32 levels.
static LARGEST: [(&str, Repeated); 4] = [
    ("<message><body>", ("a", 65_504, "</body></message>", None)),
    (
        "<message><body>",
        ("a", 65_505, "</body></message>", Some((0, Why::TooLong))),
    ),
    ("", ("<a>", 32, "", None)),
    ("", ("<a>", 33, "", Some((96, Why::TooDeep)))),
];

fn repeated(rt: &impl Abort, alloc: Global, before: &str, inside: &Repeated) -> Bytes {
    let mut out = Bytes::new(alloc);
    append(rt, &mut out, before.as_bytes());
    append_times(rt, &mut out, inside.0.as_bytes(), inside.1);
    append(rt, &mut out, inside.2.as_bytes());
    out
}

fn fault_in(rt: &impl Abort, alloc: Global, bytes: Bytes) -> Option<Fault> {
    told_of(rt, alloc, Limits::server(), HEADER, bytes.as_slice()).0
}

#[test]
fn elements_are_as_large_as_the_limits(rt: HostRuntime) {
    let alloc = rt.alloc();
    for (before, inside) in &LARGEST {
        let fault = fault_in(&rt, alloc, repeated(&rt, alloc, before, inside));
        assert!(rt; fault == following(HEADER, inside.3));
    }
}

const SMALL: Limits = Limits {
    bytes: 40,
    depth: 1,
    attributes: 2,
    namespace_bytes: 5,
};

static SHORT_HEADER: &[u8] = b"<a:a xmlns:a='n'>";

/// What stands behind the header under small limits, and the fault.
static LIMITED: [Row; 18] = [
    (b"<a b='' c=''/>", None),
    (b"<a b='' c='' d=''/>", Some((0, Why::TooManyAttributes))),
    (
        b"<a b='' xmlns:c='d' e=''/>",
        Some((0, Why::TooManyAttributes)),
    ),
    (b"<a b='' c='' d='' d=''/>", Some((0, Why::NotWellFormed))),
    (b"<a xmlns='&amp;'/>", None),
    (b"<a xmlns='a&amp;'/>", Some((0, Why::LongNamespace))),
    (b"<a xmlns='abcde'/>", None),
    (b"<a xmlns='abcdef'/>", Some((0, Why::LongNamespace))),
    (
        b"<a xmlns='abcdef' b='' c=''/>",
        Some((0, Why::TooManyAttributes)),
    ),
    (b"<a><b xmlns='abcdef'/>", Some((3, Why::TooDeep))),
    (b"<a><b:b/>", Some((3, Why::NotWellFormed))),
    (b"<a>                                 </a>", None),
    (
        b"<a>                                  </a>",
        Some((0, Why::TooLong)),
    ),
    (b"<?xml version='1.0'                   ?>", None),
    (
        b"<?xml version='1.0'                    ?>",
        Some((0, Why::TooLong)),
    ),
    (
        b"<a>                                     \xff",
        Some((0, Why::TooLong)),
    ),
    (
        b"<a>                                    \xff",
        Some((3, Why::Encoding)),
    ),
    (
        b"</a:a                                                            >",
        None,
    ),
];

#[test]
fn each_limit_is_told_past_its_bound(rt: HostRuntime) {
    for (bytes, found) in &LIMITED {
        let (fault, _, _) = told_of(&rt, rt.alloc(), SMALL, SHORT_HEADER, bytes);
        assert!(rt; fault == following(SHORT_HEADER, *found));
    }
}

/// The unfinished part after some bytes.
static PARTS: [(&[u8], Option<u64>); 14] = [
    (b"", None),
    (b" ", None),
    (b" <", Some(1)),
    (b"<?xml", Some(0)),
    (b"<?xml version='1.0'?> ", None),
    (b" <a:a", Some(1)),
    (b"<a:a xmlns:a='n'>", None),
    (b"<a:a xmlns:a='n'> \xc3", Some(18)),
    (b"<a:a xmlns:a='n'><b", Some(17)),
    (b"<a:a xmlns:a='n'><b>c</b", Some(17)),
    (b"<a:a xmlns:a='n'><b/>\t<![C", Some(22)),
    (b"<a:a xmlns:a='n'></a:a", Some(17)),
    (b"<a:a xmlns:a='n'></a:a>", None),
    (b"<a:a xmlns:a='n'><b>&c", Some(17)),
];

#[test]
fn the_unfinished_part_is_told(rt: HostRuntime) {
    for (bytes, part) in &PARTS {
        let (_, told, _) = told_of(&rt, rt.alloc(), Limits::server(), bytes, &[]);
        assert!(rt; told == *part);
    }
}

/// A fault with an item before it, and elements after it.
const FAULTY: (&[u8], &[u8]) = (b"<a:a xmlns:a='n'><b/>x<b/>", b"<b/>");

// A fault is told again, and no item comes after it.
#[test]
fn a_fault_stays(rt: HostRuntime) {
    let alloc = rt.alloc();
    let told = told(
        &rt,
        alloc,
        Limits::server(),
        FAULTY.0,
        (FAULTY.1, 4),
        &mut Bytes::new(alloc),
    );
    shows(
        &rt,
        alloc,
        told,
        "(Some(Fault { at: 21, why: NotWellFormed }), None, 2)",
    );
}
