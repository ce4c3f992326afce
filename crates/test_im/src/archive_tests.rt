//! What the form of an archive's query asks for: what is written of a value is read back (XEP-0313, section 4.1).
use base_io::Text;
use im_mam::MamQuery;
use mam_pages::{PagePosition, PageQuery};
use std::alloc::Global;
use std::process::Abort;
use xml_trees::Tree;

// The peer, and the moments.
type Row = (&'static str, Option<u64>, Option<u64>);

static QUERIES: [Row; 2] = [
    ("juliet@capulet.lit", Some(1_276_041_600_000), None),
    ("capulet.lit", None, Some(1_278_547_199_000)),
];

fn filtered(rt: &impl Abort, alloc: Global, row: &Row) -> Tree {
    let query = PageQuery {
        peer: Some(Text::from_str(alloc, row.0).expect(rt, "memory")),
        start: row.1,
        end: row.2,
        position: PagePosition::First,
        max: None,
    };
    let queryid = Text::new(alloc);
    MamQuery { queryid, query }.tree(alloc).expect(rt, "memory")
}

fn is_text(text: &Option<Text>, given: &str) -> bool {
    match text {
        None => false,
        Some(text) => text.as_str() == given,
    }
}

fn has_filters(query: &PageQuery, row: &Row) -> bool {
    is_text(&query.peer, row.0) && query.start == row.1 && query.end == row.2
}

fn is_filtered(rt: &impl Abort, alloc: Global, tree: Tree, row: &Row) -> bool {
    let asked = MamQuery::read(alloc, &tree).expect(rt, "a query");
    let is_filtered = has_filters(&asked.query, row);
    drop(asked);
    is_filtered
}

#[test]
fn filters_are_read_back(rt: HostRuntime) {
    let alloc = rt.alloc();
    for row in &QUERIES {
        assert!(rt; is_filtered(&rt, alloc, filtered(&rt, alloc, row), row));
    }
}
