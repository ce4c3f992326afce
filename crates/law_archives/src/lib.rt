//! Laws of archives: which entries a page has that answers a query (XEP-0313, section 4; XEP-0059, section 2).
#![tactic(auto)]

mod pages;

pub use pages::pages_have_what_was_asked_for;
