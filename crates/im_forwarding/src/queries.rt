//! What a query of an archive asks for, and how one that can't be answered is refused (XEP-0313, sections 4.1 and 4.3).
ghost use Rattle.std.specs.Prelude.{◌≡◌};
ghost use Rattle.im_forwarding.specs.Queries.{Asks, field_error, no_such_place, query_asked, query_error};
ghost use Rattle.xml_trees.specs.Views.{elem_view};

use crate::query_fault::QueryFault;
use im_mam::MamQuery;
use im_payload::{ExtFault, Field};
use im_stanza::{Condition, ErrorKind, StanzaError};
use std::alloc::Global;
use xml_trees::Element;

// The error at a wrong field.
fn field_error(field: Field) -> StanzaError
    ensures { result ≡ field_error field }
{
    match field {
        Field::UnknownField => StanzaError {
            kind: ErrorKind::Cancel,
            condition: Condition::FeatureNotImplemented,
        },
        _ => StanzaError {
            kind: ErrorKind::Modify,
            condition: Condition::BadRequest,
        },
    }
}

// The error by which a query is refused.
fn query_error(fault: ExtFault) -> StanzaError
    ensures { result ≡ query_error fault }
{
    match fault {
        ExtFault::Bad(field) => field_error(field),
        ExtFault::NotThis | ExtFault::NoMemory => StanzaError {
            kind: ErrorKind::Cancel,
            condition: Condition::ServiceUnavailable,
        },
    }
}

/// What an element asks an archive for: whose messages, from when to when, where the page lies, how many entries it has at
/// most, and by which id the results are to name the query (XEP-0313, sections 4.1 and 4.3).
///
/// `Refused` with the error of the first field that is wrong, in the order of `MamQuery::read`: `feature-not-implemented`
/// at a field that is none of the archive's, `bad-request` at any other, and `service-unavailable` where the element is no
/// query.
pub fn query_asked(alloc: Global, element: &Element) -> Result<MamQuery, QueryFault>
    ensures { Asks result (query_asked (elem_view element.now)) }
{
    match MamQuery::read_element(alloc, element) {
        Ok(query) => Ok(query),
        Err(ExtFault::NoMemory) => Err(QueryFault::NoMemory),
        Err(fault) => Err(QueryFault::Refused(query_error(fault))),
    }
}

/// The error at a page whose place is after or before an entry that the archive hasn't: `item-not-found` (XEP-0313,
/// section 4.3; XEP-0059, section 2.2).
pub fn no_such_place() -> StanzaError
    ensures { result ≡ no_such_place }
{
    StanzaError {
        kind: ErrorKind::Cancel,
        condition: Condition::ItemNotFound,
    }
}
