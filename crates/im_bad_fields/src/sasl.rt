//! Bad fields of SASL's elements (RFC 6120, section 6).
ghost use Rattle.std.specs.Prelude.{◌≡◌};
ghost use Rattle.im_bad_fields.specs.BadFields.{has_bad_sasl_field, is_bad};
ghost use Rattle.im_login.specs.Readings.{auth_read, carrier_read, failure_read};
ghost use Rattle.xml_trees.specs.Views.{elem_view};

use crate::payload::has_bad_text;
use im_payload::SASL;
use im_stanza::condition_in;
use xml_trees::Element;

/// Whether the element is one of SASL's (RFC 6120, section 6) and its reader, as `Auth::read_element`, refuses it for a
/// bad field: an `auth` without a `mechanism`; an `auth`, `challenge`, `response` or `success` whose text is neither
/// strict base64 (RFC 4648, section 4) nor a lone `=`; a `failure` that names no condition. It takes no memory.
pub fn has_bad_sasl_field(element: &Element) -> bool
    ensures { result ≡ has_bad_sasl_field (elem_view element.now) }
{
    has_bad_auth(element)
        || has_bad_payload(element, "challenge")
        || has_bad_payload(element, "response")
        || has_bad_payload(element, "success")
        || has_bad_condition(element)
}

// Whether it is an `auth` without a mechanism or with a bad payload.
#[tactic(auto, using(crate::proofs::PayloadRuns::auth_bad), unfolding(im_payload::specs::Names::sasl))]
fn has_bad_auth(element: &Element) -> bool
    ensures { result ≡ is_bad (auth_read (elem_view element.now)) }
{
    if !element.is(SASL, "auth") {
        return false;
    }
    let Some(_) = element.attr("", "mechanism") else {
        return true;
    };
    has_bad_text(&element.children)
}

// Whether it is a `challenge`, a `response` or a `success`, whichever the name says, with a bad payload.
#[tactic(auto, unfolding(im_payload::specs::Names::sasl))]
fn has_bad_payload(element: &Element, name: &str) -> bool
    ensures { result ≡ is_bad (carrier_read name.now (elem_view element.now)) }
{
    if !element.is(SASL, name) {
        return false;
    }
    has_bad_text(&element.children)
}

// Whether it is a `failure` that names no condition.
#[tactic(auto, unfolding(im_payload::specs::Names::sasl))]
fn has_bad_condition(element: &Element) -> bool
    ensures { result ≡ is_bad (failure_read (elem_view element.now)) }
{
    if !element.is(SASL, "failure") {
        return false;
    }
    match condition_in(&element.children, SASL) {
        Some(_) => false,
        None => true,
    }
}
