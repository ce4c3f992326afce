//! Bad fields of both kinds of elements.
ghost use Rattle.std.specs.Prelude.{◌≡◌};
ghost use Rattle.im_bad_fields.specs.BadFields.{has_bad_field};
ghost use Rattle.xml_trees.specs.Views.{elem_view};

use crate::management::has_bad_management_field;
use crate::sasl::has_bad_sasl_field;
use xml_trees::Element;

/// Whether the element is one of stream management's (XEP-0198) or of SASL's (RFC 6120, section 6) and its reader refuses
/// it for a bad field. It takes no memory.
pub fn has_bad_field(element: &Element) -> bool
    ensures { result ≡ has_bad_field (elem_view element.now) }
{
    has_bad_management_field(element) || has_bad_sasl_field(element)
}
