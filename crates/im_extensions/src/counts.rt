//! A count of handled stanzas that is too high (XEP-0198, section 4).
ghost use Rattle.std.specs.Prelude.{◌≡◌, IfOk};
ghost use Rattle.im_extensions.specs.Counts.{too_high_elem};

use base_io::NoMemory;
use im_payload::{MANAGEMENT, push_number};
use std::alloc::Global;
use xml_trees::{Element, Tree};

/// What stands in the stream error at a count `h` that is above the number of stanzas that were sent.
pub fn too_high_tree(alloc: Global, h: u32, send_count: u32) -> Result<Tree, NoMemory>
    ensures { IfOk result (λ tree. tree ≡ too_high_elem h send_count) }
{
    let mut element = Element::from_strs(alloc, MANAGEMENT, "handled-count-too-high")?;
    push_number(alloc, &mut element, "h", u64::from(h))?;
    push_number(alloc, &mut element, "send-count", u64::from(send_count))?;
    Tree::of(alloc, element)
}
