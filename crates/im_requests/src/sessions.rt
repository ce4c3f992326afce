//! What a client says to have a session, and at its beginning.
ghost use Rattle.std.specs.Prelude.{◌≡◌, IfOk};
ghost use Rattle.im_requests.specs.Sessions.{available_text, bind_text, carbons_text, enable_text, resume_text};

use crate::spelling::{setting, spelled, spelled_element};
use base_io::{Bytes, NoMemory, Text};
use im_extensions::{BindRequest, CarbonsSwitch, Enable, Resume};
use im_stanza::{StanzaAttrs, stanza_element};
use std::alloc::Global;
use xml_trees::Nodes;

/// The binding of a resource, under the id `bind` (RFC 6120, section 7.7.1). An empty one leaves the choice to the server.
pub fn bind(alloc: Global, resource: &str) -> Result<Bytes, NoMemory>
    ensures { IfOk result (λ b. b.items ≡ bind_text resource.now) }
{
    let resource = Text::from_str(alloc, resource)?;
    let tree = BindRequest { resource }.tree(alloc)?;
    setting(alloc, "bind", tree.into_element())
}

/// `enable`: stanzas are to be acknowledged, and the session is to be one that can be resumed (XEP-0198, section 3).
pub fn enable(alloc: Global) -> Result<Bytes, NoMemory>
    ensures { IfOk result (λ b. b.items ≡ enable_text) }
{
    let tree = Enable { resume: true }.tree(alloc)?;
    spelled(alloc, &tree)
}

/// `resume`: the session of this id is to go on, of which so many of the server's stanzas were handled (XEP-0198, section 5).
pub fn resume(alloc: Global, previd: &str, h: u32) -> Result<Bytes, NoMemory>
    ensures { IfOk result (λ b. b.items ≡ resume_text previd.now h) }
{
    let previd = Text::from_str(alloc, previd)?;
    let tree = Resume { previd, h }.tree(alloc)?;
    spelled(alloc, &tree)
}

/// Copies of messages are wanted (XEP-0280, section 4), under the id `carbons`.
pub fn carbons(alloc: Global) -> Result<Bytes, NoMemory>
    ensures { IfOk result (λ b. b.items ≡ carbons_text) }
{
    let tree = CarbonsSwitch { on: true }.tree(alloc)?;
    setting(alloc, "carbons", tree.into_element())
}

/// The client is available (RFC 6121, section 4.2).
pub fn available(alloc: Global) -> Result<Bytes, NoMemory>
    ensures { IfOk result (λ b. b.items ≡ available_text) }
{
    let attrs = StanzaAttrs {
        from: None,
        id: None,
        to: None,
        kind: None,
        lang: None,
    };
    let element = stanza_element(alloc, "presence", &attrs, Nodes::new(alloc))?;
    spelled_element(alloc, element)
}
