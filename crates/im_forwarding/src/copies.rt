//! Copies of messages for an account's other sessions (XEP-0280, sections 7 and 8).
ghost use Rattle.std.specs.Prelude.{◌≡◌, IfOk};
ghost use Rattle.im_extensions.specs.Carbons.{carbon_name};
ghost use Rattle.im_forwarding.specs.Copies.{copied_text, copy_text, copy_view};

use crate::passing::{Addressed, Filed, type_of, write_passed};
use crate::writing::{close_forwarded, close_message, open_bare, open_forwarded, open_message};
use base_io::{Bytes, NoMemory};
use im_payload::{CARBONS, FORWARDING};
use im_stanza::CLIENT;
use std::alloc::Global;
use xml_writer::write_end;

/// What a copy of a message tells the sessions of an account that asked for copies: whether the account sent the message
/// or received it, when, in milliseconds since 1970, and the message as the account's sessions get it (XEP-0280, sections
/// 7 and 8). Copies for several sessions differ only in the address that they are to.
#[derive(Drop)]
pub struct CarbonCopy<'a> {
    pub sent: bool,
    pub moment: u64,
    pub message: &'a Addressed<'a>,
    pub filed: &'a Filed<'a>,
}

// The name of the element.
fn carbon_name(sent: bool) -> &'static str
    ensures { result.now ≡ carbon_name sent }
{
    if sent { "sent" } else { "received" }
}

impl CarbonCopy<'_> {
    /// What is inside each copy, for whichever session: `sent` or `received` around the message and its moment. It is
    /// written once for all of them, and no text of the payload is copied. A moment past `LAST_MOMENT` is written as that.
    pub fn inside(&self, alloc: Global) -> Result<Bytes, NoMemory>
        ensures { IfOk result (λ b. b.items ≡ copied_text (copy_view self.now)) }
    {
        let name = carbon_name(self.sent);
        let mut out = Bytes::new(alloc);
        open_bare(alloc, &mut out, CLIENT, CARBONS, name)?;
        open_forwarded(alloc, &mut out, CARBONS, self.moment)?;
        write_passed(alloc, &mut out, FORWARDING, self.message, self.filed)?;
        close_forwarded(&mut out)?;
        write_end(&mut out, CARBONS, name)?;
        Ok(out)
    }

    /// The copy for the session with this full address, around what is inside: it is from the account's bare address, and
    /// of the type of the message.
    pub fn to(&self, alloc: Global, full: &str, inside: &Bytes) -> Result<Bytes, NoMemory>
        requires { inside.now.items ≡ copied_text (copy_view self.now) }
        ensures { IfOk result (λ b. b.items ≡ copy_text (copy_view self.now) full.now) }
    {
        let kind = type_of(self.message.message);
        let mut out = Bytes::new(alloc);
        open_message(alloc, &mut out, self.filed.by, full, Some(kind))?;
        out.append(inside.as_slice())?;
        close_message(&mut out)?;
        Ok(out)
    }
}
