//! Tags in hand: what a whole one says, and what that of an element comes to (XML 1.0, section 3.1; Namespaces in XML 1.0).
ghost use Rattle.std.specs.Prelude.{◌≡◌, ◌≢◌, ◌<◌, ◌^◌, Ok, Err, IfOk, IfErr, OnOk, OnErr};
ghost use Rattle.xml_framer.specs.States;
ghost use Rattle.xml_framer.specs.States.{turn};
ghost use Rattle.xml_framer.specs.TagSteps;
ghost use Rattle.xml_framer.specs.TagSteps.{begun, ends, starts, tag_anew, tag_here, tag_inside};
ghost use Rattle.xml_names.specs.Ends.{end_of};
ghost use Rattle.xml_names.specs.Faults.{IfRefused};
ghost use Rattle.xml_names.specs.TagView.{tag_view};

use crate::fault::Why;
use crate::framer::Framer;
use crate::items::Items;
use crate::limits::Limits;
use crate::states::Phase;
use base_io::NoMemory;
use xml_names::{Scopes, StartFault, StartWhy, Tag, TagLimits, opens_stream, read_end, read_start};
use xml_tokens::is_end;

// What a tag is read with.
fn tag_limits(limits: Limits) -> TagLimits
    ensures value { result ≡ TagSteps.tag_limits limits }
    ensures attributes { result.attributes < 2 ^ 32 }
    ensures namespace_bytes { result.namespace_bytes < 2 ^ 32 }
{
    TagLimits {
        attributes: limits.attributes,
        namespace_bytes: limits.namespace_bytes,
    }
}

impl Framer {
    // The tag in hand, inside the scope in force.
    #[tactic(auto, using(crate::proofs::Stacks::scope_is))]
    pub(crate) fn read_here(&self) -> Result<Tag, StartFault>
        ensures ok { IfOk result (λ t. tag_here self.now ≡ Ok (tag_view t)) }
        ensures refused { IfErr result (λ e. IfRefused e (λ why. tag_here self.now ≡ Err why)) }

        // The limits are numbers of 32 bits, as a state of the definitions doesn't say by itself.
        ensures attributes { self.now.limits.attributes < 2 ^ 32 }
        ensures namespace_bytes { self.now.limits.namespace_bytes < 2 ^ 32 }
    {
        read_start(
            self.alloc,
            tag_limits(self.limits),
            &self.scopes,
            &self.token,
        )
    }

    // The tag in hand as that of a header.
    pub(crate) fn read_anew(&self) -> Result<Tag, StartFault>
        ensures ok { IfOk result (λ t. tag_anew self.now ≡ Ok (tag_view t)) }
        ensures refused { IfErr result (λ e. IfRefused e (λ why. tag_anew self.now ≡ Err why)) }
    {
        read_start(
            self.alloc,
            tag_limits(self.limits),
            &Scopes::new(self.alloc),
            &self.token,
        )
    }

    // Whether the tag in hand is a header's, also where it is past the limits. It was refused under the limits in force, or
    // only a header may stand there: under the largest limits it is read for its name alone, as a header past the limits
    // has other faults than an element past them.
    #[tactic(auto, using(crate::proofs::Stacks::scope_is), unfolding(crate::specs::TagSteps::is_header))]
    pub(crate) fn is_header(&self) -> Result<bool, NoMemory>
        ensures { IfOk result (λ b. b ≡ TagSteps.is_header self.now) }
    {
        let largest = TagLimits {
            attributes: u32::MAX,
            namespace_bytes: u32::MAX,
        };
        match read_start(self.alloc, largest, &self.scopes, &self.token) {
            Ok(tag) => Ok(opens_stream(&tag)),
            Err(StartFault::Refused(_)) => Ok(false),
            Err(StartFault::NoMemory) => Err(NoMemory),
        }
    }

    // Whether the end tag in hand has the name of the innermost open element.
    fn is_spelled(&self) -> bool
        ensures { result ≡ TagSteps.is_spelled self.now.here (end_of self.now.token) }
    {
        match read_end(&self.token) {
            Some(name) => self.opens.is_innermost(name),
            None => false,
        }
    }

    // Whether the end tag in hand is the footer's.
    pub(crate) fn ends_stream(&self) -> bool
        ensures { result ≡ TagSteps.ends_stream self.now }
    {
        if self.lexical.spoiled {
            return false;
        }
        match self.lexical.phase {
            Phase::Between => {}
            _ => return false,
        }
        match read_end(&self.token) {
            Some(name) => name == self.name.as_str(),
            None => false,
        }
    }

    // How many elements are open.
    fn open_count(&self) -> usize
        ensures { result ≡ States.open_count self.now }
    {
        self.opens.len()
    }

    fn is_too_deep(&self) -> bool
        ensures { result ≡ TagSteps.is_too_deep self.now }
    {
        self.open_count() >= self.limits.depth as usize
    }

    // What is wrong with a start tag.
    pub(crate) fn start_why(&self, why: StartWhy) -> Why
        ensures { result ≡ TagSteps.start_why self.now why }
    {
        match why {
            StartWhy::Restricted => Why::Restricted,
            StartWhy::NotWellFormed => Why::NotWellFormed,
            StartWhy::TooManyAttributes | StartWhy::LongNamespace if self.is_too_deep() => {
                Why::TooDeep
            }
            StartWhy::TooManyAttributes => Why::TooManyAttributes,
            StartWhy::LongNamespace => Why::LongNamespace,
        }
    }

    // An element begins.
    #[tactic(auto, unfolding(crate::specs::TagSteps::begun))]
    pub(crate) fn begin(&mut self, tag: Tag, items: &mut Items) -> Result<(), NoMemory>
        ensures ok { OnOk result (turn self.new items.new.items ≡ begun (turn self.old items.old.items) (tag_view tag)) }
        ensures err { OnErr result (items.new.items ≡ items.old.items) }
    {
        if self.is_too_deep() {
            self.fail_token(Why::TooDeep);
        } else if tag.empty {
            self.add_leaf(tag, items)?;
        } else {
            self.open_level(tag)?;
        }
        Ok(())
    }

    // A start tag in an element.
    fn start(&mut self, items: &mut Items) -> Result<(), NoMemory>
        ensures ok { OnOk result (turn self.new items.new.items ≡ starts (turn self.old items.old.items) (tag_here self.old)) }
        ensures err { OnErr result (items.new.items ≡ items.old.items) }
    {
        match self.read_here() {
            Ok(tag) => self.begin(tag, items)?,
            Err(StartFault::NoMemory) => return Err(NoMemory),
            Err(StartFault::Refused(why)) => self.fail_token(self.start_why(why)),
        }
        Ok(())
    }

    // An end tag in an element.
    #[tactic(auto, unfolding(crate::specs::TagSteps::ends))]
    fn end(&mut self, items: &mut Items) -> Result<(), NoMemory>
        ensures ok { OnOk result (turn self.new items.new.items ≡ ends (turn self.old items.old.items)) }
        ensures err { OnErr result (items.new.items ≡ items.old.items) }
    {
        if self.is_spelled() {
            self.close(items)?;
        } else {
            self.fail_token(Why::NotWellFormed);
        }
        Ok(())
    }

    #[tactic(auto, unfolding(crate::specs::TagSteps::tag_inside))]
    pub(crate) fn tag_inside(&mut self, items: &mut Items) -> Result<(), NoMemory>
        ensures ok { OnOk result (turn self.new items.new.items ≡ tag_inside (turn self.old items.old.items)) }
        ensures err { OnErr result (items.new.items ≡ items.old.items) }
    {
        if is_end(&self.token) {
            self.end(items)?;
        } else {
            self.start(items)?;
        }
        Ok(())
    }
}
