//! Tags outside elements: headers, elements behind them, and tags that may not stand there (RFC 6120, sections 4.2 to 4.4,
//! 4.7 and 4.8).
ghost use Rattle.std.specs.Prelude.{◌≡◌, ◌<◌, ◌≤◌, ◌++◌, ◌^◌, Ok, Err, List, OnOk, OnErr};
ghost use Rattle.xml_framer.specs.States.{turn};
ghost use Rattle.xml_framer.specs.TagSteps;
ghost use Rattle.xml_framer.specs.TagSteps.{headed_turn, header_items, header_tag, misplaced, tag_here, tag_outside};
ghost use Rattle.xml_framer.specs.declared.items.Item.{Item};
ghost use Rattle.xml_names.specs.TagView.{tag_view};

use crate::fault::Why;
use crate::framer::Framer;
use crate::items::{Item, Items};
use crate::states::Phase;
use base_io::NoMemory;
use xml_names::{Header, HeaderTag, Scopes, StartFault, StartWhy, Tag, header_of, opens_stream};

// What is wrong with a header's tag.
fn header_why(why: StartWhy) -> Why
    ensures { result ≡ TagSteps.header_why why }
{
    match why {
        StartWhy::Restricted => Why::Restricted,
        StartWhy::NotWellFormed => Why::NotWellFormed,
        StartWhy::TooManyAttributes => Why::TooManyAttributes,
        StartWhy::LongNamespace => Why::LongNamespace,
    }
}

// The phase behind a header, which is that of an empty element or not.
fn phase_behind(empty: bool) -> Phase
    ensures { result ≡ TagSteps.phase_behind empty }
{
    if empty { Phase::Ended } else { Phase::Between }
}

// Gives a header, and the footer where its tag is that of an empty element.
fn push_header(items: &mut Items, at: u64, header: Header, empty: bool)
    requires { 2 ≤ items.old.spare }
    ensures { items.new.items ≡ items.old.items ++ header_items at header empty }
{
    items.push_reserved(Item::Header { at, header });
    if empty {
        items.push_reserved(Item::Footer);
    }
}

impl Framer {
    // Gives a header, and the footer where its tag is that of an empty element.
    fn give_header(&mut self, tag: Tag, items: &mut Items) -> Result<(), NoMemory>
        ensures ok { OnOk result (turn self.new items.new.items ≡ headed_turn (turn self.old items.old.items) (tag_view tag)) }
        ensures err { OnErr result (items.new.items ≡ items.old.items) }
    {
        items.reserve(2)?;
        let HeaderTag {
            header,
            spelled,
            bindings,
            empty,
        } = header_of(self.alloc, tag)?;
        let mut scopes = Scopes::new(self.alloc);
        scopes.open(self.alloc, bindings)?;
        let at = self.positions.token_at;
        self.scopes = scopes;
        self.name = spelled;
        self.end_item();
        self.set_phase(phase_behind(empty));
        push_header(items, at, header, empty);
        Ok(())
    }

    // The tag of a header.
    #[tactic(auto, unfolding(crate::specs::TagSteps::header_tag))]
    fn header_tag(&mut self, items: &mut Items) -> Result<(), NoMemory>
        ensures ok { OnOk result (turn self.new items.new.items ≡ header_tag (turn self.old items.old.items)) }
        ensures err { OnErr result (items.new.items ≡ items.old.items) }
    {
        match self.read_anew() {
            Ok(tag) => self.give_header(tag, items)?,
            Err(StartFault::NoMemory) => return Err(NoMemory),
            Err(StartFault::Refused(why)) => self.fail_token(header_why(why)),
        }
        Ok(())
    }

    // A tag that may not stand there.
    #[tactic(auto, unfolding(crate::specs::TagSteps::misplaced))]
    fn misplace(&mut self) -> Result<(), NoMemory>
        ensures { OnOk result ((items : List Item) → turn self.new items ≡ misplaced (turn self.old items)) }
    {
        match self.read_here() {
            Err(StartFault::NoMemory) => return Err(NoMemory),
            Err(StartFault::Refused(StartWhy::Restricted)) => self.fail_token(Why::Restricted),
            _ => self.fail_token(Why::NotWellFormed),
        }
        Ok(())
    }

    // Whether a tag that is within the limits is a header's.
    fn opens_stream(&self, tag: &Tag) -> bool
        requires read { tag_here self.now ≡ Ok (tag_view tag.now) }
        requires attributes { self.now.limits.attributes < 2 ^ 32 }
        requires namespace_bytes { self.now.limits.namespace_bytes < 2 ^ 32 }
        ensures { result ≡ TagSteps.is_header self.now }
    {
        opens_stream(tag)
    }

    // A tag behind a header that is refused.
    fn refuse_between(&mut self, why: StartWhy, items: &mut Items) -> Result<(), NoMemory>
        requires { tag_here self.old ≡ Err why }
        ensures ok { OnOk result (turn self.new items.new.items ≡ TagSteps.tag_in Phase.Between (turn self.old items.old.items)) }
        ensures err { OnErr result (items.new.items ≡ items.old.items) }
    {
        if self.is_header()? {
            self.header_tag(items)?;
        } else {
            self.fail_token(self.start_why(why));
        }
        Ok(())
    }

    // A tag behind a header, with no declaration between.
    fn tag_between(&mut self, items: &mut Items) -> Result<(), NoMemory>
        ensures ok { OnOk result (turn self.new items.new.items ≡ TagSteps.tag_in Phase.Between (turn self.old items.old.items)) }
        ensures err { OnErr result (items.new.items ≡ items.old.items) }
    {
        match self.read_here() {
            Ok(tag) if self.opens_stream(&tag) => self.header_tag(items)?,
            Ok(tag) => self.begin(tag, items)?,
            Err(StartFault::NoMemory) => return Err(NoMemory),
            Err(StartFault::Refused(why)) => self.refuse_between(why, items)?,
        }
        Ok(())
    }

    // A tag behind a header and a declaration.
    fn tag_declared(&mut self, items: &mut Items) -> Result<(), NoMemory>
        ensures ok { OnOk result (turn self.new items.new.items ≡ TagSteps.tag_in Phase.Declared (turn self.old items.old.items)) }
        ensures err { OnErr result (items.new.items ≡ items.old.items) }
    {
        if self.is_header()? {
            self.header_tag(items)?;
        } else {
            self.misplace()?;
        }
        Ok(())
    }

    // A tag outside elements that is no end tag.
    #[tactic(auto, unfolding(crate::specs::TagSteps::tag_outside))]
    pub(crate) fn tag_outside(&mut self, items: &mut Items) -> Result<(), NoMemory>
        ensures ok { OnOk result (turn self.new items.new.items ≡ tag_outside (turn self.old items.old.items)) }
        ensures err { OnErr result (items.new.items ≡ items.old.items) }
    {
        match self.lexical.phase {
            Phase::First | Phase::FirstDeclared => self.header_tag(items)?,
            Phase::Between => self.tag_between(items)?,
            Phase::Declared => self.tag_declared(items)?,
            Phase::Ended => self.misplace()?,
        }
        Ok(())
    }
}
