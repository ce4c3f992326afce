//! The law.
ghost use Rattle.std.specs.Prelude.{◌≡◌, ◌<◌, ◌^◌, ℕ, List, false};
ghost use Rattle.std.specs.List.{AllByRecursion};
ghost use Rattle.law_xml.specs.Carries.{Carries};
ghost use Rattle.xml_framer.specs.States.{State};
ghost use Rattle.xml_framer.specs.declared.items.Item.{Item};
ghost use Rattle.xml_framer.specs.declared.states.Phase.{Phase};
ghost use Rattle.net_pipes.specs.Pipes.{Pipe};
ghost use Rattle.law_xml.specs.PutLists.{HavePut, MayAll};
ghost use Rattle.xml_writer.specs.Items.{ItemOut};
ghost use Rattle.law_xml.specs.Puts.{OutFits, StandsAt};

/// A law: items that an end puts one behind the other, each where a stream may have it, plain and within the limits, enter an
/// open pipe as those items, all bytes at once. The framer then stands where the last of them leaves it.
pub fn what_may_be_put_enters()
    ensures { (more : List ItemOut) (s : State) (part : List ℕ) (p : Pipe) (items : List Item) (t : State) (now : Phase) → Carries s part p items t → p.ended ≡ false
        → StandsAt t now → MayAll now more → AllByRecursion (OutFits t.limits) more → t.limits.attributes < 2 ^ 32 → t.limits.namespace_bytes < 2 ^ 32 → HavePut s part p items t now more }
{}
