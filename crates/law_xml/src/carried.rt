//! What each operation on a pipe makes of the items that its bytes stand for.
ghost use Rattle.std.specs.Prelude.{◌≡◌, ℕ, List, [], ◌++◌, None, false, true};
ghost use Rattle.law_xml.specs.Carries.{Carries, GivesAll, GivesFirst, KeepsFirst, held};
ghost use Rattle.law_xml.specs.Items.{AreWhole, GivesOne, IsRest};
ghost use Rattle.xml_framer.specs.Machine.{run};
ghost use Rattle.xml_framer.specs.States.{State, turn};
ghost use Rattle.xml_framer.specs.declared.items.Item.{Item};
ghost use Rattle.net_pipes.specs.Pipes.{Pipe, closed, cut_to, emptied, empty_pipe, entered, handed, is_end_due, with_end_reported};

/// A law: whole items enter. A fresh pipe carries nothing. Where a pipe has not ended, bytes that are whole items from
/// the state on in which the carried items leave the framer join them at the end. Into an ended pipe nothing enters.
///
/// That the bytes are whole items there is a premise: who writes them shows that each is read as the item that it was
/// written for, which asks that it is within the limits of the framer.
pub fn whole_items_enter()
    ensures fresh { (s : State) → s.fault ≡ None → Carries s [] empty_pipe [] s }
    ensures enter { (s : State) (part : List ℕ) (p : Pipe) (items : List Item) (t : State) (bytes : List ℕ) (more : List Item) (u : State) → Carries s part p items t
        → p.ended ≡ false → AreWhole t bytes more u → Carries s part (entered bytes p) (items ++ more) u }
    ensures lost { (s : State) (part : List ℕ) (p : Pipe) (items : List Item) (t : State) (bytes : List ℕ) → Carries s part p items t → p.ended ≡ true
        → Carries s part (entered bytes p) items t }
{}

/// A law: bytes that give nothing may stand before those of an item, as an XML declaration does before a header;
/// together they give that one item.
pub fn an_item_may_have_a_declaration()
    ensures { (s t u : State) (declaration bytes : List ℕ) (i : Item) → run (turn s []) declaration ≡ turn t [] → GivesOne t bytes i u
        → GivesOne s (declaration ++ bytes) i u }
{}

/// A law: of the first bytes, which are handed over, the framer gives the first items, those of which the last byte is
/// among them, and what is left carries the others. The framer has no fault. Of all bytes it gives all items and no
/// more, so that a pipe carries no other items than these; what is left in hand is nothing, or where the pipe has ended
/// perhaps the first bytes of one more.
pub fn first_bytes_give_first_items()
    ensures first { (s : State) (part : List ℕ) (p : Pipe) (items : List Item) (t : State) (n : ℕ) → Carries s part p items t → GivesFirst s part p items t n }
    ensures all { (s : State) (part : List ℕ) (p : Pipe) (items : List Item) (t : State) → Carries s part p items t → GivesAll s part p items t }
{}

/// A law: a cut keeps some first items, and perhaps the first bytes of one more.
pub fn a_cut_keeps_first_items()
    ensures { (s : State) (part : List ℕ) (p : Pipe) (items : List Item) (t : State) (n : ℕ) → Carries s part p items t → KeepsFirst s part p items n }
{}

/// A law: a pipe that is emptied carries nothing; what the framer has in hand is nothing, or the first bytes of an
/// item.
pub fn an_emptied_pipe_carries_nothing()
    ensures emptied { (s : State) (part : List ℕ) (p : Pipe) (items : List Item) (t : State) → Carries s part p items t → Carries s part (emptied p) [] s }
    ensures in_hand { (s : State) (part : List ℕ) (p : Pipe) (items : List Item) (t : State) → Carries s part p items t → IsRest true s part }
{}

/// A law: an end mark changes nothing of what a pipe carries, and where the end is due no item is left. Where a pipe
/// without bytes has not ended, no item is under way, and the framer has nothing in hand.
pub fn an_ended_pipe_carries_the_same()
    ensures ended { (s : State) (part : List ℕ) (p : Pipe) (items : List Item) (t : State) → Carries s part p items t → Carries s part (closed p) items t }
    ensures due { (s : State) (part : List ℕ) (p : Pipe) (items : List Item) (t : State) → Carries s part p items t → is_end_due p ≡ true → items ≡ [] }
    ensures told { (s : State) (part : List ℕ) (p : Pipe) (items : List Item) (t : State) → Carries s part p items t → Carries s part (with_end_reported p) items t }
    ensures empty { (s : State) (part : List ℕ) (p : Pipe) (items : List Item) (t : State) → Carries s part p items t → p.bytes ≡ [] → (items ≡ []) × (t ≡ s) × IsRest p.ended s part }
    ensures no_items { (s : State) (part : List ℕ) (p : Pipe) (items : List Item) (t : State) → Carries s part p items t → p.ended ≡ false → p.bytes ≡ []
        → (items ≡ []) × (part ≡ []) × (t ≡ s) × (held s part ≡ s) }
{}
