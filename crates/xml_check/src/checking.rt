//! Telling of a stream, piece by piece.
//!
//! The bytes go to a framer 512 at a time, and its items are written at once, so that only those of one piece are
//! held. After the last piece `part` tells what is unfinished.
//!
//! `check` writes without measuring first (`write_growing`), to one text that grows; calls whose bytes are kept
//! measure, so that they hold no more than they need. It feeds 512 bytes at a time and drops the items before the
//! next, so that memory is taken again while it is near.
ghost use Rattle.std.specs.Prelude.{◌≡◌, ℕ, List, false, None, IfOk, OnOk};
ghost use Rattle.xml_check.specs.Checked.{Told, told, told_after, told_items, told_last, wrong_with};
ghost use Rattle.xml_check.specs.Lines;
ghost use Rattle.xml_check.specs.Lines.{fault_line};
ghost use Rattle.xml_check.specs.Pieces.{IsToldOf, or_rest, or_strange, told_from, told_with};

use crate::lines::{append_end, append_fault, append_item, append_truncated, strange_at, why_name};
use base_io::{Bytes, NoMemory};
use std::alloc::Global;
use xml_framer::{Fault, FeedFault, Framer, Item, Items, Limits, a_fault_stays, any_pieces};

/// The most bytes whose items are held at once. They are few, so that the items of one piece lie where those of the
/// last one lay.
const PIECE: usize = 512;

/// What is wrong with a header that opens no stream between a client and its server.
const STRANGE: &str = "InvalidNamespace";

/// What is told of a stream: its lines, and whether nothing is wrong.
#[derive(Drop)]
pub struct Checked {
    pub text: Bytes,
    pub sound: bool,
}

// Tells items in order. Where a header is strange, its place is the answer, and nothing is told from it on.
fn tell_items(items: &[Item], text: &mut Bytes) -> Result<Option<u64>, NoMemory>
    ensures { IfOk result (λ strange. (last : Told) → told_after text.old.items (told_items items.now last) ≡ told_after text.new.items (or_strange strange last)) }
{
    for item in items {
        if let Some(at) = strange_at(item) {
            return Ok(Some(at));
        }
        append_item(text, item)?;
    }
    Ok(None)
}

// Tells the items of a piece, and answers whether that was all, since a header is strange.
fn tell_sound(alloc: Global, items: &[Item], text: &mut Bytes) -> Result<bool, NoMemory>
    ensures { IfOk result (λ over. (rest : Told) → told_after text.old.items (told_items items.now rest) ≡ or_rest over text.new.items rest) }
{
    match tell_items(items, text)? {
        None => Ok(false),
        Some(at) => {
            append_fault(alloc, text, at, STRANGE)?;
            Ok(true)
        }
    }
}

// Tells the items before a fault, and the fault unless a header before it is strange.
fn tell_fault(alloc: Global, items: &[Item], fault: Fault, text: &mut Bytes) -> Result<(), NoMemory>
    ensures { OnOk result (wrong_with text.new.items ≡ told_after text.old.items (told_items items.now (wrong_with (fault_line fault.at (Lines.why_name fault.why))))) }
{
    match tell_items(items, text)? {
        None => append_fault(alloc, text, fault.at, why_name(fault.why))?,
        Some(at) => append_fault(alloc, text, at, STRANGE)?,
    }
    Ok(())
}

// Tells a piece, and answers whether all is told.
fn tell_piece(
    alloc: Global,
    framer: &mut Framer,
    piece: &[u8],
    text: &mut Bytes,
) -> Result<bool, NoMemory>
    requires { framer.old.fault ≡ None }
    ensures sound { IfOk result (λ over. over ≡ false → framer.new.fault ≡ None) }
    ensures told { IfOk result (λ over. IsToldOf over framer.old framer.new piece.now text.old.items text.new.items) }
{
    any_pieces();
    a_fault_stays();
    let mut items = Items::new(alloc);
    match framer.feed(piece, &mut items) {
        Ok(()) => tell_sound(alloc, items.as_slice(), text),
        Err(FeedFault::Fault(fault)) => {
            tell_fault(alloc, items.as_slice(), fault, text)?;
            Ok(true)
        }
        Err(FeedFault::NoMemory) => Err(NoMemory),
    }
}

// Tells the end of a stream without a fault, and answers whether nothing is unfinished.
#[tactic(auto, unfolding(crate::specs::Checked::told_last))]
fn tell_end(alloc: Global, framer: &Framer, text: &mut Bytes) -> Result<bool, NoMemory>
    requires { framer.now.fault ≡ None }
    ensures { IfOk result (λ sound. told_with text.new.items sound ≡ told_after text.old.items (told_last framer.now)) }
{
    match framer.part() {
        None => {
            append_end(text)?;
            Ok(true)
        }
        Some(at) => {
            append_truncated(alloc, text, at)?;
            Ok(false)
        }
    }
}

// Tells the pieces of what is left, and answers whether all is told.
fn tell_pieces(
    alloc: Global,
    framer: &mut Framer,
    input: &[u8],
    text: &mut Bytes,
) -> Result<bool, NoMemory>
    requires { framer.old.fault ≡ None }
    ensures sound { IfOk result (λ over. over ≡ false → framer.new.fault ≡ None) }
    ensures told { IfOk result (λ over. told_after text.old.items (told_from framer.old input.now) ≡ or_rest over text.new.items (told_last framer.new)) }
{
    let mut rest = input;
    while !rest.is_empty() {
        let (piece, more) = rest.split_at(rest.len().min(PIECE));
        if tell_piece(alloc, framer, piece, text)? {
            return Ok(true);
        }
        rest = more;
    }
    Ok(false)
}

/// Tells of one direction of a stream, under the limits of a server: each of its items as it is written and a line feed,
/// and then `end`. Where the stream has a fault, that line is `fault AT WHY` with its place; where the bytes end in the
/// middle of an item, `truncated AT`; where a header opens no stream between a client and its server, `fault AT
/// InvalidNamespace` with its place, and nothing behind it is looked at (RFC 6120, sections 4.8, 4.9.3 and 11).
///
/// It holds the items that end in 512 bytes at a time besides the text.
pub fn check(alloc: Global, input: &[u8]) -> Result<Checked, NoMemory>
    ensures { IfOk result (λ checked. told_with checked.text.items checked.sound ≡ told input.now) }
{
    let mut framer = Framer::new(alloc, Limits::server());
    let mut text = Bytes::new(alloc);
    if tell_pieces(alloc, &mut framer, input, &mut text)? {
        return Ok(Checked { text, sound: false });
    }
    let sound = tell_end(alloc, &framer, &mut text)?;
    Ok(Checked { text, sound })
}
