//! Elements are read before a row looks at them.
//!
//! An element is read before a row looks at it (`word_of`), and once. A plan is an enum, `Bounced` or `Routed`; the
//! sender is what `Live` tells of it, so `plan` has no condition. A route names sessions by their numbers, its
//! definition by themselves.
ghost use Rattle.std.specs.Prelude.{◌≡◌, IfOk};
ghost use Rattle.srv_state.specs.Words;
ghost use Rattle.srv_state.specs.Words.{management_word, other_word, sasl_word, word_of};
ghost use Rattle.im_login.specs.Sasl.{is_sasl};
ghost use Rattle.im_stanza.specs.Readings;
ghost use Rattle.xml_trees.specs.Views.{elem_view};

use crate::limits::MOST_STANZA_BYTES;
use crate::word::Word;
use base_io::NoMemory;
use im_bad_fields::{has_bad_management_field, has_bad_sasl_field};
use im_extensions::{Ack, Enable, Resume};
use im_payload::{ExtFault, MANAGEMENT, SASL};
use im_stanza::{CLIENT, STREAMS, StanzaFault, stanza_of};
use std::alloc::Global;
use xml_trees::{Element, Tree};
use xml_writer::spelled_len;

// Whether an element is a stanza.
fn is_stanza(element: &Element) -> bool
    ensures { result ≡ Words.is_stanza (elem_view element.now) }
{
    element.is(CLIENT, "message") || element.is(CLIENT, "presence") || element.is(CLIENT, "iq")
}

// Whether a stanza is too long as it is written.
#[tactic(auto, using(crate::proofs::Lengths::long_is))]
fn is_long(tree: &Tree) -> bool
    ensures { result ≡ Words.is_long tree.now }
{
    spelled_len(tree) > MOST_STANZA_BYTES
}

// A stanza, whose content is moved.
fn stanza_word(alloc: Global, tree: Tree) -> Result<Word, NoMemory>
    ensures { IfOk result (λ word. word ≡ Word.Stanza (Words.is_long tree) (Readings.stanza_of tree)) }
{
    let long = is_long(&tree);
    match stanza_of(alloc, tree) {
        Err(StanzaFault::NoMemory) => Err(NoMemory),
        read => Ok(Word::Stanza { long, read }),
    }
}

// A stream error, or any other element.
fn other_word(element: &Element) -> Word
    ensures { result ≡ other_word (elem_view element.now) }
{
    if element.is(STREAMS, "error") {
        Word::StreamError
    } else {
        Word::Other
    }
}

// Whether an element of SASL has a bad field.
#[tactic(auto, unfolding(crate::specs::Words::is_bad_sasl))]
fn is_bad_sasl(element: &Element) -> bool
    ensures { result ≡ Words.is_bad_sasl (elem_view element.now) }
{
    has_bad_sasl_field(element)
}

// Whether one of stream management has.
#[tactic(auto, unfolding(crate::specs::Words::is_bad_management))]
fn is_bad_management(element: &Element) -> bool
    ensures { result ≡ Words.is_bad_management (elem_view element.now) }
{
    has_bad_management_field(element)
}

// Whether an element is SASL's of this name.
#[tactic(auto, unfolding(im_payload::specs::Names::sasl))]
fn is_sasl(element: &Element, name: &str) -> bool
    ensures { result ≡ is_sasl name.now (elem_view element.now) }
{
    element.is(SASL, name)
}

// An element of SASL, or another.
#[tactic(auto, unfolding(crate::specs::Words::sasl_word))]
fn sasl_word(tree: Tree) -> Word
    ensures { result ≡ sasl_word tree }
{
    let bad = is_bad_sasl(tree.element());
    if is_sasl(tree.element(), "auth") {
        Word::Auth { element: tree, bad }
    } else if is_sasl(tree.element(), "response") {
        Word::Response { element: tree, bad }
    } else if is_sasl(tree.element(), "abort") {
        Word::Abort
    } else if bad {
        Word::BadField
    } else {
        other_word(tree.element())
    }
}

// A `resume`, or another element.
#[tactic(auto, unfolding(crate::specs::Words::resume_word))]
fn resume_word(alloc: Global, tree: Tree) -> Result<Word, NoMemory>
    ensures { IfOk result (λ word. word ≡ Words.resume_word tree) }
{
    match Resume::read_element(alloc, tree.element()) {
        Ok(resume) => Ok(Word::Resume {
            previd: resume.previd,
            h: resume.h,
        }),
        Err(ExtFault::NoMemory) => Err(NoMemory),
        Err(_) => Ok(sasl_word(tree)),
    }
}

// An element of stream management, or another.
#[tactic(auto, unfolding(crate::specs::Words::management_word))]
fn management_word(alloc: Global, tree: Tree) -> Result<Word, NoMemory>
    ensures { IfOk result (λ word. word ≡ management_word tree) }
{
    if let Ok(enable) = Enable::read_element(tree.element()) {
        return Ok(Word::Enable {
            resume: enable.resume,
        });
    }
    if tree.element().is(MANAGEMENT, "r") {
        return Ok(Word::Request);
    }
    if let Ok(ack) = Ack::read_element(tree.element()) {
        return Ok(Word::Ack { h: ack.h });
    }
    resume_word(alloc, tree)
}

/// What an element says.
#[tactic(auto, unfolding(crate::specs::Words::word_of))]
pub fn word_of(alloc: Global, tree: Tree) -> Result<Word, NoMemory>
    ensures { IfOk result (λ word. word ≡ word_of tree) }
{
    if is_stanza(tree.element()) {
        return stanza_word(alloc, tree);
    }
    if is_bad_management(tree.element()) {
        return Ok(Word::BadField);
    }
    management_word(alloc, tree)
}
