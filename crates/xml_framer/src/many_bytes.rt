//! Many bytes at once, where each of them only adds to a text or a tag.
//!
//! Plain bytes of a text or a tag are taken at once: a scan by slice, one copy, and offsets that advance by its
//! length. That is the run of those bytes.
//!
//! Plain bytes are taken many at a time. In a text those that say themselves whatever stands before them, in a tag
//! those of ASCII that don't end it, inside an element from its `<` on; all others go byte by byte. So the machine
//! stays the one definition, and the run of many bytes is a lemma. The byte EF goes by itself, since with it begin
//! U+FFFE and U+FFFF; so do bytes past ASCII in tags and all bytes of a CDATA section.
//!
//! Up to 128 bytes are looked at together. Where one of them isn't plain, the same bytes are gone through one by one.
//!
//! A loop that looks at each of many bytes joins numbers: a byte tells 0 or 1, joined by `|`. Truth values joined by
//! `&` are not made vector code. Such loops get a multiple of eight bytes. The two scans that are vector code are
//! kept out of line (`inline(never)`), since within the framer's loop their constants would be loaded anew for each
//! byte.
ghost use Rattle.std.specs.Prelude.{◌≡◌, ◌≤◌, ◌<◌, ◌++◌, ◌&&◌, ◌==◌, not, nat_lt, true, Some, None, take, length, IfOk, IfSome, OnOk, if◌then◌else◌};
ghost use Rattle.std.specs.List.{list_all, prefix_len};
ghost use Rattle.std.specs.Option.{is_some};
ghost use Rattle.xml_framer.specs.ManyBytes;
ghost use Rattle.xml_tokens.specs.Values.{is_plain_ascii};
ghost use Rattle.xml_framer.specs.ManyBytes.{GoesOnTo, KeepsQuote, LeavesRoom, TakesRun, after_bytes, quote_after, tag_taken, text_taken};

use crate::framer::Framer;
use crate::states::Mode;
use base_io::{NoMemory, ascii_str};
use memchr::{memchr, memchr2};
use xml_tokens::{is_control, is_quote, quote_behind};

/// So many bytes at most are looked through at once: where one of them is unlike the others, they are read again.
const NEAR: usize = 128;

// ---- scans

// Whether a byte says itself in a text, whatever stands before it. Small letters are told by two tests.
fn is_plain(b: u8) -> bool
    ensures { result ≡ ManyBytes.is_plain b }
{
    if b > b']' {
        return b != 0xef;
    }
    b != b'<' && b != b'&' && b != b'>' && b != b']' && b != b'\r' && !is_control(b)
}

fn plain_len(bytes: &[u8]) -> usize
    ensures { result ≡ prefix_len ManyBytes.is_plain bytes.now }
{
    bytes.iter().take_while(|b| is_plain(**b)).count()
}

// The plain bytes that bytes begin with.
fn plain_front(bytes: &[u8]) -> &[u8]
    ensures front { result.now ≡ take (length result.now) bytes.now }
    ensures bound { length result.now ≤ length bytes.now }
    ensures plain { list_all ManyBytes.is_plain result.now ≡ true }
{
    bytes.split_at(plain_len(bytes)).0
}

// The whole characters that bytes begin with.
fn whole_characters(bytes: &[u8]) -> &str
    ensures front { result.now ≡ take (length result.now) bytes.now }
    ensures bound { length result.now ≤ length bytes.now }
{
    if bytes.is_empty() {
        return "";
    }
    match str::from_utf8(bytes) {
        Ok(text) => text,
        Err(e) => match str::from_utf8(&bytes[..e.valid_up_to()]) {
            Ok(text) => text,
            Err(_) => "",
        },
    }
}

// Whether a byte is one of ASCII that says itself in a text: a space or more, and no markup.
fn is_usual(b: u8) -> bool
    ensures { result ≡ (is_plain_ascii b && (not (b == 62) && not (b == 93))) }
{
    b' ' <= b && b < 128 && b != b'<' && b != b'&' && b != b'>' && b != b']'
}

// Whether each byte is one of ASCII that says itself in a text. No byte ends the loop, so that it can become vector code.
#[inline(never)]
fn are_usual(bytes: &[u8]) -> bool
    ensures { result ≡ list_all (λ b. is_plain_ascii b && (not (b == 62) && not (b == 93))) bytes.now }
{
    let mut usual = true;
    for b in bytes {
        usual &= is_usual(*b);
    }
    usual
}

// How many bytes stand before the first `<` or `&`.
fn markup_at(bytes: &[u8]) -> usize
    ensures { result ≤ length bytes.now }
{
    match memchr2(b'<', b'&', bytes) {
        Some(at) => at,
        None => bytes.len(),
    }
}

// The bytes at the front that may be a text of usual ones.
fn near_text(bytes: &[u8]) -> &[u8]
    ensures front { result.now ≡ take (length result.now) bytes.now }
    ensures bound { length result.now ≤ length bytes.now }
{
    if bytes.is_empty() || !is_usual(bytes[0]) {
        return &bytes[..0];
    }
    let len = markup_at(&bytes[..bytes.len().min(NEAR)]);
    &bytes[..len]
}

// The plain characters that a text begins with, some of them at least where there are any.
#[tactic(auto, using(crate::proofs::UsualTexts::usual_ascii, crate::proofs::UsualTexts::usual_plain))]
fn plain_text(bytes: &[u8]) -> &str
    ensures front { result.now ≡ take (length result.now) bytes.now }
    ensures bound { length result.now ≤ length bytes.now }
    ensures plain { list_all ManyBytes.is_plain result.now ≡ true }
{
    let near = near_text(bytes);
    if !near.is_empty() && are_usual(near) {
        return ascii_str(near);
    }
    whole_characters(plain_front(bytes))
}

// Whether a byte is one of ASCII that doesn't end a tag.
fn goes_on_in(quote: Option<u8>, b: u8) -> bool
    ensures { result ≡ ManyBytes.goes_on_in quote b }
{
    b < 128 && !(b == b'>' && quote.is_none())
}

// Whether a byte outside quotes is one of ASCII that changes nothing but a tag's bytes. Letters are told by two tests.
fn is_unquoted(b: u8) -> bool
    ensures { result ≡ ManyBytes.is_unquoted b }
{
    if b > b'>' {
        return b < 128;
    }
    b != b'>' && b != b'"' && b != b'\''
}

fn unquoted_len(bytes: &[u8]) -> usize
    ensures { result ≡ prefix_len ManyBytes.is_unquoted bytes.now }
{
    bytes.iter().take_while(|b| is_unquoted(**b)).count()
}

// Whether a byte inside a quote is one of ASCII that doesn't end it.
fn is_quoted(quote: u8, b: u8) -> bool
    ensures { result ≡ ManyBytes.is_quoted quote b }
{
    b < 128 && b != quote
}

fn quoted_len(quote: u8, bytes: &[u8]) -> usize
    ensures { result ≡ prefix_len (ManyBytes.is_quoted quote) bytes.now }
{
    bytes.iter().take_while(|b| is_quoted(quote, **b)).count()
}

// How many first bytes leave the open quote as it is.
#[tactic(auto, using(crate::proofs::PlainTags::unquoted_front, crate::proofs::PlainTags::quoted_front))]
fn same_quote_len(quote: Option<u8>, bytes: &[u8]) -> usize
    ensures { KeepsQuote quote bytes.now result }
{
    match quote {
        None => unquoted_len(bytes),
        Some(q) => quoted_len(q, bytes),
    }
}

// How many first bytes are of ASCII and don't end a tag, up to a quote at most, and the quote that is open behind them.
#[tactic(auto, using(crate::proofs::PlainTags::one_further))]
fn part_by_bytes(quote: Option<u8>, bytes: &[u8]) -> (usize, Option<u8>)
    ensures { GoesOnTo quote bytes.now result.0 result.1 }
{
    let len = same_quote_len(quote, bytes);
    match bytes.get(len) {
        Some(b) if goes_on_in(quote, *b) => (len + 1, quote_behind(quote, *b)),
        _ => (len, quote),
    }
}

// The quote that isn't this one.
fn other_quote(quote: u8) -> u8
    ensures { result ≡ (if quote == 34 then 39 else 34) }
{
    if quote == b'"' { b'\'' } else { b'"' }
}

// Whether a byte is one of ASCII that neither may end a tag nor is this quote.
fn is_calm(other: u8, b: u8) -> bool
    ensures { result ≡ (nat_lt b 128 && (not (b == 62) && not (b == other))) }
{
    b < 128 && b != b'>' && b != other
}

// A fact, or its contrary where it changes.
fn toggled(fact: bool, changes: bool) -> bool
    ensures { result ≡ (if changes then not fact else fact) }
{
    if changes { !fact } else { fact }
}

// This quote, where it is open.
fn open_quote(quote: u8, inside: bool) -> Option<u8>
    ensures { result ≡ (if inside then Some quote else None) }
{
    if inside { Some(quote) } else { None }
}

// The quote that is open behind bytes whose first stands inside a quote, where each of them is of ASCII, none is `>` and
// none is the other quote. No byte ends the loop, so that it can become vector code.
#[inline(never)]
fn quote_after_calm(quote: u8, bytes: &[u8]) -> Option<Option<u8>>
    ensures { IfSome result (λ following. GoesOnTo (Some quote) bytes.now (length bytes.now) following) }
{
    if !is_quote(quote) {
        return None;
    }
    let other = other_quote(quote);
    let mut inside = true;
    let mut calm = true;
    for b in bytes {
        inside = toggled(inside, *b == quote);
        calm &= is_calm(other, *b);
    }
    if calm {
        Some(open_quote(quote, inside))
    } else {
        None
    }
}

// How many bytes stand before the first `>`.
fn greater_at(bytes: &[u8]) -> usize
    ensures { result ≤ length bytes.now }
{
    match memchr(b'>', bytes) {
        Some(at) => at,
        None => bytes.len(),
    }
}

// The bytes at the front that may be calm.
fn near_tag(bytes: &[u8]) -> &[u8]
    ensures front { result.now ≡ take (length result.now) bytes.now }
    ensures bound { length result.now ≤ length bytes.now }
{
    if bytes.is_empty() || bytes[0] >= 128 {
        return &bytes[..0];
    }
    let len = greater_at(&bytes[..bytes.len().min(NEAR)]);
    &bytes[..len]
}

// The same as `part_by_bytes` from inside a quote on, and past quotes where the bytes up to `>` are calm.
#[tactic(auto, using(crate::proofs::CalmTags::front_goes))]
fn quoted_front(quote: u8, bytes: &[u8]) -> (usize, Option<u8>)
    ensures { GoesOnTo (Some quote) bytes.now result.0 result.1 }
{
    let near = near_tag(bytes);
    if near.is_empty() {
        return part_by_bytes(Some(quote), bytes);
    }
    match quote_after_calm(quote, near) {
        Some(following) => (near.len(), following),
        None => part_by_bytes(Some(quote), bytes),
    }
}

// How many first bytes are of ASCII and don't end a tag, up to a quote or further, and the quote that is open behind them.
fn part_front(quote: Option<u8>, bytes: &[u8]) -> (usize, Option<u8>)
    ensures { GoesOnTo quote bytes.now result.0 result.1 }
{
    match quote {
        Some(q) => quoted_front(q, bytes),
        None => part_by_bytes(None, bytes),
    }
}

// How many first bytes are of ASCII and don't end a tag, and the quote that is open behind them.
#[tactic(auto, using(crate::proofs::PlainTags::goes_nowhere, crate::proofs::PlainTags::goes_on_after))]
fn tag_front(quote: Option<u8>, bytes: &[u8]) -> (usize, Option<u8>)
    ensures { GoesOnTo quote bytes.now result.0 result.1 }
{
    let mut open = quote;
    let mut done = 0;
    while done < bytes.len() {
        let (len, following) = part_front(open, &bytes[done..]);
        if len == 0 {
            return (done, open);
        }
        done += len;
        open = following;
    }
    (done, open)
}

// Whether a byte behind `<` in an element is one of ASCII that begins a tag and doesn't end it, and no quote.
fn opens_tag(b: u8) -> bool
    ensures { result ≡ ManyBytes.opens_tag b }
{
    is_unquoted(b) && b != b'!' && b != b'?'
}

// Whether bytes begin with `<` and the first byte of a tag.
fn begins_tag(bytes: &[u8]) -> bool
    ensures { result ≡ ManyBytes.begins_tag bytes.now }
{
    match bytes {
        [a, b, ..] => *a == b'<' && opens_tag(*b),
        _ => false,
    }
}

// How many first bytes are a tag from its `<` on and don't end it, and the quote that is open behind them.
#[tactic(auto, using(crate::proofs::Openings::two_there, crate::proofs::Openings::opened, crate::proofs::PlainTags::goes_on_after))]
fn opening_front(bytes: &[u8]) -> (usize, Option<u8>)
    requires { ManyBytes.begins_tag bytes.now ≡ true }
    ensures goes { GoesOnTo None bytes.now result.0 result.1 }
    ensures both { 2 ≤ result.0 }
{
    let (len, quote) = tag_front(None, &bytes[2..]);
    (2 + len, quote)
}

// ---- places

// A place behind some bytes.
#[tactic(auto, using(crate::proofs::PlainTexts::position_is))]
fn position_after(position: u64, bytes: &[u8]) -> u64
    ensures { result ≡ ManyBytes.position_after bytes.now position }
{
    position.saturating_add(bytes.len() as u64)
}

// A count behind some bytes, where what they belong to is counted.
#[tactic(auto, using(crate::proofs::PlainTexts::none_used, crate::proofs::PlainTexts::used_is))]
fn used_after(used: u64, bytes: &[u8]) -> u64
    ensures { result ≡ ManyBytes.used_after bytes.now used }
{
    if used == 0 {
        return 0;
    }
    position_after(used, bytes)
}

impl Framer {
    // The bytes of a piece that the limit leaves room for.
    fn within<'a>(&self, bytes: &'a [u8]) -> &'a [u8]
        ensures front { result.now ≡ take (length result.now) bytes.now }
        ensures bound { length result.now ≤ length bytes.now }
        ensures room { LeavesRoom self.now (length result.now) }
    {
        let left = self.limits.bytes.saturating_sub(self.positions.used);
        if self.positions.used == 0 || bytes.len() as u64 <= left {
            bytes
        } else {
            &bytes[..left as usize]
        }
    }

    // Some bytes are behind.
    fn pass_bytes(&mut self, bytes: &[u8])
        ensures { self.new ≡ after_bytes self.old bytes.now }
    {
        self.positions.at = position_after(self.positions.at, bytes);
        self.positions.used = used_after(self.positions.used, bytes);
    }

    // ---- texts in an element

    // Whether plain bytes may be taken at once.
    fn takes_text(&self) -> bool
        ensures { result ≡ ManyBytes.takes_text self.now }
    {
        self.is_text()
            && self.fault.is_none()
            && self.is_inside()
            && self.pending.len() == 0
            && !(self.lexical.in_run && (self.lexical.returned || self.lexical.brackets != 0))
    }

    // Takes plain bytes of a text.
    fn take_text(&mut self, text: &str) -> Result<(), NoMemory>
        ensures { OnOk result (self.new ≡ text_taken self.old text.now) }
    {
        self.chars.push_str(text)?;
        self.begin_run();
        self.pass_bytes(text.as_bytes());
        Ok(())
    }

    // Takes the plain bytes that a piece begins with, and answers how many.
    fn take_text_run(&mut self, bytes: &[u8]) -> Result<usize, NoMemory>
        requires { ManyBytes.takes_text self.old ≡ true }
        ensures { IfOk result (λ n. TakesRun self.old self.new bytes.now n) }
    {
        let text = plain_text(self.within(bytes));
        if text.is_empty() {
            return Ok(0);
        }
        self.take_text(text)?;
        Ok(text.len())
    }

    // ---- tags

    // Whether bytes of a tag may be taken at once.
    fn takes_tag(&self) -> bool
        ensures { result ≡ ManyBytes.takes_tag self.now }
    {
        let is_tag = match self.lexical.mode {
            Mode::Tag => true,
            _ => false,
        };
        is_tag && self.fault.is_none() && self.pending.len() == 0
    }

    // Takes bytes of a tag, behind which this quote is open.
    fn take_tag(&mut self, bytes: &[u8], quote: Option<u8>) -> Result<(), NoMemory>
        requires { quote ≡ quote_after self.old.lexical.quote bytes.now }
        ensures { OnOk result (self.new ≡ tag_taken self.old bytes.now) }
    {
        self.token.extend_from_slice(bytes)?;
        self.lexical.quote = quote;
        self.pass_bytes(bytes);
        Ok(())
    }

    // Takes the bytes that a piece begins with up to what ends a tag, and answers how many.
    fn take_tag_run(&mut self, bytes: &[u8]) -> Result<usize, NoMemory>
        requires { ManyBytes.takes_tag self.old ≡ true }
        ensures { IfOk result (λ n. TakesRun self.old self.new bytes.now n) }
    {
        let within = self.within(bytes);
        let (len, quote) = tag_front(self.lexical.quote, within);
        self.take_tag(&within[..len], quote)?;
        Ok(len)
    }

    // Whether a tag may be taken from its `<` on.
    fn takes_opening(&self) -> bool
        ensures { result ≡ ManyBytes.takes_opening self.now }
    {
        self.takes_text() && self.lexical.quote.is_none()
    }

    // Takes the bytes of a tag in an element from its `<` up to what ends it, and answers how many.
    fn take_tag_from_opening(&mut self, bytes: &[u8]) -> Result<usize, NoMemory>
        ensures { IfOk result (λ n. TakesRun self.old self.new bytes.now n) }
    {
        let within = self.within(bytes);
        if !self.takes_opening() || !begins_tag(within) {
            return Ok(0);
        }
        let (len, quote) = opening_front(within);
        self.begin_token(Mode::Tag);
        self.take_tag(&within[..len], quote)?;
        Ok(len)
    }

    // ---- both

    // Takes bytes that a piece begins with and that only add to what is in hand, and answers how many. The `>` that ends
    // most tags is not looked at twice.
    pub(crate) fn take_run(&mut self, bytes: &[u8]) -> Result<usize, NoMemory>
        ensures { IfOk result (λ n. TakesRun self.old self.new bytes.now n) }
    {
        match bytes.first() {
            Some(b) if *b == b'<' => return self.take_tag_from_opening(bytes),
            Some(b) if *b == b'>' => return Ok(0),
            _ => {}
        }
        if self.takes_text() {
            return self.take_text_run(bytes);
        }
        if self.takes_tag() {
            return self.take_tag_run(bytes);
        }
        Ok(0)
    }
}
