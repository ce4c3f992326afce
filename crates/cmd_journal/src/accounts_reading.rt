//! An accounts file is read from its text.
//!
//! In accounts files a missing line is `Word` at the line where it should stand; where a journal follows, the text's
//! end is `Ending`.
ghost use Rattle.std.specs.Prelude.{◌≡◌, ◌+◌, ◌^◌, ◌<◌, ◌≤◌, [], ◌∷◌, ◌++◌, length, IfOk, OnErr};
ghost use Rattle.cmd_journal.specs.Gives.{Gives, ReadsAs, begun_seen, preamble_seen, registered_seen};
ghost use Rattle.cmd_journal.specs.LineReading.{read_domain, read_first, read_keep, read_registration};
ghost use Rattle.cmd_journal.specs.Reading.{is_mark, missing_line, read_file, read_preamble, read_registrations, read_version, with_next};
ghost use Rattle.cmd_schedule.specs.Reading.{pieces_of};
ghost use Rattle.cmd_schedule.specs.declared.fault.LineWhy.TheVariants.{Header};

use crate::accounts_file::{AccountsFile, Registration, Registrations};
use crate::fault::{InputFault, LineFault, wants};
use crate::fields::{is_password, last_field, next_field, number_within};
use crate::lines::fields_after;
use crate::names::{is_account_name, is_domain};
use base_io::{NameIndex, Text};
use cmd_schedule::{LineWhy, MOST_KEPT, Version, first_line};
use std::alloc::Global;

/// What follows an accounts file.
#[derive(Clone, Copy, PartialEq, Eq)]
pub enum Behind {
    /// Nothing: it is the whole text.
    Nothing,
    /// A line `%%`, and a journal.
    Journal,
}

/// What stands above the accounts, the number of the next line, and the text from there on.
#[derive(Drop)]
struct Preamble<'a> {
    version: Version,
    domain: Text,
    next: u64,
    rest: &'a [u8],
}

/// Accounts, the number of the next line, and the text from there on.
#[derive(Drop)]
struct Registered<'a> {
    accounts: Registrations,
    next: u64,
    rest: &'a [u8],
}

/// An accounts file, the number of the next line, and the text from there on.
#[derive(Drop)]
pub struct Begun<'a> {
    pub file: AccountsFile,
    pub next: u64,
    pub rest: &'a [u8],
}

// Why a line that must be there is missing.
fn missing_line(following: Behind) -> LineWhy
    ensures { result ≡ missing_line following }
{
    match following {
        Behind::Nothing => LineWhy::Word,
        Behind::Journal => LineWhy::Ending,
    }
}

/// Whether line 1 is that of version 2, and what follows it.
#[tactic(auto, unfolding(crate::specs::LineReading::read_first))]
fn read_first(text: &[u8]) -> Result<(bool, &[u8]), LineFault>
    ensures read { Gives (λ first. (first.0, pieces_of first.1.now)) result (with_next read_first Header (pieces_of text.now)) }
    ensures shorter { IfOk result (λ first. length first.1.now < length text.now) }
{
    if text.is_empty() {
        return Err(LineFault::Reason(LineWhy::Header));
    }
    let (line, ended, rest) = first_line(text);
    let has_keep = line == b"xmpp-accounts 2".as_slice();
    wants(
        line == b"xmpp-accounts 1".as_slice() || has_keep,
        LineWhy::Header,
    )?;
    wants(ended, LineWhy::Ending)?;
    Ok((has_keep, rest))
}

#[tactic(auto, unfolding(crate::specs::LineReading::read_domain))]
fn domain_of(alloc: Global, line: &[u8], ended: bool) -> Result<Text, LineFault>
    ensures { Gives (λ name. name) result (read_domain (record { bytes = line.now; ended = ended })) }
{
    let name = last_field(fields_after("domain", line, ended)?)?;
    wants(is_domain(alloc, name)?, LineWhy::Name)?;
    Ok(Text::from_str(alloc, name)?)
}

/// The domain, and what follows its line.
fn read_domain(alloc: Global, following: Behind, text: &[u8]) -> Result<(Text, &[u8]), LineFault>
    ensures read { Gives (λ domain. (domain.0, pieces_of domain.1.now)) result (with_next read_domain (missing_line following) (pieces_of text.now)) }
    ensures shorter { IfOk result (λ domain. length domain.1.now < length text.now) }
{
    if text.is_empty() {
        return Err(LineFault::Reason(missing_line(following)));
    }
    let (line, ended, rest) = first_line(text);
    let name = domain_of(alloc, line, ended)?;
    Ok((name, rest))
}

#[tactic(auto, unfolding(crate::specs::LineReading::read_keep))]
fn keep_of(line: &[u8], ended: bool) -> Result<u32, LineFault>
    ensures { Gives (λ keep. keep) result (read_keep (record { bytes = line.now; ended = ended })) }
{
    let field = last_field(fields_after("keep", line, ended)?)?;
    let keep = number_within(1, u64::from(MOST_KEPT), field)?;
    Ok(keep as u32)
}

/// How many entries archives keep, and what follows the line that says it.
fn read_keep(following: Behind, text: &[u8]) -> Result<(u32, &[u8]), LineFault>
    ensures read { Gives (λ keep. (keep.0, pieces_of keep.1.now)) result (with_next read_keep (missing_line following) (pieces_of text.now)) }
    ensures shorter { IfOk result (λ keep. length keep.1.now < length text.now) }
{
    if text.is_empty() {
        return Err(LineFault::Reason(missing_line(following)));
    }
    let (line, ended, rest) = first_line(text);
    let keep = keep_of(line, ended)?;
    Ok((keep, rest))
}

/// The lines above the accounts behind the domain's.
#[tactic(auto, unfolding(crate::specs::Reading::read_version))]
fn read_version<'a>(
    following: Behind,
    has_keep: bool,
    domain: Text,
    text: &'a [u8],
) -> Result<Preamble<'a>, InputFault>
    ensures read { ReadsAs preamble_seen result (read_version following has_keep domain (pieces_of text.now)) }
    ensures counted { IfOk result (λ above. above.next + length above.rest.now ≤ 4 + length text.now) }
{
    if !has_keep {
        return Ok(Preamble {
            version: Version::One,
            domain,
            next: 3,
            rest: text,
        });
    }
    match read_keep(following, text) {
        Ok((keep, rest)) => Ok(Preamble {
            version: Version::Two { keep },
            domain,
            next: 4,
            rest,
        }),
        Err(LineFault::Reason(why)) => Err(InputFault::BadLine { line: 3, why }),
        Err(LineFault::NoMemory) => Err(InputFault::NoMemory),
    }
}

/// The lines above the accounts.
#[tactic(auto, unfolding(crate::specs::Reading::read_preamble))]
fn read_preamble(alloc: Global, following: Behind, text: &[u8]) -> Result<Preamble<'_>, InputFault>
    ensures read { ReadsAs preamble_seen result (read_preamble following (pieces_of text.now)) }
    ensures counted { IfOk result (λ above. above.next + length above.rest.now ≤ 4 + length text.now) }
{
    let (has_keep, rest) = match read_first(text) {
        Ok(first) => first,
        Err(LineFault::Reason(why)) => return Err(InputFault::BadLine { line: 1, why }),
        Err(LineFault::NoMemory) => return Err(InputFault::NoMemory),
    };
    match read_domain(alloc, following, rest) {
        Ok((domain, rest)) => read_version(following, has_keep, domain, rest),
        Err(LineFault::Reason(why)) => Err(InputFault::BadLine { line: 2, why }),
        Err(LineFault::NoMemory) => Err(InputFault::NoMemory),
    }
}

/// An account, behind those with these names, to which it adds its own. A line that is not read leaves them as they
/// were.
#[tactic(auto, unfolding(crate::specs::LineReading::read_registration))]
fn read_registration(
    alloc: Global,
    above: &mut NameIndex,
    line: &[u8],
    ended: bool,
) -> Result<Registration, LineFault>
    ensures exact { Gives (λ r. r) result (read_registration above.old (record { bytes = line.now; ended = ended })) }
    ensures named { IfOk result (λ r. above.new ≡ above.old ++ r.name ∷ []) }
    ensures err { OnErr result (above.new ≡ above.old) }
{
    let (name, rest) = next_field(fields_after("account", line, ended)?)?;
    let password = last_field(rest)?;
    wants(is_account_name(alloc, name)?, LineWhy::Name)?;
    wants(!above.contains(name), LineWhy::Twice)?;
    wants(is_password(password), LineWhy::Text)?;
    let registration = Registration {
        name: Text::from_str(alloc, name)?,
        password: Text::from_str(alloc, password)?,
    };
    above.add(alloc, name)?;
    Ok(registration)
}

/// Whether the accounts end at a line.
fn is_mark(following: Behind, line: &[u8], ended: bool) -> bool
    ensures { result ≡ is_mark following (record { bytes = line.now; ended = ended }) }
{
    match following {
        Behind::Nothing => false,
        Behind::Journal => ended && line == b"%%".as_slice(),
    }
}

/// The accounts from line `number` on.
fn read_registrations(
    alloc: Global,
    following: Behind,
    number: u64,
    text: &[u8],
) -> Result<Registered<'_>, InputFault>
    requires { number + length text.now < 2 ^ 64 }
    ensures read { ReadsAs registered_seen result (read_registrations following [] number (pieces_of text.now)) }
    ensures counted { IfOk result (λ r. r.next + length r.rest.now ≤ number + length text.now) }
{
    let mut above = NameIndex::new(alloc);
    let mut accounts = Registrations::new(alloc);
    let mut next = number;
    let mut rest = text;
    while !rest.is_empty() {
        let (line, ended, after) = first_line(rest);
        let ends = is_mark(following, line, ended);
        if ends {
            return Ok(Registered {
                accounts,
                next: next + 1,
                rest: after,
            });
        }
        match read_registration(alloc, &mut above, line, ended) {
            Ok(registration) => accounts.push(registration)?,
            Err(LineFault::Reason(why)) => return Err(InputFault::BadLine { line: next, why }),
            Err(LineFault::NoMemory) => return Err(InputFault::NoMemory),
        }
        next += 1;
        rest = after;
    }
    match following {
        Behind::Nothing => Ok(Registered {
            accounts,
            next,
            rest,
        }),
        Behind::Journal => Err(InputFault::BadLine {
            line: next,
            why: LineWhy::Ending,
        }),
    }
}

/// An accounts file, to the end of the text, or to the line `%%`.
#[tactic(auto, unfolding(crate::specs::Reading::read_file))]
pub fn read_file(alloc: Global, following: Behind, text: &[u8]) -> Result<Begun<'_>, InputFault>
    ensures read { ReadsAs begun_seen result (read_file following (pieces_of text.now)) }
    ensures counted { IfOk result (λ begun. begun.next + length begun.rest.now ≤ 4 + length text.now) }
{
    let above = match read_preamble(alloc, following, text) {
        Ok(above) => above,
        Err(fault) => return Err(fault),
    };
    let read = match read_registrations(alloc, following, above.next, above.rest) {
        Ok(read) => read,
        Err(fault) => return Err(fault),
    };
    Ok(Begun {
        file: AccountsFile {
            version: above.version,
            domain: above.domain,
            accounts: read.accounts,
        },
        next: read.next,
        rest: read.rest,
    })
}
