//! The judgement of a stream's header (RFC 6120, sections 4.7, 4.8 and 4.9.3).
ghost use Rattle.std.specs.Prelude.{◌≡◌, ◌==◌, true, not, IfOk, IsSome, OnErr};
ghost use Rattle.std.specs.List.{list_all, list_any};
ghost use Rattle.std.specs.Char.{is_ascii_digit};
ghost use Rattle.srv_login.specs.Accounts.{is_form};
ghost use Rattle.srv_login.specs.Headers.{are_digits, condition_name, has_version, header_answer, is_major, is_of_client, is_version};
ghost use Rattle.im_jid.specs.Normal.{normal};

use base_io::NoMemory;
use im_jid::{Jid, JidFault};
use im_stanza::{CLIENT, STREAMS};
use std::alloc::Global;
use xml_names::Header;

/// What is wrong with a stream's header, as the condition of a stream error (RFC 6120, section 4.9.3).
#[derive(Clone, Copy, Debug, PartialEq, Eq)]
pub enum HeaderFault {
    /// The root is not `stream` in the streams namespace, or its content namespace is not `jabber:client`.
    InvalidNamespace,
    /// The version is not two numbers with a dot between them, the first at least 1, or it is absent.
    UnsupportedVersion,
    /// The stream is addressed to another domain.
    HostUnknown,
}

impl HeaderFault {
    /// The name of the condition's element.
    pub fn name(self) -> &'static str
        ensures { result.now ≡ condition_name self }
    {
        match self {
            HeaderFault::InvalidNamespace => "invalid-namespace",
            HeaderFault::UnsupportedVersion => "unsupported-version",
            HeaderFault::HostUnknown => "host-unknown",
        }
    }
}

/// What a server answers to a header.
#[derive(Clone, Copy, Debug, PartialEq, Eq)]
pub enum HeaderAnswer {
    /// The stream opens.
    Opens,
    /// The stream ends with this error.
    Refused(HeaderFault),
}

// Whether the root opens a stream between a client and its server.
#[tactic(auto, unfolding(im_stanza::specs::Names::client_ns, im_stanza::specs::Names::streams_ns))]
fn is_of_client(header: &Header) -> bool
    ensures { result ≡ is_of_client header.now }
{
    header.ns.as_str() == STREAMS
        && header.name.as_str() == "stream"
        && header.content.as_str() == CLIENT
}

// Whether a text is one or more digits.
fn are_digits(text: &str) -> bool
    ensures { result ≡ are_digits text.now }
{
    let bytes = text.as_bytes();
    bytes.len() > 0 && all_digits(bytes)
}

fn all_digits(bytes: &[u8]) -> bool
    ensures { result ≡ list_all is_ascii_digit bytes.now }
{
    bytes.iter().all(|byte| byte.is_ascii_digit())
}

// Whether a text is a number of 1 or more, however long: some digit isn't 0.
#[tactic(auto, using(crate::proofs::MajorVersions::major_is))]
fn is_major(text: &str) -> bool
    ensures { result ≡ is_major text.now }
{
    are_digits(text) && has_more_than_zeros(text.as_bytes())
}

fn has_more_than_zeros(bytes: &[u8]) -> bool
    ensures { result ≡ list_any (λ b. not (b == 48)) bytes.now }
{
    bytes.iter().any(|byte| *byte != b'0')
}

// Whether a text is a version that is supported.
fn is_version(text: &str) -> bool
    ensures { result ≡ is_version text.now }
{
    match text.split_once('.') {
        Some((major, minor)) => is_major(major) && are_digits(minor),
        None => false,
    }
}

fn has_version(header: &Header) -> bool
    ensures { result ≡ has_version header.now }
{
    match &header.version {
        Some(version) => is_version(version.as_str()),
        None => false,
    }
}

// Whether an address is the domain's, which is in normal form.
fn is_domain(alloc: Global, domain: &str, to: &str) -> Result<bool, NoMemory>
    ensures { IfOk result (λ is. is ≡ is_form (normal to.now) domain.now) }
{
    match Jid::parse(alloc, to) {
        Ok(jid) => Ok(jid.text() == domain),
        Err(JidFault::NoMemory) => Err(NoMemory),
        Err(_) => Ok(false),
    }
}

/// Judges a client's header at a server's domain, which is in normal form (RFC 6120, sections 4.7 and 4.8): first the
/// root and its content namespace, then the version, then the domain that `to` addresses, by its normal form. An absent
/// `to` counts as the domain. Memory is wanted for the last alone.
pub fn judge_header(alloc: Global, domain: &str, header: &Header) -> Result<HeaderAnswer, NoMemory>
    ensures answer { IfOk result (λ answer. answer ≡ header_answer domain.now header.now) }
    ensures root { OnErr result (is_of_client header.now ≡ true) }
    ensures version { OnErr result (has_version header.now ≡ true) }
    ensures addressed { OnErr result (IsSome header.now.to) }
{
    if !is_of_client(header) {
        return Ok(HeaderAnswer::Refused(HeaderFault::InvalidNamespace));
    }
    if !has_version(header) {
        return Ok(HeaderAnswer::Refused(HeaderFault::UnsupportedVersion));
    }
    let Some(to) = &header.to else {
        return Ok(HeaderAnswer::Opens);
    };
    if is_domain(alloc, domain, to.as_str())? {
        Ok(HeaderAnswer::Opens)
    } else {
        Ok(HeaderAnswer::Refused(HeaderFault::HostUnknown))
    }
}
