//! Words that are made ahead, since few of the stanzas that might need them do.
//!
//! What goes out to many is made before anything changes: all stanzas, the room of queues, outputs and archives. An
//! `r` or the end of a session for which too many wait is made ahead and kept (`Prebuilt`).
ghost use Rattle.std.specs.Prelude.{◌≡◌, ◌+◌, ◌≤◌, IfOk, OnOk, length};
ghost use Rattle.im_replies.specs.Management.{request_text};
ghost use Rattle.im_replies.specs.Streams.{error_text, footer_text};
ghost use Rattle.im_replies.specs.declared.conditions.StreamCondition.TheVariants.{ResourceConstraint};

use base_io::{Bytes, NoMemory};
use im_replies::{StreamCondition, footer, request, stream_error};
use std::alloc::Global;

/// An `r` (XEP-0198, section 4).
#[derive(Drop)]
pub struct MadeRequest {
    pub bytes: Bytes,
    ghost is: { bytes.items ≡ request_text },
}

/// The error and the footer for a session of which too many stanzas wait.
#[derive(Drop)]
pub struct Overflow {
    pub error: Bytes,
    pub footer: Bytes,
    ghost error_is: { error.items ≡ error_text ResourceConstraint },
    ghost footer_is: { footer.items ≡ footer_text },
}

/// What was made ahead and not needed yet.
#[derive(Drop)]
pub struct Prebuilt {
    pub requests: Vec<MadeRequest>,
    pub overflows: Vec<Overflow>,
}

impl MadeRequest {
    fn new(alloc: Global) -> Result<MadeRequest, NoMemory> {
        let bytes = request(alloc)?;
        Ok(MadeRequest { bytes })
    }
}

impl Overflow {
    fn new(alloc: Global) -> Result<Overflow, NoMemory> {
        let error = stream_error(alloc, StreamCondition::ResourceConstraint)?;
        let footer = footer(alloc)?;
        Ok(Overflow { error, footer })
    }
}

// Makes requests until there are so many.
fn make_requests(
    alloc: Global,
    requests: &mut Vec<MadeRequest>,
    count: usize,
) -> Result<(), NoMemory>
    ensures ok { OnOk result (count ≤ length requests.new.items) }
    ensures kept { length requests.old.items ≤ length requests.new.items }
{
    while requests.len() < count {
        let made = MadeRequest::new(alloc)?;
        requests.push(made)?;
    }
    Ok(())
}

// The same of the words for an overflow.
fn make_overflows(
    alloc: Global,
    overflows: &mut Vec<Overflow>,
    count: usize,
) -> Result<(), NoMemory>
    ensures ok { OnOk result (count ≤ length overflows.new.items) }
    ensures kept { length overflows.old.items ≤ length overflows.new.items }
{
    while overflows.len() < count {
        let made = Overflow::new(alloc)?;
        overflows.push(made)?;
    }
    Ok(())
}

impl Prebuilt {
    /// Nothing.
    pub fn new(alloc: Global) -> Prebuilt {
        Prebuilt {
            requests: Vec::new(alloc),
            overflows: Vec::new(alloc),
        }
    }

    /// Makes it hold what so many stanzas may need, and never less than it held.
    pub fn reserve(&mut self, alloc: Global, count: usize) -> Result<(), NoMemory>
        ensures requests { OnOk result (count ≤ length self.new.requests.items) }
        ensures overflows { OnOk result (count ≤ length self.new.overflows.items) }
    {
        make_requests(alloc, &mut self.requests, count)?;
        make_overflows(alloc, &mut self.overflows, count)
    }

    /// Takes an `r` out.
    pub fn take_request(&mut self) -> Bytes
        requires { 1 ≤ length self.old.requests.items }
        ensures request { result.items ≡ request_text }
        ensures requests { length self.old.requests.items ≤ length self.new.requests.items + 1 }
        ensures overflows { self.new.overflows ≡ self.old.overflows }
    {
        match self.requests.pop() {
            Some(made) => made.bytes,
            None => unreachable!(),
        }
    }

    /// Takes the words for an overflow out.
    pub fn take_overflow(&mut self) -> Overflow
        requires { 1 ≤ length self.old.overflows.items }
        ensures requests { self.new.requests ≡ self.old.requests }
        ensures overflows { length self.old.overflows.items ≤ length self.new.overflows.items + 1 }
    {
        match self.overflows.pop() {
            Some(made) => made,
            None => unreachable!(),
        }
    }
}
