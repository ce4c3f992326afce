//! Calls of a client, with what it puts.
ghost use Rattle.std.specs.Prelude.{◌≡◌, IfOk, OnOk};
ghost use Rattle.cl_core.specs.Feeds.{bytes_step};
ghost use Rattle.cl_core.specs.UserCalls.{closes, dials};
ghost use Rattle.cl_core.specs.Values.{ClientValue, fed_of};
ghost use Rattle.cl_handlers.specs.Speech.{in_bytes};
ghost use Rattle.cmd_network.specs.Devices.{client_after, silent};

use base_io::{Bytes, NoMemory};
use cl_core::{Client, ClientOut, Events};
use std::alloc::Global;

/// Nothing put, and nothing told.
pub(crate) fn silence(alloc: Global) -> ClientOut
    ensures { (client : ClientValue) → fed_of client result ≡ silent client }
{
    ClientOut {
        bytes: Bytes::new(alloc),
        events: Events::new(alloc),
    }
}

/// A connection begins.
pub(crate) fn dial(
    alloc: Global,
    client: &mut Client,
    entropy: &[u8; 24],
) -> Result<Bytes, NoMemory>
    ensures client { OnOk result (client.new ≡ client_after (dials in_bytes entropy.now (silent client.old))) }
    ensures put { IfOk result (λ put. put.items ≡ (dials in_bytes entropy.now (silent client.old)).turn.out.put) }
{
    let mut out = silence(alloc);
    client.dial(alloc, entropy, &mut out)?;
    Ok(out.bytes)
}

/// Bytes of the server come.
pub(crate) fn feed(alloc: Global, client: &mut Client, piece: &[u8]) -> Result<Bytes, NoMemory>
    ensures client { OnOk result (client.new ≡ client_after (bytes_step in_bytes (silent client.old) piece.now)) }
    ensures put { IfOk result (λ put. put.items ≡ (bytes_step in_bytes (silent client.old) piece.now).turn.out.put) }
{
    let mut out = silence(alloc);
    client.bytes(alloc, piece, &mut out)?;
    Ok(out.bytes)
}

/// The stream is closed.
pub(crate) fn close(alloc: Global, client: &mut Client) -> Result<Bytes, NoMemory>
    ensures client { OnOk result (client.new ≡ client_after (closes in_bytes (silent client.old))) }
    ensures put { IfOk result (λ put. put.items ≡ (closes in_bytes (silent client.old)).turn.out.put) }
{
    let mut out = silence(alloc);
    client.close(alloc, &mut out)?;
    Ok(out.bytes)
}
