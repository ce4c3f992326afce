//! What a client does at a line.
use crate::fields::{bytes, cut, entropy, number};
use crate::stop::Stop;
use cl_core::{Client, ClientFault, ClientOut};
use im_jid::{Jid, JidFault};
use mam_pages::MOST_RESULTS;
use std::alloc::Global;

// An address.
fn address(alloc: Global, field: &str) -> Result<Jid, Stop> {
    match Jid::parse(alloc, field) {
        Ok(address) => Ok(address),
        Err(JidFault::NoMemory) => Err(Stop::NoMemory),
        Err(_) => Err(Stop::Line),
    }
}

// The client of an account.
fn made(alloc: Global, account: &Jid, fields: &str) -> Result<Client, Stop> {
    let (password, resource) = cut(fields);
    match Client::new(alloc, account, password, resource) {
        Ok(client) => Ok(client),
        Err(ClientFault::NoMemory) => Err(Stop::NoMemory),
        Err(_) => Err(Stop::Line),
    }
}

/// A client before its first connection.
pub(crate) fn begin(alloc: Global, fields: &str) -> Result<Client, Stop> {
    let (account, fields) = cut(fields);
    let account = address(alloc, account)?;
    made(alloc, &account, fields)
}

fn say(client: &mut Client, alloc: Global, fields: &str, out: &mut ClientOut) -> Result<(), Stop> {
    let (to, text) = cut(fields);
    let to = address(alloc, to)?;
    client.say(alloc, &to, text, false, out)?;
    Ok(())
}

fn catch_up(
    client: &mut Client,
    alloc: Global,
    fields: &str,
    out: &mut ClientOut,
) -> Result<(), Stop> {
    let max = number(fields)?;
    if max < 1 || max > MOST_RESULTS {
        return Err(Stop::Line);
    }
    client.catch_up(alloc, max, out)?;
    Ok(())
}

fn piece(
    client: &mut Client,
    alloc: Global,
    fields: &str,
    out: &mut ClientOut,
) -> Result<(), Stop> {
    let piece = bytes(alloc, fields)?;
    client.bytes(alloc, piece.as_slice(), out)?;
    Ok(())
}

/// Does what a line says. What the client puts stands behind what it put before.
pub(crate) fn take(
    client: &mut Client,
    alloc: Global,
    line: &str,
    out: &mut ClientOut,
) -> Result<(), Stop> {
    let (word, fields) = cut(line);
    match word {
        "dial" => Ok(client.dial(alloc, &entropy(fields)?, out)?),
        "piece" => piece(client, alloc, fields, out),
        "gone" => {
            client.gone();
            Ok(())
        }
        "say" => say(client, alloc, fields, out),
        "catchup" => catch_up(client, alloc, fields, out),
        "close" => Ok(client.close(alloc, out)?),
        _ => Err(Stop::Line),
    }
}
