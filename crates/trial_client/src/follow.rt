//! The lines of the input, one by one.
use crate::fields::cut;
use crate::steps::{begin, take};
use crate::stop::Stop;
use base_io::{Bytes, ListOf};
use cl_core::{Client, ClientOut};
use hex::encode;
use std::alloc::Global;

// Puts another client, or none, in the place of one. What the drop of a client goes through stays in here.
fn replace_client(client: &mut Option<Client>, other: Option<Client>) {
    *client = other;
}

// Nothing is put.
fn clear(out: &mut ClientOut, alloc: Global) {
    out.bytes = Bytes::new(alloc);
    out.events = ListOf::new(alloc);
}

fn write_put(rt: &HostRuntime, out: &ClientOut) -> Result<(), Stop> {
    let put = encode(rt.alloc(), out.bytes.as_slice())?;
    let put = put.as_str();
    println!(rt; "{put}")?;
    Ok(())
}

fn step(
    rt: &HostRuntime,
    client: &mut Option<Client>,
    line: &str,
    out: &mut ClientOut,
) -> Result<(), Stop> {
    match client {
        Some(client) => take(client, rt.alloc(), line, out),
        None => Err(Stop::Line),
    }
}

fn start(rt: &HostRuntime, client: &mut Option<Client>, fields: &str) -> Result<(), Stop> {
    let begun = begin(rt.alloc(), fields)?;
    replace_client(client, Some(begun));
    Ok(())
}

// Ends a client, and writes what it put.
fn end(rt: &HostRuntime, client: &mut Option<Client>, out: &mut ClientOut) -> Result<(), Stop> {
    write_put(rt, out)?;
    replace_client(client, None);
    clear(out, rt.alloc());
    Ok(())
}

fn take_line(
    rt: &HostRuntime,
    client: &mut Option<Client>,
    line: &str,
    out: &mut ClientOut,
) -> Result<(), Stop> {
    let (word, fields) = cut(line);
    match word {
        "client" => start(rt, client, fields),
        "end" => end(rt, client, out),
        _ => step(rt, client, line, out),
    }
}

fn take_lines(
    rt: &HostRuntime,
    client: &mut Option<Client>,
    out: &mut ClientOut,
) -> Result<(), Stop> {
    for line in rt.lines(rt.alloc()) {
        take_line(rt, client, line?.as_str(), out)?;
    }
    Ok(())
}

/// Does what each line says.
pub(crate) fn follow(rt: &HostRuntime) -> Result<(), Stop> {
    let mut client = None;
    let mut out = ClientOut {
        bytes: Bytes::new(rt.alloc()),
        events: ListOf::new(rt.alloc()),
    };
    take_lines(rt, &mut client, &mut out)
}
