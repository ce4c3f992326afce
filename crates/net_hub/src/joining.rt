//! Outputs of one event are joined, a bundle for each connection, so that each half is written to once. Bundles are made
//! before anything is written, and are handed over without memory: so they can be kept until it is known that their
//! event stands, and go to threads that write.
//!
//! What one event puts for one connection is one bundle: its bytes, joined in order, and behind them whether the
//! connection is shut. So a write costs a call of the system for each event and connection, and not for each output.
//! The first output is moved, and others are copied behind it. Bundles stand in a map by connection, so that a
//! connection has one at most by the map's type, and many outputs for many connections cost little more than their
//! number. They are made before the event is noted and anything is written (`NoMemory` there is the event's), and
//! handed over without memory. Whoever keeps outputs back, or hands them to threads that write, takes bundles as they
//! are. The order between two connections is by their numbers.
ghost use Rattle.std.specs.Prelude.{◌++◌, ◌∷◌, ℕ, List, [], IfOk, OnOk};
ghost use Rattle.srv_state.specs.Seen.{out_of, outs_of};
ghost use Rattle.srv_state.specs.State.{Out, Put, Shut};
ghost use Rattle.net_hub.specs.Bundles.{AreJoined};

use crate::bundle::Bundle;
use base_io::{Bytes, NoMemory};
use srv_state::{Output, Outputs};
use std::alloc::Global;
use std::collections::BTreeMap;

/// Bundles by the numbers of their connections: one for each at most.
pub type Bundles = BTreeMap<u64, Bundle>;

// Adds bytes to a connection's bundle. The first are moved, so that an output that is alone is not copied.
fn add_bytes(bundles: &mut Bundles, conn: u64, bytes: Bytes) -> Result<(), NoMemory>
    ensures { OnOk result ((outs : List (Out (List ℕ))) → AreJoined bundles.old outs → AreJoined bundles.new (outs ++ Put conn bytes.items ∷ [])) }
{
    match bundles.get_mut(&conn) {
        Some(bundle) => bundle.bytes.append(bytes.as_slice()),
        None => {
            bundles.insert(conn, Bundle { bytes, shut: false })?;
            Ok(())
        }
    }
}

// Shuts a connection behind what it gets.
fn add_shut(alloc: Global, bundles: &mut Bundles, conn: u64) -> Result<(), NoMemory>
    ensures { OnOk result ((outs : List (Out (List ℕ))) → AreJoined bundles.old outs → AreJoined bundles.new (outs ++ Shut conn ∷ [])) }
{
    match bundles.get_mut(&conn) {
        Some(bundle) => {
            bundle.shut = true;
            Ok(())
        }
        None => {
            let bytes = Bytes::new(alloc);
            bundles.insert(conn, Bundle { bytes, shut: true })?;
            Ok(())
        }
    }
}

// Adds an output to the bundle of its connection.
fn add(alloc: Global, bundles: &mut Bundles, output: Output) -> Result<(), NoMemory>
    ensures { OnOk result ((outs : List (Out (List ℕ))) → AreJoined bundles.old outs → AreJoined bundles.new (outs ++ out_of output ∷ [])) }
{
    match output {
        Output::Put { conn, bytes } => add_bytes(bundles, conn, bytes),
        Output::Shut { conn } => add_shut(alloc, bundles, conn),
        Output::Took { .. } => Ok(()),
    }
}

/// Joins what outputs put for each connection, in order.
pub fn join(alloc: Global, outputs: Outputs) -> Result<Bundles, NoMemory>
    ensures { IfOk result (λ bundles. AreJoined bundles (outs_of outputs.items)) }
{
    let mut bundles = Bundles::new(alloc);
    for output in outputs.into_items() {
        add(alloc, &mut bundles, output)?;
    }
    Ok(bundles)
}
