//! What a server put out and what it keeps, as the text of a run has them.
ghost use Rattle.std.specs.Prelude.{◌≡◌, ◌++◌, ◌<◌, ◌^◌, IfOk, OnOk, length, map};
ghost use Rattle.std.specs.Option.{option_copied, option_map};
ghost use Rattle.srv_state.specs.Seen.{kept_of, out_of, outs_of};
ghost use Rattle.cmd_journal.specs.Texts.{named_view, output_view};
ghost use Rattle.cmd_rerun.specs.Reruns.{line_of, lines_of, named_archives, named_kept};

use base_io::NoMemory;
use cmd_journal::{NamedArchive, Output as Line, Outputs as Lines, Registration};
use mam_archive::Archive;
use srv_core::{Output, Outputs, Server};
use std::alloc::Global;

// Adds the line of an output, where it has one. The bytes move.
fn add_line(lines: &mut Lines, output: Output) -> Result<(), NoMemory>
    ensures { OnOk result (map output_view lines.new.items ≡ map output_view lines.old.items ++ line_of (out_of output)) }
{
    match output {
        Output::Put { conn, bytes } => lines.push(Line::Put {
            connection: conn,
            bytes,
        }),
        Output::Shut { conn } => lines.push(Line::Shut { connection: conn }),
        Output::Took { .. } => Ok(()),
    }
}

/// The lines of outputs, in order.
pub(crate) fn lines_of(alloc: Global, outputs: Outputs) -> Result<Lines, NoMemory>
    ensures { IfOk result (λ lines. map output_view lines.items ≡ lines_of (outs_of outputs.items)) }
{
    let mut lines = Lines::new(alloc);
    for output in outputs.into_items() {
        add_line(&mut lines, output)?;
    }
    Ok(lines)
}

// Adds the archive of an account, where it has one.
fn add_archive<'a>(
    named: &mut Vec<NamedArchive<'a>>,
    name: &'a str,
    archive: Option<&'a Archive>,
) -> Result<(), NoMemory>
    ensures { OnOk result (map named_view named.new.items ≡ map named_view named.old.items ++ named_kept name.now (option_map kept_of (option_copied archive.entry))) }
{
    match archive {
        Some(archive) => named.push(NamedArchive { name, archive })?,
        None => {}
    }
    Ok(())
}

/// The archives of a server, each under the name of its account. They borrow.
pub(crate) fn named_archives<'a>(
    alloc: Global,
    registrations: &'a [Registration],
    server: &'a Server,
) -> Result<Vec<NamedArchive<'a>>, NoMemory>
    requires { length registrations.now < 2 ^ 32 }
    ensures { IfOk result (λ named. map named_view named.items ≡ named_archives registrations.now server.now.server_state.archives) }
{
    let mut named = Vec::new(alloc);
    let mut position = 0u32;
    for r in registrations {
        add_archive(&mut named, r.name.as_str(), server.archive(position))?;
        position += 1;
    }
    Ok(named)
}
