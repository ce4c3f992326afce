//! What a journal ends with: the archives.
ghost use Rattle.std.specs.Prelude.{◌≡◌, ◌++◌, ◌<◌, ◌^◌, IfOk, OnOk, length};
ghost use Rattle.std.specs.List.{flat_map};
ghost use Rattle.std.specs.Option.{option_copied, option_map};
ghost use Rattle.srv_state.specs.Seen.{kept_of};
ghost use Rattle.cmd_journal.specs.Texts.{archive_text};
ghost use Rattle.cmd_rerun.specs.Reruns.{named_archives, named_kept};
ghost use Rattle.cmd_rerun.specs.Journaling.{ending_text};

use base_io::{Bytes, NoMemory};
use cmd_journal::{AccountsFile, Registration, append_archive};
use cmd_schedule::Version;
use mam_archive::Archive;
use srv_core::Server;

// Adds the lines of an account's archive, where it has one.
fn append_kept(
    out: &mut Bytes,
    version: Version,
    name: &str,
    archive: Option<&Archive>,
) -> Result<(), NoMemory>
    ensures { OnOk result (out.new.items ≡ out.old.items ++ flat_map (archive_text version) (named_kept name.now (option_map kept_of (option_copied archive.entry)))) }
{
    match archive {
        Some(archive) => append_archive(out, version, name, archive),
        None => Ok(()),
    }
}

// Adds the lines of all archives, in the order of the accounts.
fn append_archives(
    out: &mut Bytes,
    version: Version,
    registrations: &[Registration],
    server: &Server,
) -> Result<(), NoMemory>
    requires { length registrations.now < 2 ^ 32 }
    ensures { OnOk result (out.new.items ≡ out.old.items ++ flat_map (archive_text version) (named_archives registrations.now server.now.server_state.archives)) }
{
    let mut position = 0u32;
    for r in registrations {
        append_kept(out, version, r.name.as_str(), server.archive(position))?;
        position += 1;
    }
    Ok(())
}

/// Ends a journal.
pub(crate) fn finish(
    server: Server,
    mut journal: Bytes,
    file: &AccountsFile,
) -> Result<Bytes, NoMemory>
    requires { length file.now.accounts < 2 ^ 32 }
    ensures { IfOk result (λ text. text.items ≡ journal.items ++ ending_text file.now.version (named_archives file.now.accounts server.server_state.archives)) }
{
    append_archives(
        &mut journal,
        file.version,
        file.accounts.as_slice(),
        &server,
    )?;
    journal.append(b"end\n")?;
    Ok(journal)
}
