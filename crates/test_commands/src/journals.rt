//! Accounts files and journals: what is read of them, and what is written again.
use base_io::{Bytes, NoMemory};
use cmd_journal::{
    AccountsFile, InputFault, RerunInput, append_event, append_journal_header, read_accounts,
    read_rerun,
};
use cmd_schedule::{LineWhy, Version};
use std::alloc::Global;

const ACCOUNTS: &str =
    "xmpp-accounts 2\ndomain chat.example\nkeep 3\naccount alice pw-alice\naccount o!d ~!\"\n";

const INPUT: &str =
    "xmpp-accounts 1\ndomain chat.example\naccount alice pw-alice\n%%\nxmpp-journal 1\nconnect 1 5 000102030405060708090a0b0c0d0e0f1011121314151617\npiece 1 6 3c61ff\ngone 1 253402207200000\naccount alice 0\nend\n";

const JOURNAL: &str =
    "xmpp-journal 1\nconnect 1 5 000102030405060708090a0b0c0d0e0f1011121314151617\npiece 1 6 3c61ff\ngone 1 253402207200000\n";

fn is_said(file: &AccountsFile) -> bool {
    match file.accounts.as_slice() {
        [_, second] => second.name.as_str() == "o!d" && second.password.as_str() == "~!\"",
        _ => false,
    }
}

fn are_read(alloc: Global, text: &str) -> bool {
    match read_accounts(alloc, text.as_bytes()) {
        Ok(file) => file.version == Version::Two { keep: 3 } && is_said(&file),
        Err(_) => false,
    }
}

fn written(alloc: Global, input: &RerunInput) -> Result<Bytes, NoMemory> {
    let mut out = Bytes::new(alloc);
    append_journal_header(&mut out, input.accounts.version)?;
    for event in input.events.as_slice() {
        append_event(alloc, &mut out, event)?;
    }
    Ok(out)
}

fn is_written_again(alloc: Global, input: &RerunInput, journal: &str) -> bool {
    match written(alloc, input) {
        Ok(text) => text.as_slice() == journal.as_bytes(),
        Err(_) => false,
    }
}

fn is_done_again(alloc: Global, text: &str, journal: &str) -> bool {
    match read_rerun(alloc, text.as_bytes()) {
        Ok(input) => is_written_again(alloc, &input, journal),
        Err(_) => false,
    }
}

fn refusal(alloc: Global, text: &str) -> Option<InputFault> {
    read_rerun(alloc, text.as_bytes()).err()
}

#[test]
fn files_are_read(rt: HostRuntime) {
    assert!(rt;
        are_read(rt.alloc(), ACCOUNTS)
            && is_done_again(rt.alloc(), INPUT, JOURNAL)
            && refusal(rt.alloc(), ACCOUNTS)
                == Some(InputFault::BadLine {
                    line: 6,
                    why: LineWhy::Ending
                })
    );
}
