//! Files of intents are read, or refused with the first bad line and why.
use cmd_intents::{MOST_LINES, read_intents};
use cmd_schedule::{LineWhy, ScheduleFault};
use std::alloc::Global;

static FILE: &str = "xmpp-intents 1 5
account bob
device pad bob
say pad bob plain
intent pad bob first
resolve pad 10
intent pad bob second
";

// Whether the file's intents are lines 5 and 7, and line 6 resolves.
fn is_read(alloc: Global) -> bool {
    match read_intents(alloc, FILE.as_bytes()) {
        Ok(file) => file.intents.as_slice() == [5, 7].as_slice()
            && file.resolves.as_slice() == [6].as_slice(),
        Err(_) => false,
    }
}

#[test]
fn a_file_has_its_intents(rt: HostRuntime) {
    assert!(rt; is_read(rt.alloc()));
}

// Texts that are no file, with the first bad line and why.
static BAD: [(&str, u64, LineWhy); 7] = [
    ("", 1, LineWhy::Header),
    ("xmpp-schedule 2 wire 5\n", 1, LineWhy::Header),
    ("xmpp-intents 2 5\n", 1, LineWhy::Header),
    ("xmpp-intents 1 5", 1, LineWhy::Ending),
    ("xmpp-intents 1 5\nintent pad\n", 2, LineWhy::Shape),
    ("xmpp-intents 1 5\nresolve pad 10\n", 2, LineWhy::Unknown),
    ("xmpp-intents 1 5\nintents pad bob hi\n", 2, LineWhy::Word),
];

fn is_refused(alloc: Global, text: &str, line: u64, why: LineWhy) -> bool {
    match read_intents(alloc, text.as_bytes()) {
        Ok(_) => false,
        Err(fault) => fault == ScheduleFault::BadLine { line, why },
    }
}

#[test]
fn bad_files_are_refused(rt: HostRuntime) {
    for (text, line, why) in BAD {
        assert!(rt; is_refused(rt.alloc(), text, line, why));
    }
}
