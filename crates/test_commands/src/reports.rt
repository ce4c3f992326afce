//! Reports: what is read of their text is written again, and what is no report is refused.
use base_io::NoMemory;
use cmd_report::{Report, report_text};
use cmd_report_reader::read_report;
use cmd_schedule::{LineWhy, ScheduleFault};
use std::alloc::Global;

/// Texts of reports.
static REPORTS: [&str; 3] = [
    "xmpp-report 1 direct\nend\n",
    "xmpp-report 1 direct\ntake phone 1 1 alice\naccount alice 1\nentry 0000000000000001 0 alice@chat.example/phone alice@chat.example phone.1.1  two  blanks \naccount bob 0\ndevice phone alice 1 yes\nsaid 1 1 acknowledged alice  two  blanks \npage - 1 more\npage 0000000000000001 0 complete 1\nlogged 0000000000000001 0 alice@chat.example/phone alice@chat.example phone.1.1  two  blanks \ndevice desk bob 1 yes\nend\n",
    "xmpp-report 2 wire 2\ntake d 1 1 a 18446744073709551615\naccount a 2 9\nentry 0000000000000009 5 a@chat.example/d a@chat.example d.1.9 x\nconn 1 d 0 1 2 3 cut\nconn 2 d 0 0 0 0 open\ndevice d a 2 no\nsaid 1 1 undecided a x\nsaid 2 1 waiting nobody \u{e9}\nrefused 7 NotBound\nrefused 8 OutboxFull\npage - 1 more\nunderway q2 1\nbreak\nlogged 0000000000000009 5 a@chat.example/d a@chat.example d.1.9 x\nheld 000000000000000a\nheld -\nend\n",
];

/// Texts of no report, each with a line at which that shows and why.
static OTHERS: [(&str, u64, LineWhy); 22] = [
    ("", 1, LineWhy::Header),
    ("xmpp-report 3 wire\nend\n", 1, LineWhy::Header),
    ("xmpp-schedule 1 wire\nend\n", 1, LineWhy::Header),
    ("xmpp-report 1 wire 5\nend\n", 1, LineWhy::Shape),
    ("xmpp-report 2 wire 0\nend\n", 1, LineWhy::Number),
    ("xmpp-report 1 wire", 1, LineWhy::Ending),
    ("xmpp-report 1 wire\n", 2, LineWhy::Ending),
    ("xmpp-report 1 wire\nend", 2, LineWhy::Ending),
    ("xmpp-report 1 wire\nend\nend\n", 3, LineWhy::Word),
    ("xmpp-report 1 wire\nend \n", 2, LineWhy::Shape),
    (
        "xmpp-report 1 wire\ntake d 1 1 a 5\nend\n",
        2,
        LineWhy::Shape,
    ),
    (
        "xmpp-report 2 wire 1\ntake d 1 1 a\nend\n",
        2,
        LineWhy::Shape,
    ),
    (
        "xmpp-report 1 wire\naccount a 01\nend\n",
        2,
        LineWhy::Number,
    ),
    (
        "xmpp-report 1 wire\naccount a 18446744073709551616\nend\n",
        2,
        LineWhy::Number,
    ),
    (
        "xmpp-report 1 wire\naccount a 0\ntake d 1 1 a\nend\n",
        3,
        LineWhy::Word,
    ),
    (
        "xmpp-report 1 wire\nentry 1 0 a b o x\nend\n",
        2,
        LineWhy::Word,
    ),
    (
        "xmpp-report 1 wire\nconn 1 d 0 0 0 0 shut\naccount a 0\nend\n",
        3,
        LineWhy::Word,
    ),
    (
        "xmpp-report 1 wire\nsaid 1 1 waiting a x\nend\n",
        2,
        LineWhy::Word,
    ),
    (
        "xmpp-report 1 wire\ndevice d a 1 yes\nheld 1\nlogged 1 0 a b o x\nend\n",
        4,
        LineWhy::Word,
    ),
    (
        "xmpp-report 1 wire\ndevice d a 1 yes\nbreak\nheld 1\nend\n",
        4,
        LineWhy::Word,
    ),
    (
        "xmpp-report 1 wire\ndevice d a 1 yes\nbreak\nend\n",
        4,
        LineWhy::Word,
    ),
    (
        "xmpp-report 1 wire\ndevice d a 1 maybe\nend\n",
        2,
        LineWhy::Word,
    ),
];

fn is_text(alloc: Global, report: &Report, text: &str) -> Result<bool, NoMemory> {
    let written = report_text(alloc, report)?;
    Ok(written.as_slice() == text.as_bytes())
}

fn is_read_back(alloc: Global, text: &str) -> bool {
    match read_report(alloc, text.as_bytes()) {
        Ok(report) => matches!(is_text(alloc, &report, text), Ok(true)),
        Err(_) => false,
    }
}

fn fault(alloc: Global, text: &str) -> Option<(u64, LineWhy)> {
    match read_report(alloc, text.as_bytes()) {
        Err(ScheduleFault::BadLine { line, why }) => Some((line, why)),
        _ => None,
    }
}

#[test]
fn a_report_is_read_from_its_text(rt: HostRuntime) {
    for text in REPORTS {
        assert!(rt; is_read_back(rt.alloc(), text));
    }
}

#[test]
fn what_is_no_report_is_refused(rt: HostRuntime) {
    for (text, line, why) in OTHERS {
        assert!(rt; fault(rt.alloc(), text) == Some((line, why)));
    }
}
