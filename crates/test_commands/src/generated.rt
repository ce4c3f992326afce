//! Schedules made of two numbers, and the text of a summary.
use cmd_generate::{generate, summary_text};
use cmd_report::Report;
use cmd_report_reader::read_report;
use cmd_schedule::{WireLine, WireSchedule};
use std::alloc::Global;

/// Numbers and sizes, and how many lines the schedule has behind line 1.
static SIZES: [(u64, u32, usize); 3] = [
    (7, 0, 30),
    (7, 1, 31),
    (18_446_744_073_709_551_615, 300, 330),
];

const REPORT: &str =
    "xmpp-report 1 wire\ntake d0 1 1 a0\naccount a0 1\nentry 1 0 a b o x\naccount a1 0\ndevice d0 a0 1 yes\nlogged 1 0 a b o x\ndevice d1 a1 12 no\nend\n";

const SUMMARY: &str =
    "xmpp-summary 1\nlines 31\ntakes 1\naccount a0 1\naccount a1 0\ndevice d0 1 1 yes\ndevice d1 12 0 no\nend\n";

fn are_numbered(lines: &[WireLine]) -> bool {
    (0..lines.len()).all(|i| lines[i].number == i as u64 + 2)
}

fn has_lines(alloc: Global, number: u64, size: u32, count: usize) -> bool {
    if size > 10_000 {
        return false;
    }
    match generate(alloc, number, size) {
        Ok(schedule) => {
            schedule.lines.as_slice().len() == count && are_numbered(schedule.lines.as_slice())
        }
        Err(_) => false,
    }
}

fn is_summary(alloc: Global, schedule: &WireSchedule, report: &Report) -> bool {
    match summary_text(alloc, schedule, report) {
        Ok(text) => text.as_slice() == SUMMARY.as_bytes(),
        Err(_) => false,
    }
}

fn is_summed_up(alloc: Global) -> bool {
    match (generate(alloc, 7, 0), read_report(alloc, REPORT.as_bytes())) {
        (Ok(schedule), Ok(report)) => is_summary(alloc, &schedule, &report),
        _ => false,
    }
}

#[test]
fn a_schedule_is_as_long_as_its_size_says(rt: HostRuntime) {
    for (number, size, count) in SIZES {
        assert!(rt; has_lines(rt.alloc(), number, size, count));
    }
}

#[test]
fn a_report_is_summed_up(rt: HostRuntime) {
    assert!(rt; is_summed_up(rt.alloc()));
}
