//! Runs of a generated schedule: the report is read back from its text, and a second run is summed up in the same bytes.
use base_io::Bytes;
use cmd_generate::{MOST_SIZE, generate, summary_text};
use cmd_report::{Report, report_text};
use cmd_report_reader::read_report;
use cmd_world::wire_report;
use std::alloc::Global;
use std::process::Abort;

fn text_of(rt: &impl Abort, alloc: Global, report: &Report) -> Bytes {
    report_text(alloc, report).expect(rt, "memory")
}

fn is_same(one: Bytes, other: Bytes) -> bool {
    one.as_slice() == other.as_slice()
}

// What is read of a text, which is a report's.
fn read(rt: &impl Abort, alloc: Global, text: Bytes) -> Report {
    read_report(alloc, text.as_slice()).expect(rt, "a report")
}

// Whether what is read of a report's text is a report with that text.
fn is_read_back(rt: &impl Abort, alloc: Global, report: &Report) -> bool {
    let again = read(rt, alloc, text_of(rt, alloc, report));
    is_same(text_of(rt, alloc, &again), text_of(rt, alloc, report))
}

// The summary of the report of the schedule that the numbers make. That report is read back.
fn summed_up(rt: &impl Abort, alloc: Global, number: u64, size: u32) -> Bytes {
    assert!(rt; size <= MOST_SIZE);
    let schedule = generate(alloc, number, size).expect(rt, "memory");
    let report = wire_report(alloc, &schedule).expect(rt, "memory");
    assert!(rt; is_read_back(rt, alloc, &report));
    summary_text(alloc, &schedule, &report).expect(rt, "memory")
}

#[test]
fn a_generated_report_is_read_back(rt: HostRuntime) {
    let alloc = rt.alloc();
    let one = summed_up(&rt, alloc, 7, 2000);
    assert!(rt; is_same(one, summed_up(&rt, alloc, 7, 2000)));
}
