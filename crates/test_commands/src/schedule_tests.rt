//! Texts that are no schedules, each with its first bad line and the reason.
use cmd_schedule::{LineWhy, ScheduleFault, read_schedule};
use std::alloc::Global;
use std::process::Abort;

// Texts, and why line 1 is bad.
static OF_LINE_ONE: [(&str, LineWhy); 13] = [
    ("", LineWhy::Header),
    ("xmpp-schedule 3 direct\n", LineWhy::Header),
    ("xmpp-schedule 1 direct 5\n", LineWhy::Header),
    ("xmpp-schedule 2 direct\n", LineWhy::Header),
    ("xmpp-schedule 2 direct 0\n", LineWhy::Header),
    ("xmpp-schedule 2 direct 05\n", LineWhy::Header),
    ("xmpp-schedule 2 direct 4294967296\n", LineWhy::Header),
    ("xmpp-schedule 1 direct \n", LineWhy::Header),
    ("account bob", LineWhy::Header),
    ("xmpp-schedule 1 direct", LineWhy::Ending),
    ("xmpp-schedule 2 wire\n", LineWhy::Header),
    ("xmpp-schedule 1 wire 5\n", LineWhy::Header),
    ("xmpp-schedule 1 wire", LineWhy::Ending),
];

// What stands from line 4 on, behind an account and a device, and why line 4 is bad.
static BELOW_A_DEVICE: [(&str, LineWhy); 42] = [
    ("account carol", LineWhy::Ending),
    ("\n", LineWhy::Word),
    ("receipt bob\n", LineWhy::Word),
    ("tick5\n", LineWhy::Word),
    ("Account carol\n", LineWhy::Word),
    ("account\n", LineWhy::Shape),
    ("account \n", LineWhy::Shape),
    ("account carol x\n", LineWhy::Shape),
    ("device desk\n", LineWhy::Shape),
    ("device desk  bob\n", LineWhy::Shape),
    ("say phone bob\n", LineWhy::Shape),
    ("say phone bob \n", LineWhy::Shape),
    ("say  bob hi\n", LineWhy::Shape),
    ("private phone bob\n", LineWhy::Shape),
    ("catchup phone 5 \n", LineWhy::Shape),
    ("tick\n", LineWhy::Shape),
    ("tick 5 5\n", LineWhy::Shape),
    ("account Carol\n", LineWhy::Name),
    ("account 1carol\n", LineWhy::Name),
    ("account aaaaaaaaaaaaaaaaaaaaaaaaaaaaaaaaa\n", LineWhy::Name),
    ("device Desk bob\n", LineWhy::Name),
    ("say phone Bob hi\n", LineWhy::Name),
    ("private phone Bob hi\n", LineWhy::Name),
    ("account bob\n", LineWhy::Twice),
    ("device phone bob\n", LineWhy::Twice),
    ("device desk Carol\n", LineWhy::Unknown),
    ("say NoBody bob hi\n", LineWhy::Unknown),
    ("private desk bob hi\n", LineWhy::Unknown),
    ("catchup desk 5\n", LineWhy::Unknown),
    ("catchup phone 0\n", LineWhy::Number),
    ("catchup phone 101\n", LineWhy::Number),
    ("catchup phone 05\n", LineWhy::Number),
    ("catchup phone +5\n", LineWhy::Number),
    ("catchup phone 18446744073709551617\n", LineWhy::Number),
    ("tick 1000000001\n", LineWhy::Number),
    ("tick 05\n", LineWhy::Number),
    ("tick 18446744073709551617\n", LineWhy::Number),
    ("say phone bob a\tb\n", LineWhy::Text),
    ("say phone bob a\r\n", LineWhy::Text),
    ("private phone bob a\tb\n", LineWhy::Text),
    ("account Carol\nreceipt\n", LineWhy::Name),
    ("receipt\naccount Carol\n", LineWhy::Word),
];

// What stands from line 5 on of a wire schedule, behind an account, a device and its `dial`, and why line 5 is bad.
static BELOW_A_DIAL: [(&str, LineWhy); 30] = [
    ("cut 1 0 0", LineWhy::Ending),
    ("restart\n", LineWhy::Word),
    ("dial\n", LineWhy::Shape),
    ("close phone \n", LineWhy::Shape),
    ("up 1\n", LineWhy::Shape),
    ("down 1 5 \n", LineWhy::Shape),
    ("cut 1 5\n", LineWhy::Shape),
    ("cut 1 5 5 5\n", LineWhy::Shape),
    ("pass 1\n", LineWhy::Shape),
    ("run\n", LineWhy::Shape),
    ("run 8 8\n", LineWhy::Shape),
    ("account Bob\n", LineWhy::Name),
    ("device phone bob\n", LineWhy::Twice),
    ("dial desk\n", LineWhy::Unknown),
    ("forget Phone\n", LineWhy::Unknown),
    ("up 2 5\n", LineWhy::Unknown),
    ("up 0 all\n", LineWhy::Unknown),
    ("down 01 5\n", LineWhy::Unknown),
    ("down x x\n", LineWhy::Unknown),
    ("cut 2 x x\n", LineWhy::Unknown),
    ("pass 2 0\n", LineWhy::Unknown),
    ("up 1 All\n", LineWhy::Number),
    ("up 1 05\n", LineWhy::Number),
    ("down 1 4294967296\n", LineWhy::Number),
    ("cut 1 all 0\n", LineWhy::Number),
    ("cut 1 0 4294967296\n", LineWhy::Number),
    ("pass 1 0\n", LineWhy::Number),
    ("run 1001\n", LineWhy::Number),
    ("private phone bob a\tb\n", LineWhy::Text),
    ("dial desk\nup 0 0\n", LineWhy::Unknown),
];

fn is_fault(alloc: Global, text: String, line: u64, why: LineWhy) -> bool {
    match read_schedule(alloc, text.as_bytes()) {
        Ok(_) => false,
        Err(fault) => fault == ScheduleFault::BadLine { line, why },
    }
}

// Two texts, one behind the other.
fn joined(rt: &impl Abort, alloc: Global, above: &str, below: &str) -> String {
    let mut text = String::from_str(alloc, above).expect(rt, "memory");
    text.push_str(below).expect(rt, "memory");
    text
}

#[test]
fn bad_first_lines(rt: HostRuntime) {
    let alloc = rt.alloc();
    for (text, why) in &OF_LINE_ONE {
        assert!(rt; is_fault(alloc, joined(&rt, alloc, text, ""), 1, *why));
    }
}

#[test]
fn bad_lines_below_a_device(rt: HostRuntime) {
    let alloc = rt.alloc();
    let above = "xmpp-schedule 1 direct\naccount bob\ndevice phone bob\n";
    for (below, why) in &BELOW_A_DEVICE {
        assert!(rt; is_fault(alloc, joined(&rt, alloc, above, below), 4, *why));
    }
}

#[test]
fn bad_lines_below_a_dial(rt: HostRuntime) {
    let alloc = rt.alloc();
    let above = "xmpp-schedule 2 wire 7\naccount bob\ndevice phone bob\ndial phone\n";
    for (below, why) in &BELOW_A_DIAL {
        assert!(rt; is_fault(alloc, joined(&rt, alloc, above, below), 5, *why));
    }
}

fn push_account(rt: &impl Abort, alloc: Global, text: &mut String, i: u64) {
    let number = i.to_string(alloc).expect(rt, "memory");
    text.push_str("account a").expect(rt, "memory");
    text.push_str(number.as_str()).expect(rt, "memory");
    text.push_str("\n").expect(rt, "memory")
}

// A hundred accounts, and the first word of one more.
fn crowd(rt: &impl Abort, alloc: Global) -> String {
    let mut text = joined(rt, alloc, "xmpp-schedule 1 direct\n", "");
    for i in 0_u64..100 {
        push_account(rt, alloc, &mut text, i);
    }
    text.push_str("account \n").expect(rt, "memory");
    text
}

#[test]
fn too_many_accounts(rt: HostRuntime) {
    assert!(rt; is_fault(rt.alloc(), crowd(&rt, rt.alloc()), 102, LineWhy::Many));
}
