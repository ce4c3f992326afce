//! Files of intents are run: what is lost is submitted again, and what was taken is not (XEP-0198, section 5; XEP-0313).
use base_io::{Bytes, NoMemory};
use cmd_deciding::resolved_bytes;
use cmd_schedule::ScheduleFault;
use itoa::Buffer;
use std::alloc::Global;
use std::test::Fail;

// The message reaches no server, and is submitted again behind a catch-up of the next epoch.
static LOST: &str = "xmpp-intents 1 4294967295
account alice
account bob
device phone alice
dial phone
run 8
intent phone bob lost
forget phone
dial phone
pass 2 7
up 1 all
resolve phone 10
run 2
resolve phone 10
run 2
";

static LOST_ANSWER: &str = "xmpp-report 2 wire 4294967295
take phone 2 1 bob 0
account alice 1 1
entry 0000000000000001 0 alice@chat.example/phone bob@chat.example phone.2.1 lost
account bob 1 1
entry 0000000000000001 0 alice@chat.example/phone bob@chat.example phone.2.1 lost
conn 1 phone 1006 845 1185 1185 left
conn 2 phone 1291 1291 1426 1426 open
device phone alice 2 yes
said 1 1 undecided bob lost
said 2 1 acknowledged bob lost
page - 0 complete 0
end
intents 1
intent phone 1 done bob lost
try phone 1 1 1
try phone 1 2 1
end
";

// The server takes it, and its acknowledgement is lost.
static TAKEN: &str = "xmpp-intents 1 4294967295
account alice
account bob
device phone alice
dial phone
run 8
intent phone bob lost
forget phone
dial phone
up 1 all
pass 2 7
resolve phone 10
run 2
resolve phone 10
run 2
";

static TAKEN_ANSWER: &str = "xmpp-report 2 wire 4294967295
take phone 1 1 bob 0
account alice 1 1
entry 0000000000000001 0 alice@chat.example/phone bob@chat.example phone.1.1 lost
account bob 1 1
entry 0000000000000001 0 alice@chat.example/phone bob@chat.example phone.1.1 lost
conn 1 phone 1006 1006 1185 1185 left
conn 2 phone 1130 1130 1917 1917 open
device phone alice 2 yes
said 1 1 undecided bob lost
page - 1 complete 1
logged 0000000000000001 0 alice@chat.example/phone bob@chat.example phone.1.1 lost
end
intents 1
intent phone 1 done bob lost
try phone 1 1 1
end
";

fn bytes_of(alloc: Global, text: &str) -> Result<Bytes, NoMemory> {
    let mut bytes = Bytes::new(alloc);
    bytes.append(text.as_bytes())?;
    Ok(bytes)
}

// Whether a file of intents comes to this text.
fn is_resolved(alloc: Global, text: &str, wanted: &str) -> Result<bool, ScheduleFault> {
    let answer = resolved_bytes(alloc, bytes_of(alloc, text)?)?;
    Ok(answer.as_slice() == wanted.as_bytes())
}

#[test]
fn what_is_lost_is_submitted_again(rt: HostRuntime) {
    for (text, wanted) in [(LOST, LOST_ANSWER), (TAKEN, TAKEN_ANSWER)] {
        assert!(rt; is_resolved(rt.alloc(), text, wanted) == Ok(true));
    }
}

// The lines before and after the one that cuts the connection while the message, of 135 bytes, is under way.
static BEFORE: &str = "xmpp-intents 1 4294967295
account alice
account bob
device phone alice
dial phone
run 8
intent phone bob lost
cut 1 ";

static AFTER: &str = " 0
forget phone
dial phone
up 1 all
pass 2 7
resolve phone 10
run 2
resolve phone 10
run 2
";

// The file in which so many of its bytes still come.
fn cut_file(alloc: Global, passed: u64) -> Result<Bytes, NoMemory> {
    let mut bytes = bytes_of(alloc, BEFORE)?;
    bytes.append(Buffer::new().format(passed).as_bytes())?;
    bytes.append(AFTER.as_bytes())?;
    Ok(bytes)
}

// How many lines tell of a message that was taken.
fn takes(text: &str) -> usize {
    text.lines()
        .filter(|line| line.starts_with("take "))
        .count()
}

// Whether one message is taken, in the epoch that it should be.
fn is_taken_once(alloc: Global, passed: u64) -> Result<bool, ScheduleFault> {
    let answer = resolved_bytes(alloc, cut_file(alloc, passed)?)?;
    let line = if passed < 135 {
        "\ntake phone 2 1 bob 0\n"
    } else {
        "\ntake phone 1 1 bob 0\n"
    };
    match str::from_utf8(answer.as_slice()) {
        Ok(text) => Ok(takes(text) == 1 && text.contains(line)),
        Err(_) => Ok(false),
    }
}

#[test]
fn a_message_that_is_cut_anywhere_is_taken_once(rt: HostRuntime) {
    for passed in 0..200 {
        assert!(rt; is_taken_once(rt.alloc(), passed) == Ok(true));
    }
}
