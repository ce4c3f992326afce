//! Schedules of both versions are read, run and reported.
use crate::report_tests::has_text;
use base_io::NoMemory;
use cmd_replay::direct;
use cmd_schedule::{Schedule, read_schedule};
use std::alloc::Global;
use std::test::Fail;

static FIRST: &str = "xmpp-schedule 1 direct
account alice
device phone alice
say phone bob hi
account bob
device desk bob
say desk alice yo
say phone zoe lost
catchup phone 1
";

static FIRST_REPORT: &str = "xmpp-report 1 direct
take phone 1 1 bob
take desk 1 1 alice
account alice 2
entry 0000000000000001 0 alice@chat.example/phone bob@chat.example phone.1.1 hi
entry 0000000000000002 0 bob@chat.example/desk alice@chat.example desk.1.1 yo
account bob 2
entry 0000000000000001 0 alice@chat.example/phone bob@chat.example phone.1.1 hi
entry 0000000000000002 0 bob@chat.example/desk alice@chat.example desk.1.1 yo
device phone alice 1 yes
said 1 1 acknowledged bob hi
said 1 2 acknowledged zoe lost
page - 1 more
page 0000000000000001 1 complete 2
logged 0000000000000001 0 alice@chat.example/phone bob@chat.example phone.1.1 hi
logged 0000000000000002 0 bob@chat.example/desk alice@chat.example desk.1.1 yo
device desk bob 1 yes
said 1 1 acknowledged alice yo
end
";

// A clock that moves on, and a private message.
static TIMED: &str = "xmpp-schedule 1 direct
account alice
account bob
device phone alice
tick 5
say phone bob hi
private phone bob psst
";

static TIMED_REPORT: &str = "xmpp-report 1 direct
take phone 1 1 bob
take phone 1 2 bob
account alice 2
entry 0000000000000001 5 alice@chat.example/phone bob@chat.example phone.1.1 hi
entry 0000000000000002 5 alice@chat.example/phone bob@chat.example phone.1.2 psst
account bob 2
entry 0000000000000001 5 alice@chat.example/phone bob@chat.example phone.1.1 hi
entry 0000000000000002 5 alice@chat.example/phone bob@chat.example phone.1.2 psst
device phone alice 1 yes
said 1 1 acknowledged bob hi
said 1 2 acknowledged bob psst
end
";

// The second catch-up's archive has purged the log's last entry.
static PURGED: &str = "xmpp-schedule 2 direct 2
account alice
account bob
device phone alice
say phone bob m1
catchup phone 10
say phone bob m2
say phone bob m3
say phone bob m4
catchup phone 1
";

static PURGED_REPORT: &str = "xmpp-report 2 direct 2
take phone 1 1 bob 0
take phone 1 2 bob 0
take phone 1 3 bob 0
take phone 1 4 bob 0
account alice 2 4
entry 0000000000000003 0 alice@chat.example/phone bob@chat.example phone.1.3 m3
entry 0000000000000004 0 alice@chat.example/phone bob@chat.example phone.1.4 m4
account bob 2 4
entry 0000000000000003 0 alice@chat.example/phone bob@chat.example phone.1.3 m3
entry 0000000000000004 0 alice@chat.example/phone bob@chat.example phone.1.4 m4
device phone alice 1 yes
said 1 1 acknowledged bob m1
said 1 2 acknowledged bob m2
said 1 3 acknowledged bob m3
said 1 4 acknowledged bob m4
page - 1 complete 1
page - 1 more
page 0000000000000003 1 complete 2
logged 0000000000000001 0 alice@chat.example/phone bob@chat.example phone.1.1 m1
break
logged 0000000000000003 0 alice@chat.example/phone bob@chat.example phone.1.3 m3
logged 0000000000000004 0 alice@chat.example/phone bob@chat.example phone.1.4 m4
end
";

// Whether a text is a schedule, and this the text of its report.
fn is_replayed(alloc: Global, text: &str, wanted: &str) -> Result<bool, NoMemory> {
    let Ok(Schedule::Direct(schedule)) = read_schedule(alloc, text.as_bytes()) else {
        return Ok(false);
    };
    has_text(alloc, &direct(alloc, schedule)?, wanted)
}

#[test]
fn schedules_and_their_reports(rt: HostRuntime) -> Result<(), Fail> {
    for (text, wanted) in [
        (FIRST, FIRST_REPORT),
        (TIMED, TIMED_REPORT),
        (PURGED, PURGED_REPORT),
    ] {
        assert!(rt; is_replayed(rt.alloc(), text, wanted)?);
    }
    Ok(())
}
