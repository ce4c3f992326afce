//! Sessions that are bound, parked, resumed, replaced and ended.
ghost use Rattle.std.specs.Prelude.{◌≡◌, ◌+◌, ◌<◌, ◌≤◌, IfOk, OnOk};
ghost use Rattle.sm_acks.specs.Queues.{PoolView};
ghost use Rattle.sm_resumption.specs.Housed.{IsFree, IsHoused};

use base_io::{NoMemory, Text};
use sm_acks::{Pool, QueueId};
use sm_resumption::{
    AlreadyEnabled, Bound, Ended, Lost, ResumeFault, ResumeOk, Sessions, previd_text,
};
use std::alloc::Global;
use std::process::Abort;

// A table and a pool without sessions.
fn nobody(alloc: Global, first: u64) -> (Sessions, Pool)
    requires low { 1 ≤ first }
    requires high { first < 1000 }
    ensures housed { IsHoused result.0.rows result.1 }
    ensures made { result.1.made ≡ 0 }
{
    (Sessions::new(alloc, first), Pool::new(alloc))
}

// A queue that no session has.
fn queue(sessions: &Sessions, pool: &mut Pool) -> Result<QueueId, NoMemory>
    requires housed { IsHoused sessions.now.rows pool.old }
    requires made { pool.old.made < 1000 }
    ensures free { IfOk result (λ q. IsFree q sessions.now.rows pool.new) }
    ensures housed { OnOk result (IsHoused sessions.now.rows pool.new) }
    ensures made { OnOk result (pool.new.made ≤ pool.old.made + 1) }
{
    sessions.keeps_rule();
    Ok(pool.make_queue()?)
}

// Binds on a connection that has no session.
fn bound(
    rt: &impl Abort,
    alloc: Global,
    sessions: &mut Sessions,
    pool: &mut Pool,
    resource: &str,
    conn: u64,
) -> Bound
    requires housed { IsHoused sessions.old.rows pool.old }
    requires made { pool.old.made < 1000 }
    ensures housed { IsHoused sessions.new.rows pool.new }
    ensures made { pool.new.made ≤ pool.old.made + 1 }
{
    sessions.reserve(7).expect(rt, "memory");
    assert!(rt; sessions.next_number() <= 1_000);
    assert!(rt; sessions.by_conn(conn).is_none());
    let queue = queue(sessions, pool).expect(rt, "memory");
    let resource = Text::from_str(alloc, resource).expect(rt, "memory");
    sessions.bind(pool, 7, resource, conn, queue)
}

// Lets a session be resumed.
fn counted(rt: &impl Abort, sessions: &mut Sessions, number: u64)
    ensures { (pool : PoolView) → IsHoused sessions.old.rows pool → IsHoused sessions.new.rows pool }
{
    assert!(rt; sessions.view(number).is_some());
    sessions
        .enable(number, true)
        .expect(rt, "a session that counts nothing")
}

// A session of account 7 that can be resumed, on connection 1.
fn phone(rt: &impl Abort, alloc: Global, sessions: &mut Sessions, pool: &mut Pool)
    requires housed { IsHoused sessions.old.rows pool.old }
    requires made { pool.old.made ≡ 0 }
    ensures housed { IsHoused sessions.new.rows pool.new }
    ensures made { pool.new.made ≤ 1 }
{
    let bound = bound(rt, alloc, sessions, pool, "phone", 1);
    counted(rt, sessions, bound.number)
}

// Resumes on a connection that has no session.
fn resumed(
    rt: &impl Abort,
    sessions: &mut Sessions,
    pool: &mut Pool,
    previd: &str,
    h: u32,
    conn: u64,
) -> Result<ResumeOk, ResumeFault>
    requires housed { IsHoused sessions.old.rows pool.old }
    requires made { pool.old.made < 1000 }
    ensures housed { IsHoused sessions.new.rows pool.new }
    ensures made { pool.new.made ≤ pool.old.made + 1 }
{
    assert!(rt; sessions.by_conn(conn).is_none());
    let queue = queue(sessions, pool).expect(rt, "memory");
    sessions.resume(pool, previd, 7, h, conn, queue)
}

// The session on connection 1 is parked, time passes, and a session is asked for.
fn parked(
    rt: &impl Abort,
    sessions: &mut Sessions,
    pool: &mut Pool,
    wait: u64,
    previd: &str,
) -> (Option<Lost>, Result<ResumeOk, ResumeFault>)
    requires housed { IsHoused sessions.old.rows pool.old }
    requires made { pool.old.made ≤ 1 }
{
    let lost = sessions.park(pool, 1, 1_000);
    sessions.expire(pool, 1_000u64.saturating_add(wait));
    (lost, resumed(rt, sessions, pool, previd, 0, 2))
}

fn asked(
    rt: &impl Abort,
    alloc: Global,
    wait: u64,
    previd: &str,
) -> (Option<Lost>, Result<ResumeOk, ResumeFault>) {
    let (mut sessions, mut pool) = nobody(alloc, 10);
    phone(rt, alloc, &mut sessions, &mut pool);
    parked(rt, &mut sessions, &mut pool, wait, previd)
}

// Session 10 where it is resumed from its park.
static PARKED: ResumeOk = ResumeOk {
    number: 10,
    handled: 0,
    former: None,
};

// Times, the `previd`s that are asked for, and whether session 10 is resumed.
static ASKED: [(u64, &str, bool); 5] = [
    (299_999, "000000000000000a", true),
    (300_000, "000000000000000a", false),
    (0, "000000000000000A", false),
    (0, "00000000000000a", false),
    (0, "0000000000000000", false),
];

#[test]
fn parked_sessions_are_resumed_by_their_previd(rt: HostRuntime) {
    for (wait, previd, found) in ASKED {
        let answer = if found {
            Ok(PARKED)
        } else {
            Err(ResumeFault::UnknownPrevid)
        };
        assert!(rt; asked(&rt, rt.alloc(), wait, previd) == (Some(Lost::Parked(10)), answer));
    }
}

// A session that is attached is resumed with a count, which is told before.
fn taken(
    rt: &impl Abort,
    sessions: &mut Sessions,
    pool: &mut Pool,
    h: u32,
) -> (bool, Result<ResumeOk, ResumeFault>)
    requires housed { IsHoused sessions.old.rows pool.old }
    requires made { pool.old.made ≤ 1 }
{
    let told = sessions.would_resume(pool, "0000000000000001", 7, h);
    let answer = resumed(rt, sessions, pool, "0000000000000001", h, 2);
    let named = sessions.named("0000000000000001", 7).is_some();
    (told == answer && named == told.is_ok(), answer)
}

fn taken_over(rt: &impl Abort, alloc: Global, h: u32) -> (bool, Result<ResumeOk, ResumeFault>) {
    let (mut sessions, mut pool) = nobody(alloc, 1);
    phone(rt, alloc, &mut sessions, &mut pool);
    taken(rt, &mut sessions, &mut pool, h)
}

#[test]
fn attached_sessions_are_taken_over(rt: HostRuntime) {
    let taken = Ok(ResumeOk {
        number: 1,
        handled: 0,
        former: Some(1),
    });
    let refused = Err(ResumeFault::TooHigh {
        h: 1,
        send_count: 0,
        former: Some(1),
    });
    assert!(rt; taken_over(&rt, rt.alloc(), 0) == (true, taken));
    assert!(rt; taken_over(&rt, rt.alloc(), 1) == (true, refused));
}

// A second session of the account with a resource, and the account's sessions then.
fn beside(
    rt: &impl Abort,
    alloc: Global,
    sessions: &mut Sessions,
    pool: &mut Pool,
    resource: &str,
) -> (Option<Ended>, bool, bool)
    requires housed { IsHoused sessions.old.rows pool.old }
    requires made { pool.old.made ≤ 1 }
{
    let bound = bound(rt, alloc, sessions, pool, resource, 2);
    let all = sessions.of_account(7) == [1, 2].as_slice()
        && sessions.by_name(7, "phone") == Some(1);
    let one = sessions.of_account(7) == [2].as_slice() && sessions.by_name(7, "phone") == Some(2);
    (bound.ended, all, one)
}

fn joined(rt: &impl Abort, alloc: Global, resource: &str) -> (Option<Ended>, bool, bool) {
    let (mut sessions, mut pool) = nobody(alloc, 1);
    phone(rt, alloc, &mut sessions, &mut pool);
    beside(rt, alloc, &mut sessions, &mut pool, resource)
}

#[test]
fn accounts_have_their_sessions(rt: HostRuntime) {
    let older = Some(Ended {
        number: 1,
        conn: Some(1),
    });
    assert!(rt; joined(&rt, rt.alloc(), "pad") == (None, true, false));
    assert!(rt; joined(&rt, rt.alloc(), "phone") == (older, false, true));
}

#[test]
fn answers_are_printed(rt: HostRuntime) {
    let unknown = ResumeFault::UnknownPrevid;
    let high = ResumeFault::TooHigh {
        h: 3,
        send_count: 2,
        former: None,
    };
    let text = format!(in rt.alloc(); "{AlreadyEnabled}, {unknown}, {high}").expect(&rt, "memory");
    assert!(rt;
        text.as_str()
            == "the session's stanzas are counted already, no session to resume, 3 stanzas handled of 2 sent"
            && previd_text(10) == *b"000000000000000a"
    );
}
