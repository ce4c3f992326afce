//! Submissions, what becomes of them, and their ids.
use base_io::Text;
use sm_outbox::{SaidState, Submissions, origin_of};
use std::alloc::Global;
use std::process::Abort;

fn text(rt: &impl Abort, alloc: Global, text: &str) -> Text {
    Text::from_str(alloc, text).expect(rt, "memory")
}

fn say(rt: &impl Abort, alloc: Global, submissions: &mut Submissions, said: &str) {
    submissions.reserve().expect(rt, "memory");
    let to = text(rt, alloc, "bob@chat.example");
    submissions.say_reserved(to, text(rt, alloc, said), false)
}

// Three submissions of the first epoch: one is acknowledged, two are undecided; and one of the second epoch, which waits.
fn said(rt: &impl Abort, alloc: Global) -> Submissions {
    let mut submissions = Submissions::new(alloc);
    submissions.begin_epoch();
    say(rt, alloc, &mut submissions, "a");
    say(rt, alloc, &mut submissions, "b");
    say(rt, alloc, &mut submissions, "c");
    submissions.acknowledge(1);
    submissions.give_up();
    submissions.begin_epoch();
    say(rt, alloc, &mut submissions, "d");
    submissions
}

static STATES: [(u64, u64, SaidState); 4] = [
    (1, 1, SaidState::Acknowledged),
    (1, 2, SaidState::Undecided),
    (1, 3, SaidState::Undecided),
    (2, 1, SaidState::Waiting),
];

fn are_so(submissions: &Submissions) -> bool {
    let all = submissions.as_slice();
    let mut are_same = all.len() == STATES.len();
    for (said, (epoch, n, state)) in all.iter().zip(STATES) {
        are_same = are_same && said.epoch == epoch && said.n == n && said.state == state;
    }
    are_same
}

#[test]
fn submissions_are_settled_once(rt: HostRuntime) {
    assert!(rt; are_so(&said(&rt, rt.alloc())));
}

// Ids, and whether they are those of the submissions.
static IDS: [(&str, bool); 8] = [
    ("my.phone.1.3", true),
    ("my.phone.2.1", true),
    ("my.phone.1.4", false),
    ("my.phone.01.1", false),
    ("my.phone.1.1.1", false),
    ("my.phone.1", false),
    ("phone.1.1", false),
    ("", false),
];

// Whether the ids are told so.
fn are_told(submissions: &Submissions) -> bool {
    let mut are_so = true;
    for (id, is_one) in IDS {
        are_so = are_so && submissions.is_submission("my.phone", id) == is_one;
    }
    are_so
}

#[test]
fn ids_are_of_submissions(rt: HostRuntime) {
    assert!(rt; are_told(&said(&rt, rt.alloc())));
}

fn is_text(text: Text, expected: &str) -> bool {
    text.as_str() == expected
}

#[test]
fn an_origin_id_is_spelled(rt: HostRuntime) {
    let id = origin_of(rt.alloc(), "my.phone", 2, 17).expect(&rt, "memory");
    assert!(rt; is_text(id, "my.phone.2.17"));
}
