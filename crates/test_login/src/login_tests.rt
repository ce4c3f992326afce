//! Exchanges with messages from outside: by Python's `hashlib`, `hmac` and `base64`, of the account alice at chat.example
//! with the password `pencil`, the client's nonce of RFC 7677, and the bytes 0 to 23 drawn for the connection.
use auth_scram::Credentials;
use base_io::{Bytes, Text};
use im_payload::{SASL, text_element};
use srv_login::{
    Account, AccountList, Accounts, AuthAnswer, FinalAnswer, Negotiation, SaslCondition,
    auth_answer, final_answer,
};
use std::alloc::Global;
use std::process::Abort;
use xml_trees::{Attr, Element};

static ENTROPY: [u8; 24] = [
    0, 1, 2, 3, 4, 5, 6, 7, 8, 9, 10, 11, 12, 13, 14, 15, 16, 17, 18, 19, 20, 21, 22, 23,
];

const FIRST: &str = "biwsbj1hbGljZSxyPXJPcHJOR2Z3RWJlUldnYk5Fa3FP";

const CHALLENGE: &str =
    "r=rOprNGfwEbeRWgbNEkqOAAECAwQFBgcICQoLDA0ODxAR,s=thT/yuCWFyJHUaNWPs2g/A==,i=4096";

const SUCCESS: &str = "v=4H56umMMmOp5mMo9GixvOQFIMzugfr61dWIXXHfM9is=";

const SCRAM: Option<&str> = Some("SCRAM-SHA-256");

fn text(rt: &impl Abort, alloc: Global, text: &str) -> Text {
    Text::from_str(alloc, text).expect(rt, "memory")
}

fn without_password(rt: &impl Abort, alloc: Global, name: &str) -> Account {
    Account {
        name: text(rt, alloc, name),
        credentials: Credentials {
            salt: Bytes::new(alloc),
            iterations: 4096,
            stored_key: [0; 32],
            server_key: [0; 32],
        },
    }
}

// The accounts bob and alice.
fn accounts(rt: &impl Abort, alloc: Global, alice: Account) -> Accounts {
    let mut list = AccountList::new(alloc);
    list.push(without_password(rt, alloc, "bob"))
        .expect(rt, "memory");
    list.push(alice).expect(rt, "memory");
    assert!(rt; list.as_slice().len() == 2);
    Accounts::new(alloc, list).expect(rt, "accounts")
}

fn element(rt: &impl Abort, alloc: Global, name: &str, said: &str) -> Element {
    text_element(alloc, SASL, name, text(rt, alloc, said)).expect(rt, "memory")
}

fn auth(rt: &impl Abort, alloc: Global, mechanism: Option<&str>, said: &str) -> Element {
    let mut element = element(rt, alloc, "auth", said);
    if let Some(mechanism) = mechanism {
        let attr = Attr::from_strs(alloc, "", "mechanism", mechanism).expect(rt, "memory");
        element.push_attr(attr).expect(rt, "memory");
    }
    element
}

fn answer(rt: &impl Abort, alloc: Global, accounts: &Accounts, auth: Element) -> AuthAnswer {
    auth_answer(alloc, &auth, &ENTROPY, accounts).expect(rt, "memory")
}

// Other beginnings, and the conditions of their failures.
static FAILURES: [(Option<&str>, &str, SaslCondition); 14] = [
    (None, FIRST, SaslCondition::InvalidMechanism),
    (Some("PLAIN"), "!", SaslCondition::InvalidMechanism),
    (
        Some("scram-sha-256"),
        FIRST,
        SaslCondition::InvalidMechanism,
    ),
    (
        Some("SCRAM-SHA-256-PLUS"),
        FIRST,
        SaslCondition::InvalidMechanism,
    ),
    (SCRAM, "biwsbj1ib2Iscj14 ", SaslCondition::IncorrectEncoding),
    (
        SCRAM,
        "biwsbj1BbGljZSxyPXg",
        SaslCondition::IncorrectEncoding,
    ),
    (SCRAM, "", SaslCondition::MalformedRequest),
    (SCRAM, "=", SaslCondition::MalformedRequest),
    // n,,n=,r=x
    (SCRAM, "biwsbj0scj14", SaslCondition::MalformedRequest),
    // n,a=admin,n=alice
    (
        SCRAM,
        "bixhPWFkbWluLG49YWxpY2U=",
        SaslCondition::MalformedRequest,
    ),
    // p=tls-unique,,n=alice,r=x
    (
        SCRAM,
        "cD10bHMtdW5pcXVlLCxuPWFsaWNlLHI9eA==",
        SaslCondition::MalformedRequest,
    ),
    // n,a=admin,n=alice,r=x
    (
        SCRAM,
        "bixhPWFkbWluLG49YWxpY2Uscj14",
        SaslCondition::InvalidAuthzid,
    ),
    // n,,n=Alice,r=x
    (SCRAM, "biwsbj1BbGljZSxyPXg=", SaslCondition::NotAuthorized),
    // The name is the character U+E9.
    (SCRAM, "biwsbj3DqSxyPXg=", SaslCondition::NotAuthorized),
];

fn failure(answer: AuthAnswer) -> Option<SaslCondition> {
    let failure = match &answer {
        AuthAnswer::Begins(_) => None,
        AuthAnswer::Fails(condition) => Some(*condition),
    };
    drop(answer);
    failure
}

#[test]
fn beginnings_fail(rt: HostRuntime) {
    let alloc = rt.alloc();
    let accounts = accounts(&rt, alloc, without_password(&rt, alloc, "alice"));
    for (mechanism, text, condition) in &FAILURES {
        let answer = answer(&rt, alloc, &accounts, auth(&rt, alloc, *mechanism, text));
        assert!(rt; failure(answer) == Some(*condition));
    }
}

// The negotiation that begins.
fn begun(rt: &impl Abort, answer: AuthAnswer) -> Negotiation {
    match answer {
        AuthAnswer::Begins(negotiation) => negotiation,
        AuthAnswer::Fails(_) => panic!(rt; "no challenge"),
    }
}

// Whether it is of alice, and her challenge is the one from outside.
fn is_of_alice(negotiation: &Negotiation) -> bool {
    negotiation.account == 1 && negotiation.exchange.message() == CHALLENGE.as_bytes()
}

// Whether a response ends the login: by the right answer, or by a failure of this condition.
fn ends(ended: FinalAnswer, expected: Option<SaslCondition>) -> bool {
    match &ended {
        FinalAnswer::Succeeds(login) => {
            expected.is_none()
                && login.account == 1
                && login.message.as_slice() == SUCCESS.as_bytes()
        }
        FinalAnswer::Fails(condition) => expected == Some(*condition),
    }
}

fn ended(
    rt: &impl Abort,
    alloc: Global,
    negotiation: &Negotiation,
    response: Element,
) -> FinalAnswer {
    final_answer(alloc, &response, negotiation).expect(rt, "memory")
}

// Names and texts of elements, and the conditions of their failures.
static RESPONSES: [(&str, &str, Option<SaslCondition>); 10] = [
    (
        "response",
        "Yz1iaXdzLHI9ck9wck5HZndFYmVSV2diTkVrcU9BQUVDQXdRRkJnY0lDUW9MREEwT0R4QVIscD1UZ3ltRSs2ZEpsdmQyaEJqODdGVXlGdHNCbk50SkFuQjdIWXYwRGMvUGEwPQ==",
        None,
    ),
    // The last bit of the proof is another.
    (
        "response",
        "Yz1iaXdzLHI9ck9wck5HZndFYmVSV2diTkVrcU9BQUVDQXdRRkJnY0lDUW9MREEwT0R4QVIscD1UZ3ltRSs2ZEpsdmQyaEJqODdGVXlGdHNCbk50SkFuQjdIWXYwRGMvUGF3PQ==",
        Some(SaslCondition::NotAuthorized),
    ),
    // The proof has 31 bytes.
    (
        "response",
        "Yz1iaXdzLHI9ck9wck5HZndFYmVSV2diTkVrcU9BQUVDQXdRRkJnY0lDUW9MREEwT0R4QVIscD1UZ3ltRSs2ZEpsdmQyaEJqODdGVXlGdHNCbk50SkFuQjdIWXYwRGMvUFE9PQ==",
        Some(SaslCondition::NotAuthorized),
    ),
    // The nonce is the client's alone.
    (
        "response",
        "Yz1iaXdzLHI9ck9wck5HZndFYmVSV2diTkVrcU8scD1UZ3ltRSs2ZEpsdmQyaEJqODdGVXlGdHNCbk50SkFuQjdIWXYwRGMvUGEwPQ==",
        Some(SaslCondition::NotAuthorized),
    ),
    // There is no proof.
    (
        "response",
        "Yz1iaXdzLHI9ck9wck5HZndFYmVSV2diTkVrcU9BQUVDQXdRRkJnY0lDUW9MREEwT0R4QVI=",
        Some(SaslCondition::MalformedRequest),
    ),
    // A `p` that is not the last attribute: another in front of the right proof, and the right one in front of an
    // extension.
    (
        "response",
        "Yz1iaXdzLHI9ck9wck5HZndFYmVSV2diTkVrcU9BQUVDQXdRRkJnY0lDUW9MREEwT0R4QVIscD1BQUFBLHA9VGd5bUUrNmRKbHZkMmhCajg3RlV5RnRzQm5OdEpBbkI3SFl2MERjL1BhMD0=",
        Some(SaslCondition::MalformedRequest),
    ),
    (
        "response",
        "Yz1iaXdzLHI9ck9wck5HZndFYmVSV2diTkVrcU9BQUVDQXdRRkJnY0lDUW9MREEwT0R4QVIscD1UZ3ltRSs2ZEpsdmQyaEJqODdGVXlGdHNCbk50SkFuQjdIWXYwRGMvUGEwPSx4PXk=",
        Some(SaslCondition::MalformedRequest),
    ),
    ("response", "=", Some(SaslCondition::MalformedRequest)),
    (
        "response",
        "Yz1iaXdz\n",
        Some(SaslCondition::IncorrectEncoding),
    ),
    ("challenge", "=", Some(SaslCondition::IncorrectEncoding)),
];

fn negotiated(rt: &impl Abort, alloc: Global) -> Negotiation {
    let alice = Account::with_password(alloc, "alice", "chat.example", "pencil");
    let accounts = accounts(rt, alloc, alice.expect(rt, "an account"));
    begun(
        rt,
        answer(rt, alloc, &accounts, auth(rt, alloc, SCRAM, FIRST)),
    )
}

#[test]
fn exchanges_end(rt: HostRuntime) {
    let alloc = rt.alloc();
    let negotiation = negotiated(&rt, alloc);
    assert!(rt; is_of_alice(&negotiation));
    for (name, text, condition) in &RESPONSES {
        let ended = ended(&rt, alloc, &negotiation, element(&rt, alloc, name, text));
        assert!(rt; ends(ended, *condition));
    }
}
