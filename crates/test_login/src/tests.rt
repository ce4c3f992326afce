//! The exchange of RFC 7677, section 3, refusals with their places (RFC 5802, section 7), and printed texts.
use crate::printed::prints;
use auth_scram::{
    ClientFirst, Credentials, CredentialsFault, Password, ScramClient, ScramFault, ScramServer,
    is_nonce, nonce_of, read_first, salt_of,
};
use base_io::Bytes;
use std::alloc::Global;
use std::process::Abort;

// RFC 7677, section 3: the salt, the nonces and the four messages of its example.
static SALT: [u8; 16] = [
    0x5b, 0x6d, 0x99, 0x68, 0x9d, 0x12, 0x35, 0x8e, 0xec, 0xa0, 0x4b, 0x14, 0x12, 0x36, 0xfa, 0x81,
];

static NONCES: [&str; 2] = ["rOprNGfwEbeRWgbNEkqO", "%hvYDpWUa2RaTCAfuxFIlj)hNlF$k0"];

static MESSAGES: [&str; 4] = [
    "n,,n=user,r=rOprNGfwEbeRWgbNEkqO",
    "r=rOprNGfwEbeRWgbNEkqO%hvYDpWUa2RaTCAfuxFIlj)hNlF$k0,s=W22ZaJ0SNY7soEsUEjb6gQ==,i=4096",
    "c=biws,r=rOprNGfwEbeRWgbNEkqO%hvYDpWUa2RaTCAfuxFIlj)hNlF$k0,p=dHzbZapWIk4jUhN+Ute9ytag9zjfMHgsqmmiz7AndVQ=",
    "v=6rriTRBi23WpRR/wtup+mMhUZUn/dB5nLTJRsjl95G4=",
];

fn client(rt: &impl Abort, alloc: Global, name: &str, nonce: &str) -> ScramClient {
    assert!(rt; is_nonce(nonce));
    let password = Password::from_str(alloc, "pencil").expect(rt, "memory");
    ScramClient::first(alloc, name, &password, nonce).expect(rt, "a name")
}

fn begun(
    rt: &impl Abort,
    alloc: Global,
    first: ClientFirst,
    credentials: Credentials,
    tail: &str,
) -> ScramServer {
    assert!(rt; is_nonce(tail));
    assert!(rt; credentials.iterations != 0);
    ScramServer::first(alloc, first, &credentials, tail).expect(rt, "memory")
}

// The server's end after its first message.
fn server(
    rt: &impl Abort,
    alloc: Global,
    iterations: u32,
    first: &[u8],
    tail: &str,
) -> ScramServer {
    let made = Credentials::make(alloc, "pencil", &SALT, iterations.max(1));
    let credentials = made.expect(rt, "a password");
    let first = read_first(alloc, first).expect(rt, "a first message");
    begun(rt, alloc, first, credentials, tail)
}

// The server's answer to a final message, where its first message is the challenge.
fn served(rt: &impl Abort, alloc: Global, messages: &[&str; 4], last: &[u8]) -> Bytes {
    let server = server(rt, alloc, 4096, messages[0].as_bytes(), NONCES[1]);
    assert!(rt; server.message() == messages[1].as_bytes());
    server.last(alloc, last).expect(rt, "a final message")
}

// Whether a client replies to the challenge, and accepts the server's answer to that.
fn goes_on(rt: &impl Abort, alloc: Global, client: &mut ScramClient, messages: &[&str; 4]) -> bool {
    let reply = client
        .reply(alloc, messages[1].as_bytes())
        .expect(rt, "a challenge");
    let answer = served(rt, alloc, messages, reply.as_slice());
    let replied = reply.as_slice() == messages[2].as_bytes();
    let ended = answer.as_slice() == messages[3].as_bytes();
    replied && ended && client.check(answer.as_slice()).is_ok()
}

// Whether the two ends say the four messages, and the client accepts the last.
fn goes_through(rt: &impl Abort, alloc: Global, messages: &[&str; 4]) -> bool {
    let mut client = client(rt, alloc, "user", NONCES[0]);
    let begins = client.message() == messages[0].as_bytes();
    begins && goes_on(rt, alloc, &mut client, messages)
}

#[test]
fn goes_through_the_example(rt: HostRuntime) {
    assert!(rt; goes_through(&rt, rt.alloc(), &MESSAGES));
}

// Other final messages of the server, and why the client refuses them.
static FINALS: [(&[u8], ScramFault); 10] = [
    (
        b"v=7rriTRBi23WpRR/wtup+mMhUZUn/dB5nLTJRsjl95G4=",
        ScramFault::BadVerifier,
    ),
    (
        b"v=6rriTRBi23WpRR/wtup+mMhUZUn/dB5nLTJRsjl9",
        ScramFault::BadVerifier,
    ),
    (b"e=invalid-proof", ScramFault::BadVerifier),
    (
        b"w=6rriTRBi23WpRR/wtup+mMhUZUn/dB5nLTJRsjl95G4=",
        ScramFault::Malformed { at: 0 },
    ),
    (b"", ScramFault::Malformed { at: 0 }),
    (b"x=a", ScramFault::Malformed { at: 0 }),
    (b"e=", ScramFault::Malformed { at: 2 }),
    (b"e=a,b", ScramFault::Malformed { at: 5 }),
    (b"v=QR==", ScramFault::Malformed { at: 4 }),
    (b"v=QQ==,m=1", ScramFault::Malformed { at: 7 }),
];

// Why a client that replied to the challenge refuses a final message, if it does.
fn check_fault(
    rt: &impl Abort,
    alloc: Global,
    mut client: ScramClient,
    last: &[u8],
) -> Option<ScramFault> {
    let _reply = client
        .reply(alloc, MESSAGES[1].as_bytes())
        .expect(rt, "a challenge");
    client.check(last).err()
}

#[test]
fn refuses_other_answers(rt: HostRuntime) {
    let alloc = rt.alloc();
    for (message, fault) in &FINALS {
        let client = client(&rt, alloc, "user", NONCES[0]);
        assert!(rt; check_fault(&rt, alloc, client, message) == Some(*fault));
    }
}

// A nonce of a client, a challenge, and why the client refuses it.
static CHALLENGES: [(&str, &[u8], ScramFault); 18] = [
    (
        "rOprNGfwEbeRWgbNEkqO",
        b"r=rOprNGfwEbeRWgbNEkqP,s=,i=4096",
        ScramFault::BadNonce,
    ),
    (
        "rOprNGfwEbeRWgbNEkqO",
        b"r=rOprNGfwEbeRWgbNEkq,s=,i=4095",
        ScramFault::BadNonce,
    ),
    (
        "rOprNGfwEbeRWgbNEkqO",
        b"r=rOprNGfwEbeRWgbNEkqOx,s=,i=4095",
        ScramFault::Iterations { count: 4095 },
    ),
    (
        "rOprNGfwEbeRWgbNEkqO",
        b"r=rOprNGfwEbeRWgbNEkqOx,s=,i=1000001",
        ScramFault::Iterations { count: 1_000_001 },
    ),
    (
        "rOprNGfwEbeRWgbNEkqO",
        b"r=rOprNGfwEbeRWgbNEkqOx,s=,i=4294967296",
        ScramFault::Iterations { count: u32::MAX },
    ),
    (
        "rOprNGfwEbeRWgbNEkqO",
        b"r=rOprNGfwEbeRWgbNEkqOx,s=,i=04096",
        ScramFault::Malformed { at: 29 },
    ),
    ("a", b"r=a,s=QQ==,i=4096", ScramFault::BadNonce),
    ("a", b"r=a,s=,i=4095", ScramFault::BadNonce),
    ("a", b"r=a", ScramFault::Malformed { at: 3 }),
    ("a", b"r=,s=QQ==,i=1", ScramFault::Malformed { at: 2 }),
    ("a", b"r=a,m=b,s=QQ==,i=1", ScramFault::Malformed { at: 4 }),
    ("a", b"r=a,s=QR==,i=1", ScramFault::Malformed { at: 8 }),
    ("a", b"r=a,s=QUJ=,i=1", ScramFault::Malformed { at: 9 }),
    ("a", b"r=a,s=QQ,i=1", ScramFault::Malformed { at: 8 }),
    ("a", b"r=a,s=QQ==QQ==,i=1", ScramFault::Malformed { at: 10 }),
    ("a", b"r=a,s=QQ==,i=0", ScramFault::Malformed { at: 13 }),
    ("a", b"r=a,s=QQ==,i=04096", ScramFault::Malformed { at: 13 }),
    ("a", b"r=a,s=QQ==,i=1,m=x", ScramFault::Malformed { at: 15 }),
];

fn reply(alloc: Global, mut client: ScramClient, challenge: &[u8]) -> Result<Bytes, ScramFault> {
    client.reply(alloc, challenge)
}

#[test]
fn refuses_challenges(rt: HostRuntime) {
    let alloc = rt.alloc();
    for (nonce, message, fault) in &CHALLENGES {
        let replied = reply(alloc, client(&rt, alloc, "user", nonce), message);
        assert!(rt; replied.err() == Some(*fault));
    }
}

// The server adds one character to the client's nonce, and has an empty salt.
#[test]
fn replies_to_an_empty_salt(rt: HostRuntime) {
    let alloc = rt.alloc();
    let replied = reply(alloc, client(&rt, alloc, "user", "a"), b"r=ab,s=,i=4096");
    assert!(rt; replied.err() == None);
}

// Final messages to a server with an exchange of the nonce `xyz`, and why it refuses them.
static LASTS: [(&[u8], ScramFault); 14] = [
    (
        b"c=biws,r=xyz,p=dHzbZapWIk4jUhN+Ute9ytag9zjfMHgsqmmiz7AndVQ=",
        ScramFault::BadProof,
    ),
    (b"c=biws,r=xyz,p=", ScramFault::BadProof),
    (b"c=biws,r=xy,p=", ScramFault::BadNonce),
    (b"c=eSws,r=xyz,p=", ScramFault::Malformed { at: 2 }),
    (b"c=biwS,r=a,p=QQ==", ScramFault::Malformed { at: 5 }),
    (b"c=eSws,r=a,p=QQ==", ScramFault::Malformed { at: 2 }),
    (b"c=biws,r=a", ScramFault::Malformed { at: 10 }),
    (b"c=biws,r=a,m=1,p=QQ==", ScramFault::Malformed { at: 11 }),
    (b"c=biws,r=a,p=QR==", ScramFault::Malformed { at: 15 }),
    (b"c=biws,r=a,p=QQ==,x=1", ScramFault::Malformed { at: 17 }),
    // An attribute `p` that is not the last.
    (
        b"c=biws,r=a,p=QQ==,p=QQ==",
        ScramFault::Malformed { at: 17 },
    ),
    (b"c=biws,r=a,p=,p=QQ==", ScramFault::Malformed { at: 13 }),
    (
        b"c=biws,r=a,x=1,p=x,p=QQ==",
        ScramFault::Malformed { at: 18 },
    ),
    (b"c=biws,r=xyz,P=x,x=p=,p=QQ==", ScramFault::BadProof),
];

fn last_fault(alloc: Global, server: ScramServer, last: &[u8]) -> Option<ScramFault> {
    server.judge(alloc, last).err()
}

#[test]
fn refuses_final_messages(rt: HostRuntime) {
    let alloc = rt.alloc();
    for (message, fault) in &LASTS {
        let server = server(&rt, alloc, 1, b"n,,n=user,r=x", "yz");
        assert!(rt; last_fault(alloc, server, message) == Some(*fault));
    }
}

static FIRSTS: [(&[u8], ScramFault); 22] = [
    (b"p=tls-unique,,n=user,r=x", ScramFault::Plus),
    (b"p=tls-unique,a=bob,n=a,r=b", ScramFault::Plus),
    (b"n,a=admin,n=user,r=x", ScramFault::Authzid),
    (b"n,,m=x,n=user,r=x", ScramFault::Malformed { at: 3 }),
    (b"", ScramFault::Malformed { at: 0 }),
    (b"x,,n=a,r=b", ScramFault::Malformed { at: 0 }),
    (b"N,,n=a,r=b", ScramFault::Malformed { at: 0 }),
    (b"n", ScramFault::Malformed { at: 1 }),
    (b"p=,,n=a,r=b", ScramFault::Malformed { at: 2 }),
    (b"n,,m=x,n=a,r=b", ScramFault::Malformed { at: 3 }),
    (b"n,,n=,r=b", ScramFault::Malformed { at: 5 }),
    (b"n,,n=a=2c,r=b", ScramFault::Malformed { at: 8 }),
    (b"n,,n=a,r=", ScramFault::Malformed { at: 9 }),
    (b"n,,n=a,r=b,m=x", ScramFault::Malformed { at: 11 }),
    (b"n,,n=a,r=b,x=", ScramFault::Malformed { at: 13 }),
    (b"n,,n=a,r=b\x01", ScramFault::Malformed { at: 10 }),
    (b"n,,n=\xFF,r=b", ScramFault::Malformed { at: 5 }),
    (b"n,,n=\x00,r=b", ScramFault::Malformed { at: 5 }),
    (b"n,,n=\xC3,r=b", ScramFault::Malformed { at: 6 }),
    (b"n,,n=\xED\xA0\x80,r=b", ScramFault::Malformed { at: 6 }),
    (b"n,a=bob,n=a,r=", ScramFault::Malformed { at: 14 }),
    (
        b"p=tls-unique,a=bob,n=a,r=",
        ScramFault::Malformed { at: 25 },
    ),
];

fn first_fault(alloc: Global, message: &[u8]) -> Option<ScramFault> {
    read_first(alloc, message).err()
}

#[test]
fn refuses_first_messages(rt: HostRuntime) {
    for (message, fault) in &FIRSTS {
        assert!(rt; first_fault(rt.alloc(), message) == Some(*fault));
    }
}

fn is_name(read: ClientFirst, name: &str) -> bool {
    read.name.as_str() == name
}

fn is_first(client: ScramClient, message: &[u8]) -> bool {
    client.message() == message
}

// A name with a comma and an equals sign, as it is sent and as it is read.
#[test]
fn escapes_names(rt: HostRuntime) {
    let alloc = rt.alloc();
    let message = b"n,,n=a=3Db=2Cc,r=x";
    assert!(rt; is_first(client(&rt, alloc, "a=b,c", "x"), message));
    let read = read_first(alloc, message).expect(&rt, "a first message");
    assert!(rt; is_name(read, "a=b,c"));
}

static PASSWORDS: [&str; 2] = ["", "pen\u{e7}il"];

fn password_fault(alloc: Global, password: &str) -> Option<CredentialsFault> {
    Credentials::make(alloc, password, &SALT, 1).err()
}

#[test]
fn refuses_passwords(rt: HostRuntime) {
    for password in &PASSWORDS {
        assert!(rt; password_fault(rt.alloc(), password) == Some(CredentialsFault::BadPassword));
    }
}

// The salt by Python's `hashlib`, the nonce by its `base64`.
#[test]
fn makes_salts_and_nonces(rt: HostRuntime) {
    let drawn = [0, 1, 2, 3, 4, 5, 6, 7, 8, 9, 10, 11, 12, 13, 14, 15, 16, 17];
    assert!(rt;
        salt_of("alice@chat.example") == SALT_OF_ALICE
            && nonce_of(&drawn) == *b"AAECAwQFBgcICQoLDA0ODxAR"
    );
}

static SALT_OF_ALICE: [u8; 16] = [
    0xb6, 0x14, 0xff, 0xca, 0xe0, 0x96, 0x17, 0x22, 0x47, 0x51, 0xa3, 0x56, 0x3e, 0xcd, 0xa0, 0xfc,
];

static PRINTED: [(ScramFault, &str); 9] = [
    (
        ScramFault::Malformed { at: 7 },
        "the message leaves its grammar at byte 7",
    ),
    (
        ScramFault::Iterations { count: 1 },
        "1 iterations are outside 4,096 to 1,000,000",
    ),
    (ScramFault::Plus, "channel binding is asked for"),
    (
        ScramFault::Authzid,
        "an authorization identity is asked for",
    ),
    (
        ScramFault::BadName,
        "name or password is empty or not printable ASCII",
    ),
    (
        ScramFault::BadNonce,
        "the nonce is not the one that it must be",
    ),
    (ScramFault::BadProof, "the proof is wrong"),
    (ScramFault::BadVerifier, "the verifier is wrong"),
    (ScramFault::NoMemory, "out of memory"),
];

#[test]
fn prints_faults(rt: HostRuntime) {
    for (fault, text) in &PRINTED {
        prints(&rt, rt.alloc(), *fault, text);
    }
}
