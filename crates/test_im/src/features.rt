//! Features of streams (RFC 6120, section 4.3.2), and answers of service discovery (XEP-0030, section 3.1).
use crate::made::{spells, tree_of};
use im_login::{Features, Identity, account_info, disco_info_tree, server_info};
use im_payload::ExtFault;
use std::alloc::Global;
use std::process::Abort;

const NONE: Features = Features {
    scram_sha_256: false,
    bind: false,
    stream_management: false,
};

const ALL: Features = Features {
    scram_sha_256: true,
    bind: true,
    stream_management: true,
};

// What is offered, and what is read of it. Of the last two one has a name in two pieces, and one is in another namespace.
static OFFERED: [(&str, Result<Features, ExtFault>); 9] = [
    ("<stream:features/>", Ok(NONE)),
    (
        "<stream:features><mechanisms xmlns='urn:ietf:params:xml:ns:xmpp-sasl'><mechanism>SCRAM-SHA-256</mechanism></mechanisms></stream:features>",
        Ok(Features::BEFORE_SASL),
    ),
    (
        "<stream:features><bind xmlns='urn:ietf:params:xml:ns:xmpp-bind'/><sm xmlns='urn:xmpp:sm:3'/></stream:features>",
        Ok(Features::AFTER_SASL),
    ),
    (
        "<stream:features><starttls xmlns='urn:ietf:params:xml:ns:xmpp-tls'/><sm xmlns='urn:xmpp:sm:3'/><compression xmlns='http://jabber.org/features/compress'/><mechanisms xmlns='urn:ietf:params:xml:ns:xmpp-sasl'><mechanism>PLAIN</mechanism><mechanism>SCRAM-SHA-256</mechanism><mechanism>SCRAM-SHA-1</mechanism></mechanisms><ver xmlns='urn:xmpp:features:rosterver'/><bind xmlns='urn:ietf:params:xml:ns:xmpp-bind'/></stream:features>",
        Ok(ALL),
    ),
    (
        "<stream:features><mechanisms xmlns='urn:ietf:params:xml:ns:xmpp-sasl'><mechanism>SCRAM-SHA-256-PLUS</mechanism><mechanism>SCRAM-SHA-25</mechanism><mechanism/></mechanisms></stream:features>",
        Ok(NONE),
    ),
    (
        "<stream:features><mechanisms xmlns='urn:ietf:params:xml:ns:xmpp-sasl'/><mechanisms xmlns='urn:ietf:params:xml:ns:xmpp-sasl'><mechanism>SCRAM-SHA-256</mechanism></mechanisms></stream:features>",
        Ok(NONE),
    ),
    (
        "<stream:features><sm xmlns='urn:xmpp:sm:2'/><bind xmlns='urn:ietf:params:xml:ns:xmpp-sasl'/><bind xmlns='urn:xmpp:sm:3'/></stream:features>",
        Ok(NONE),
    ),
    (
        "<stream:features><mechanisms xmlns='urn:ietf:params:xml:ns:xmpp-sasl'><mechanism>SCRAM-<a xmlns=''/>SHA-256</mechanism></mechanisms></stream:features>",
        Ok(Features::BEFORE_SASL),
    ),
    ("<features/>", Err(ExtFault::NotThis)),
];

fn read(rt: &impl Abort, alloc: Global, text: &str) -> Result<Features, ExtFault> {
    Features::read(&tree_of(rt, alloc, text))
}

#[test]
fn features_are_read(rt: HostRuntime) {
    for (text, expected) in &OFFERED {
        assert!(rt; read(&rt, rt.alloc(), text) == *expected);
    }
}

// What a server offers, as it is written.
static LISTS: [(Features, &str); 3] = [
    (NONE, "<stream:features/>"),
    (
        Features::BEFORE_SASL,
        "<stream:features><mechanisms xmlns='urn:ietf:params:xml:ns:xmpp-sasl'><mechanism>SCRAM-SHA-256</mechanism></mechanisms></stream:features>",
    ),
    (
        Features::AFTER_SASL,
        "<stream:features><bind xmlns='urn:ietf:params:xml:ns:xmpp-bind'/><sm xmlns='urn:xmpp:sm:3'/></stream:features>",
    ),
];

#[test]
fn features_are_written(rt: HostRuntime) {
    let alloc = rt.alloc();
    for (features, text) in &LISTS {
        spells(&rt, alloc, features.tree(alloc).expect(&rt, "memory"), text);
    }
}

const SERVER: &str =
    "<query xmlns='http://jabber.org/protocol/disco#info'><identity category='server' type='im'/><feature var='http://jabber.org/protocol/disco#info'/><feature var='http://jabber.org/protocol/disco#items'/><feature var='urn:xmpp:carbons:2'/><feature var='urn:xmpp:mam:2'/><feature var='urn:xmpp:ping'/><feature var='urn:xmpp:sid:0'/></query>";

const ACCOUNT: &str =
    "<query xmlns='http://jabber.org/protocol/disco#info'><identity category='account' type='registered'/><feature var='http://jabber.org/protocol/disco#info'/><feature var='http://jabber.org/protocol/disco#items'/><feature var='urn:xmpp:carbons:2'/><feature var='urn:xmpp:mam:2'/><feature var='urn:xmpp:ping'/><feature var='urn:xmpp:sid:0'/></query>";

const NOBODY: &str =
    "<query xmlns='http://jabber.org/protocol/disco#info'><identity category='a' type='b'/></query>";

const NOBODY_IDENTITY: Identity<'static> = Identity {
    category: "a",
    kind: "b",
};

#[test]
fn answers_are_written(rt: HostRuntime) {
    let alloc = rt.alloc();
    spells(&rt, alloc, server_info(alloc).expect(&rt, "memory"), SERVER);
    spells(
        &rt,
        alloc,
        account_info(alloc).expect(&rt, "memory"),
        ACCOUNT,
    );
    let nobody = disco_info_tree(alloc, &[NOBODY_IDENTITY], &[]);
    spells(&rt, alloc, nobody.expect(&rt, "memory"), NOBODY);
}
