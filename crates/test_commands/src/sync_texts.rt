//! What goes over the link of a script. The messages of the login are from another program (RFC 5802), for the password
//! `pw-alice`, a salt of 16 bytes, 4,096 iterations, and nonces of zero bytes and of a one and zero bytes.

// A script with a message and a catch-up.
pub(crate) const SCRIPT: &str =
    "xmpp-sync 1\naccount alice@chat.example pw-alice phone\nsay bob@chat.example hi\ncatchup 10\n";

// One with a message alone.
pub(crate) const MESSAGE: &str =
    "xmpp-sync 1\naccount alice@chat.example pw-alice phone\nsay bob@chat.example hi\n";

// The client's header (RFC 6120, section 4).
pub(crate) const HEADER: &str =
    "<?xml version='1.0'?><stream:stream to='chat.example' version='1.0' xmlns='jabber:client' xmlns:stream='http://etherx.jabber.org/streams'>";

// The client begins its login (RFC 6120, section 6).
pub(crate) const AUTH: &str =
    "<auth xmlns='urn:ietf:params:xml:ns:xmpp-sasl' mechanism='SCRAM-SHA-256'>biwsbj1hbGljZSxyPUFBQUFBQUFBQUFBQUFBQUFBQUFBQUFBQQ==</auth>";

// Its answer to the challenge.
pub(crate) const RESPONSE: &str =
    "<response xmlns='urn:ietf:params:xml:ns:xmpp-sasl'>Yz1iaXdzLHI9QUFBQUFBQUFBQUFBQUFBQUFBQUFBQUFBQVFBQUFBQUFBQUFBQUFBQUFBQUFBQUFBLHA9SVVQckk4eFFSRDF6c3ByV0hzcDhaVTB0bHZJZjFlanc2VHdIbHZmUXJOaz0=</response>";

// The bind of a resource (RFC 6120, section 7).
pub(crate) const BIND: &str =
    "<iq id='bind' type='set'><bind xmlns='urn:ietf:params:xml:ns:xmpp-bind'><resource>phone</resource></bind></iq>";

// Stanzas are to be counted (XEP-0198).
pub(crate) const ENABLE: &str = "<enable xmlns='urn:xmpp:sm:3' resume='true'/>";

// What the client puts first on a session.
pub(crate) const ONLINE: &str =
    "<iq id='carbons' type='set'><enable xmlns='urn:xmpp:carbons:2'/></iq><presence/>";

// The message of the script.
pub(crate) const SAID: &str =
    "<message id='phone.1.1' to='bob@chat.example' type='chat'><body>hi</body><origin-id xmlns='urn:xmpp:sid:0' id='phone.1.1'/></message><r xmlns='urn:xmpp:sm:3'/>";

// The page that is asked for (XEP-0313).
pub(crate) const ASKED: &str =
    "<iq id='q1' type='set'><query xmlns='urn:xmpp:mam:2' queryid='q1'><x xmlns='jabber:x:data' type='submit'><field type='hidden' var='FORM_TYPE'><value>urn:xmpp:mam:2</value></field></x><set xmlns='http://jabber.org/protocol/rsm'><max>10</max></set></query></iq><r xmlns='urn:xmpp:sm:3'/>";

// The end of a stream.
pub(crate) const CLOSING: &str = "</stream:stream>";

// The server's header.
pub(crate) const OPENED: &str =
    "<?xml version='1.0'?><stream:stream from='chat.example' id='1' version='1.0' xml:lang='en' xmlns='jabber:client' xmlns:stream='http://etherx.jabber.org/streams'>";

// Its features before the login.
pub(crate) const OFFERS: &str =
    "<stream:features><mechanisms xmlns='urn:ietf:params:xml:ns:xmpp-sasl'><mechanism>SCRAM-SHA-256</mechanism></mechanisms></stream:features>";

// Its challenge.
pub(crate) const CHALLENGE: &str =
    "<challenge xmlns='urn:ietf:params:xml:ns:xmpp-sasl'>cj1BQUFBQUFBQUFBQUFBQUFBQUFBQUFBQUFBUUFBQUFBQUFBQUFBQUFBQUFBQUFBQUEscz10aFQveXVDV0Z5SkhVYU5XUHMyZy9BPT0saT00MDk2</challenge>";

// The end of the login, with the server's verifier.
pub(crate) const SUCCESS: &str =
    "<success xmlns='urn:ietf:params:xml:ns:xmpp-sasl'>dj14ZEwxWVRDZVhKU2VpTmY2aEh1OHFtQWZib05RQnloT3lKUUYvY0o1cGxzPQ==</success>";

// The same with a verifier whose first byte has another last bit.
pub(crate) const WRONG_SUCCESS: &str =
    "<success xmlns='urn:ietf:params:xml:ns:xmpp-sasl'>dj14TkwxWVRDZVhKU2VpTmY2aEh1OHFtQWZib05RQnloT3lKUUYvY0o1cGxzPQ==</success>";

// The server's header and features behind the login.
pub(crate) const REOPENED: &str =
    "<?xml version='1.0'?><stream:stream from='chat.example' id='2' version='1.0' xml:lang='en' xmlns='jabber:client' xmlns:stream='http://etherx.jabber.org/streams'><stream:features><bind xmlns='urn:ietf:params:xml:ns:xmpp-bind'/><sm xmlns='urn:xmpp:sm:3'/></stream:features>";

// The result of the bind.
pub(crate) const BOUND: &str =
    "<iq id='bind' type='result'><bind xmlns='urn:ietf:params:xml:ns:xmpp-bind'><jid>alice@chat.example/phone</jid></bind></iq>";

// The counting begins.
pub(crate) const ENABLED: &str =
    "<enabled xmlns='urn:xmpp:sm:3' id='0000000000000001' max='300' resume='true'/>";

// All three stanzas are handled.
pub(crate) const HANDLED: &str = "<a xmlns='urn:xmpp:sm:3' h='3'/>";

// One more is stated than were put.
pub(crate) const TOO_HIGH: &str = "<a xmlns='urn:xmpp:sm:3' h='4'/>";

// What is put then (XEP-0198, section 4).
pub(crate) const TOO_HIGH_PUT: &str =
    "<stream:error><undefined-condition xmlns='urn:ietf:params:xml:ns:xmpp-streams'/><handled-count-too-high xmlns='urn:xmpp:sm:3' h='4' send-count='3'/></stream:error></stream:stream>";

// A page of one entry, the last.
pub(crate) const PAGE: &str =
    "<message to='alice@chat.example/phone'><result xmlns='urn:xmpp:mam:2' id='0000000000000001' queryid='q1'><forwarded xmlns='urn:xmpp:forward:0'><delay xmlns='urn:xmpp:delay' stamp='1970-01-01T00:00:00.000Z'/><message xmlns='jabber:client' from='alice@chat.example/phone' id='phone.1.1' to='bob@chat.example' type='chat'><body>hi&#xA;you</body></message></forwarded></result></message><iq id='q1' to='alice@chat.example/phone' type='result'><fin xmlns='urn:xmpp:mam:2' complete='true'><set xmlns='http://jabber.org/protocol/rsm'><first index='0'>0000000000000001</first><last>0000000000000001</last><count>1</count></set></fin></iq>";

// An empty page that is not the last one.
pub(crate) const EMPTY_PAGE: &str =
    "<iq id='q1' to='alice@chat.example/phone' type='result'><fin xmlns='urn:xmpp:mam:2'><set xmlns='http://jabber.org/protocol/rsm'><count>1</count></set></fin></iq>";

// A page is refused.
pub(crate) const NO_PAGE: &str =
    "<iq id='q1' to='alice@chat.example/phone' type='error'><error type='cancel'><item-not-found xmlns='urn:ietf:params:xml:ns:xmpp-stanzas'/></error></iq>";

// What is written of the script.
pub(crate) const SYNCED: &str =
    "xmpp-synced 2\npage - 1 complete 1\nlogged 0000000000000001 0 alice@chat.example/phone bob@chat.example  hi you\nend\n";

// What is written of the one without a catch-up.
pub(crate) const SYNCED_WITHOUT: &str = "xmpp-synced 2\nend\n";
