//! What goes over links, and what journals have of it. The login is made by another program (RFC 5802), for the
//! password `pw-alice` and random bytes that are zero; what the server puts, and the archives, are those of a server by
//! others.

// The header of a client (RFC 6120, section 4).
pub(crate) const HEADER: &str =
    "<stream:stream to='chat.example' version='1.0' xmlns='jabber:client' xmlns:stream='http://etherx.jabber.org/streams'>";

// A header, and the login of alice (RFC 6120, section 6): 403 bytes.
pub(crate) const LOGIN: &str =
    "<stream:stream to='chat.example' version='1.0' xmlns='jabber:client' xmlns:stream='http://etherx.jabber.org/streams'><auth xmlns='urn:ietf:params:xml:ns:xmpp-sasl' mechanism='SCRAM-SHA-256'>biwsbj1hbGljZSxyPWFiY2RlZg==</auth><response xmlns='urn:ietf:params:xml:ns:xmpp-sasl'>Yz1iaXdzLHI9YWJjZGVmQUFBQUFBQUFBQUFBQUFBQUFBQUFBQUFBLHA9L2VWZ3JkYStTcThLT2c4UEw2ZkZaRU1uOFpOTFJFVnNUZW5JcFRCY3p3UT0=</response>";

// What a usual client says behind its login (RFC 6120, section 7; RFC 6121; XEP-0030; XEP-0198; XEP-0199; XEP-0280).
pub(crate) const SESSION: &str =
    "<?xml version=\"1.0\"?><stream:stream to=\"chat.example\" version=\"1.0\" xmlns=\"jabber:client\" xmlns:stream=\"http://etherx.jabber.org/streams\"><iq type=\"set\" id=\"b1\"><bind xmlns=\"urn:ietf:params:xml:ns:xmpp-bind\"><resource>gajim.ABC</resource></bind></iq><iq type=\"set\" id=\"s1\"><session xmlns=\"urn:ietf:params:xml:ns:xmpp-session\"/></iq><enable xmlns=\"urn:xmpp:sm:3\" resume=\"true\"/><iq type=\"get\" id=\"r1\"><query xmlns=\"jabber:iq:roster\"/></iq><iq type=\"get\" id=\"d1\" to=\"chat.example\"><query xmlns=\"http://jabber.org/protocol/disco#info\"/></iq><iq type=\"set\" id=\"c1\"><enable xmlns=\"urn:xmpp:carbons:2\"/></iq><presence><priority>5</priority></presence><iq type=\"get\" id=\"p1\" to=\"chat.example\"><ping xmlns=\"urn:xmpp:ping\"/></iq><r xmlns=\"urn:xmpp:sm:3\"/>";

// Two messages behind a login, the second with line feeds, and the end of the stream.
pub(crate) const TALK: &str =
    "<stream:stream to='chat.example' version='1.0' xmlns='jabber:client' xmlns:stream='http://etherx.jabber.org/streams'><iq type='set' id='b1'><bind xmlns='urn:ietf:params:xml:ns:xmpp-bind'><resource>pad</resource></bind></iq><message to='bob@chat.example' id='m1' type='chat'><body>hello</body></message><message to='bob@chat.example' id='m2' type='chat'><body>two&#xA;end&#xA;account eve 1</body><origin-id xmlns='urn:xmpp:sid:0' id='o&#xA;gone 1 5'/></message></stream:stream>";

// The server's header and features.
pub(crate) const OPENED: &str =
    "<?xml version='1.0'?><stream:stream from='chat.example' id='0000000000000000000000000001' version='1.0' xml:lang='en' xmlns='jabber:client' xmlns:stream='http://etherx.jabber.org/streams'><stream:features><mechanisms xmlns='urn:ietf:params:xml:ns:xmpp-sasl'><mechanism>SCRAM-SHA-256</mechanism></mechanisms></stream:features>";

// What the server puts behind them for the login.
pub(crate) const LOGGED_IN: &str =
    "<challenge xmlns='urn:ietf:params:xml:ns:xmpp-sasl'>cj1hYmNkZWZBQUFBQUFBQUFBQUFBQUFBQUFBQUFBQUEscz10aFQveXVDV0Z5SkhVYU5XUHMyZy9BPT0saT00MDk2</challenge><success xmlns='urn:ietf:params:xml:ns:xmpp-sasl'>dj1qVG51eitrZTVXbzJHSFhsanY0MWd6bXRVVFFmTDZwemVNUWtacDM1bG5NPQ==</success>";

// What the server puts for the usual client behind its login.
pub(crate) const ANSWERS: &str =
    "<?xml version='1.0'?><stream:stream from='chat.example' id='0000000000000000000000000001' version='1.0' xml:lang='en' xmlns='jabber:client' xmlns:stream='http://etherx.jabber.org/streams'><stream:features><bind xmlns='urn:ietf:params:xml:ns:xmpp-bind'/><sm xmlns='urn:xmpp:sm:3'/></stream:features><iq id='b1' type='result'><bind xmlns='urn:ietf:params:xml:ns:xmpp-bind'><jid>alice@chat.example/gajim.ABC</jid></bind></iq><iq id='s1' to='alice@chat.example/gajim.ABC' type='result'/><enabled xmlns='urn:xmpp:sm:3' id='0000000000000001' max='300' resume='true'/><iq id='r1' to='alice@chat.example/gajim.ABC' type='result'><query xmlns='jabber:iq:roster'/></iq><iq from='chat.example' id='d1' to='alice@chat.example/gajim.ABC' type='result'><query xmlns='http://jabber.org/protocol/disco#info'><identity category='server' type='im'/><feature var='http://jabber.org/protocol/disco#info'/><feature var='http://jabber.org/protocol/disco#items'/><feature var='urn:xmpp:carbons:2'/><feature var='urn:xmpp:mam:2'/><feature var='urn:xmpp:ping'/><feature var='urn:xmpp:sid:0'/></query></iq><iq id='c1' to='alice@chat.example/gajim.ABC' type='result'/><iq from='chat.example' id='p1' to='alice@chat.example/gajim.ABC' type='result'/><a xmlns='urn:xmpp:sm:3' h='5'/>";

// What the server puts for the two messages and the end.
pub(crate) const BOUND: &str =
    "<?xml version='1.0'?><stream:stream from='chat.example' id='0000000000000000000000000001' version='1.0' xml:lang='en' xmlns='jabber:client' xmlns:stream='http://etherx.jabber.org/streams'><stream:features><bind xmlns='urn:ietf:params:xml:ns:xmpp-bind'/><sm xmlns='urn:xmpp:sm:3'/></stream:features><iq id='b1' type='result'><bind xmlns='urn:ietf:params:xml:ns:xmpp-bind'><jid>alice@chat.example/pad</jid></bind></iq></stream:stream>";

// What the server puts for an end tag that doesn't match (RFC 6120, section 4.9.3.13).
pub(crate) const REFUSED: &str =
    "<stream:error><not-well-formed xmlns='urn:ietf:params:xml:ns:xmpp-streams'/></stream:error></stream:stream>";

// An accounts file.
pub(crate) const ALICE: &str = "\
xmpp-accounts 1
domain chat.example
account alice pw-alice
";

// An accounts file with archives that keep one entry.
pub(crate) const BOTH: &str = "\
xmpp-accounts 2
domain chat.example
keep 1
account alice pw-alice
account bob pw-bob
";

// How a journal begins.
pub(crate) const BEGUN: &str = "\
xmpp-journal 1
connect 1 5 000000000000000000000000000000000000000000000000
";

// The same where archives keep their newest entries.
pub(crate) const BEGUN_KEEPING: &str = "\
xmpp-journal 2
connect 1 5 000000000000000000000000000000000000000000000000
";

// The login, read at once.
pub(crate) const LOGIN_PIECE: &str = "\
piece 1 5 3c73747265616d3a73747265616d20746f3d27636861742e6578616d706c65272076657273696f6e3d27312e30\
2720786d6c6e733d276a61626265723a636c69656e742720786d6c6e733a73747265616d3d27687474703a2f2f6574686572\
782e6a61626265722e6f72672f73747265616d73273e3c6175746820786d6c6e733d2775726e3a696574663a706172616d73\
3a786d6c3a6e733a786d70702d7361736c27206d656368616e69736d3d27534352414d2d5348412d323536273e6269777362\
6a316862476c6a5a537879505746695932526c5a673d3d3c2f617574683e3c726573706f6e736520786d6c6e733d2775726e\
3a696574663a706172616d733a786d6c3a6e733a786d70702d7361736c273e597a31696158647a4c48493959574a6a5a4756\
6d51554642515546425155464251554642515546425155464251554642515546424c4841394c3256575a334a6b5953745463\
54684c54326334554577325a6b5a61525531754f46704f54464a46566e4e555a57354a63465243593370335554303d3c2f72\
6573706f6e73653e
";

// The usual client's bytes behind it, of which a read gives 403 at most.
pub(crate) const SESSION_PIECES: &str = "\
piece 1 5 3c3f786d6c2076657273696f6e3d22312e30223f3e3c73747265616d3a73747265616d20746f3d22636861742e\
6578616d706c65222076657273696f6e3d22312e302220786d6c6e733d226a61626265723a636c69656e742220786d6c6e73\
3a73747265616d3d22687474703a2f2f6574686572782e6a61626265722e6f72672f73747265616d73223e3c697120747970\
653d22736574222069643d226231223e3c62696e6420786d6c6e733d2275726e3a696574663a706172616d733a786d6c3a6e\
733a786d70702d62696e64223e3c7265736f757263653e67616a696d2e4142433c2f7265736f757263653e3c2f62696e643e\
3c2f69713e3c697120747970653d22736574222069643d227331223e3c73657373696f6e20786d6c6e733d2275726e3a6965\
74663a706172616d733a786d6c3a6e733a786d70702d73657373696f6e222f3e3c2f69713e3c656e61626c6520786d6c6e73\
3d2275726e3a786d70703a736d3a332220726573756d653d2274727565222f3e3c697120747970653d22676574222069643d\
227231223e3c7175
piece 1 5 65727920786d6c6e733d226a61626265723a69713a726f73746572222f3e3c2f69713e3c697120747970653d22\
676574222069643d2264312220746f3d22636861742e6578616d706c65223e3c717565727920786d6c6e733d22687474703a\
2f2f6a61626265722e6f72672f70726f746f636f6c2f646973636f23696e666f222f3e3c2f69713e3c697120747970653d22\
736574222069643d226331223e3c656e61626c6520786d6c6e733d2275726e3a786d70703a636172626f6e733a32222f3e3c\
2f69713e3c70726573656e63653e3c7072696f726974793e353c2f7072696f726974793e3c2f70726573656e63653e3c6971\
20747970653d22676574222069643d2270312220746f3d22636861742e6578616d706c65223e3c70696e6720786d6c6e733d\
2275726e3a786d70703a70696e67222f3e3c2f69713e3c7220786d6c6e733d2275726e3a786d70703a736d3a33222f3e
";

// The two messages and the end, read so.
pub(crate) const TALK_PIECES: &str = "\
piece 1 5 3c73747265616d3a73747265616d20746f3d27636861742e6578616d706c65272076657273696f6e3d27312e30\
2720786d6c6e733d276a61626265723a636c69656e742720786d6c6e733a73747265616d3d27687474703a2f2f6574686572\
782e6a61626265722e6f72672f73747265616d73273e3c697120747970653d27736574272069643d276231273e3c62696e64\
20786d6c6e733d2775726e3a696574663a706172616d733a786d6c3a6e733a786d70702d62696e64273e3c7265736f757263\
653e7061643c2f7265736f757263653e3c2f62696e643e3c2f69713e3c6d65737361676520746f3d27626f6240636861742e\
6578616d706c65272069643d276d312720747970653d2763686174273e3c626f64793e68656c6c6f3c2f626f64793e3c2f6d\
6573736167653e3c6d65737361676520746f3d27626f6240636861742e6578616d706c65272069643d276d32272074797065\
3d2763686174273e3c626f64793e74776f262378413b656e64262378413b6163636f756e742065766520313c2f626f64793e\
3c6f726967696e2d
piece 1 5 696420786d6c6e733d2775726e3a786d70703a7369643a30272069643d276f262378413b676f6e652031203527\
2f3e3c2f6d6573736167653e3c2f73747265616d3a73747265616d3e
";

// A header and an end tag that doesn't match, read at once.
pub(crate) const BAD_PIECE: &str = "\
piece 1 5 3c73747265616d3a73747265616d20746f3d27636861742e6578616d706c65272076657273696f6e3d27312e30\
2720786d6c6e733d276a61626265723a636c69656e742720786d6c6e733a73747265616d3d27687474703a2f2f6574686572\
782e6a61626265722e6f72672f73747265616d73273e3c613e3c2f623e
";

// An element behind it, read at once.
pub(crate) const MORE_PIECE: &str = "\
piece 1 5 3c6d6f72652f3e
";

// A header, of which a read gives 50 bytes at most.
pub(crate) const HEADER_PIECES: &str = "\
piece 1 5 3c73747265616d3a73747265616d20746f3d27636861742e6578616d706c65272076657273696f6e3d27312e30\
2720786d6c
piece 1 5 6e733d276a61626265723a636c69656e742720786d6c6e733a73747265616d3d27687474703a2f2f6574686572\
782e6a6162
piece 1 5 6265722e6f72672f73747265616d73273e
";

// A connection is gone.
pub(crate) const GONE: &str = "\
gone 1 5
";

// The end of a journal without entries.
pub(crate) const NOTHING_KEPT: &str = "\
account alice 0
end
";

// The end of a journal with one entry in each archive.
pub(crate) const ONE_KEPT: &str = "\
account alice 1 2
entry 0000000000000002 5 alice@chat.example/pad bob@chat.example o gone 1 5 two end account eve 1
account bob 1 2
entry 0000000000000002 5 alice@chat.example/pad bob@chat.example o gone 1 5 two end account eve 1
end
";
