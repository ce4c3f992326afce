//! How answers to requests are addressed (RFC 6120, section 8.2.3).
ghost use Rattle.std.specs.Prelude.{◌≡◌, Some};
ghost use Rattle.std.specs.Option.{option_copied};
ghost use Rattle.im_replies.specs.Requests.{envelope_view};

use im_jid::Jid;
use im_replies::Envelope;
use im_stanza::Iq;

// The text of an address, where there is one.
fn address_text(address: &Option<Jid>) -> Option<&str>
    ensures { option_copied result ≡ address.now }
{
    match address {
        Some(address) => Some(address.text()),
        None => None,
    }
}

/// An answer to an `iq` is from where the `iq` was to, and to the session with this full address.
pub(crate) fn envelope_to<'a>(iq: &'a Iq, full: &'a str) -> Envelope<'a>
    ensures { envelope_view result ≡ record { from = iq.now.to; to = Some full.now; id = iq.now.id } }
{
    Envelope {
        from: address_text(&iq.to),
        to: Some(full),
        id: iq.id.as_str(),
    }
}
