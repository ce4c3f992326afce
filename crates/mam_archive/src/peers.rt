//! The bare form of an address.
ghost use Rattle.std.specs.Prelude.{◌≡◌};
ghost use Rattle.mam_archive.specs.Peers.{bare_form};

/// The bare form of an address: what stands before its first `/`, or all of it where there is none (RFC 7622
/// section 3.1). It borrows.
pub fn bare_form(address: &str) -> &str
    ensures { result.now ≡ bare_form address.now }
{
    match address.split_once('/') {
        Some((bare, _)) => bare,
        None => address,
    }
}
