//! A comparison of secrets.
ghost use Rattle.std.specs.Prelude.{◌≡◌};
ghost use Rattle.std.specs.Str.{bytes_eq};

/// Whether two secrets are the same. By its code, not by its contract, it looks at every byte whatever it finds, so
/// that the time that it takes doesn't depend on how far they agree.
pub fn is_same(a: &[u8; 32], b: &[u8; 32]) -> bool
    ensures { result ≡ bytes_eq a.now b.now }
{
    let mut difference = 0;
    for i in 0..32 {
        difference |= a[i] ^ b[i];
    }
    difference == 0
}
