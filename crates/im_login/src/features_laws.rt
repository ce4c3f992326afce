//! What reading and writing features say of each other, and what a server tells of itself.
ghost use Rattle.std.specs.Prelude.{◌≡◌, Ok};
ghost use Rattle.im_login.specs.Features.{features_elem, features_read};

use crate::features::Features;

/// A law: what is written of features is read back.
pub fn features_are_read()
    ensures { (f : Features) → features_read (features_elem f) ≡ Ok f }
{}
