//! The law.
ghost use Rattle.std.specs.Prelude.{◌≡◌, ℕ, List};
ghost use Rattle.cl_handlers.specs.Clients.{ClientView};
ghost use Rattle.cl_intents.specs.Intents.{IntentsView, observed};

/// A law: who looks again at a client as it was looked at last notes nothing new. So it need be looked at only where
/// something changed.
pub fn looking_again_notes_nothing()
    ensures { (c : ClientView (List ℕ)) (v : IntentsView) → observed c (observed c v) ≡ observed c v }
{}
