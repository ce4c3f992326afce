//! The laws.
ghost use Rattle.std.specs.Prelude.{◌≡◌, ℕ, Bool, List};
ghost use Rattle.cl_core.specs.Feeds.{Fed, bytes_step};
ghost use Rattle.cl_core.specs.Steps.{item_step};
ghost use Rattle.cl_core.specs.UserCalls.{catch_up_answer, catches_up, closes, dials, forgets, leaves, say_answer, says};
ghost use Rattle.law_client.specs.Rendered.{IsRendered, client_rendered, fed_rendered, turn_rendered, written, written_fed};
ghost use Rattle.cl_handlers.specs.Clients.{ClientStep, ClientView};
ghost use Rattle.cl_handlers.specs.Speech.{Note, Speech, in_bytes, in_items};
ghost use Rattle.xml_framer.specs.declared.items.Item.{Item};
ghost use Rattle.xml_writer.specs.Items.{ItemOut, written_item};

/// A law: where each thing that is queued is turned into another, and each thing in the stream into some others, what comes
/// of each item, of each piece of bytes and of each call is what came of it before, turned so; and what is answered to a
/// submission and to a catch-up is the same.
pub fn each_call_is_the_same_however_written<A, B, X, Y>()
    ensures item { (p : Speech A X) (q : Speech B Y) (f : A → B) (g : X → List Y) (k : List (Note A) → List (Note B)) → IsRendered p q f g k
        → (t : ClientStep A X) (item : Item) → item_step q (turn_rendered f g k t) item ≡ turn_rendered f g k (item_step p t item) }
    ensures bytes { (p : Speech A X) (q : Speech B Y) (f : A → B) (g : X → List Y) (k : List (Note A) → List (Note B)) → IsRendered p q f g k
        → (fed : Fed A X) (piece : List ℕ) → bytes_step q (fed_rendered f g k fed) piece ≡ fed_rendered f g k (bytes_step p fed piece) }
    ensures dials { (p : Speech A X) (q : Speech B Y) (f : A → B) (g : X → List Y) (k : List (Note A) → List (Note B)) → IsRendered p q f g k
        → (fed : Fed A X) (entropy : List ℕ) → dials q entropy (fed_rendered f g k fed) ≡ fed_rendered f g k (dials p entropy fed) }
    ensures leaves { (p : Speech A X) (q : Speech B Y) (f : A → B) (g : X → List Y) (k : List (Note A) → List (Note B)) → IsRendered p q f g k
        → (fed : Fed A X) → leaves (fed_rendered f g k fed) ≡ fed_rendered f g k (leaves fed) }
    ensures forgets { (p : Speech A X) (q : Speech B Y) (f : A → B) (g : X → List Y) (k : List (Note A) → List (Note B)) → IsRendered p q f g k
        → (fed : Fed A X) → forgets q (fed_rendered f g k fed) ≡ fed_rendered f g k (forgets p fed) }
    ensures closes { (p : Speech A X) (q : Speech B Y) (f : A → B) (g : X → List Y) (k : List (Note A) → List (Note B)) → IsRendered p q f g k
        → (fed : Fed A X) → closes q (fed_rendered f g k fed) ≡ fed_rendered f g k (closes p fed) }
    ensures says { (p : Speech A X) (q : Speech B Y) (f : A → B) (g : X → List Y) (k : List (Note A) → List (Note B)) → IsRendered p q f g k
        → (t : ClientStep A X) (to text : List ℕ) (private : Bool) → says q (turn_rendered f g k t) to text private ≡ turn_rendered f g k (says p t to text private) }
    ensures catches_up { (p : Speech A X) (q : Speech B Y) (f : A → B) (g : X → List Y) (k : List (Note A) → List (Note B)) → IsRendered p q f g k
        → (t : ClientStep A X) (max : ℕ) → catches_up q (turn_rendered f g k t) max ≡ turn_rendered f g k (catches_up p t max) }
    ensures say_answer { (f : A → B) (c : ClientView A) (text : List ℕ) → say_answer (client_rendered f c) text ≡ say_answer c text }
    ensures catch_up_answer { (f : A → B) (c : ClientView A) → catch_up_answer (client_rendered f c) ≡ catch_up_answer c }
{}

/// A law: the client of bytes is that of items with each item written, call by call.
pub fn each_call_in_bytes_is_that_of_items()
    ensures item { (t : ClientStep ItemOut ItemOut) (item : Item) → item_step in_bytes (written t) item ≡ written (item_step in_items t item) }
    ensures bytes { (fed : Fed ItemOut ItemOut) (piece : List ℕ) → bytes_step in_bytes (written_fed fed) piece ≡ written_fed (bytes_step in_items fed piece) }
    ensures dials { (fed : Fed ItemOut ItemOut) (entropy : List ℕ) → dials in_bytes entropy (written_fed fed) ≡ written_fed (dials in_items entropy fed) }
    ensures leaves { (fed : Fed ItemOut ItemOut) → leaves (written_fed fed) ≡ written_fed (leaves fed) }
    ensures forgets { (fed : Fed ItemOut ItemOut) → forgets in_bytes (written_fed fed) ≡ written_fed (forgets in_items fed) }
    ensures closes { (fed : Fed ItemOut ItemOut) → closes in_bytes (written_fed fed) ≡ written_fed (closes in_items fed) }
    ensures says { (t : ClientStep ItemOut ItemOut) (to text : List ℕ) (private : Bool) → says in_bytes (written t) to text private ≡ written (says in_items t to text private) }
    ensures catches_up { (t : ClientStep ItemOut ItemOut) (max : ℕ) → catches_up in_bytes (written t) max ≡ written (catches_up in_items t max) }
    ensures say_answer { (c : ClientView ItemOut) (text : List ℕ) → say_answer (client_rendered written_item c) text ≡ say_answer c text }
    ensures catch_up_answer { (c : ClientView ItemOut) → catch_up_answer (client_rendered written_item c) ≡ catch_up_answer c }
{}
