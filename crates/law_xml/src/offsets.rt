//! Laws of offsets: the offset of a fault is that of the first byte of its token (RFC 6120, section 4.9; XML 1.0, sections
//! 2.4, 2.7, 2.8, 3.1 and 4.1).
ghost use Rattle.std.specs.Prelude.{◌≡◌, ◌≢◌, ℕ, List, [], length, true, false, None, Some};
ghost use Rattle.xml_framer.specs.Machine.{run, step};
ghost use Rattle.xml_framer.specs.States.{Turn, from_start, is_text, turn};
ghost use Rattle.xml_framer.specs.declared.fault.Fault.{Fault};
ghost use Rattle.xml_framer.specs.declared.fault.Why.TheVariants as why;
ghost use Rattle.xml_framer.specs.declared.limits.Limits.{Limits};
ghost use Rattle.xml_framer.specs.declared.states.Mode.{Mode};
ghost use Rattle.xml_framer.specs.declared.states.Mode.TheVariants as mode;
ghost use Rattle.law_xml.specs.FaultRows.{Takes};
ghost use Rattle.law_xml.specs.Offsets.{IsAtToken, first_of};
ghost use Rattle.law_xml.specs.Streams.{position_of};

/// A law: the offset of a fault that a byte decides, other than `TooLong`, is that of the first byte of its token. A tag
/// and other markup have that of their `<`, a reference that of its `&`, and a text that of its first byte. Before it stand
/// whole tokens with texts between them, and in the bytes known the token has not ended.
pub fn faults_have_the_offset_of_their_token()
    ensures { (limits : Limits) (bytes : List ℕ) (b : ℕ) (f : Fault) → (run (turn (from_start limits) []) bytes).state.fault ≡ None
        → (step (run (turn (from_start limits) []) bytes) b).state.fault ≡ Some f → f.why ≢ why.TooLong → IsAtToken bytes b f.at }
{}

/// A law: a byte belongs to one token. Where bytes are whole tokens and then one in hand, they are so in one way: so the
/// offset of which `faults_have_the_offset_of_their_token` speaks is the only one, that of no byte before or after.
pub fn tokens_have_one_offset()
    ensures { (bytes : List ℕ) (b n m : ℕ) → IsAtToken bytes b n → IsAtToken bytes b m → n ≡ m }
{}

/// A law: the offset of a token is that of its first byte. After bytes without a fault the next byte's offset is the
/// number of them. The `<` or `&` that begins a token in a text gives the token its own offset, and so does the first byte
/// of a run of text; each further byte leaves it.
pub fn tokens_have_the_offset_of_their_first_byte()
    ensures next { (limits : Limits) (bytes : List ℕ) → (run (turn (from_start limits) []) bytes).state.fault ≡ None
        → (run (turn (from_start limits) []) bytes).state.positions.at ≡ position_of (length bytes) }
    ensures begins { (t : Turn) (b : ℕ) → Takes t.state mode.Text b → is_text (step t b).state.lexical.mode ≡ false
        → ((step t b).state.positions.token_at ≡ t.state.positions.at) × (b ≡ first_of (step t b).state.lexical.mode) }
    ensures run_begins { (t : Turn) (b : ℕ) → Takes t.state mode.Text b → t.state.lexical.in_run ≡ false → (step t b).state.fault ≡ None
        → is_text (step t b).state.lexical.mode ≡ true → ((step t b).state.positions.token_at ≡ t.state.positions.at) × ((step t b).state.lexical.in_run ≡ true) }
    ensures run_goes_on { (t : Turn) (b : ℕ) → Takes t.state mode.Text b → t.state.lexical.in_run ≡ true → (step t b).state.fault ≡ None
        → is_text (step t b).state.lexical.mode ≡ true → ((step t b).state.positions.token_at ≡ t.state.positions.token_at) × ((step t b).state.lexical.in_run ≡ true) }
    ensures goes_on { (t : Turn) (m : Mode) (b : ℕ) → Takes t.state m b → is_text m ≡ false → (step t b).state.positions.token_at ≡ t.state.positions.token_at }
{}
