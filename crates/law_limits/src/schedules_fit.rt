//! The law.
ghost use Rattle.std.specs.Prelude.{◌≡◌, ℕ, true, List};
ghost use Rattle.cl_core.specs.Making.{account_of};
ghost use Rattle.law_limits.specs.Within.{IsAccountWithin};
ghost use Rattle.cmd_report.specs.Addresses.{bare_address};
ghost use Rattle.law_limits.specs.Bounds.{IsTextWithin, most_address, most_text};
ghost use Rattle.cmd_schedule.specs.Grammar.{is_name, is_text};

/// A law: an account and a device by names that a schedule may give them are within the bounds that a client keeps to, and
/// so are the address of an account and the text of a message.
pub fn schedules_keep_to_the_bounds()
    ensures account { (account password device : List ℕ) → is_name account ≡ true → is_name device ≡ true
        → IsAccountWithin (account_of (bare_address account) account password device) }
    ensures address { (account : List ℕ) → is_name account ≡ true → IsTextWithin most_address (bare_address account) }
    ensures text { (text : List ℕ) → is_text text ≡ true → IsTextWithin most_text text }
{}
