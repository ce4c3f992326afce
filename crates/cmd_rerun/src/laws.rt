//! A law of runs.
ghost use Rattle.std.specs.Prelude.{◌≡◌, map};
ghost use Rattle.cmd_journal.specs.Journals.{InputView};
ghost use Rattle.cmd_journal.specs.declared.accounts_file.Registration.{Registration};
ghost use Rattle.cmd_journal.specs.Texts.{NamedView};
ghost use Rattle.cmd_rerun.specs.Reruns.{archives_after};

/// A law: in the end each account has its archive, in the order of the accounts, whatever happened.
pub fn each_account_is_told()
    ensures { (input : InputView) → map (λ (a : NamedView). a.name) (archives_after input) ≡ map (λ (r : Registration). r.name) input.accounts.accounts }
{}
