//! A law of scripts.
ghost use Rattle.std.specs.Prelude.{◌≡◌, ℕ, List};
ghost use Rattle.cl_core.specs.Values.{ClientValue};
ghost use Rattle.cmd_sync.specs.declared.script.Step.{Step};
ghost use Rattle.cmd_sync.specs.Courses.{begun, over};
ghost use Rattle.cmd_sync.specs.Outcomes.{done_over};
ghost use Rattle.cmd_sync.specs.declared.stage.Stage.TheVariants.{Done};

/// A law: a script that came to its closing is done whole. Over the pieces that were read each of its steps was done, in their
/// order: each message was seen acknowledged, and each catch-up was seen to end.
pub fn a_closed_script_is_done_whole()
    ensures { (client : ClientValue) (entropy : List ℕ) (steps : List Step) (pieces : List (List ℕ))
        → (over (begun client entropy steps) pieces).course.stage ≡ Done → done_over (begun client entropy steps).course pieces ≡ steps }
{}
