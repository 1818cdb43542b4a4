// How a stage runs.
#![tactic(auto)]

ghost use Rattle.std.specs.Prelude.{◌≡◌};
ghost use Rattle.rules.specs.Mode.{is_apply, runs};
ghost use Rattle.stage_mode.specs.View.{mode_of};

#[derive(Clone, Copy, PartialEq, Eq, Debug)]
pub enum StageMode {
    Off,
    Observe,
    Apply,
}

impl StageMode {
    // Whether the stage observes or applies.
    pub fn runs(self) -> bool
        ensures { result ≡ runs (mode_of self) }
    {
        self != StageMode::Off
    }

    pub fn applies(self) -> bool
        ensures { result ≡ is_apply (mode_of self) }
    {
        self == StageMode::Apply
    }
}
