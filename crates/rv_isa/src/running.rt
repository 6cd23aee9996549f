//! Laws of the machine's runs.

ghost use Rattle.std.specs.Prelude.{◌≡◌, ◌⊎◌, ◌+◌, ◌++◌, ℕ, List};
ghost use Rattle.rv_isa.specs.declared.image.Segment.{Segment};
ghost use Rattle.rv_isa.specs.Step.{State, Running};
ghost use Rattle.rv_isa.specs.Run.{run, shown, state_after};
ghost use Rattle.rv_isa.specs.Events.{events};

/// Steps in two parts are the steps of the whole: some from a state, the others from the state that
/// these lead to. A state that ended stays, shows its end and makes no more events.
pub fn runs_compose()
    ensures states { (segments : List Segment) (m k : ℕ) (s : State) → state_after segments (m + k) s ≡ state_after segments k (state_after segments m s) }
    ensures made { (segments : List Segment) (m k : ℕ) (s : State)
        → events segments (m + k) s ≡ events segments m s ++ events segments k (state_after segments m s) }
    ensures shows_state { (segments : List Segment) (m : ℕ) (s : State) → run segments m s ≡ shown (run segments m s).standing (state_after segments m s) }
    ensures running { (segments : List Segment) (m k : ℕ) (s : State) → (run segments m s).standing ≡ Running
        → run segments (m + k) s ≡ run segments k (state_after segments m s) }
    ensures ended { (segments : List Segment) (m : ℕ) (s : State) → ((run segments m s).standing ≡ Running)
        ⊎ ((k : ℕ) → run segments (m + k) s ≡ run segments m s) }
{}
