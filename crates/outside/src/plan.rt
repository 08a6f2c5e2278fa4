ghost use Rattle.std.specs.Prelude.{◌≡◌};

use std::marker::Model;

/// Which calls are to fail, by their numbers from 0 on.
#[derive(Drop)]
pub(crate) struct FaultPlan {
    failing: Vec<u64>,
    calls: u64,
}

impl Model for FaultPlan {
    ghost use Rattle.outside.specs.Counts.{Plan};

    ghost Value = { Plan };

    ghost view = { λ plan. record { failing = plan.failing.items; calls = plan.calls } };
}

impl FaultPlan {
    ghost use Rattle.outside.specs.Counts.{plan_of, fails, after_call};

    pub(crate) fn new(failing: Vec<u64>) -> FaultPlan
        ensures { result ≡ plan_of failing.items }
    {
        FaultPlan { failing, calls: 0 }
    }

    /// Counts the next call, and tells whether it is to fail.
    pub(crate) fn next_fails(&mut self) -> bool
        ensures fails { result ≡ fails self.old }
        ensures counted { self.new ≡ after_call self.old }
    {
        let number = self.calls;
        self.calls = number.saturating_add(1);
        self.failing.contains(&number)
    }
}
