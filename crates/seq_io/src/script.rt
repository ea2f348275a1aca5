ghost use Rattle.std.specs.Prelude.{◌≡◌, ◌≤◌, ◌↔◌, IsTrue};

use std::marker::Model;

/// Which calls of a source or a sink in memory fail, and how many calls and faults there were.
pub(crate) struct Calls {
    failing: Vec<u64>,
    calls: u64,
    faults: u64,
}

impl Drop for Calls {
    fn drop(self) {
        let Calls {
            failing: _,
            calls: _,
            faults: _,
        } = self;
    }
}

impl Model for Calls {
    ghost use Rattle.seq_io.specs.Memory.{Script};

    ghost Value = { Script };

    ghost view = { λ s. record { failing = s.failing.items; calls = s.calls; faults = s.faults } };
}

impl Calls {
    ghost use Rattle.seq_io.specs.Memory.{Script, FailsNext, after_call, after_fault};

    pub(crate) fn new(failing: Vec<u64>) -> Calls
        ensures { result ≡ record { failing = failing.items; calls = 0; faults = 0 } }
    {
        Calls {
            failing,
            calls: 0,
            faults: 0,
        }
    }

    /// Whether the next call fails.
    pub(crate) fn fails_next(&self) -> bool
        ensures { IsTrue result ↔ FailsNext self.now }
    {
        self.failing.contains(&self.calls.saturating_add(1))
    }

    pub(crate) fn succeed(&mut self)
        ensures { self.new ≡ after_call self.old }
    {
        self.calls = self.calls.saturating_add(1);
    }

    pub(crate) fn fail(&mut self)
        ensures counts { self.new ≡ after_fault self.old }
        ensures later { self.old.faults ≤ self.new.faults }
    {
        self.calls = self.calls.saturating_add(1);
        self.faults = self.faults.saturating_add(1);
    }
}
