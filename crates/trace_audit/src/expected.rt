ghost use Rattle.std.specs.Prelude.{◌≡◌, ◌↔◌, IsTrue};
ghost use Rattle.trace_audit.specs.Audits.{IsOfRun};

use seal_kit::Height;
use seq_base::Setting;
use trace_form::Trace;

/// What the auditor knows of a run besides the public keys, from its own configuration.
pub struct ExpectedRun {
    pub setting: Setting,
    /// The last view of the run.
    pub views: u32,
    /// The height of the keys of all replicas.
    pub height: Height,
}

impl Drop for ExpectedRun {
    fn drop(self) {
        let ExpectedRun {
            setting: _,
            views: _,
            height: _,
        } = self;
    }
}

/// Whether the trace is of this run.
pub(crate) fn is_of_run(run: &ExpectedRun, trace: &Trace) -> bool
    ensures { IsTrue result ↔ IsOfRun run.now trace.now }
{
    has_setting(&trace.run.setting, &run.setting)
        && trace.views == run.views
        && trace.height == run.height
}

fn has_setting(one: &Setting, other: &Setting) -> bool
    ensures { IsTrue result ↔ (one.now ≡ other.now) }
{
    one.n() == other.n() && one.f() == other.f() && one.p() == other.p() && one.q() == other.q()
}
