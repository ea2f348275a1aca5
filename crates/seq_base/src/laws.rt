//! What holds for every setting.
ghost use Rattle.std.specs.Prelude.{◌+◌, ◌*◌, ◌≤◌};
ghost use Rattle.seq_base.specs.Setting.{Parameters, IsValid, threshold_of, solid_of};

/// The threshold is at most the number of lists that makes a transaction solid. The larger half of that many lists
/// reaches the threshold.
pub fn thresholds_are_low()
    ensures at_most_solid { (s : Parameters) → IsValid s → threshold_of s ≤ solid_of s }
    ensures at_most_half { (s : Parameters) → IsValid s → 2 * threshold_of s ≤ solid_of s + 1 }
{}
