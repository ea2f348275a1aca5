use crate::keys::Keys;
use run_record::RunRecord;
use seal_kit::Height;

/// The record of a run, and how its seals are checked. A trace has a record made bare: no turn has sends. A faulty
/// replica has an empty journal, no batches, and the head 0 and 0.
#[derive(Drop)]
pub struct Trace {
    pub run: RunRecord,
    /// Public keys number one for each replica of the setting.
    pub keys: Keys,
    pub height: Height,
    /// How many views the run may have.
    pub views: u32,
}
