//! What all workers share.
use arrival_log::SharedLog;
use mailbox::Mailbox;

/// A log and a mailbox for each replica.
#[derive(Drop)]
pub(crate) struct World {
    pub(crate) logs: Vec<SharedLog>,
    pub(crate) boxes: Vec<Mailbox>,
}
