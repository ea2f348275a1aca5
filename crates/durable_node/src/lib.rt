//! A node that logs its events before it acts on them.
//! A crate above may rely on this. A node that is started on what a crash left is in the state to which its turns on
//! the logged events lead. A turn that succeeds has left its event in the log, where no crash takes it. So a replica
//! that crashes at any moment is recovered from its log. A log starts with a header that names its owner, and no other
//! node takes it. A running digest of all bytes so far is in the checks of each record, so that a record which was removed,
//! exchanged or taken from another log is corrupt where it stands.
//! A driver that holds nodes and keepers separately has the same two steps as calls: [`opened`], and [`keep_event`]
//! before each turn. A host that holds the bytes of the log itself has their parts: [`header_of`] and [`check_owner`]
//! for the header, [`header_digest`], [`read_log`] and [`replayed`] to open a node, and [`record_of`] for the record of an
//! event.
//! The law that no leaf seals two statements is in `lifetime_laws`. This crate stands on nodes, and on what a [`Keeper`]
//! promises of its bytes. Tests are in `tests_keep`.
#![tactic(auto)]

mod check;
mod copied;
mod corrupt;
mod faults;
mod header;
mod keeper;
mod kept;
mod laws;
mod memory;
mod opening;
mod reading;
mod steady;
mod writing;

pub use check::header_digest;
pub use header::{
    HEADER_BYTES, check_owner, header_of, height_number, logs_say_whose_they_are, records_in,
};
pub use keeper::{KeepFault, Keeper};
pub use kept::{DurableNode, KeptFault, keep_event};
pub use laws::logs_are_read_back;
pub use memory::MemKeeper;
pub use opening::{new_log, opened, replayed};
pub use reading::{LogFault, Logged, read_log};
pub use steady::SteadyKeeper;
pub use writing::{Record, is_short, record_of};
