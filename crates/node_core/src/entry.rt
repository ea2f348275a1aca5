use crate::{Event, Turned};
use seq_base::Items;

/// An event with the result of its turn.
pub struct Entry {
    pub event: Event,
    pub turned: Turned,
}

impl Drop for Entry {
    fn drop(self) {
        let Entry {
            event: _,
            turned: _,
        } = self;
    }
}

/// The entries of a replica, in order.
pub type Entries = Items<Entry>;
