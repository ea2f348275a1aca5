//! The state that the rule of the lock has for each pass.
use std::collections::LinkedList;

/// What a pass knows, and what the rule adds to it: a shorter prefix that was noted when another pass was joined, and
/// whether the pass holds the lock. No value of this type exists at run time.
pub(crate) struct View<E> {
    pub(crate) parts: u64,
    pub(crate) seen: LinkedList<E>,
    pub(crate) reported: LinkedList<E>,
    pub(crate) own: LinkedList<u64>,
    pub(crate) holds: bool,
}
