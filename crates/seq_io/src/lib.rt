//! Sources and sinks of bytes, with every fault counted.
//!
//! What a crate above may rely on:
//!
//! - A read returns the next of the bytes that are left, where the source exposes them to contracts.
//! - A write appends a prefix of its piece, where the sink exposes what it holds.
//! - A call that returns [`Failed`] leaves the bytes to read or those written unchanged. It increases the fault
//!   count, unless that is at its maximum. A call that succeeds leaves the count.
//! - In memory, a read leaves the buffer after the bytes read unchanged, and a failed read leaves the whole buffer.
//!
//! The crate depends on `seq_base`, and must know no text and no message.
#![tactic(auto)]

mod memory;
mod real;
mod script;
mod steady;
mod traits;

pub use memory::{MemSink, MemSource};
pub use real::{RealSink, RealSource};
pub use steady::{SteadySink, SteadySource};
pub use traits::{Failed, Sink, Source};
