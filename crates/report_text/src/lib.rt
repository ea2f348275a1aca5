//! The texts that the program prints.
//! It stands on the fair crates and on the records of runs. It must not know where a text is written to.
#![tactic(auto)]

mod audit;
mod line;
mod lines;
mod order;
mod record;

pub use audit::audit_text;
pub use line::line_text;
pub use order::order_text;
pub use record::record_text;
