//! The tests of runs in threads. The order of events depends on the machine, so they check only what holds in every
//! run.
#![tactic(auto)]

#[cfg(test)]
mod gate;
#[cfg(test)]
mod runs;
