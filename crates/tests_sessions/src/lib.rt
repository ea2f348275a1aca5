//! The tests of sessions: each public call of `session_rules` once, with values that an independent program computed.
#![tactic(auto)]

#[cfg(test)]
mod cases;
#[cfg(test)]
mod finals;
#[cfg(test)]
mod lists;
#[cfg(test)]
mod tables;
