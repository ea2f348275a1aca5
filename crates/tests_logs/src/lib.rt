//! The tests of logs and mailboxes: each public call once, and several threads that run concurrently.
#![tactic(auto)]

#[cfg(test)]
mod boxes;
#[cfg(test)]
mod clients;
#[cfg(test)]
mod crowd;
#[cfg(test)]
mod logs;
#[cfg(test)]
mod turns;
