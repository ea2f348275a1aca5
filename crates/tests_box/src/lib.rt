//! The tests of a replica whose host keeps the log: each public call and each refusal once, seals that it has
//! checked before or ahead, and the audit of its record.
#![tactic(auto)]

#[cfg(test)]
mod audits;
#[cfg(test)]
mod cluster;
#[cfg(test)]
mod expected_runs;
#[cfg(test)]
mod idle;
#[cfg(test)]
mod logs;
#[cfg(test)]
mod replicas;
#[cfg(test)]
mod seals;
#[cfg(test)]
mod shared;
#[cfg(test)]
mod turns;
#[cfg(test)]
mod verifiers;
