//! The tests of durable nodes: a keeper that fails, logs of other replicas, logs with records out of their places, a replica that crashes at every event of a
//! run, and whole runs over keepers. One module tests the queries of a host to a node.
#![tactic(auto)]

#[cfg(test)]
mod failing;
#[cfg(test)]
mod headers;
#[cfg(test)]
mod journal;
#[cfg(test)]
mod moved;
#[cfg(test)]
mod performed;
#[cfg(test)]
mod queries;
#[cfg(test)]
mod runs;
#[cfg(test)]
mod stopped;
#[cfg(test)]
mod tampered;
#[cfg(test)]
mod unread;
