//! The tests of the wire format: each public call once, with values that an independent program computed.
#![tactic(auto)]

#[cfg(test)]
mod faults;
#[cfg(test)]
mod large;
#[cfg(test)]
mod messages;
#[cfg(test)]
mod parts;
#[cfg(test)]
mod samples;
#[cfg(test)]
mod walks;
