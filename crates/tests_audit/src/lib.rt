//! The tests of the audit: traces whose values were computed independently, and each public call once on its happy
//! path.
#![tactic(auto)]

#[cfg(test)]
mod changes;
#[cfg(test)]
mod faults;
#[cfg(test)]
mod five;
#[cfg(test)]
mod keyed;
#[cfg(test)]
mod one;
#[cfg(test)]
mod samples;
#[cfg(test)]
mod three;
#[cfg(test)]
mod traces;
