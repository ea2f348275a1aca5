//! The tests of plans and made plans: each public call once, and each key of a plan with each of its faults.
#![tactic(auto)]

#[cfg(test)]
mod arrivals;
#[cfg(test)]
mod keys;
#[cfg(test)]
mod limits;
#[cfg(test)]
mod made;
#[cfg(test)]
mod scripts;
#[cfg(test)]
mod words;
