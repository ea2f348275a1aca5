//! The tests of the crates that order transactions: each public call once, with values that an independent program
//! computed.
#![tactic(auto)]

#[cfg(test)]
mod cases;
#[cfg(test)]
mod classes;
#[cfg(test)]
mod devices;
#[cfg(test)]
mod graphs;
#[cfg(test)]
mod lines;
#[cfg(test)]
mod numbers;
#[cfg(test)]
mod reports;
#[cfg(test)]
mod small;
#[cfg(test)]
mod sorted;
#[cfg(test)]
mod texts;
#[cfg(test)]
mod updates;
