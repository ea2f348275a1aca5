//! The tests of the intake: receipts, keys, and what arrives when.
#![tactic(auto)]

#[cfg(test)]
mod blocks;
#[cfg(test)]
mod desks;
#[cfg(test)]
mod intakes;
#[cfg(test)]
mod words;
#[cfg(test)]
mod written_out;
