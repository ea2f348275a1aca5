//! The tests of sets of replicas, votes and certificates, stores of blocks, voting, and proposals along a chain.
#![tactic(auto)]

#[cfg(test)]
mod chains;
#[cfg(test)]
mod safety;
#[cfg(test)]
mod sets;
#[cfg(test)]
mod stored;
#[cfg(test)]
mod stores;
#[cfg(test)]
mod votes;
