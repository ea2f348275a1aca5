//! The tests of nodes and runs: runs whose expected values were computed independently, and each public call once on
//! its happy path.
#![tactic(auto)]

#[cfg(test)]
mod cases;
#[cfg(test)]
mod clean;
#[cfg(test)]
mod nodes;
#[cfg(test)]
mod records;
#[cfg(test)]
mod reports;
#[cfg(test)]
mod runs;
#[cfg(test)]
mod scripts;
