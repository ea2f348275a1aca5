//! The tests of seals: chains, keys and signatures, with values that another program computed from the formats. They
//! use the values of RFC 8554 where its examples use one-time signatures of this kind.
#![tactic(auto)]

#[cfg(test)]
mod bytes;
#[cfg(test)]
mod cases;
#[cfg(test)]
mod from_bytes;
#[cfg(test)]
mod learned;
#[cfg(test)]
mod makers;
#[cfg(test)]
mod one_level;
#[cfg(test)]
mod one_time;
#[cfg(test)]
mod two_levels;
