//! Keys and adopted clocks.
ghost use Rattle.std.specs.Prelude.{◌≡◌};
ghost use Rattle.intake.specs.Keys.{key_of, adopted_of, count_upto, count_from};

use crate::slot::UNKNOWN;

/// The k-th smallest of the stamps, or UNKNOWN.
#[tactic(auto, unfolding(crate::specs::Keys::key_of))]
pub(crate) fn key_of(k: usize, stamps: &[u64]) -> u64
    ensures { result ≡ key_of k stamps.now }
{
    let mut key = UNKNOWN;
    for stamp in stamps {
        if *stamp < key && k <= count_upto(*stamp, stamps) {
            key = *stamp;
        }
    }
    key
}

/// How many stamps are at most this one.
fn count_upto(bound: u64, stamps: &[u64]) -> usize
    ensures { result ≡ count_upto bound stamps.now }
{
    stamps.iter().filter(|stamp| **stamp <= bound).count()
}

/// The greatest clock that f+1 replicas have reached.
#[tactic(auto, unfolding(crate::specs::Keys::adopted_of))]
pub(crate) fn adopted_of(f: usize, clocks: &[u64]) -> u64
    ensures { result ≡ adopted_of f clocks.now }
{
    let mut adopted = 0;
    for clock in clocks {
        if adopted < *clock && f < count_from(*clock, clocks) {
            adopted = *clock;
        }
    }
    adopted
}

/// How many clocks are at least this one.
fn count_from(bound: u64, clocks: &[u64]) -> usize
    ensures { result ≡ count_from bound clocks.now }
{
    clocks.iter().filter(|clock| bound <= **clock).count()
}
