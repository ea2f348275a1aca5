ghost use Rattle.std.specs.Prelude.{◌≡◌, position};
ghost use Rattle.run_verdict.specs.Sealed.{has_sealed, was_sealed};

use node_core::Entry;
use run_record::Journal;

/// The maximum number of replicas in a setting.
const MAX_SIGNERS: usize = 16;

/// Where the last search in the journal of each signer ended. A statement is mostly delivered soon after it was sealed,
/// and so is the next one of the same signer, so a search begins there. The answer does not depend on where it begins.
#[derive(Drop)]
pub(crate) struct Bookmarks {
    places: [usize; MAX_SIGNERS],
}

impl Bookmarks {
    pub(crate) fn start() -> Bookmarks {
        Bookmarks {
            places: [0; MAX_SIGNERS],
        }
    }

    /// Whether any entry of the signer's journal sealed the statement.
    pub(crate) fn was_sealed(&mut self, journals: &[Journal], signer: u32, statement: &[u8]) -> bool
        ensures { result ≡ was_sealed journals.now signer statement.now }
    {
        let Some(journal) = journals.get(signer as usize) else {
            return false;
        };
        let entries = journal.entries.as_slice();
        let start = self.place(signer as usize).min(entries.len());
        let (before, following) = entries.split_at(start);
        if let Some(at) = entry_that_sealed(following, statement) {
            self.mark(signer as usize, start.saturating_add(at));
            return true;
        }
        entry_that_sealed(before, statement).is_some()
    }

    fn place(&self, signer: usize) -> usize {
        self.places.get(signer).copied().unwrap_or(0)
    }

    fn mark(&mut self, signer: usize, place: usize) {
        if let Some(mark) = self.places.get_mut(signer) {
            *mark = place;
        }
    }
}

/// The first entry whose turn sealed the statement.
fn entry_that_sealed(entries: &[Entry], statement: &[u8]) -> Option<usize>
    ensures { result ≡ position (has_sealed statement.now) entries.now }
{
    entries
        .iter()
        .position(|entry| is_sealed_at(entry, statement))
}

fn is_sealed_at(entry: &Entry, statement: &[u8]) -> bool
    ensures { result ≡ has_sealed statement.now entry.now }
{
    let mut sealed = entry.turned.sealed.as_slice().iter();
    sealed.any(|bytes| bytes.as_slice() == statement)
}
