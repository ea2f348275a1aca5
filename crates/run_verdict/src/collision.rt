ghost use Rattle.std.specs.Prelude.{◌≡◌, ◌++◌, ◌∷◌, [], List, IfOk, IfNone};
ghost use Rattle.seq_base.specs.Writable.{IsWritableBlock};
ghost use Rattle.run_verdict.specs.Collided.{Received, received, received_in, collision_with, collision_from, first_collision_of};
ghost use Rattle.run_verdict.specs.Seen.{Knows};

use crate::delivered::delivered_block;
use crate::forgery::number_of;
use run_record::{CollidedAt, Journal, RunRecord, of_honest};
use seq_base::{Digest, NoMemory};
use std::alloc::Global;
use std::collections::{BTreeMap, BTreeSet};
use wire_view::{BlockView, no_bytes_spell_two_messages};
use wire_write::digest;

/// A receiver, and an entry of its journal.
type Receipt = (u32, u32);

/// The first block that collides, in ascending order of receivers, then of entries: a block that an honest replica was
/// delivered in a Propose or a Give. Its digest is that of an earlier and different block, or zero.
pub fn first_collision(alloc: Global, run: &RunRecord) -> Result<Option<CollidedAt>, NoMemory>
    ensures { IfOk result (λ collided. collided ≡ first_collision_of run.now) }
{
    let mut seen = SeenBlocks::none(alloc);
    for receiver in 0..run.setting.n() {
        let journals = run.journals.as_slice();
        if let Some(journal) = of_honest(&run.setting, &run.faulty, journals, receiver) {
            let collided = seen.see_all(receiver, journal)?;
            if collided.is_some() {
                return Ok(collided);
            }
        }
    }
    Ok(None)
}

/// The different blocks so far, and where each digest came first. The digest of a block is taken once, although the
/// block is delivered to every replica.
struct SeenBlocks<'a> {
    spellings: BTreeSet<&'a [u8]>,
    first_places: BTreeMap<Digest, Receipt>,
}

impl Drop for SeenBlocks<'_> {
    fn drop(self) {
        let SeenBlocks {
            spellings: _,
            first_places: _,
        } = self;
    }
}

impl<'a> SeenBlocks<'a> {
    fn none(alloc: Global) -> SeenBlocks<'a>
        ensures { Knows [] result.spellings result.first_places }
    {
        SeenBlocks {
            spellings: BTreeSet::new(alloc),
            first_places: BTreeMap::new(alloc),
        }
    }

    /// Adds the blocks of one more journal. Returns the first one that collides with those before it.
    fn see_all(
        &mut self,
        receiver: u32,
        journal: &'a Journal,
    ) -> Result<Option<CollidedAt>, NoMemory>
        ensures collided { (before : List Received) → Knows before self.old.spellings self.old.first_places
            → IfOk result (λ collided. collided ≡ collision_from before (received_in (receiver, journal.now))) }
        ensures knows { (before : List Received) → Knows before self.old.spellings self.old.first_places
            → IfOk result (λ collided. IfNone collided (Knows (before ++ received_in (receiver, journal.now)) self.new.spellings self.new.first_places)) }
    {
        for (at, entry) in journal.entries.as_slice().iter().enumerate() {
            if let Some(block) = delivered_block(entry) {
                let collided = self.see(receiver, at, &block)?;
                if collided.is_some() {
                    return Ok(collided);
                }
            }
        }
        Ok(None)
    }

    /// Adds one more block. Returns its collision with those before it.
    fn see(
        &mut self,
        receiver: u32,
        entry: usize,
        block: &BlockView<'a>,
    ) -> Result<Option<CollidedAt>, NoMemory>
        requires { IsWritableBlock block.now }
        ensures collided { (before : List Received) → Knows before self.old.spellings self.old.first_places
            → IfOk result (λ collided. collided ≡ collision_with before (received receiver entry block.now)) }
        ensures knows { (before : List Received) → Knows before self.old.spellings self.old.first_places
            → IfOk result (λ collided. IfNone collided (Knows (before ++ received receiver entry block.now ∷ []) self.new.spellings self.new.first_places)) }
    {
        no_bytes_spell_two_messages();
        if !self.spellings.insert(block.bytes())? {
            return Ok(None);
        }
        let place = (receiver, number_of(entry));
        let digest = digest(block.bytes());
        if digest == Digest::FIRST {
            return Ok(Some(CollidedAt {
                first: place,
                second: None,
            }));
        }
        if let Some(first) = self.first_places.get(&digest) {
            return Ok(Some(CollidedAt {
                first: *first,
                second: Some(place),
            }));
        }
        self.first_places.insert(digest, place)?;
        Ok(None)
    }
}
