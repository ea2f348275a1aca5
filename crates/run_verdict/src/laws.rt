//! What the verdict says about its record. Each law is the contract of a function that does nothing.
ghost use Rattle.std.specs.Prelude.{◌≡◌, ◌↔◌, true, None, Some};
ghost use Rattle.run_record.specs.declared.record.RunRecord.{RunRecord};
ghost use Rattle.run_record.specs.declared.verdict.CollidedAt.{CollidedAt};
ghost use Rattle.run_record.specs.declared.verdict.ForgedAt.{ForgedAt};
ghost use Rattle.node_core.specs.Rows.{Check};
ghost use Rattle.run_verdict.specs.Collided.{first_collision_of};
ghost use Rattle.run_verdict.specs.Forged.{first_forged_of};
ghost use Rattle.run_verdict.specs.Shown.{IsForged, IsFirstForged, WasSealed, IsCollided, IsFirstCollision, AreDistinguished, IsDone, Shows};
ghost use Rattle.run_verdict.specs.Verdicts.{is_record_done, verdict_of};

/// A forged seal is answered exactly if there is one.
pub fn forged_seals_are_found()
    ensures { (check : Check) (run : RunRecord) → (first_forged_of check run ≡ None) ↔ (¬ IsForged check run) }
{}

/// The answered place is that of a forged seal, and no earlier place has one.
pub fn the_first_forged_seal_is_reported()
    ensures { (check : Check) (run : RunRecord) (reported : ForgedAt) → first_forged_of check run ≡ Some reported → IsFirstForged check run reported }
{}

/// A collision is answered exactly if there is one.
pub fn collisions_are_found()
    ensures { (run : RunRecord) → (first_collision_of run ≡ None) ↔ (¬ IsCollided run) }
{}

/// The answered places are those of a collision, and no blocks received earlier collide.
pub fn the_first_collision_is_reported()
    ensures { (run : RunRecord) (reported : CollidedAt) → first_collision_of run ≡ Some reported → IsFirstCollision run reported }
{}

/// A run is done exactly if every honest replica has a batch list that contains every due transaction. A run in which
/// an honest replica has no batch list is not done.
pub fn a_run_is_done_with_every_due_transaction()
    ensures { (run : RunRecord) → (is_record_done run ≡ true) ↔ IsDone run }
{}

/// Each verdict holds of its record.
pub fn verdicts_show_what_is_so()
    ensures { (check : Check) (run : RunRecord) → Shows check run (verdict_of check run) }
{}

/// If no seal is forged, every seal that fits an honest replica was made by it.
pub fn what_fits_was_sealed()
    ensures { (check : Check) (run : RunRecord) → (¬ IsForged check run) → WasSealed check run }
{}

/// If nothing collides, blocks that were received have different digests where they are different.
pub fn blocks_are_distinguished()
    ensures { (run : RunRecord) → (¬ IsCollided run) → AreDistinguished run }
{}
