//! What holds for every log.
ghost use Rattle.std.specs.Prelude.{◌≡◌, ◌≢◌, List, Result, Err};
ghost use Rattle.seq_base.specs.declared.tx.Tx.{Tx};
ghost use Rattle.arrival_log.specs.declared.log.Placed.{Placed};
ghost use Rattle.arrival_log.specs.declared.log.SubmitFault.{SubmitFault};
ghost use Rattle.arrival_log.specs.declared.log.SubmitFault.TheVariants.{NoMemory};
ghost use Rattle.arrival_log.specs.Arrivals.{IsArrivals, IsAnswer};

/// For a log and a transaction there is only one answer, unless memory runs out.
#[tactic(auto, using(crate::proofs::OneAnswer::one_answer))]
pub fn a_submission_has_one_answer()
    ensures { (log : List Tx) (tx : Tx) (a b : Result Placed SubmitFault) → IsArrivals log → IsAnswer log tx a → IsAnswer log tx b
        → a ≢ Err NoMemory → b ≢ Err NoMemory → a ≡ b }
{}
