ghost use Rattle.std.specs.Prelude.{◌≡◌, IfOk, filter, map, nat_le};
ghost use Rattle.seq_base.specs.Lists.{AreFresh};
ghost use Rattle.seq_base.specs.Setting.{solid_of, threshold_of};
ghost use Rattle.tx_class.specs.Tally.{tally_of, count_in};
ghost use Rattle.fair_laws.specs.Kept.{AreKept, proposal_of};

use crate::search::leading_to;
use fair_laws::computed_lists_are_kept;
use majority_graph::{Proposal, Ranking};
use seq_base::{NoMemory, Setting, Tx, TxList};
use std::alloc::Global;
use tx_class::{Classes, classify};

/// Proposes the transactions that are not blank and from which a walk through such transactions leads to a solid one,
/// with the edges that the lists give. The vertices are ascending.
pub fn propose(alloc: Global, setting: &Setting, lists: &[TxList]) -> Result<Proposal, NoMemory>
    requires { AreFresh lists.now }
    ensures proposal { IfOk result (λ graph. graph ≡ proposal_of setting.now lists.now) }
    ensures kept { IfOk result (λ graph. AreKept setting.now lists.now graph.vertices) }
{
    let classes = classify(alloc, setting, lists)?;
    propose_classified(alloc, setting, &classes, lists)
}

/// The same as [`propose`], with the classes of these lists already computed.
pub fn propose_classified(
    alloc: Global,
    setting: &Setting,
    classes: &Classes,
    lists: &[TxList],
) -> Result<Proposal, NoMemory>
    requires fresh { AreFresh lists.now }
    requires classified { classes.now ≡ tally_of setting.now lists.now }
    ensures proposal { IfOk result (λ graph. graph ≡ proposal_of setting.now lists.now) }
    ensures kept { IfOk result (λ graph. AreKept setting.now lists.now graph.vertices) }
{
    computed_lists_are_kept();
    let ranking = kept(alloc, setting, classes, lists)?;
    let proposal = ranking.weigh(alloc)?;
    Ok(proposal)
}

/// The transactions that are kept, each looked up once in each list.
fn kept(
    alloc: Global,
    setting: &Setting,
    classes: &Classes,
    lists: &[TxList],
) -> Result<Ranking, NoMemory>
    requires fresh { AreFresh lists.now }
    requires classified { classes.now ≡ tally_of setting.now lists.now }
    ensures { IfOk result (λ kept. kept ≡ proposal_of setting.now lists.now) }
{
    let candidates = candidates(alloc, setting, classes)?;
    let solid = solid_among(alloc, setting, classes, &candidates)?;
    let mut ranking = Ranking::of(alloc, setting, &candidates, lists)?;
    let leading = leading_to(alloc, &ranking, &solid)?;
    ranking.keep(&leading);
    Ok(ranking)
}

/// The transactions that are not blank, in ascending order.
fn candidates(alloc: Global, setting: &Setting, classes: &Classes) -> Result<Vec<Tx>, NoMemory>
    ensures { IfOk result (λ txs. txs.items ≡ filter (λ t. nat_le (threshold_of setting.now) (count_in classes.now t)) classes.now.txs) }
{
    let listed = classes.as_slice();
    let mut candidates = Vec::new(alloc);
    for tx in listed {
        if is_candidate(setting, classes, tx) {
            candidates.push(*tx)?;
        }
    }
    Ok(candidates)
}

fn is_candidate(setting: &Setting, classes: &Classes, tx: &Tx) -> bool
    ensures { result ≡ nat_le (threshold_of setting.now) (count_in classes.now tx.now) }
{
    setting.threshold() <= classes.count(tx)
}

/// For each transaction, whether it is solid.
fn solid_among(
    alloc: Global,
    setting: &Setting,
    classes: &Classes,
    txs: &[Tx],
) -> Result<Vec<bool>, NoMemory>
    ensures { IfOk result (λ solid. solid.items ≡ map (λ t. nat_le (solid_of setting.now) (count_in classes.now t)) txs.now) }
{
    let mut solid = Vec::with_capacity(alloc, txs.len())?;
    for tx in txs {
        solid.push(is_solid(setting, classes, tx))?;
    }
    Ok(solid)
}

fn is_solid(setting: &Setting, classes: &Classes, tx: &Tx) -> bool
    ensures { result ≡ nat_le (solid_of setting.now) (count_in classes.now tx.now) }
{
    setting.solid_at() <= classes.count(tx)
}
