//! What holds for the definitions, for all lists.
ghost use Rattle.std.specs.Prelude.{◌≡◌, ◌<◌, ◌≤◌, ◌↔◌, List, length};
ghost use Rattle.seq_base.specs.Lists.{AreFresh, listed};
ghost use Rattle.seq_base.specs.Setting.{Parameters, IsValid, threshold_of, solid_of};
ghost use Rattle.seq_base.specs.declared.tx.Tx.{Tx};
ghost use Rattle.tx_class.specs.declared.classes.Class.TheVariants.{Solid, Blank};
ghost use Rattle.tx_class.specs.Listed.{listed_in, AreListed, class_of};
ghost use Rattle.tx_class.specs.Tally.{tally_of, count_in, class_in};

/// The computed list is strictly ascending and holds exactly what some list holds. It is the only such list.
pub fn listed_are_those_that_a_list_holds()
    ensures listed { (lists : List (List Tx)) → AreListed lists (listed_in lists) }
    ensures one { (lists : List (List Tx)) (txs : List Tx) → AreListed lists txs → txs ≡ listed_in lists }
    ensures few { (lists : List (List Tx)) → AreFresh lists → length (listed_in lists) ≤ 2048 }
{}

/// A lookup in the tally of the lists gives the count and the class of each transaction, listed or not.
pub fn tallies_show_counts()
    ensures counts { (s : Parameters) (lists : List (List Tx)) (t : Tx) → count_in (tally_of s lists) t ≡ listed lists t }
    ensures classes { (s : Parameters) (lists : List (List Tx)) (t : Tx) → class_in (tally_of s lists) t ≡ class_of s lists t }
{}

/// The classes by counts, as comparisons.
pub fn classes_are_reported_by_counts()
    ensures solid { (s : Parameters) (lists : List (List Tx)) (t : Tx) → (class_of s lists t ≡ Solid) ↔ (solid_of s ≤ listed lists t) }
    ensures blank { (s : Parameters) (lists : List (List Tx)) (t : Tx) → IsValid s → (class_of s lists t ≡ Blank) ↔ (listed lists t < threshold_of s) }
{
    seq_base::thresholds_are_low();
}
