ghost use Rattle.std.specs.Prelude.{◌≡◌, ◌+◌, ◌++◌, drop, option_map};
ghost use Rattle.std.specs.Option.{option_to_list};
ghost use Rattle.run_record.specs.Honest.{is_honest, honest_item, honest_items};

use count_set::ReplicaSet;
use seq_base::Setting;

/// Whether a replica is one of the setting, and not faulty.
pub fn is_honest(setting: &Setting, faulty: &ReplicaSet, replica: u32) -> bool
    ensures { result ≡ is_honest setting.now.n faulty.now replica }
{
    replica < setting.n() && !faulty.has(replica)
}

/// The item of a replica, if it is honest and has one. `items` has one for each replica.
pub fn of_honest<'a, X>(
    setting: &Setting,
    faulty: &ReplicaSet,
    items: &'a [X],
    replica: u32,
) -> Option<&'a X>
    ensures item { option_map (λ x. x.now) result ≡ honest_item (is_honest setting.now.n faulty.now) items.now replica }
    // It comes before those of later replicas.
    ensures walk { honest_items (is_honest setting.now.n faulty.now) replica (drop replica items.now)
        ≡ option_to_list (option_map (λ x. (replica, x.now)) result)
        ++ honest_items (is_honest setting.now.n faulty.now) (replica + 1) (drop (replica + 1) items.now) }
{
    if is_honest(setting, faulty, replica) {
        items.get(replica as usize)
    } else {
        None
    }
}
