//! What holds of a host's log: each law is the contract of a function that does nothing.
ghost use Rattle.std.specs.Prelude.{◌≡◌, ◌≤◌, ◌++◌, ◌∷◌, [], ℕ, List, None, true, false, length};
ghost use Rattle.std.specs.List.{AllByRecursion, flat_map};
ghost use Rattle.node_core.specs.declared.event.Event.{Event};
ghost use Rattle.node_core.specs.Rows.{Check};
ghost use Rattle.node_core.specs.State.{State};
ghost use Rattle.node_core.specs.Reported.{Gives};
ghost use Rattle.durable_node.specs.Check.{header_digest};
ghost use Rattle.durable_node.specs.Header.{HasHeader, IsOwn, records_in};
ghost use Rattle.durable_node.specs.Keeping.{Stays};
ghost use Rattle.durable_node.specs.Incarnations.{FollowOn, IsPrefixOf, IsLived, Lifetime, logged};
ghost use Rattle.durable_node.specs.Log.{CanBeKept, IsWholePrefix, LogOf, log_digest, records_of};
ghost use Rattle.replica_box.specs.Hosting.{ContinuesLog, HasLogged, IsNewLog, LeavesPrefix, Prepared, record_for, recorded, then_next, with_first};
ghost use Rattle.replica_box.specs.Owners.{AreToldApart, HaveOneHeader, IsOwner, OpenAlike, Owner, UsesOneSecret, gives_by, header_by};
ghost use Rattle.replica_box.specs.Seats.{HasPrepared, Seat};

use durable_node::logs_say_whose_they_are;

/// What a host does to its log between two turns (prepare, append, sync), and what a crash leaves of the log. The clause
/// `acted` of [`crate::Replica::act`] says what a turn does to it.
pub fn hosts_keep_logs()
    // A new log, before its header is durable: a crash leaves a log that is opened as new.
    ensures unheaded { (header bytes new : List ℕ) (durable_size : ℕ) → length header ≡ 76 → IsPrefixOf bytes header
        → Stays durable_size bytes new → IsNewLog header new }
    // One event more is prepared.
    ensures prepared { (fits : Check) (gives : Gives) (opening : State) (header : List ℕ) (now : State) (ready : List Prepared)
        (bytes : List ℕ) (durable_size : ℕ) (lifetime : Lifetime) (next : Prepared)
        → HasLogged fits gives opening header now (recorded ready) bytes durable_size lifetime
        → (next.has_record ≡ true → CanBeKept next.event)
        → HasLogged fits gives opening header now (recorded (ready ++ next ∷ [])) bytes durable_size lifetime }
    // An event without a record is taken out of the prepared ones, and no turn is made.
    ensures dropped { (fits : Check) (gives : Gives) (opening : State) (header : List ℕ) (now : State) (first : Prepared)
        (more : List Prepared) (bytes : List ℕ) (durable_size : ℕ) (lifetime : Lifetime)
        → HasLogged fits gives opening header now (recorded (first ∷ more)) bytes durable_size lifetime → first.has_record ≡ false
        → HasLogged fits gives opening header now (recorded more) bytes durable_size lifetime }
    // Some more of the records is appended, and more bytes are durable.
    ensures appended { (fits : Check) (gives : Gives) (opening : State) (header : List ℕ) (now : State) (events : List Event)
        (bytes more : List ℕ) (durable_size more_durable : ℕ) (lifetime : Lifetime)
        → HasLogged fits gives opening header now events bytes durable_size lifetime → IsPrefixOf bytes more
        → IsPrefixOf more (header ++ LogOf header (logged lifetime ++ events)) → durable_size ≤ more_durable
        → HasLogged fits gives opening header now events more more_durable lifetime }
    // The host crashes, and a prefix of the bytes is left, with all durable ones. It has the header.
    ensures headed { (fits : Check) (gives : Gives) (opening : State) (header : List ℕ) (now : State) (events : List Event)
        (bytes new : List ℕ) (durable_size : ℕ) (lifetime : Lifetime)
        → HasLogged fits gives opening header now events bytes durable_size lifetime → Stays durable_size bytes new → HasHeader header new }
    // The whole records that are left are those of the lifetime, followed by those of the first of the events that are
    // prepared with a record.
    ensures crashed { (fits : Check) (gives : Gives) (opening : State) (header : List ℕ) (now : State) (ready : List Event)
        (bytes new : List ℕ) (durable_size : ℕ) (lifetime : Lifetime)
        → HasLogged fits gives opening header now ready bytes durable_size lifetime → Stays durable_size bytes new
        → (events : List Event) (end : ℕ) → IsWholePrefix (header_digest header) (records_in new) events end
        → LeavesPrefix lifetime ready events }
    // After a crash the log may hold several prepared events on which the replica never acted, where `IsLeft` allows one for
    // each lifetime. The log is the same as if the replica had crashed and been reopened once for each of these events. So
    // the laws on consecutive lifetimes (`FollowOn`) apply.
    ensures follow { (lifetime next : Lifetime) (events : List Event) → lifetime.tried ≡ None → next.found ≡ logged lifetime ++ events
        → FollowOn (with_first lifetime events) (then_next (logged lifetime) events next) }
    ensures lived { (fits : Check) (gives : Gives) (opening : State) (lifetime next : Lifetime) (events : List Event)
        → IsLived fits gives opening lifetime → IsLived fits gives opening next
        → AllByRecursion (IsLived fits gives opening) (with_first lifetime events ∷ then_next (logged lifetime) events next) }
{}

/// The records of the prepared events continue the host's log, whatever was prepared, acted on or refused between.
pub fn records_continue_logs()
    // At the opening nothing is prepared, and the running digest is that of the log.
    ensures opened { (header : List ℕ) (events : List Event) → ContinuesLog header events [] (log_digest header events) }
    ensures prepared { (header : List ℕ) (events : List Event) (old new : Seat) (event : Event)
        → ContinuesLog header events old.ready old.digest → HasPrepared event old new
        → ContinuesLog header events new.ready new.digest }
    // The event that was prepared first is acted on, or taken out, and its record is in the log.
    ensures taken { (header : List ℕ) (events : List Event) (first : Prepared) (more : List Prepared) (digest : List ℕ)
        → ContinuesLog header events (first ∷ more) digest
        → ContinuesLog header (events ++ recorded (first ∷ [])) more digest }
    // Their records, one after another, are those that follow the log.
    ensures records { (header : List ℕ) (events : List Event) (ready : List Prepared) (digest : List ℕ) → ContinuesLog header events ready digest
        → flat_map record_for ready ≡ records_of (log_digest header events) (recorded ready) }
{}

/// A log fixes what opens it. Two openings, of which the second takes a log with the header of the first, have the same setting,
/// views, number and height. They have the same public keys unless the digest of two different lists is the same, and give
/// the same seals if the host uses one secret for a public key. So the premise of `no_leaf_seals_twice` that all lifetimes have
/// the seals of one sealer is met.
pub fn logs_fix_what_opens_them()
    ensures header { (a b : Owner) (log : List ℕ) → IsOwner a → IsOwner b → HasHeader (header_by a) log → IsOwn (header_by b) log → HaveOneHeader a b }
    ensures alike { (a b : Owner) → HaveOneHeader a b → AreToldApart a b → OpenAlike a b }
    ensures gives { (a b : Owner) → IsOwner a → IsOwner b → HaveOneHeader a b → OpenAlike a b → UsesOneSecret a b → gives_by a ≡ gives_by b }
{
    logs_say_whose_they_are();
}
