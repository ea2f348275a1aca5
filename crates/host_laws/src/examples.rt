//! Small runs that can be checked step by step.
ghost use Rattle.host_laws.specs.Examples.{HastilyDoes, MayCrashInARecord, MaySealTwice, lone_role};
ghost use Rattle.host_laws.specs.Roles.{Secret, header_for};

use durable_node::logs_are_read_back;
use replica_box::records_continue_logs;

/// The premises can be met: a host opens its only replica, writes the header, prepares two events, and acts on the first. It
/// crashes while it writes the record of the second.
pub fn a_host_may_crash_in_a_record()
    ensures { (secret : Secret) → MayCrashInARecord secret (header_for (lone_role secret)) }
{
    logs_are_read_back();
    records_continue_logs();
}

/// A host that acts before the record of the event is durable may seal two statements under one leaf: it crashes after the
/// turn, its log is as before, and the replica acts on another event.
pub fn hasty_hosts_seal_twice()
    ensures { (secret : Secret) → MaySealTwice (HastilyDoes secret) }
{
    logs_are_read_back();
}
