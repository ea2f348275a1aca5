//! The laws of the crates below, in the form in which the laws of hosts rest on them.
ghost use Rattle.host_laws.specs.Below.{LogLaws, NodeLaws};

use durable_node::logs_are_read_back;
use journal_laws::{journals_are_lawful, journals_show_where_nodes_stand, numbers_are_places};
use lifetime_laws::joined_journals_are_lawful;
use replica_box::{hosts_keep_logs, logs_fix_what_opens_them, records_continue_logs};

pub(crate) fn log_laws()
    ensures { LogLaws }
{
    hosts_keep_logs();
    logs_are_read_back();
    logs_fix_what_opens_them();
    records_continue_logs();
    numbers_are_places();
}

pub(crate) fn node_laws()
    ensures { NodeLaws }
{
    journals_are_lawful();
    journals_show_where_nodes_stand();
    joined_journals_are_lawful();
}
