//! The clients of a plan.
ghost use Rattle.std.specs.Prelude.{◌≡◌, ◌≤◌, [], IfOk, All, length, map};
ghost use Rattle.toml.specs.View.{view};
ghost use Rattle.plan_text.specs.Reads.{ReadsTo, ReadsAs, read_each};
ghost use Rattle.plan_text.specs.Sections.{section_of};
ghost use Rattle.plan_text.specs.Clients.{client_in, clients_at, is_client, IsClient};

use crate::fields::Fields;
use crate::{Client, FaultKind, PlanError};
use std::alloc::Global;
use toml::Value;

/// The maximum number of clients, and of transactions of one client.
const MAX_CLIENTS: usize = 16;

const MAX_COUNT: u32 = 65_536;

/// Clients with distinct numbers. Their count is checked before any of them is read.
#[tactic(auto, unfolding(crate::specs::Clients::clients_at))]
pub(crate) fn read_clients(alloc: Global, document: &Fields<'_>) -> Result<Vec<Client>, PlanError>
    ensures exact { ReadsAs (λ clients. clients.items) result (clients_at (section_of document.now)) }
    ensures few { IfOk result (λ clients. length clients.items ≤ 16) }
    ensures counts { IfOk result (λ clients. All (λ client. client.count ≤ 65536) clients.items) }
    ensures rules { IfOk result (λ clients. All IsClient clients.items) }
{
    let values = document.array_if_any(alloc, "client")?;
    if values.len() > MAX_CLIENTS {
        return Err(document.fault(alloc, FaultKind::Range, "client"));
    }
    read_each_client(alloc, values)
}

fn read_each_client(alloc: Global, values: &[Value]) -> Result<Vec<Client>, PlanError>
    ensures exact { ReadsAs (λ clients. clients.items) result (read_each client_in [] (map view values.now)) }
    ensures few { IfOk result (λ clients. length clients.items ≤ length values.now) }
    ensures counts { IfOk result (λ clients. All (λ client. client.count ≤ 65536) clients.items) }
    ensures rules { IfOk result (λ clients. All IsClient clients.items) }
{
    let mut clients = Vec::new(alloc);
    for value in values {
        let client = read_client(alloc, value, &clients)?;
        clients.push(client)?;
    }
    Ok(clients)
}

/// The next client after the earlier ones.
#[tactic(auto, unfolding(crate::specs::Clients::client_in))]
fn read_client(alloc: Global, value: &Value, earlier: &[Client]) -> Result<Client, PlanError>
    ensures exact { ReadsTo result (client_in earlier.now (view value.now)) }
    ensures count { IfOk result (λ client. client.count ≤ 65536) }
    ensures rules { IfOk result IsClient }
{
    let fields = Fields::of_element(alloc, value, "client", earlier.len())?;
    fields.known(alloc, &["id", "count"])?;
    let id = fields.number(alloc, "id", 1, u32::MAX)?;
    if is_client(earlier, id) {
        return Err(fields.fault(alloc, FaultKind::Double, "id"));
    }
    let count = fields.number(alloc, "count", 1, MAX_COUNT)?;
    Ok(Client { id, count })
}

/// Whether a number is a client's.
pub(crate) fn is_client(clients: &[Client], id: u32) -> bool
    ensures { result ≡ is_client clients.now id }
{
    clients.iter().any(|client| client.id == id)
}
