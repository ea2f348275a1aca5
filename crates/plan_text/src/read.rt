//! Reading a plan from its text.
ghost use Rattle.std.specs.Prelude.{IfOk};
ghost use Rattle.toml.specs.View.{table_view};
ghost use Rattle.plan_text.specs.Rules.{KeepsRules};
ghost use Rattle.plan_text.specs.Reads.{ReadsTo, ReadsAs};
ghost use Rattle.plan_text.specs.Fields.{known};
ghost use Rattle.plan_text.specs.Sections.{section_of};
ghost use Rattle.plan_text.specs.Plans.{document_in, plan_at, plan_keys, plan_of};

use crate::arrivals::{check_received, read_arrivals};
use crate::clients::read_clients;
use crate::deeds::read_deeds;
use crate::fault::text_fault;
use crate::faulty::read_faulty;
use crate::fields::Fields;
use crate::head::{read_head, read_summary};
use crate::links::read_links;
use crate::restarts::read_restarts;
use crate::{Arrivals, Clients, Deeds, FaultKind, Links, Plan, PlanError, Restarts};
use std::alloc::Global;
use toml::Table;

/// Reads a plan from a TOML document, and returns the first fault. The order of the checks: the text is TOML; each
/// key of the document is one of a plan; the keys in the order of [`Plan`]'s fields; last, that no replica would
/// receive too many transactions.
pub fn read_plan(alloc: Global, bytes: &[u8]) -> Result<Plan, PlanError>
    ensures exact { ReadsTo result (plan_of bytes.now) }
    ensures rules { IfOk result KeepsRules }
{
    let table = read_table(alloc, bytes)?;
    read_document(alloc, &Fields::of_document(&table))
}

fn read_document(alloc: Global, document: &Fields<'_>) -> Result<Plan, PlanError>
    ensures exact { ReadsTo result (plan_at (section_of document.now)) }
    ensures rules { IfOk result KeepsRules }
{
    known_keys(alloc, document)?;
    let head = read_head(alloc, document)?;
    let faulty = read_faulty(alloc, document, &head.setting)?;
    let summary = read_summary(alloc, document)?;
    let clients = read_clients(alloc, document)?;
    let arrivals = read_arrivals(alloc, document, &head.setting, &clients)?;
    let links = read_links(alloc, document, &head.setting)?;
    let deeds = read_deeds(alloc, document, &faulty, head.views)?;
    let restarts = read_restarts(alloc, document, &head.setting, &faulty)?;
    check_received(alloc, document, &head.setting, &clients, &arrivals)?;
    Ok(Plan {
        setting: head.setting,
        seed: head.seed,
        height: head.height,
        views: head.views,
        ticks: head.ticks,
        turns: head.turns,
        faulty,
        summary,
        clients: Clients::of(clients),
        arrivals: Arrivals::of(arrivals),
        links: Links::of(links),
        deeds: Deeds::of(deeds),
        restarts: Restarts::of(restarts),
    })
}

fn read_table(alloc: Global, bytes: &[u8]) -> Result<Table, PlanError>
    ensures { ReadsAs table_view result (document_in bytes.now) }
{
    match toml::table_from_slice(alloc, bytes) {
        Ok(table) => Ok(table),
        Err(error) => {
            if error.is_memory() {
                return Err(PlanError::NoMemory);
            }
            Err(text_fault(alloc, FaultKind::NotToml))
        }
    }
}

fn known_keys(alloc: Global, document: &Fields<'_>) -> Result<(), PlanError>
    ensures { ReadsTo result (known plan_keys (section_of document.now)) }
{
    document.known(
        alloc,
        &[
            "n", "f", "p", "q", "seed", "height", "levels", "views", "ticks", "turns", "faulty",
            "print", "client", "arrival", "link", "deed", "restart",
        ],
    )
}
