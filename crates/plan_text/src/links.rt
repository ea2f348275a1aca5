//! What the links do to single sends.
ghost use Rattle.std.specs.Prelude.{◌≡◌, ◌≢◌, ◌++◌, ◌∷◌, [], IfOk, All, option_map};
ghost use Rattle.std.specs.List.{AllPairs};
ghost use Rattle.toml.specs.View.{view};
ghost use Rattle.plan_text.specs.Marks.{MarksOnce, three_cmp};
ghost use Rattle.plan_text.specs.Reads.{ReadsTo, ReadsAs};
ghost use Rattle.plan_text.specs.Sections.{section_of};
ghost use Rattle.plan_text.specs.Links.{hold_at, is_countless, is_countless_word, known_link, link_in, link_kind_of, links_at, send_of, IsHeldShortly, IsLinkFault};

use crate::fields::Fields;
use crate::head::MAX_TURNS;
use crate::{FaultKind, LinkFault, LinkKind, PlanError};
use seq_base::Setting;
use std::alloc::Global;
use std::collections::BTreeSet;
use toml::Value;

/// The maximum number of sends for which an envelope is held.
const MAX_HELD: u32 = 1_000;

/// The sends of the faults read so far: from where, to where, and the number.
type Sends = BTreeSet<(u32, u32, u32)>;

/// At most one fault for each send.
#[tactic(auto, unfolding(crate::specs::Links::links_at), using(crate::proofs::Marked::once_none))]
pub(crate) fn read_links(
    alloc: Global,
    document: &Fields<'_>,
    setting: &Setting,
) -> Result<Vec<LinkFault>, PlanError>
    ensures exact { ReadsAs (λ links. links.items) result (links_at setting.now (section_of document.now)) }
    ensures rules { IfOk result (λ links. All (IsLinkFault setting.now.n) links.items) }
    ensures differ { IfOk result (λ links. AllPairs (λ a b. send_of a ≢ send_of b) links.items) }
{
    let values = document.array_if_any(alloc, "link")?;
    let mut links = Vec::new(alloc);
    let mut sends = BTreeSet::new(alloc);
    for value in values {
        let link = read_link(alloc, value, setting, &links, &mut sends)?;
        links.push(link)?;
    }
    Ok(links)
}

/// The next fault after the earlier ones.
#[tactic(auto, unfolding(crate::specs::Links::link_in))]
fn read_link(
    alloc: Global,
    value: &Value,
    setting: &Setting,
    earlier: &[LinkFault],
    sends: &mut Sends,
) -> Result<LinkFault, PlanError>
    requires { MarksOnce three_cmp send_of sends.old earlier.now }
    ensures exact { ReadsTo result (link_in setting.now.n earlier.now (view value.now)) }
    ensures marks { IfOk result (λ link. MarksOnce three_cmp send_of sends.new (earlier.now ++ link ∷ [])) }
    ensures rules { IfOk result (IsLinkFault setting.now.n) }
{
    let fields = Fields::of_element(alloc, value, "link", earlier.len())?;
    known_keys(alloc, &fields)?;
    let from = fields.number(alloc, "from", 0, setting.n() - 1)?;
    let to = fields.number(alloc, "to", 0, setting.n() - 1)?;
    let number = fields.number(alloc, "number", 1, MAX_TURNS)?;
    if !sends.insert((from, to, number))? {
        return Err(fields.fault(alloc, FaultKind::Double, "number"));
    }
    let word = fields.word(alloc, "fault")?;
    let kind = read_kind(alloc, &fields, word)?;
    Ok(LinkFault {
        from,
        to,
        number,
        kind,
    })
}

/// A count is allowed for a link that holds, and for one whose fault is not known yet.
fn known_keys(alloc: Global, fields: &Fields<'_>) -> Result<(), PlanError>
    ensures { ReadsTo result (known_link (section_of fields.now)) }
{
    if is_countless(fields.get("fault")) {
        fields.known(alloc, &["from", "to", "number", "fault"])
    } else {
        fields.known(alloc, &["from", "to", "number", "fault", "count"])
    }
}

/// Whether a value is the word of a fault that has no count.
fn is_countless(value: Option<&Value>) -> bool
    ensures { result ≡ is_countless (option_map (λ v. view v.now) value.entry) }
{
    let Some(value) = value else {
        return false;
    };
    match value.as_str() {
        Some(word) => is_countless_word(word),
        None => false,
    }
}

fn is_countless_word(word: &str) -> bool
    ensures { result ≡ is_countless_word word.now }
{
    word == "lose" || word == "twice" || word == "garble"
}

fn read_kind(alloc: Global, fields: &Fields<'_>, word: &str) -> Result<LinkKind, PlanError>
    ensures exact { ReadsTo result (link_kind_of word.now (section_of fields.now)) }
    ensures held { IfOk result IsHeldShortly }
{
    match word {
        "lose" => Ok(LinkKind::Lose),
        "twice" => Ok(LinkKind::Twice),
        "garble" => Ok(LinkKind::Garble),
        "hold" => read_hold(alloc, fields),
        _ => Err(fields.fault(alloc, FaultKind::Range, "fault")),
    }
}

fn read_hold(alloc: Global, fields: &Fields<'_>) -> Result<LinkKind, PlanError>
    ensures exact { ReadsTo result (hold_at (section_of fields.now)) }
    ensures held { IfOk result IsHeldShortly }
{
    Ok(LinkKind::Hold(fields.number(alloc, "count", 1, MAX_HELD)?))
}
