//! Links and deeds separately: what a link delivers, and what a faulty replica sends.
use crate::cases::check_cases;
use crate::nodes::NeverSeals;
use fault_script::{LinkState, twist};
use plan_text::{Deed, DeedKind, LinkFault, LinkKind};
use seq_base::{Bytes, Outgoing, Packet, Setting};
use std::alloc::Global;
use std::fmt::Write;
use std::test::Fail;

/// Six sends of three bytes on the link from replica 0 to another. The answer has a bar for each send, followed by the
/// delivered bytes. The link to replica 1 loses the first, delivers the second twice, garbles the third and holds the
/// fourth back by one. The link to replica 2 loses the fifth.
const GIVEN: &str = "\
given|1||| 2.2.2 2.2.2| 3.252.3|| 5.5.5 4.4.4| 6.6.6
given|2|| 1.1.1| 2.2.2| 3.3.3| 4.4.4|| 6.6.6
";

/// An honest replica 0 would send a vote of view 3 to replica 1, and three bytes that are no message to replica 2. The
/// answer has the receiver and the number of bytes of each message that is sent instead, with a star if the bytes are
/// not a prefix of the honest ones. A deed has a replica, a name and a view.
const SENT: &str = "\
sent|| 1:42 2:3
sent|0 noise 0| 1:21 1:42 2:1 2:3
sent|0 noise 3| 1:21 1:42 2:3
sent|0 silent 0|
sent|0 silent 3| 2:3
sent|0 silent 2+1 silent 0| 1:42 2:3
sent|0 forge 3| 1:42 1:42* 2:3
sent|0 noise 0+0 forge 0| 1:21 1:42 1:21* 1:42* 2:1 2:3
";

#[test]
fn links_follow_their_script(rt: HostRuntime) -> Result<(), Fail> {
    check_cases(rt.alloc(), GIVEN)
}

#[test]
fn deeds_change_what_is_sent(rt: HostRuntime) -> Result<(), Fail> {
    check_cases(rt.alloc(), SENT)
}

fn fault(to: u32, number: u32, kind: LinkKind) -> LinkFault {
    LinkFault {
        from: 0,
        to,
        number,
        kind,
    }
}

fn link(alloc: Global, to: u32) -> Result<LinkState, Fail> {
    let faults = [
        fault(1, 1, LinkKind::Lose),
        fault(1, 2, LinkKind::Twice),
        fault(1, 3, LinkKind::Garble),
        fault(1, 4, LinkKind::Hold(1)),
        fault(2, 5, LinkKind::Lose),
    ];
    Ok(LinkState::new(alloc, &faults, 0, to)?)
}

fn number(word: Option<&str>) -> u32 {
    word.and_then(|word| word.parse().ok()).unwrap_or(9)
}

pub(crate) fn write_given(answer: &mut String, alloc: Global, to: &str) -> Result<(), Fail> {
    let mut link = link(alloc, number(Some(to)))?;
    write_passes(answer, alloc, &mut link)
}

fn write_passes(answer: &mut String, alloc: Global, link: &mut LinkState) -> Result<(), Fail> {
    for number in 1..7 {
        answer.push('|')?;
        let given = link.pass(packet(alloc, &[number; 3])?)?;
        write_packets(answer, &given)?;
    }
    Ok(())
}

fn packet(alloc: Global, bytes: &[u8]) -> Result<Packet, Fail> {
    Ok(Packet::of(Bytes::of(bytes.to_vec(alloc)?))?)
}

fn write_packets(answer: &mut String, packets: &[Packet]) -> Result<(), Fail> {
    for packet in packets {
        match packet.as_slice() {
            [one, two, three] => write!(answer, " {one}.{two}.{three}")?,
            _ => answer.push_str(" other")?,
        }
    }
    Ok(())
}

/// The vote of replica 0 in view 3 for the block of zeros, with an empty seal and no order.
fn vote() -> [u8; 42] {
    let mut bytes = [0; 42];
    bytes[0] = 2;
    bytes[1] = 5;
    bytes[6] = 3;
    bytes
}

/// The vote to replica 1, and three bytes to replica 2.
fn sends(alloc: Global) -> Result<Vec<Outgoing>, Fail> {
    let vote = packet(alloc, &vote())?;
    let other = packet(alloc, &[9, 8, 7])?;
    Ok(vec![in alloc; send(1, vote), send(2, other)]?)
}

fn send(to: u32, bytes: Packet) -> Outgoing {
    Outgoing { to, bytes }
}

/// The deed in a text. An empty text is a deed of replica 9, which does not exist.
fn deed(text: &str) -> Deed {
    let mut words = text.split(' ');
    let replica = number(words.next());
    let kind = match words.next() {
        Some("noise") => DeedKind::Noise,
        Some("silent") => DeedKind::Silent,
        _ => DeedKind::Forge,
    };
    Deed {
        replica,
        view: number(words.next()),
        kind,
    }
}

/// Writes what is sent under these deeds. They need no seal.
pub(crate) fn write_sent(answer: &mut String, alloc: Global, text: &str) -> Result<(), Fail> {
    let sent = sent(alloc, text)?;
    write_sends(answer, &sent)
}

fn sent(alloc: Global, text: &str) -> Result<Vec<Outgoing>, Fail> {
    let setting = Setting::new(5, 1, 1, 1)?;
    let (one, other) = text.split_once('+').unwrap_or((text, ""));
    let deeds = [deed(one), deed(other)];
    Ok(twist(alloc, &deeds, &setting, &mut NeverSeals, sends(alloc)?)?)
}

fn write_sends(answer: &mut String, sends: &[Outgoing]) -> Result<(), Fail> {
    for send in sends {
        let to = send.to;
        let bytes = send.bytes.as_slice();
        let count = bytes.len();
        let star = if is_prefix(to, bytes) { "" } else { "*" };
        write!(answer, " {to}:{count}{star}")?;
    }
    Ok(())
}

/// Whether the bytes are a prefix of those that an honest replica sends to a replica.
fn is_prefix(to: u32, bytes: &[u8]) -> bool {
    if to == 1 {
        vote().starts_with(bytes)
    } else {
        [9, 8, 7].starts_with(bytes)
    }
}
