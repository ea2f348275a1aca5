//! The header of a log, which names the owner of the log.
ghost use Rattle.std.specs.Prelude.{◌≡◌, ◌⊎◌, ◌<◌, ◌≤◌, ◌^◌, ◌++◌, ◌↔◌, ℕ, List, Err, IsTrue, IfErr, IfOk, OnOk, codes, drop, length, take, All};
ghost use Rattle.std.specs.Int.{w32, to_be_bytes};
ghost use Rattle.std.specs.List.{flat_map};
ghost use Rattle.seal_kit.specs.declared.height.Height.{Height};
ghost use Rattle.seq_base.specs.Setting.{Parameters};
ghost use Rattle.durable_node.specs.Check.{check_of};
ghost use Rattle.durable_node.specs.Header.{AreNarrow, FitsHeader, HasHeader, HasOwner, IsHeaded, IsOwn, IsTorn, header_of, height_number, owner_bytes, records_in};
ghost use Rattle.durable_node.specs.Node.{IsRefusal};

use crate::KeptFault;
use crate::check::check_of;
use seal_kit::Height;
use seq_base::{NoMemory, Setting};
use std::alloc::Global;

/// The length of a header in bytes.
pub const HEADER_BYTES: usize = 76;

/// The first bytes of every header: the name of the format, and its version.
const MARK: &[u8; 8] = b"THEMISL2";

/// The header of the log of a replica.
#[tactic(auto, unfolding(crate::specs::Header::header_of))]
pub fn header_of(
    alloc: Global,
    setting: Setting,
    views: u32,
    replica: u32,
    height: Height,
    keys: &[u8; 32],
) -> Result<Vec<u8>, NoMemory>
    ensures header { IfOk result (λ bytes. bytes.items ≡ header_of setting views replica (height_number height) keys.now) }
    ensures narrow { OnOk result (AreNarrow setting views replica (height_number height)) }
{
    let mut bytes = owner_bytes(alloc, setting, views, replica, height, keys)?;
    let check = check_of(bytes.as_slice());
    bytes.extend_from_slice(&check)?;
    Ok(bytes)
}

#[tactic(auto, unfolding(crate::specs::Header::owner_bytes))]
fn owner_bytes(
    alloc: Global,
    setting: Setting,
    views: u32,
    replica: u32,
    height: Height,
    keys: &[u8; 32],
) -> Result<Vec<u8>, NoMemory>
    ensures owner { IfOk result (λ bytes. bytes.items ≡ owner_bytes setting views replica (height_number height) keys.now) }
    ensures narrow { OnOk result (AreNarrow setting views replica (height_number height)) }
{
    let numbers = [
        setting.n(),
        setting.f(),
        setting.p(),
        setting.q(),
        views,
        replica,
        height_number(height),
    ];
    let mut bytes = Vec::from_slice(alloc, MARK)?;
    put_numbers(&mut bytes, &numbers)?;
    bytes.extend_from_slice(keys)?;
    Ok(bytes)
}

/// The number of a height in a header: 5, 10, 505 or 510.
pub fn height_number(height: Height) -> u32
    ensures { result ≡ height_number height }
{
    match height {
        Height::H5 => 5,
        Height::H10 => 10,
        Height::H5H5 => 505,
        Height::H5H10 => 510,
    }
}

fn put_numbers(out: &mut Vec<u8>, numbers: &[u32]) -> Result<(), NoMemory>
    ensures { OnOk result (out.new.items ≡ out.old.items ++ flat_map (to_be_bytes w32) numbers.now) }
{
    for number in numbers {
        out.extend_from_slice(&number.to_be_bytes())?;
    }
    Ok(())
}

/// Refuses another owner's log: one that does not have this header, and does not end within it.
pub fn check_owner(log: &[u8], header: &[u8]) -> Result<(), KeptFault>
    requires { length header.now ≡ 76 }
    ensures own { OnOk result (IsOwn header.now log.now) }
    ensures refused { IfErr result (IsRefusal header.now log.now) }
    ensures unkept { result ≡ Err KeptFault.Keep → ⊥ }
    ensures only { IfErr result (λ fault. (fault ≡ KeptFault.NoHeader) ⊎ (fault ≡ KeptFault.OtherLog)) }
{
    if begins_with(log, header) || is_torn(log, header) {
        return Ok(());
    }
    if has_owner(log) {
        return Err(KeptFault::OtherLog);
    }
    Err(KeptFault::NoHeader)
}

fn is_torn(log: &[u8], header: &[u8]) -> bool
    ensures { IsTrue result ↔ IsTorn header.now log.now }
{
    log.len() < HEADER_BYTES && begins_with(header, log)
}

fn has_owner(log: &[u8]) -> bool
    ensures { IsTrue result ↔ HasOwner log.now }
{
    log.len() >= HEADER_BYTES && begins_with(log, MARK) && is_checked(log)
}

fn is_checked(log: &[u8]) -> bool
    requires { 76 ≤ length log.now }
    ensures { IsTrue result ↔ (take 8 (drop 68 log.now) ≡ check_of (take 68 log.now)) }
{
    let (owner, more) = log.split_at(68);
    begins_with(more, &check_of(owner))
}

fn begins_with(bytes: &[u8], prefix: &[u8]) -> bool
    ensures { IsTrue result ↔ (take (length prefix.now) bytes.now ≡ prefix.now) }
{
    bytes.starts_with(prefix)
}

/// The records of a log: the bytes after its header. There are none if the header is torn.
pub fn records_in(log: &[u8]) -> &[u8]
    ensures { result.now ≡ records_in log.now }
{
    if log.len() < HEADER_BYTES {
        return &[];
    }
    let (_, records) = log.split_at(HEADER_BYTES);
    records
}

/// A header names its owner: different owners have different headers, and the owner can be read from any log that has a
/// header.
pub fn logs_say_whose_they_are()
    ensures size { (s : Parameters) (views me height : ℕ) (keys : List ℕ) → length keys ≡ 32 → length (header_of s views me height keys) ≡ 76 }
    ensures differ { (s t : Parameters) (views later me other height grown : ℕ) (keys more : List ℕ) → FitsHeader s views me height keys
        → FitsHeader t later other grown more
        → header_of s views me height keys ≡ header_of t later other grown more → (s ≡ t) × (views ≡ later) × (me ≡ other) × (height ≡ grown) × (keys ≡ more) }
    // A log with the header of an owner is one that has an owner.
    ensures owned { (s : Parameters) (views me height : ℕ) (keys log : List ℕ) → length keys ≡ 32
        → HasHeader (header_of s views me height keys) log → HasOwner log }
    ensures owner { (log : List ℕ) → All (λ b. b < 256) log → HasOwner log → IsHeaded log }
    // No other owner takes it for its own.
    ensures one { (s t : Parameters) (views later me other height grown : ℕ) (keys more log : List ℕ) → FitsHeader s views me height keys
        → FitsHeader t later other grown more
        → HasHeader (header_of s views me height keys) log → IsOwn (header_of t later other grown more) log
        → (s ≡ t) × (views ≡ later) × (me ≡ other) × (height ≡ grown) × (keys ≡ more) }
    // Different heights have different numbers.
    ensures heights { (height other : Height) → height_number height ≡ height_number other → height ≡ other }
{}
