//! Fields of fixed width and lists of bytes. Each reader takes a prefix of the bytes and returns the rest.
ghost use Rattle.std.specs.Prelude.{◌≡◌, ◌<◌, ◌≤◌, length, IfOk};
ghost use Rattle.std.specs.Int.{w16, w32};
ghost use Rattle.wire_view.specs.Reading.{Gives, byte_at, number_at, piece_at, short_count_at, long_count_at, digest_at, seal_at, replica_at, prefix_of};

use crate::WireFault;
use seq_base::Digest;

/// The maximum length of a seal, in bytes.
const MAX_SEAL_BYTES: u32 = 4916;

pub(crate) fn read_byte(bytes: &[u8]) -> Result<(u32, &[u8]), WireFault>
    ensures gives { Gives (λ x. (x.0, x.1.now)) result (byte_at bytes.now) }
    ensures byte { IfOk result (λ x. x.0 < 256) }
{
    match bytes {
        [] => Err(WireFault::Short),
        [first, rest @ ..] => Ok((u32::from(*first), rest)),
    }
}

/// A byte that says what follows: the version, or a kind.
pub(crate) fn read_tag(bytes: &[u8]) -> Result<(u8, &[u8]), WireFault>
    ensures { Gives (λ x. (x.0, x.1.now)) result (byte_at bytes.now) }
{
    match bytes {
        [] => Err(WireFault::Short),
        [first, rest @ ..] => Ok((*first, rest)),
    }
}

fn read_u16(bytes: &[u8]) -> Result<(u32, &[u8]), WireFault>
    ensures { Gives (λ x. (x.0, x.1.now)) result (number_at w16 bytes.now) }
{
    if bytes.len() < 2 {
        return Err(WireFault::Short);
    }
    let (prefix, rest) = bytes.split_at(2);
    let number = u16::from_be_bytes([prefix[0], prefix[1]]);
    Ok((u32::from(number), rest))
}

pub(crate) fn read_u32(bytes: &[u8]) -> Result<(u32, &[u8]), WireFault>
    ensures { Gives (λ x. (x.0, x.1.now)) result (number_at w32 bytes.now) }
{
    if bytes.len() < 4 {
        return Err(WireFault::Short);
    }
    let (prefix, rest) = bytes.split_at(4);
    let number = u32::from_be_bytes([prefix[0], prefix[1], prefix[2], prefix[3]]);
    Ok((number, rest))
}

pub(crate) fn read_piece(size: u32, bytes: &[u8]) -> Result<(&[u8], &[u8]), WireFault>
    ensures gives { Gives (λ x. (x.0.now, x.1.now)) result (piece_at size bytes.now) }
    ensures size { IfOk result (λ x. length x.0.now ≡ size) }
{
    let size = size as usize;
    if bytes.len() < size {
        return Err(WireFault::Short);
    }
    Ok(bytes.split_at(size))
}

/// A count in one byte.
#[tactic(auto, unfolding(crate::specs::Reading::short_count_at))]
pub(crate) fn read_short_count(most: u32, bytes: &[u8]) -> Result<(u32, &[u8]), WireFault>
    ensures gives { Gives (λ x. (x.0, x.1.now)) result (short_count_at most bytes.now) }
    ensures limit { IfOk result (λ x. x.0 ≤ most) }
{
    let (count, rest) = read_byte(bytes)?;
    if count > most {
        return Err(WireFault::Count);
    }
    Ok((count, rest))
}

/// A count in two bytes.
#[tactic(auto, unfolding(crate::specs::Reading::long_count_at))]
pub(crate) fn read_long_count(most: u32, bytes: &[u8]) -> Result<(u32, &[u8]), WireFault>
    ensures gives { Gives (λ x. (x.0, x.1.now)) result (long_count_at most bytes.now) }
    ensures limit { IfOk result (λ x. x.0 ≤ most) }
{
    let (count, rest) = read_u16(bytes)?;
    if count > most {
        return Err(WireFault::Count);
    }
    Ok((count, rest))
}

#[tactic(auto, unfolding(crate::specs::Reading::digest_at))]
pub(crate) fn read_digest(bytes: &[u8]) -> Result<(Digest, &[u8]), WireFault>
    ensures { Gives (λ x. (x.0, x.1.now)) result (digest_at bytes.now) }
{
    let (prefix, rest) = read_piece(32, bytes)?;
    let mut digest = [0; 32];
    digest.copy_from_slice(prefix);
    Ok((Digest(digest), rest))
}

#[tactic(auto, unfolding(crate::specs::Reading::seal_at))]
pub(crate) fn read_seal(bytes: &[u8]) -> Result<(&[u8], &[u8]), WireFault>
    ensures { Gives (λ x. (x.0.now, x.1.now)) result (seal_at bytes.now) }
{
    let (size, rest) = read_long_count(MAX_SEAL_BYTES, bytes)?;
    read_piece(size, rest)
}

/// The number of a replica. A number below `least` is a fault.
#[tactic(auto, unfolding(crate::specs::Reading::replica_at))]
pub(crate) fn read_replica(least: u32, bytes: &[u8]) -> Result<(u32, &[u8]), WireFault>
    ensures gives { Gives (λ x. (x.0, x.1.now)) result (replica_at least bytes.now) }
    ensures byte { IfOk result (λ x. x.0 < 256) }
{
    let (replica, rest) = read_byte(bytes)?;
    if replica < least {
        return Err(WireFault::Shape);
    }
    Ok((replica, rest))
}

/// The bytes before the rest.
pub(crate) fn prefix<'a>(bytes: &'a [u8], rest: &[u8]) -> &'a [u8]
    requires { length rest.now ≤ length bytes.now }
    ensures { result.now ≡ prefix_of bytes.now rest.now }
{
    let (prefix, _) = bytes.split_at(bytes.len() - rest.len());
    prefix
}
