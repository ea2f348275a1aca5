//! The replicas of a cluster of five, and the log of replica 0.
use hss_seal::AnySealer;
use replica_box::{OpenFault, Replica, Role};
use seal_kit::Height;
use seq_base::Setting;
use std::alloc::Global;
use std::test::Fail;

/// The first record of replica 0, of a tick with the floor 0: the length of its body, the checksum of the length, the body and
/// its checksum. The checksums were computed with Python's `hashlib`.
pub(crate) const TICK: [u8; 25] = [
    0, 0, 0, 5, 61, 47, 172, 64, 178, 43, 31, 244, 3, 0, 0, 0, 0, 18, 37, 53, 208, 124, 21, 48, 16,
];

/// The public key of a replica, with keys of a height. Its secret has its number in each byte.
pub(crate) fn public_of(alloc: Global, height: Height, me: u8) -> Result<[u8; 60], Fail> {
    let sealer = AnySealer::from_bytes(alloc, &[me; 16], &[me; 32], height, u32::from(me))?;
    Ok(sealer.public())
}

/// The public keys of all replicas.
pub(crate) fn publics(alloc: Global, height: Height) -> Result<Vec<[u8; 60]>, Fail> {
    let mut keys = Vec::new(alloc);
    for me in 0..5u8 {
        keys.push(public_of(alloc, height, me)?)?;
    }
    Ok(keys)
}

/// Replica `me`, with the secret of replica `secret`, opened over a log, and how many bytes of the log it uses. Keys have
/// one tree.
pub(crate) fn opened(
    alloc: Global,
    me: u8,
    secret: u8,
    log: &[u8],
) -> Result<Result<(Replica, usize), OpenFault>, Fail> {
    let publics = publics(alloc, Height::H5)?;
    opened_with(alloc, Height::H5, publics.as_slice(), me, secret, log)
}

/// The same with keys of a height, and these public keys.
pub(crate) fn opened_with(
    alloc: Global,
    height: Height,
    publics: &[[u8; 60]],
    me: u8,
    secret: u8,
    log: &[u8],
) -> Result<Result<(Replica, usize), OpenFault>, Fail> {
    opened_until(alloc, 6, height, publics, me, secret, log)
}

/// The same in a run with this last view.
pub(crate) fn opened_until(
    alloc: Global,
    views: u32,
    height: Height,
    publics: &[[u8; 60]],
    me: u8,
    secret: u8,
    log: &[u8],
) -> Result<Result<(Replica, usize), OpenFault>, Fail> {
    let role = Role {
        setting: Setting::new(5, 1, 1, 1)?,
        views,
        me: u32::from(me),
        height,
    };
    Ok(Replica::open(alloc, &role, &[secret; 16], &[secret; 32], publics, log))
}

/// Replica 0, opened over a log, and how many bytes of the log it uses.
pub(crate) fn first(alloc: Global, log: &[u8]) -> Result<(Replica, usize), Fail> {
    Ok(opened(alloc, 0, 0, log)??)
}

/// The log of replica 0 after a tick, as the host writes it: the header, and the record.
pub(crate) fn log_after_a_tick(alloc: Global) -> Result<Vec<u8>, Fail> {
    let (replica, _) = first(alloc, &[])?;
    let mut log = Vec::from_slice(alloc, replica.header())?;
    log.extend_from_slice(&TICK)?;
    Ok(log)
}
