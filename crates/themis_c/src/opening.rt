//! Keys, opening and freeing.
ghost use Rattle.std.specs.Prelude.{◌≡◌, ◌≢◌, ◌↔◌, [], Some, None, false, IfOk, IfErr, OnOk};
ghost use Rattle.std.specs.Option.{IsSomeAnd};
ghost use Rattle.intake.specs.Desk.{opening};
ghost use Rattle.hss_seal.specs.Any.{any_gives, any_publics_fit, any_sealer};
ghost use Rattle.node_core.specs.Runs.{opening_state};
ghost use Rattle.replica_box.specs.Opening.{CanOpen, HasOpened, IsCause, IsDigestOf, key_of_secret, own_header};
ghost use Rattle.replica_box.specs.Seats.{Seat, fits_of, gives_of};
ghost use Rattle.seal_kit.specs.Seals.{capacity_of};
ghost use Rattle.seal_kit.specs.declared.height.Height.{Height};
ghost use Rattle.seq_base.specs.Setting.{IsValid, parameters};
ghost use Rattle.themis_c.specs.Answers.{IsOkOrNoMemory};
ghost use Rattle.themis_c.specs.Calls.{IsGiven};
ghost use Rattle.themis_c.specs.Openings.{HasCause, IsOpenStatus, IsOpenedAs, id_of, place_of, seed_of, status_of};
ghost use Rattle.themis_c.specs.Statuses.{height_of};

use crate::outcome::copy_out;
use crate::{
    BAD_HEIGHT, BAD_NUMBER, BAD_SETTING, CORRUPT_LOG, CRole, FEW_SEALS, Handle, KEY_COUNT,
    NO_HEADER, NO_MEMORY, OK, OTHER_LOG, VACANT, WRONG_SECRET,
};
use hss_seal::AnySealer;
use replica_box::{OpenFault, Replica, Role};
use seal_kit::Height;
use seq_base::{NoMemory, Setting};
use std::alloc::Global;

/// The public key of the key of a height that grows from a secret of 48 random bytes.
#[unsafe(no_mangle)]
pub extern "C" fn themis_public_key(
    alloc: Global,
    height: u32,
    secret: &[u8; 48],
    public: &mut [u8; 60],
) -> u32
    ensures key { result ≡ OK → (h : Height) → height_of height ≡ Some h → public.new ≡ key_of_secret (id_of secret.now) (seed_of secret.now) h }
    ensures height { (result ≡ BAD_HEIGHT) ↔ (height_of height ≡ None) }
    ensures status { height_of height ≢ None → IsOkOrNoMemory result }
    ensures refused { result ≢ OK → public.new ≡ public.old }
{
    let Some(height) = height_of(height) else {
        return BAD_HEIGHT;
    };
    match grown_public(alloc, height, secret) {
        Err(_) => NO_MEMORY,
        Ok(grown) => {
            *public = grown;
            OK
        }
    }
}

fn grown_public(alloc: Global, height: Height, secret: &[u8; 48]) -> Result<[u8; 60], NoMemory>
    ensures { IfOk result (λ public. public ≡ key_of_secret (id_of secret.now) (seed_of secret.now) height) }
{
    let sealer = AnySealer::from_bytes(alloc, &id_of(secret), &seed_of(secret), height, 0)?;
    Ok(sealer.public())
}

/// Opens a replica from its role, its secret, the public keys of all replicas, key number i for replica i, and the bytes of
/// its log. `used` is then how many bytes of the log the header and the whole records are, or the place of a corrupt record.
/// With 0 bytes the log has no header yet: [`themis_header`] gives it. A replica that the handle held is freed.
#[tactic(auto, using(crate::proofs::Causes::no_cause))]
#[unsafe(no_mangle)]
pub extern "C" fn themis_open(
    alloc: Global,
    handle: &mut Handle,
    role: &CRole,
    secret: &[u8; 48],
    publics: &[[u8; 60]],
    log: &[u8],
    used: &mut usize,
) -> u32
    ensures opened { result ≡ OK → (height : Height) → height_of role.now.height ≡ Some height
        → IsSomeAnd handle.new.seat (λ seat. IsOpenedAs (parameters role.now.n role.now.f role.now.p role.now.q) role.now.views role.now.me
        height secret.now publics.now log.now used.new seat) }
    ensures setting { (result ≡ BAD_SETTING) ↔ (¬ IsValid (parameters role.now.n role.now.f role.now.p role.now.q)) }
    ensures height { (result ≡ BAD_HEIGHT) ↔ (IsValid (parameters role.now.n role.now.f role.now.p role.now.q) × (height_of role.now.height ≡ None)) }
    ensures cause { (height : Height) → height_of role.now.height ≡ Some height → HasCause result
        (parameters role.now.n role.now.f role.now.p role.now.q) role.now.views role.now.me height secret.now publics.now log.now used.new }
    ensures closed { IsOpenStatus result }
    ensures refused { result ≢ OK → handle.new.seat ≡ handle.old.seat }
{
    let Ok(setting) = Setting::new(role.n, role.f, role.p, role.q) else {
        return BAD_SETTING;
    };
    let Some(height) = height_of(role.height) else {
        return BAD_HEIGHT;
    };
    let role = Role {
        setting,
        views: role.views,
        me: role.me,
        height,
    };
    open_as(alloc, handle, &role, secret, publics, log, used)
}

/// Opens the replica of a role.
#[tactic(auto, using(crate::proofs::Causes::no_cause, crate::proofs::Causes::has_cause))]
fn open_as(
    alloc: Global,
    handle: &mut Handle,
    role: &Role,
    secret: &[u8; 48],
    publics: &[[u8; 60]],
    log: &[u8],
    used: &mut usize,
) -> u32
    ensures opened { result ≡ OK → IsSomeAnd handle.new.seat
        (λ seat. IsOpenedAs role.now.setting role.now.views role.now.me role.now.height secret.now publics.now log.now used.new seat) }
    ensures cause { HasCause result role.now.setting role.now.views role.now.me role.now.height secret.now publics.now log.now used.new }
    ensures closed { IsOpenStatus result }
    ensures refused { result ≢ OK → handle.new.seat ≡ handle.old.seat }
    ensures known { (result ≢ BAD_SETTING) × (result ≢ BAD_HEIGHT) }
{
    match open_boxed(alloc, role, secret, publics, log) {
        Err(fault) => why_not(fault, used),
        Ok((replica, size)) => {
            *used = size;
            handle.put(replica);
            OK
        }
    }
}

fn open_boxed(
    alloc: Global,
    role: &Role,
    secret: &[u8; 48],
    publics: &[[u8; 60]],
    log: &[u8],
) -> Result<(Box<Replica>, usize), OpenFault>
    ensures can { OnOk result (CanOpen role.now.setting.n role.now.views role.now.me (id_of secret.now) (seed_of secret.now) role.now.height publics.now) }
    ensures opened { IfOk result (λ o. HasOpened (any_publics_fit role.now.height publics.now)
        (any_gives (any_sealer (id_of secret.now) (seed_of secret.now) role.now.height role.now.me))
        (opening_state role.now.setting role.now.views role.now.me (capacity_of role.now.height)) o.0.value.header log.now o.1 o.0.value.node.state) }
    ensures digest { IfOk result (λ o. IsDigestOf o.0.value.header log.now o.0.value.digest) }
    ensures header { IfOk result (λ o. o.0.value.header ≡ own_header role.now.setting role.now.views role.now.me role.now.height publics.now) }
    ensures fits { IfOk result (λ o. fits_of o.0.value ≡ any_publics_fit role.now.height publics.now) }
    ensures gives { IfOk result (λ o. gives_of o.0.value ≡ any_gives (any_sealer (id_of secret.now) (seed_of secret.now) role.now.height role.now.me)) }
    ensures idle { IfOk result (λ o. (o.0.value.ready ≡ []) × (o.0.value.sealed ≡ []) × (o.0.value.sends ≡ [])) }
    ensures desk { IfOk result (λ o. o.0.value.desk ≡ opening role.now.setting.n role.now.setting.f role.now.me) }
    ensures running { IfOk result (λ o. o.0.value.node.halted ≡ false) }
    ensures cause { IfErr result
        (λ fault. IsCause fault role.now.setting role.now.views role.now.me (id_of secret.now) (seed_of secret.now) role.now.height publics.now log.now) }
{
    let (replica, used) = Replica::open(
        alloc,
        role,
        &id_of(secret),
        &seed_of(secret),
        publics,
        log,
    )?;
    match Box::new(alloc, replica) {
        Ok(boxed) => Ok((boxed, used)),
        Err(_) => Err(OpenFault::NoMemory),
    }
}

/// The status of a refusal, with the place of a corrupt record.
fn why_not(fault: OpenFault, used: &mut usize) -> u32
    ensures status { result ≡ status_of fault }
    ensures place { used.new ≡ place_of fault used.old }
    ensures closed { IsOpenStatus result }
    ensures known { (result ≢ OK) × (result ≢ BAD_SETTING) × (result ≢ BAD_HEIGHT) }
{
    match fault {
        OpenFault::Number => BAD_NUMBER,
        OpenFault::Views => FEW_SEALS,
        OpenFault::Count => KEY_COUNT,
        OpenFault::Secret => WRONG_SECRET,
        OpenFault::NoHeader => NO_HEADER,
        OpenFault::OtherLog => OTHER_LOG,
        OpenFault::Corrupt { at } => {
            *used = at;
            CORRUPT_LOG
        }
        OpenFault::NoMemory => NO_MEMORY,
    }
}

/// Copies the header of the replica's log, of 76 bytes, into a buffer, and writes its size.
#[unsafe(no_mangle)]
pub extern "C" fn themis_header(
    alloc: Global,
    handle: &mut Handle,
    into: &mut [u8],
    size: &mut usize,
) -> u32
    ensures given { (seat : Seat) → handle.old.seat ≡ Some seat → IsGiven (Some seat.header) result into.old into.new size.new }
    ensures same { handle.new.seat ≡ handle.old.seat }
    ensures kept { result ≢ OK → into.new ≡ into.old }
    ensures vacant { (result ≡ VACANT) ↔ (handle.old.seat ≡ None) }
{
    let Some(replica) = handle.take(alloc) else {
        return VACANT;
    };
    let status = copy_out(replica.header(), into, size);
    handle.put(replica);
    status
}

/// The height of a number.
pub(crate) fn height_of(code: u32) -> Option<Height>
    ensures { result ≡ height_of code }
{
    match code {
        5 => Some(Height::H5),
        10 => Some(Height::H10),
        505 => Some(Height::H5H5),
        510 => Some(Height::H5H10),
        _ => None,
    }
}

/// The identifier in a secret.
fn id_of(secret: &[u8; 48]) -> [u8; 16]
    ensures { result ≡ id_of secret.now }
{
    let mut id = [0u8; 16];
    id.copy_from_slice(&secret[..16]);
    id
}

/// The seed in a secret.
fn seed_of(secret: &[u8; 48]) -> [u8; 32]
    ensures { result ≡ seed_of secret.now }
{
    let mut seed = [0u8; 32];
    seed.copy_from_slice(&secret[16..]);
    seed
}

/// Frees the replica, if there is one. The handle is vacant then.
#[unsafe(no_mangle)]
pub extern "C" fn themis_free(alloc: Global, handle: &mut Handle)
    ensures { handle.new.seat ≡ None }
{
    if let Some(replica) = handle.take(alloc) {
        drop(replica);
    }
}
