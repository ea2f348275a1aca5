//! Seals that are checked ahead, on other threads.
ghost use Rattle.std.specs.Prelude.{◌≡◌, ◌≢◌, ◌⊎◌, ◌↔◌, Some, None, IfOk};
ghost use Rattle.replica_box.specs.CheckerKeys.{CheckerKeys};
ghost use Rattle.replica_box.specs.Seats.{Seat};
ghost use Rattle.seal_kit.specs.declared.height.Height.{Height};
ghost use Rattle.themis_c.specs.Answers.{IsHeldStatus, IsOkOrNoMemory};
ghost use Rattle.themis_c.specs.Statuses.{height_of};
ghost use Rattle.themis_c.specs.Verifiers.{IsTakeStatus};

use crate::opening::height_of;
use crate::verifier_handle::VerifierHandle;
use crate::{BAD_HEIGHT, Handle, NO_MEMORY, OK, VACANT};
use replica_box::{Replica, Verifier};
use seal_kit::Height;
use seq_base::NoMemory;
use std::alloc::Global;

/// The verifier has other public keys than the replica, or keys of another height.
pub const OTHER_VERIFIER: u32 = 27;

/// Makes a verifier by the public keys of all replicas, key number i for replica i. One that the handle held is freed.
#[unsafe(no_mangle)]
pub extern "C" fn themis_verifier_new(
    alloc: Global,
    verifier: &mut VerifierHandle,
    height: u32,
    publics: &[[u8; 60]],
) -> u32
    ensures made { result ≡ OK → (h : Height) → height_of height ≡ Some h → verifier.new.keys ≡ Some (record { height = h; publics = publics.now }) }
    ensures height { (result ≡ BAD_HEIGHT) ↔ (height_of height ≡ None) }
    ensures status { height_of height ≢ None → IsOkOrNoMemory result }
    ensures refused { result ≢ OK → verifier.new.keys ≡ verifier.old.keys }
{
    let Some(height) = height_of(height) else {
        return BAD_HEIGHT;
    };
    match boxed_verifier(alloc, height, publics) {
        Err(_) => NO_MEMORY,
        Ok(made) => {
            verifier.put(made);
            OK
        }
    }
}

fn boxed_verifier(
    alloc: Global,
    height: Height,
    publics: &[[u8; 60]],
) -> Result<Box<Verifier>, NoMemory>
    ensures { IfOk result (λ b. b.value ≡ record { height = height; publics = publics.now }) }
{
    let verifier = Verifier::new(alloc, height, publics)?;
    match Box::new(alloc, verifier) {
        Ok(boxed) => Ok(boxed),
        Err(_) => Err(NoMemory),
    }
}

/// Checks the seals of a message that replica `from` sent, for a replica in this view: those whose number modulo `shares` is
/// `share`. The verifier keeps those that fit until it checks the next message, and writes how many these are.
#[unsafe(no_mangle)]
pub extern "C" fn themis_verify(
    alloc: Global,
    verifier: &mut VerifierHandle,
    view: u32,
    from: u32,
    bytes: &[u8],
    share: u32,
    shares: u32,
    kept: &mut usize,
) -> u32
    ensures status { IsHeldStatus result verifier.old.keys }
    ensures same { verifier.new.keys ≡ verifier.old.keys }
{
    let Some(mut checking) = verifier.take(alloc) else {
        return VACANT;
    };
    *kept = checking.verify(view, from, bytes, share, shares);
    verifier.put(checking);
    OK
}

/// Lets a replica remember the seals that a verifier keeps, if both have the same public keys and the same height. The
/// replica does not check them again when it prepares their message.
#[unsafe(no_mangle)]
pub extern "C" fn themis_take_verified(
    alloc: Global,
    handle: &mut Handle,
    verifier: &mut VerifierHandle,
) -> u32
    ensures status { (seat : Seat) (keys : CheckerKeys) → handle.old.seat ≡ Some seat → verifier.old.keys ≡ Some keys → IsTakeStatus result seat keys }
    ensures vacant { (result ≡ VACANT) ↔ ((handle.old.seat ≡ None) ⊎ (verifier.old.keys ≡ None)) }
    ensures replica { handle.new.seat ≡ handle.old.seat }
    ensures verifier { verifier.new.keys ≡ verifier.old.keys }
{
    let Some(mut replica) = handle.take(alloc) else {
        return VACANT;
    };
    let status = take_from(alloc, &mut replica, verifier);
    handle.put(replica);
    status
}

/// The same of the replica in its box.
fn take_from(alloc: Global, replica: &mut Replica, verifier: &mut VerifierHandle) -> u32
    ensures status { (keys : CheckerKeys) → verifier.old.keys ≡ Some keys → IsTakeStatus result replica.old keys }
    ensures vacant { (result ≡ VACANT) ↔ (verifier.old.keys ≡ None) }
    ensures replica { replica.new ≡ replica.old }
    ensures verifier { verifier.new.keys ≡ verifier.old.keys }
{
    let Some(mut kept) = verifier.take(alloc) else {
        return VACANT;
    };
    let status = take_kept(replica, &mut kept);
    verifier.put(kept);
    status
}

fn take_kept(replica: &mut Replica, kept: &mut Verifier) -> u32
    ensures status { IsTakeStatus result replica.old kept.old }
    ensures held { result ≢ VACANT }
    ensures replica { replica.new ≡ replica.old }
    ensures verifier { kept.new ≡ kept.old }
{
    if replica.take_verified(kept) {
        OK
    } else {
        OTHER_VERIFIER
    }
}

/// Frees the verifier, if there is one. The handle is vacant then.
#[unsafe(no_mangle)]
pub extern "C" fn themis_verifier_free(alloc: Global, verifier: &mut VerifierHandle)
    ensures { verifier.new.keys ≡ None }
{
    if let Some(freed) = verifier.take(alloc) {
        drop(freed);
    }
}
