//! Where the keys of a run's replicas come from, which decides the form of a trace.
ghost use Rattle.std.specs.Prelude.{◌≡◌, [], length};
ghost use Rattle.trace_form.specs.Gives.{Gives};
ghost use Rattle.trace_form.specs.Keys.{form_named, form_of, magic, form_at, key_at, keys_at};
ghost use Rattle.trace_form.specs.Reading.{each_at};

use crate::fault::Stop;
use crate::fields::read_piece;
use seq_base::Items;
use std::alloc::Global;

/// One public key for each replica, in the order of the replicas. Each has 60 bytes: the number of levels in four
/// bytes, and the 56 bytes of an LMS public key.
pub type PublicKeys = Items<[u8; 60]>;

/// Where the keys of a run's replicas come from.
pub enum Keys {
    /// A maker of sealers grows all of them from this seed, as in the run of a plan.
    Seed(u64),
    /// Each replica has its own secret, and these are the public keys.
    Public(PublicKeys),
}

impl Drop for Keys {
    fn drop(self) {
        match self {
            Keys::Seed(_) => {}
            Keys::Public(_) => {}
        }
    }
}

/// The form of a trace.
#[derive(Clone, Copy)]
pub(crate) enum Form {
    /// With the seed of all keys.
    Seeded,
    /// With public keys.
    Keyed,
}

/// The form of a trace with these keys.
pub(crate) fn form_of(keys: &Keys) -> Form
    ensures { result ≡ form_of keys.now }
{
    match keys {
        Keys::Seed(_) => Form::Seeded,
        Keys::Public(_) => Form::Keyed,
    }
}

/// The first bytes of a trace of this form.
pub(crate) fn magic(form: Form) -> &'static [u8]
    ensures { result.now ≡ magic form }
{
    match form {
        Form::Seeded => b"THEMISR1",
        Form::Keyed => b"THEMISR2",
    }
}

/// The form that the first bytes of a trace name.
#[tactic(auto, unfolding(crate::specs::Keys::form_at))]
pub(crate) fn read_form(bytes: &[u8]) -> Result<(Form, &[u8]), Stop>
    ensures { Gives (λ x. (x.0, x.1.now)) result (form_at bytes.now) }
{
    let (first, rest) = read_piece(8, bytes)?;
    match form_named(first) {
        Some(form) => Ok((form, rest)),
        None => Err(Stop::Left(bytes.len())),
    }
}

fn form_named(first: &[u8]) -> Option<Form>
    ensures { result ≡ form_named first.now }
{
    if first == magic(Form::Seeded) {
        Some(Form::Seeded)
    } else if first == magic(Form::Keyed) {
        Some(Form::Keyed)
    } else {
        None
    }
}

/// One public key for each of n replicas.
#[tactic(auto, unfolding(crate::specs::Keys::keys_at))]
pub(crate) fn read_keys(alloc: Global, n: u32, bytes: &[u8]) -> Result<(PublicKeys, &[u8]), Stop>
    ensures { Gives (λ x. (x.0, x.1.now)) result (keys_at n bytes.now) }
{
    let (keys, rest) = read_each_key(alloc, n, bytes)?;
    Ok((PublicKeys::of(keys), rest))
}

#[tactic(auto, using(crate::proofs::Steps::each_goes_on, crate::proofs::Steps::each_blames, crate::proofs::Steps::each_ends))]
fn read_each_key(alloc: Global, n: u32, bytes: &[u8]) -> Result<(Vec<[u8; 60]>, &[u8]), Stop>
    ensures { Gives (λ x. (x.0.items, x.1.now)) result (each_at (λ before. key_at) n [] bytes.now) }
{
    let mut keys = Vec::new(alloc);
    let mut rest = bytes;
    for _at in 0..n {
        let (key, following) = read_key(rest)?;
        keys.push(key)?;
        rest = following;
    }
    Ok((keys, rest))
}

#[tactic(auto, unfolding(crate::specs::Keys::key_at))]
fn read_key(bytes: &[u8]) -> Result<([u8; 60], &[u8]), Stop>
    ensures { Gives (λ x. (x.0, x.1.now)) result (key_at bytes.now) }
{
    let (piece, rest) = read_piece(60, bytes)?;
    Ok((key_of(piece), rest))
}

fn key_of(piece: &[u8]) -> [u8; 60]
    requires { length piece.now ≡ 60 }
    ensures { result ≡ piece.now }
{
    let mut key = [0u8; 60];
    key.copy_from_slice(piece);
    key
}
