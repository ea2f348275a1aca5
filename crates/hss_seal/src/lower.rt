ghost use Rattle.std.specs.Prelude.{◌≡◌, ◌+◌, ◌<◌, ◌^◌, ◌++◌, IfOk};
ghost use Rattle.std.specs.Int.{w32, to_be_bytes};
ghost use Rattle.lms_seal.specs.Key.{key_signature};
ghost use Rattle.hss_seal.specs.Lower.{kept_with};

use lms_seal::LmsKey;
use seq_base::{NoMemory, Seal};
use std::alloc::Global;
use std::marker::Model;

/// A grown lower tree: its number, its key, and the bytes before its signatures in a seal, which include the top tree's
/// signature of its public key.
pub(crate) struct Lower {
    alloc: Global,
    tree: u32,
    key: LmsKey,
    head: Vec<u8>,
}

impl Drop for Lower {
    fn drop(self) {
        let Lower {
            alloc: _,
            tree: _,
            key: _,
            head: _,
        } = self;
    }
}

impl Model for Lower {
    ghost use Rattle.hss_seal.specs.Lower.{Kept};

    ghost Value = { Kept };

    ghost view = { λ l. record { tree = l.tree; key = l.key; head = l.head.items } };
}

impl Lower {
    /// Lower tree `tree` with its grown key. The top tree signs its public key with the leaf of that number.
    pub(crate) fn new(
        alloc: Global,
        top: &LmsKey,
        tree: u32,
        key: LmsKey,
    ) -> Result<Lower, NoMemory>
        requires { tree < 2 ^ top.now.levels }
        ensures { IfOk result (λ lower. lower ≡ kept_with top.now tree key) }
    {
        let head = signed_head(alloc, top, tree, &key.public())?;
        Ok(Lower {
            alloc,
            tree,
            key,
            head,
        })
    }

    pub(crate) fn tree(&self) -> u32
        ensures { result ≡ self.now.tree }
    {
        self.tree
    }

    /// The seal of a message with a leaf of this tree. The leaf must not be used for anything else.
    pub(crate) fn seal(&self, leaf: u32, message: &[u8]) -> Result<Seal, NoMemory>
        requires { leaf < 2 ^ self.now.key.levels }
        ensures { IfOk result (λ seal. seal ≡ self.now.head ++ key_signature self.now.key leaf message.now) }
    {
        let signature = self.key.sign(leaf, message)?;
        let mut bytes = Vec::from_slice(self.alloc, self.head.as_slice())?;
        bytes.extend_from_slice(signature.as_slice())?;
        Ok(Seal::of(bytes))
    }
}

/// The bytes before the signatures of a lower tree.
fn signed_head(
    alloc: Global,
    top: &LmsKey,
    tree: u32,
    public: &[u8; 56],
) -> Result<Vec<u8>, NoMemory>
    requires { tree < 2 ^ top.now.levels }
    ensures { IfOk result (λ head. head.items ≡ to_be_bytes w32 1 ++ (key_signature top.now tree public.now ++ public.now)) }
{
    let signature = top.sign(tree, public)?;
    let mut head = Vec::new(alloc);
    head.extend_from_slice(&1u32.to_be_bytes())?;
    head.extend_from_slice(signature.as_slice())?;
    head.extend_from_slice(public)?;
    Ok(head)
}
