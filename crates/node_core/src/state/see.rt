//! The changes that a certificate makes.
ghost use Rattle.std.specs.Prelude.{◌≡◌, ◌≤◌, OnOk};
ghost use Rattle.node_core.specs.NewView.{joined};
ghost use Rattle.node_core.specs.See.{seen, asked_for, seen_block, taken};
ghost use Rattle.node_core.specs.Judged.{IsStorable};

use crate::state::State;
use crate::state::certs::copy_of;
use seq_base::{Block, Cert, Digest, NoMemory};
use wire_view::{CallView, CertView};

impl State {
    /// Takes a certificate of a message, whose block is stored. It may become the highest; the view becomes at least
    /// its view; and the lock and the commit move by the rules of the chain.
    pub(crate) fn see(&mut self, cert: &CertView<'_>) -> Result<(), NoMemory>
        requires { cert.now.view ≤ self.old.views }
        ensures { OnOk result (self.new ≡ seen cert.now self.old) }
    {
        if cert.view() > self.high.view {
            self.high = cert.own(self.alloc)?;
        }
        self.see_block(cert.view(), &cert.block())
    }

    /// Takes an owned certificate: that of a block, or one that this node built from votes.
    pub(crate) fn see_owned(&mut self, cert: &Cert) -> Result<(), NoMemory>
        requires { cert.now.view ≤ self.old.views }
        ensures { OnOk result (self.new ≡ seen cert.now self.old) }
    {
        if cert.view > self.high.view {
            self.high = copy_of(self.alloc, cert)?;
        }
        self.see_block(cert.view, &cert.block)
    }

    fn see_block(&mut self, view: u32, block: &Digest) -> Result<(), NoMemory>
        requires { view ≤ self.old.views }
        ensures { OnOk result (self.new ≡ seen_block view block.now self.old) }
    {
        self.view = self.view.max(view);
        match self.safety.see(self.blocks.store(), view, block).committed {
            Some(commit) => self.blocks.settle(&commit),
            None => Ok(()),
        }
    }

    /// Takes a NewView: its certificate, and its replica as one that called for the view.
    pub(crate) fn join(&mut self, from: u32, call: &CallView<'_>) -> Result<(), NoMemory>
        requires { call.now.cert.view ≤ self.old.views }
        ensures { OnOk result (self.new ≡ joined from call.now self.old) }
    {
        self.see(&call.cert())?;
        self.gather(call.view(), from)
    }

    /// Notes that local orders are asked for a view, with the highest certificate.
    pub(crate) fn ask_for(&mut self, view: u32) -> Result<(), NoMemory>
        requires { view ≤ self.old.views }
        ensures { OnOk result (self.new ≡ asked_for view self.old) }
    {
        self.ask_cert = copy_of(self.alloc, &self.high)?;
        self.asked = view;
        self.view = view;
        self.orders = Vec::new(self.alloc);
        Ok(())
    }

    /// Takes the certificate of a block, and stores the block.
    pub(crate) fn take_block(&mut self, block: Block, digest: &Digest) -> Result<(), NoMemory>
        requires { IsStorable self.old block digest.now }
        ensures { OnOk result (self.new ≡ taken block self.old) }
    {
        self.see_owned(&block.cert)?;
        self.store_block(block, digest)
    }
}
