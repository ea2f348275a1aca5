ghost use Rattle.std.specs.Prelude.{◌≡◌, ◌&&◌};
ghost use Rattle.quorum_cert.specs.Certificates.{is_first, has_quorum, is_within, rise_below, seal_fits, seals_fit, is_good};

use seal_kit::Checker;
use seq_base::{Digest, Setting};
use wire_view::CertView;
use wire_write::vote_bytes;

/// Whether a certificate is good. Either it is the first block's, or its view is at least 1 and it has exactly n-f
/// votes, with replicas ascending and below n, each seal fitting its vote. Seals are checked last. It allocates nothing.
pub fn cert_ok<C: Checker>(setting: &Setting, cert: &CertView<'_>, checker: &C) -> bool
    ensures { result ≡ is_good (C.meaning checker.now) setting.now cert.now }
{
    is_first(cert) || (has_quorum(setting, cert) && seals_fit(cert, checker))
}

fn is_first(cert: &CertView<'_>) -> bool
    ensures { result ≡ is_first cert.now }
{
    cert.view() == 0 && cert.block() == Digest::FIRST && cert.len() == 0
}

fn has_quorum(setting: &Setting, cert: &CertView<'_>) -> bool
    ensures { result ≡ has_quorum setting.now cert.now }
{
    cert.view() > 0 && cert.len() == setting.quorum() && rise_below(setting.n(), cert)
}

/// Whether the replicas of the votes are ascending and below n.
fn rise_below(n: u32, cert: &CertView<'_>) -> bool
    ensures { result ≡ rise_below n 0 cert.now.votes }
{
    let mut least = 0;
    for k in 0..cert.len() {
        match cert.vote(k) {
            None => return true,
            Some((replica, _)) => {
                if !is_within(least, n, replica) {
                    return false;
                }
                least = replica + 1;
            }
        }
    }
    true
}

fn is_within(least: u32, n: u32, replica: u32) -> bool
    ensures { result ≡ is_within least n replica }
{
    least <= replica && replica < n
}

fn seals_fit<C: Checker>(cert: &CertView<'_>, checker: &C) -> bool
    ensures { result ≡ seals_fit (C.meaning checker.now) cert.now }
{
    for k in 0..cert.len() {
        match cert.vote(k) {
            None => return true,
            Some((replica, seal)) => {
                if !seal_fits(cert, checker, replica, seal) {
                    return false;
                }
            }
        }
    }
    true
}

fn seal_fits<C: Checker>(cert: &CertView<'_>, checker: &C, replica: u32, seal: &[u8]) -> bool
    ensures { result ≡ seal_fits (C.meaning checker.now) cert.now (record { replica = replica; seal = seal.now }) }
{
    let statement = vote_bytes(replica, cert.view(), &cert.block());
    checker.fits(replica, &statement, seal)
}
