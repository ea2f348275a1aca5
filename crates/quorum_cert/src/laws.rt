//! What holds for certificates and for collected votes. Each law is the contract of a function with an empty body.
ghost use Rattle.std.specs.Prelude.{◌≡◌, ◌≤◌, ◌↔◌, ℕ, List, Bool, true, map};
ghost use Rattle.seq_base.specs.declared.block.Cert.{Cert};
ghost use Rattle.seq_base.specs.declared.block.Vote.{Vote};
ghost use Rattle.seq_base.specs.declared.digest.Digest.{Digest};
ghost use Rattle.seq_base.specs.Setting.{Parameters, IsValid};
ghost use Rattle.count_set.specs.Sets.{IsQuorum};
ghost use Rattle.quorum_cert.specs.declared.vote_box.Took.TheVariants.{Formed};
ghost use Rattle.quorum_cert.specs.Boxes.{empty_box, take_answer};
ghost use Rattle.quorum_cert.specs.Certificates.{is_good};
ghost use Rattle.quorum_cert.specs.Quorums.{HasQuorum, IsGood, after};

/// `cert_ok` returns true exactly for the first block's certificate, and for one of a view from 1 on with exactly n-f
/// votes of distinct replicas below n, in ascending order, where each seal fits its vote.
pub fn good_certificates_have_quorums()
    ensures { (fits : ℕ → List ℕ → List ℕ → Bool) (s : Parameters) (c : Cert) → (is_good fits s c ≡ true) ↔ IsGood fits s c }
{}

/// The replicas of such a certificate are a quorum.
pub fn certificates_name_quorums()
    ensures { (fits : ℕ → List ℕ → List ℕ → Bool) (s : Parameters) (c : Cert) → HasQuorum fits s c
        → IsQuorum s (map (λ v. v.replica) c.votes) }
{}

/// If a `VoteBox` is for a view from 1 on, and all votes are added by `take`, then any certificate that it forms is good,
/// and names the block and the view of the box.
pub fn formed_certificates_are_good()
    ensures { (fits : ℕ → List ℕ → List ℕ → Bool) (s : Parameters) (view : ℕ) (block : Digest) (votes : List Vote) (last : Vote) (c : Cert)
        → IsValid s → 1 ≤ view → take_answer fits (after fits (empty_box s view block) votes) last ≡ Formed c
        → HasQuorum fits s c × (c.view ≡ view) × (c.block ≡ block) }
{}
