//! Laws of every replica's seals of two-level HSS, and of seals whose key grows from bytes.
ghost use Rattle.std.specs.Prelude.{◌≡◌, ◌<◌, ℕ, List, Some, length, true, drop, slice_get, slice_range};
ghost use Rattle.seal_kit.specs.declared.height.Height.{Height};
ghost use Rattle.lms_seal.specs.Bytes.{number_at};
ghost use Rattle.hss_seal.specs.Any.{any_gives, any_public, any_publics_fit, any_sealer};
ghost use Rattle.hss_seal.specs.Draws.{Seeds, drawn_seeds, top_of};
ghost use Rattle.hss_seal.specs.Hss.{hss_public, hss_fits, hss_capacity, tree_of, leaf_of, hss_seal_of};

/// The seal of every number fits under the public key if the identifier has 16 bytes, as that of a drawn key has.
pub fn seals_fit()
    ensures all { (seeds : Seeds) (lower : Height) (number : ℕ) (message : List ℕ) → length seeds.id ≡ 16
        → hss_fits (hss_public (top_of seeds)) message (hss_seal_of seeds lower number message) ≡ true }
    ensures drawn { (s r : ℕ) (lower : Height) (number : ℕ) (message : List ℕ)
        → hss_fits (hss_public (top_of (drawn_seeds s r))) message (hss_seal_of (drawn_seeds s r) lower number message) ≡ true }
{}

/// If a key grows from an identifier of 16 bytes and a seed, each seal of its sealer fits by every list of public keys
/// that has its own at the replica's number.
pub fn grown_seals_fit()
    ensures { (id seed : List ℕ) (height : Height) (r number : ℕ) (publics : List (List ℕ)) (bytes : List ℕ) → length id ≡ 16
        → slice_get publics r ≡ Some (any_public (any_sealer id seed height r))
        → any_publics_fit height publics r bytes (any_gives (any_sealer id seed height r) number bytes) ≡ true }
{}

/// Two different numbers below the capacity never have the same lower tree and the same leaf, so no leaf signs for two
/// of them. A seal shows both: the top tree's signature in it starts with the tree, and the lower tree's with the leaf.
pub fn trees_and_leaves_are_numbers()
    ensures apart { (lower : Height) (j k : ℕ) → j < hss_capacity lower → k < hss_capacity lower
        → tree_of lower j ≡ tree_of lower k → leaf_of lower j ≡ leaf_of lower k → j ≡ k }
    ensures tree { (seeds : Seeds) (lower : Height) (number : ℕ) (message : List ℕ)
        → number_at (slice_range (hss_seal_of seeds lower number message) 4 2352) 0 ≡ tree_of lower number }
    ensures leaf { (seeds : Seeds) (lower : Height) (number : ℕ) (message : List ℕ)
        → number_at (drop 2408 (hss_seal_of seeds lower number message)) 0 ≡ leaf_of lower number }
{}
