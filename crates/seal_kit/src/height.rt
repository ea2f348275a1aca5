ghost use Rattle.std.specs.Prelude.{◌≡◌};
ghost use Rattle.seal_kit.specs.Seals.{capacity_of};

/// The heights of a sealer's trees: of a single tree, or of a top tree and of the lower trees that it signs.
#[derive(Clone, Copy, PartialEq, Eq)]
pub enum Height {
    H5,
    H10,
    H5H5,
    H5H10,
}

impl Height {
    /// The number of seals that a sealer of this height can make.
    pub fn capacity(&self) -> u32
        ensures { result ≡ capacity_of self.now }
    {
        match self {
            Height::H5 => 32,
            Height::H10 => 1024,
            Height::H5H5 => 1024,
            Height::H5H10 => 32768,
        }
    }
}
