ghost use Rattle.std.specs.Prelude.{◌≡◌, ◌≤◌};
ghost use Rattle.lms_seal.specs.Key.{levels_of};

use seal_kit::Height;

/// The number of levels of the trees whose leaves sign messages.
pub fn levels(height: Height) -> u32
    ensures value { result ≡ levels_of height }
    ensures low { result ≤ 10 }
{
    match height {
        Height::H5 | Height::H5H5 => 5,
        Height::H10 | Height::H5H10 => 10,
    }
}
