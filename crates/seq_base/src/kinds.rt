//! The first bytes of the wire form. A message starts with its version, followed by the kind. A statement starts with
//! the kind.
ghost use Rattle.std.specs.Prelude.{◌≡◌};
ghost use Rattle.seq_base.specs.declared.kinds.TheConstants.{VERSION, NEW_VIEW, ASK, ORDER, PROPOSE, VOTE, FETCH, GIVE};

/// The version of the wire form, the first byte of every message.
pub const VERSION: u8 = 2;

/// A replica calls for a view and shows its highest certificate.
pub const NEW_VIEW: u8 = 1;

/// The leader of a view asks for local orders over a certified block.
pub const ASK: u8 = 2;

/// A replica's local order.
pub const ORDER: u8 = 3;

/// The leader of a view proposes a block.
pub const PROPOSE: u8 = 4;

/// A replica votes for a block.
pub const VOTE: u8 = 5;

/// A replica asks for a block.
pub const FETCH: u8 = 6;

/// A replica gives a block.
pub const GIVE: u8 = 7;

/// The values of the constants. Definitions of the wire form cite the constants by name, so only this contract fixes
/// their values.
pub fn kinds_have_their_numbers()
    ensures version { VERSION ≡ 2 }
    ensures new_view { NEW_VIEW ≡ 1 }
    ensures ask { ASK ≡ 2 }
    ensures order { ORDER ≡ 3 }
    ensures propose { PROPOSE ≡ 4 }
    ensures vote { VOTE ≡ 5 }
    ensures fetch { FETCH ≡ 6 }
    ensures give { GIVE ≡ 7 }
{}
