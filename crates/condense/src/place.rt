ghost use Rattle.std.specs.Prelude.{◌≡◌, ◌↔◌, IsTrue, Some};
ghost use Rattle.condense.specs.Places.{IsSettled, joined, level_of, number_of};

/// Where the pass has put a vertex.
#[derive(Clone, Copy, PartialEq, Eq)]
pub(crate) enum Place {
    /// Not seen so far.
    Unseen,
    /// In the group of the path at this level, with edges into it still to be followed.
    Open(u32),
    /// In the group at this level, with all edges into it settled.
    Followed(u32),
    /// In the component of this number.
    Closed(u32),
}

impl Place {
    /// Whether an edge from here into the group at this level needs no further step: it comes from a component or
    /// from the group itself.
    pub(crate) fn is_settled(self, level: u32) -> bool
        ensures { IsTrue result ↔ IsSettled level self }
    {
        match self {
            Place::Unseen => false,
            Place::Open(own) | Place::Followed(own) => own == level,
            Place::Closed(_) => true,
        }
    }

    /// Whether it is on the path, at this level.
    pub(crate) fn is_at(self, level: u32) -> bool
        ensures { IsTrue result ↔ (level_of self ≡ Some level) }
    {
        match self {
            Place::Open(own) | Place::Followed(own) => own == level,
            Place::Unseen | Place::Closed(_) => false,
        }
    }

    /// The place after the groups from this level on are joined.
    pub(crate) fn joined(self, level: u32) -> Place
        ensures { result ≡ joined level self }
    {
        match self {
            Place::Open(own) => Place::Open(own.min(level)),
            Place::Followed(own) => Place::Followed(own.min(level)),
            Place::Unseen | Place::Closed(_) => self,
        }
    }

    /// The number of the component, or 0 where there is none so far.
    pub(crate) fn number(self) -> u32
        ensures { result ≡ number_of self }
    {
        match self {
            Place::Closed(number) => number,
            Place::Unseen | Place::Open(_) | Place::Followed(_) => 0,
        }
    }
}
