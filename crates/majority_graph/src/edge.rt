ghost use Rattle.std.specs.Prelude.{◌≡◌};
ghost use Rattle.majority_graph.specs.Edges.{opposite_of};

/// The edge of the pair of u and v, seen from u.
#[derive(Clone, Copy, PartialEq, Eq)]
#[repr(u8)]
pub enum Edge {
    /// The edge goes from u to v.
    To,
    /// The edge goes from v to u.
    From,
    /// The lists gave no edge.
    Missing,
}

impl Edge {
    /// The same pair, seen from v.
    pub(crate) fn opposite(self) -> Edge
        ensures { result ≡ opposite_of self }
    {
        match self {
            Edge::To => Edge::From,
            Edge::From => Edge::To,
            Edge::Missing => Edge::Missing,
        }
    }
}
