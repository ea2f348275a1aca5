ghost use Rattle.std.specs.Prelude.{◌≡◌, ◌≢◌, ◌<◌, ◌≤◌, ℕ, IfSome, IfNone, length, slice_index_or};
ghost use Rattle.walks.specs.declared.mark.Mark.TheVariants.{Unseen, Open};
ghost use Rattle.walks.specs.Marks.{is_followed};

/// The progress of a search at a vertex.
#[derive(Clone, Copy, PartialEq, Eq)]
#[repr(u8)]
pub enum Mark {
    /// Not reached so far.
    Unseen,
    /// Reached, and its edges are still to be followed.
    Open,
    /// Reached, and its edges are followed.
    Done,
}

impl Mark {
    /// Whether it is reached and its edges are followed.
    pub fn is_followed(self) -> bool
        ensures { result ≡ is_followed self }
    {
        match self {
            Mark::Unseen | Mark::Open => false,
            Mark::Done => true,
        }
    }
}

/// The first open vertex from `start` on, or else the first of all.
pub fn next_open(marks: &[Mark], start: usize) -> Option<usize>
    ensures inside { IfSome result (λ at. at < length marks.now) }
    ensures open { IfSome result (λ at. slice_index_or marks.now at Unseen ≡ Open) }
    ensures none { IfNone result ((v : ℕ) → slice_index_or marks.now v Unseen ≢ Open) }
{
    match open_from(marks, start) {
        Some(at) => Some(at),
        None => open_from(marks, 0),
    }
}

/// The first open vertex from `start` on.
fn open_from(marks: &[Mark], start: usize) -> Option<usize>
    ensures inside { IfSome result (λ at. at < length marks.now) }
    ensures open { IfSome result (λ at. slice_index_or marks.now at Unseen ≡ Open) }
    ensures none { IfNone result ((v : ℕ) → start ≤ v → slice_index_or marks.now v Unseen ≢ Open) }
{
    for at in start..marks.len() {
        if marks[at] == Mark::Open {
            return Some(at);
        }
    }
    None
}
