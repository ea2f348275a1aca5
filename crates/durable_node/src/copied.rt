ghost use Rattle.std.specs.Prelude.{drop};
ghost use Rattle.durable_node.specs.Keeping.{Copies};

/// Copies bytes from an offset on to the start of a buffer, as many as there are and fit. Returns their number.
pub(crate) fn copied(bytes: &[u8], at: u64, into: &mut [u8]) -> usize
    ensures { Copies result (drop at bytes.now) into.old into.new }
{
    if at >= bytes.len() as u64 {
        return 0;
    }
    let left = &bytes[at as usize..];
    let count = left.len().min(into.len());
    into[..count].copy_from_slice(&left[..count]);
    count
}
