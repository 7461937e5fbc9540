// Bytes copied from a slice.
ghost use Rattle.std.specs.Prelude.{◌≡◌, length, take, min};

// Copies as many bytes from the front of `from` as `most` and `to` allow, and returns their number.
pub(crate) fn copy_front(from: &[u8], most: usize, to: &mut [u8]) -> usize
    ensures count { result ≡ min most (min (length from.now) (length to.old)) }
    ensures copied { take result to.new ≡ take result from.now }
{
    let count = most.min(from.len()).min(to.len());
    to[..count].copy_from_slice(&from[..count]);
    count
}
