//! The binary search for the line of an offset.

ghost use Rattle.std.specs.Prelude.{◌≡◌, ◌≤◌, true, false, length, nat_le};
ghost use Rattle.std.specs.List.Sorted.{IsNonDecreasingBy, IsPartitionPoint};

use super::start::Start;

/// The number of lines beginning at an offset in characters or before.
pub(super) fn begun_at(starts: &[Start], offset: usize) -> usize
    requires { IsNonDecreasingBy (λ s. s.chars) starts.now }
    ensures bound { result ≤ length starts.now }
    ensures point { IsPartitionPoint (λ s. nat_le s.chars offset ≡ true)
        (λ s. nat_le s.chars offset ≡ false) starts.now result }
{
    starts.partition_point(|start| start.chars <= offset)
}

/// The number of lines beginning at an offset in bytes or before.
pub(super) fn begun_at_byte(starts: &[Start], offset: usize) -> usize
    requires { IsNonDecreasingBy (λ s. s.bytes) starts.now }
    ensures bound { result ≤ length starts.now }
    ensures point { IsPartitionPoint (λ s. nat_le s.bytes offset ≡ true)
        (λ s. nat_le s.bytes offset ≡ false) starts.now result }
{
    starts.partition_point(|start| start.bytes <= offset)
}
