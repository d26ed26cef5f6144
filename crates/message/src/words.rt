// The offsets of a message that is known to hold them: all are there, so none is compared with a length.
ghost use Rattle.std.specs.Prelude.{◌≡◌, ◌+◌, ◌≤◌, ◌<◌, ◌^◌, length};
ghost use Rattle.standard.specs.Bytes.{four};

use standard::words::four_at;

// The number in the four bytes from p on.
pub(crate) fn four_in(b: &[u8], p: usize) -> usize
    requires { p + 4 ≤ length b.now }
    ensures { (result ≡ four b.now p) × (result < 2 ^ 32) }
{
    four_at(&b[p..p + 4], 0)
}
