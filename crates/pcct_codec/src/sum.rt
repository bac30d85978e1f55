//! The sum of bytes.
ghost use Rattle.std.specs.Prelude.{◌≡◌, ◌≤◌, length, sum};

pub(crate) fn byte_sum(bytes: &[u8]) -> u32
    requires { length bytes.now ≤ 65536 }
    ensures { result ≡ sum bytes.now }
{
    bytes.iter().map(|byte| u32::from(*byte)).sum()
}
