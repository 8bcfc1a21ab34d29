// Records of bytes to compare on.
ghost use Rattle.std.specs.Prelude.{◌≡◌, ◌<◌, IfOk};
ghost use Rattle.sampling.specs.Lists.{Each};

use crate::random::Random;
use std::alloc::Global;
use std::io;

// A record of one byte, so many times.
pub fn filled(heap: Global, n: usize, byte: u8) -> io::Result<Vec<u8>>
    ensures { IfOk result (λ v. Each (λ x. x ≡ byte) n v.items) }
{
    Ok(vec![in heap; byte; n]?)
}

// Random bytes below a limit.
pub fn random_bytes(
    heap: Global,
    random: &mut Random,
    n: usize,
    limit: usize,
) -> io::Result<Vec<u8>>
    ensures { IfOk result (λ v. Each (λ x. (0 < limit → x < limit)) n v.items) }
{
    let mut bytes = Vec::new(heap);
    for _k in 0..n {
        bytes.push(random.byte(limit))?;
    }
    Ok(bytes)
}
