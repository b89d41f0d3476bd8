//! Room for what comes over a net.

ghost use Rattle.std.specs.Prelude.{◌≡◌, IfOk, length};
ghost use Rattle.hy_serve.specs.declared.room.TheConstants.{PIECE};

use hy_base::NoMemory;
use std::alloc::Global;

/// So many bytes are taken from a connection at once.
const PIECE: usize = 65_536;

/// Room for a piece, of 65,536 bytes.
pub fn buffer(alloc: Global) -> Result<Vec<u8>, NoMemory>
    ensures { IfOk result (λ room. length room.items ≡ PIECE) }
{
    zeros(alloc, PIECE)
}

/// So many zeros.
fn zeros(alloc: Global, count: usize) -> Result<Vec<u8>, NoMemory>
    ensures { IfOk result (λ zeros. length zeros.items ≡ count) }
{
    Ok(vec![in alloc; 0u8; count]?)
}
