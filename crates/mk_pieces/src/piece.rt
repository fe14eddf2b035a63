//! Pieces of a region.
ghost use Rattle.std.specs.Prelude.{◌≡◌, ◌≤◌, ◌<◌, ◌^◌, ◌++◌, length, take, codes, IfOk, OnOk};
ghost use Rattle.std.specs.Prelude.{OnErr};
ghost use Rattle.mk_pieces.specs.Pieces.{bytes_of, Begins};

use mk_bytes::NoMemory;
use mk_pool::{Piece, Region};

/// The bytes of a piece, cut where the region ends.
pub fn shown(region: &Region, piece: Piece) -> &[u8]
    ensures value { result.now ≡ bytes_of region.now.bytes piece }
    ensures begins { take 2 region.now.bytes ≡ codes "./" }
    ensures short { length region.now.bytes < 2 ^ 32 }
{
    let end = piece.end.min(region.len() as u32);
    let start = piece.start.min(end);
    region.bytes(Piece { start, end })
}

/// The piece from the byte at `start` to before the byte at `end`. It is refused where a region has
/// no such bytes, which stays below 2^32.
pub fn piece_between(start: usize, end: usize) -> Result<Piece, NoMemory>
    requires { start ≤ end }
    ensures { IfOk result (λ piece. (piece.start ≡ start) × (piece.end ≡ end)) }
{
    let Ok(end) = u32::try_from(end) else {
        return Err(NoMemory);
    };
    Ok(Piece {
        start: start as u32,
        end,
    })
}

/// Appends bytes to a region, and gives their piece. The region stays as it is where memory runs
/// out.
pub fn place(region: &mut Region, bytes: &[u8]) -> Result<Piece, NoMemory>
    ensures ok { OnOk result (region.new.bytes ≡ region.old.bytes ++ bytes.now) }
    ensures shown { IfOk result (λ piece. bytes_of region.new.bytes piece ≡ bytes.now) }
    ensures within { IfOk result (λ piece. piece.end ≤ length region.new.bytes) }
    ensures begins { Begins region.old.bytes region.new.bytes }
    ensures err { OnErr result (region.new.bytes ≡ region.old.bytes) }
{
    region.reserve(bytes.len())?;
    Ok(region.place(bytes))
}
