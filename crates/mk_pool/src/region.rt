ghost use Rattle.std.specs.Prelude.{◌≡◌, ◌+◌, ◌-◌, ◌^◌, ◌<◌, ◌≤◌, ◌++◌, length, take, slice_range};
ghost use Rattle.std.specs.Prelude.{codes, IsOk, IfOk, OnOk, OnErr};

use mk_bytes::NoMemory;
use std::alloc::Global;
use std::marker::Model;

const MAX_LEN: usize = 0xffff_ffff;

// The bytes that every region begins with.
const START: &[u8] = b"./";

/// Where a text lies in a region, which stays below 2^32 bytes: from the byte at `start` to before
/// the byte at `end`.
#[derive(Clone, Copy, PartialEq, Eq)]
pub struct Piece {
    pub start: u32,
    pub end: u32,
}

/// One region of bytes, in which all texts of one expansion lie. It begins with the bytes `./`, so
/// that these two texts always have a piece, and stays below 2^32 bytes. It has no memory before
/// the first room is made. Contracts see its `bytes`, and in `spare` how many more it takes without
/// asking for memory.
#[derive(Drop)]
pub struct Region {
    // None at all while the region is fresh: `./` are written when the first room is made.
    bytes: Vec<u8>,
    // How many more bytes it takes before it has to ask for memory.
    spare: usize,
}

impl Model for Region {
    ghost use Rattle.std.specs.Prelude.{vec_capacity};
    ghost use Rattle.mk_pool.specs.Region.{Contents, IsRegion, bytes_of};

    ghost Value = { Contents };

    ghost view = { λ region. record {
      bytes = bytes_of region.bytes.items;
      spare = region.spare;
    } };

    ghost invariant = { λ region.
        IsRegion region.bytes.items region.spare (vec_capacity region.bytes) };
}

impl Region {
    /// A region of the two bytes `./`. Takes no memory, and so always succeeds.
    pub fn new(alloc: Global) -> Result<Region, NoMemory>
        ensures bytes { IfOk result (λ region. region.bytes ≡ codes "./") }
        ensures succeeds { IsOk result }
    {
        Ok(Region {
            bytes: Vec::new(alloc),
            spare: 0,
        })
    }

    // The bytes, of which a fresh region has none in memory.
    fn as_slice(&self) -> &[u8]
        ensures value { result.now ≡ self.now.bytes }
        ensures begins { take 2 self.now.bytes ≡ codes "./" }
        ensures short { length self.now.bytes + self.now.spare < 2 ^ 32 }
    {
        if self.bytes.is_empty() {
            START
        } else {
            self.bytes.as_slice()
        }
    }

    /// How many bytes it has. Takes no memory.
    pub fn len(&self) -> usize
        ensures value { result ≡ length self.now.bytes }
        ensures begins { take 2 self.now.bytes ≡ codes "./" }
        ensures short { length self.now.bytes + self.now.spare < 2 ^ 32 }
    {
        self.as_slice().len()
    }

    /// The bytes of a piece. Takes no memory.
    pub fn bytes(&self, piece: Piece) -> &[u8]
        requires ordered { piece.start ≤ piece.end }
        requires within { piece.end ≤ length self.now.bytes }
        ensures { result.now ≡ slice_range self.now.bytes piece.start piece.end }
    {
        &self.as_slice()[piece.start as usize..piece.end as usize]
    }

    /// Makes room for `n` more bytes. It is refused where memory runs out or the region could reach
    /// 2^32 bytes. The bytes stay as they are, and a refusal changes nothing.
    pub fn reserve(&mut self, n: usize) -> Result<(), NoMemory>
        ensures ok { OnOk result (n ≤ self.new.spare) }
        ensures bytes { self.new.bytes ≡ self.old.bytes }
        ensures spare { self.old.spare ≤ self.new.spare }
        ensures err { OnErr result (self.new ≡ self.old) }

        // Where the room is there, no memory is needed.
        ensures succeeds { n ≤ self.old.spare → IsOk result }
    {
        if n <= self.spare {
            return Ok(());
        }
        let len = self.len();
        if n > MAX_LEN - len {
            return Err(NoMemory);
        }
        if self.bytes.is_empty() {
            self.bytes.reserve(START.len() + n)?;
            self.bytes.extend_from_slice(START).unwrap();
        } else {
            self.bytes.reserve(n)?;
        }
        self.spare = self.bytes.capacity().min(MAX_LEN) - len;
        Ok(())
    }

    /// Appends bytes for which there is room, and gives their piece. Takes no memory.
    pub fn place(&mut self, bytes: &[u8]) -> Piece
        requires { length bytes.now ≤ self.old.spare }
        ensures start { result.start ≡ length self.old.bytes }
        ensures end { result.end ≡ length self.old.bytes + length bytes.now }
        ensures bytes { self.new.bytes ≡ self.old.bytes ++ bytes.now }
        ensures spare { self.new.spare + length bytes.now ≡ self.old.spare }
    {
        let start = self.len();
        self.bytes.extend_from_slice(bytes).unwrap();
        self.spare -= bytes.len();
        Piece {
            start: start as u32,
            end: (start + bytes.len()) as u32,
        }
    }

    /// Goes back to the first `len` bytes. What is cut off is room again. Takes no memory.
    pub fn back(&mut self, len: usize)
        requires least { 2 ≤ len }
        requires within { len ≤ length self.old.bytes }
        ensures bytes { self.new.bytes ≡ take len self.old.bytes }
        ensures spare { self.new.spare ≡ self.old.spare + (length self.old.bytes - len) }
    {
        self.spare += self.len() - len;
        self.bytes.truncate(len);
    }
}
