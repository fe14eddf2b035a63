//! Why a line or a file is not read.
use crate::kind::BlockFault;
use mk_bytes::{NoMemory, Text};

/// Why a language does not process a line: a fault W of the line, or a failure F of the outside.
#[derive(Drop)]
pub enum LanguageFault<W, F> {
    /// This is wrong with the line.
    Wrong(W),
    /// The outside failed.
    Failed(F),
    /// Memory ran out.
    NoMemory,
}

impl<W, F> From<NoMemory> for LanguageFault<W, F> {
    ghost use Rattle.std.specs.Prelude.{◌≡◌};
    ghost use Rattle.mk_blocks.specs.declared.fault.LanguageFault.TheVariants as faults;

    ghost from_gives = { λ _ fault. fault ≡ faults.NoMemory };

    fn from(_: NoMemory) -> LanguageFault<W, F> {
        LanguageFault::NoMemory
    }
}

/// What is wrong with a line of a file.
#[derive(Drop)]
pub enum Wrong<W> {
    /// The logical line is longer than 1,048,576 bytes.
    TooLong,
    /// The physical line of this number holds a zero byte.
    Zero,
    /// The line stands out of its place among the blocks of its file.
    Block(BlockFault),
    /// The language finds this fault in it.
    Line(W),
}

/// Why a file is not read to its end.
#[derive(Drop)]
pub enum FileFault<W, F> {
    /// What is wrong with a line, behind the name of its file and its number. A logical line has
    /// the number of its first physical line, counted from 1.
    Bad(Text, u32, Wrong<W>),
    /// More than 4,194,304 lines and turns would be processed.
    TooManyLines,
    /// More than 64 included files would be open.
    TooManyFiles,
    /// The outside failed.
    Failed(F),
    /// Memory ran out.
    NoMemory,
}

/// One line or turn too many.
#[derive(Clone, Copy)]
pub struct OverLimit;

impl<W, F> From<OverLimit> for FileFault<W, F> {
    ghost use Rattle.std.specs.Prelude.{◌≡◌};
    ghost use Rattle.mk_blocks.specs.declared.fault.FileFault.TheVariants as faults;

    ghost from_gives = { λ _ fault. fault ≡ faults.TooManyLines };

    fn from(_: OverLimit) -> FileFault<W, F> {
        FileFault::TooManyLines
    }
}

impl<W, F> From<NoMemory> for FileFault<W, F> {
    ghost use Rattle.std.specs.Prelude.{◌≡◌};
    ghost use Rattle.mk_blocks.specs.declared.fault.FileFault.TheVariants as faults;

    ghost from_gives = { λ _ fault. fault ≡ faults.NoMemory };

    fn from(_: NoMemory) -> FileFault<W, F> {
        FileFault::NoMemory
    }
}
