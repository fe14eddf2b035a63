//! What is wrong with a file before its lines are processed.
ghost use Rattle.std.specs.Prelude.{◌≡◌, ◌⊎◌, ◌^◌, ◌<◌, length};
ghost use Rattle.mk_blocks.specs.FileFaults as faults;
ghost use Rattle.mk_blocks.specs.Outcomes.{done, silent};
ghost use Rattle.mk_blocks.specs.Ties.{Does, sorted};
ghost use Rattle.mk_blocks.specs.declared.fault.FileFault.TheVariants.{NoMemory as no_memory};
ghost use Rattle.mk_blocks.specs.declared.fault.FileFault.TheVariants.{Bad as bad};
ghost use Rattle.mk_blocks.specs.declared.fault.Wrong.TheVariants.{Block as block};

use crate::fault::{FileFault, Wrong};
use crate::kind::BlockFault;
use crate::language::Language;
use crate::nesting::block_fault;
use mk_bytes::Text;
use mk_lines::{LineFault, check};
use std::alloc::Global;

// The fault of a line, with the name of its file.
fn line_fault<W, F>(alloc: Global, name: &[u8], fault: LineFault) -> FileFault<W, F>
    ensures { (result ≡ no_memory) ⊎ (result ≡ faults.line_fault name.now fault) }
{
    let Ok(name) = Text::from_bytes(alloc, name) else {
        return FileFault::NoMemory;
    };
    match fault {
        LineFault::TooLong(number) => FileFault::Bad(name, number, Wrong::TooLong),
        LineFault::Zero(number) => FileFault::Bad(name, number, Wrong::Zero),
        LineFault::NoMemory => FileFault::NoMemory,
    }
}

// A line that stands out of its place, with the name of its file.
fn misplaced<W, F>(alloc: Global, name: &[u8], number: u32, fault: BlockFault) -> FileFault<W, F>
    ensures { (result ≡ no_memory) ⊎ (result ≡ bad name.now number (block fault)) }
{
    let Ok(name) = Text::from_bytes(alloc, name) else {
        return FileFault::NoMemory;
    };
    FileFault::Bad(name, number, Wrong::Block(fault))
}

/// The first fault of a file's lines, or else that of its blocks. No line is processed.
pub fn check_file<L: Language>(
    alloc: Global,
    language: &L,
    name: &[u8],
    text: &[u8],
) -> Result<(), FileFault<L::What, L::Failure>>
    requires { length text.now < 2 ^ 32 }
    ensures { Does L.ties sorted language.now language.now (λ answers given. done given) result
        (λ answers. silent (faults.file_checked L.ties.kind name.now text.now)) }
{
    if let Err(fault) = check(text) {
        return Err(line_fault(alloc, name, fault));
    }
    if let Some((number, fault)) = block_fault(alloc, language, text)? {
        return Err(misplaced(alloc, name, number, fault));
    }
    Ok(())
}
