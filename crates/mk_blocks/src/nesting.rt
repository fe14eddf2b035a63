//! The blocks of a file that are open, and the first line that stands out of its place.
ghost use Rattle.std.specs.Prelude.{◌≡◌, ℕ, ◌^◌, ◌<◌, [], ◌∷◌, length, slice_get, IfOk, Ok};
ghost use Rattle.mk_lines.specs.Lines.{lines_from};
ghost use Rattle.mk_blocks.specs.OpenBlocks as spec;
ghost use Rattle.mk_blocks.specs.Spelled.{IsOneBlock};
ghost use Rattle.mk_blocks.specs.declared.kind.LineKind.TheVariants as kinds;

use crate::kind::{BlockFault, LineKind};
use crate::language::Language;
use crate::open_block::{BlockPart, OpenBlock};
use mk_bytes::NoMemory;
use mk_lines::LineCursor;
use mk_turns::Stack;
use std::alloc::Global;

fn may_branch(part: BlockPart) -> bool
    ensures { result ≡ spec.may_branch part }
{
    matches!(part, BlockPart::Branch)
}

fn is_body(part: BlockPart) -> bool
    ensures { result ≡ spec.is_body part }
{
    matches!(part, BlockPart::Body)
}

fn in_loop(blocks: &Stack<OpenBlock>) -> bool
    ensures { result ≡ spec.in_loop blocks.now }
{
    match blocks.top() {
        None => false,
        Some(innermost) => innermost.in_loop,
    }
}

// A line that needs an if-block whose `.else` has not come.
fn branch(blocks: &Stack<OpenBlock>) -> Option<BlockFault>
    ensures { (number : ℕ) → spec.blocks_behind kinds.ElseIf number blocks.now
        ≡ spec.answer_of result blocks.now }
{
    match blocks.top() {
        Some(innermost) if may_branch(innermost.part) => None,
        _ => Some(BlockFault::Else),
    }
}

fn last_branch(blocks: &mut Stack<OpenBlock>) -> Result<Option<BlockFault>, NoMemory>
    ensures { IfOk result (λ fault. (number : ℕ) → spec.blocks_behind kinds.Else number blocks.old
        ≡ spec.answer_of fault blocks.new) }
{
    let Some(innermost) = blocks.pop() else {
        return Ok(Some(BlockFault::Else));
    };
    if !may_branch(innermost.part) {
        return Ok(Some(BlockFault::Else));
    }
    blocks.push(OpenBlock {
        part: BlockPart::Last,
        ..innermost
    })?;
    Ok(None)
}

fn end_if(blocks: &mut Stack<OpenBlock>) -> Option<BlockFault>
    ensures { (number : ℕ) → spec.blocks_behind kinds.EndIf number blocks.old
        ≡ spec.answer_of result blocks.new }
{
    match blocks.pop() {
        Some(innermost) if !is_body(innermost.part) => None,
        _ => Some(BlockFault::EndIf),
    }
}

fn end_for(blocks: &mut Stack<OpenBlock>) -> Option<BlockFault>
    ensures { (number : ℕ) → spec.blocks_behind kinds.EndFor number blocks.old
        ≡ spec.answer_of result blocks.new }
{
    match blocks.pop() {
        Some(innermost) if is_body(innermost.part) => None,
        _ => Some(BlockFault::EndFor),
    }
}

fn end_loop(blocks: &Stack<OpenBlock>) -> Option<BlockFault>
    ensures { (number : ℕ) → spec.blocks_behind kinds.Break number blocks.now
        ≡ spec.answer_of result blocks.now }
{
    if in_loop(blocks) {
        return None;
    }
    Some(BlockFault::Break)
}

// Takes a line of this kind and number: what is wrong with it, or else the blocks are those that
// are open behind it.
fn take_line(
    blocks: &mut Stack<OpenBlock>,
    kind: LineKind,
    number: u32,
) -> Result<Option<BlockFault>, NoMemory>
    ensures { IfOk result (λ fault.
        spec.blocks_behind kind number blocks.old ≡ spec.answer_of fault blocks.new) }
{
    match kind {
        LineKind::If => {
            let in_loop = in_loop(blocks);
            blocks.push(OpenBlock {
                first: number,
                part: BlockPart::Branch,
                in_loop,
            })?;
            Ok(None)
        }
        LineKind::For => {
            blocks.push(OpenBlock {
                first: number,
                part: BlockPart::Body,
                in_loop: true,
            })?;
            Ok(None)
        }
        LineKind::ElseIf => Ok(branch(blocks)),
        LineKind::Else => last_branch(blocks),
        LineKind::EndIf => Ok(end_if(blocks)),
        LineKind::EndFor => Ok(end_for(blocks)),
        LineKind::Break => Ok(end_loop(blocks)),
        LineKind::Plain => Ok(None),
        LineKind::Uncounted => Ok(None),
        LineKind::Include => Ok(None),
    }
}

fn unclosed(blocks: &Stack<OpenBlock>) -> Option<(u32, BlockFault)>
    ensures { spec.all_closed blocks.now ≡ spec.whole_answer result }
{
    match blocks.top() {
        None => None,
        Some(innermost) => Some((innermost.first, BlockFault::OpenBlock)),
    }
}

/// The first line of a file that stands out of its place among the blocks, by its number, or else
/// the line that began the innermost block that is still open at the end. `NoMemory` where memory
/// ran out.
pub fn block_fault<L: Language>(
    alloc: Global,
    language: &L,
    text: &[u8],
) -> Result<Option<(u32, BlockFault)>, NoMemory>
    requires { length text.now < 2 ^ 32 }
    ensures { IfOk result (λ fault.
        spec.blocks_checked L.ties.kind [] (lines_from 1 text.now) ≡ spec.whole_answer fault) }
{
    let mut blocks = Stack::new(alloc);
    let mut cursor = LineCursor::new(text);
    'lines: loop {
        let Some(line) = cursor.next_line(alloc)? else {
            return Ok(unclosed(&blocks));
        };
        let kind = language.kind(line.bytes());
        let number = line.first();
        drop(line);
        if let Some(fault) = take_line(&mut blocks, kind, number)? {
            return Ok(Some((number, fault)));
        }
    }
}

/// A law of blocks: a file without block faults is one tree of lines, if-blocks, loops and included
/// files that spells its lines, each in its place, and nothing of it is left. Each if-block is
/// closed by its `.endif`, and `.else` is the last of its branches; each loop is closed by its
/// `.endfor`, and `.break` stands in a loop.
pub fn checked_file_is_one_block<L: Language>(_language: &L, text: &[u8])
    requires { spec.blocks_checked L.ties.kind [] (lines_from 1 text.now) ≡ Ok tt }
    ensures { IsOneBlock L.ties.kind (lines_from 1 text.now) }
{}
