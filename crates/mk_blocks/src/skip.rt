//! Lines that are passed over.
ghost use Rattle.std.specs.Prelude.{◌≡◌, ◌+◌, ◌^◌, ◌<◌, ◌≤◌, drop, length, slice_get, IfOk, OnOk};
ghost use Rattle.std.specs.Option.{option_map};
ghost use Rattle.mk_blocks.specs.Blocks as tree;
ghost use Rattle.mk_blocks.specs.Skips as spec;
ghost use Rattle.mk_blocks.specs.Branches.{seen, taken};

use crate::branch::Branch;
use crate::kind::LineKind;
use crate::language::Language;
use mk_bytes::NoMemory;
use mk_lines::LineCursor;
use std::alloc::Global;

fn is_else(kind: LineKind) -> bool
    ensures { result ≡ tree.is_else kind }
{
    matches!(kind, LineKind::Else)
}

fn is_opener(kind: LineKind) -> bool
    ensures { result ≡ spec.is_opener kind }
{
    matches!(kind, LineKind::If | LineKind::For)
}

fn is_closer(kind: LineKind) -> bool
    ensures { result ≡ tree.is_closer kind }
{
    matches!(kind, LineKind::EndIf | LineKind::EndFor)
}

fn is_ending(kind: LineKind) -> bool
    ensures { result ≡ spec.is_ending kind }
{
    matches!(
        kind,
        LineKind::ElseIf | LineKind::Else | LineKind::EndIf | LineKind::EndFor
    )
}

fn closes_here(depth: u32, kind: LineKind) -> bool
    ensures { result ≡ spec.closes_here depth kind }
{
    depth == 0 && is_closer(kind)
}

fn ends_here(depth: u32, kind: LineKind) -> bool
    ensures { result ≡ spec.ends_here depth kind }
{
    depth == 0 && is_ending(kind)
}

fn depth_behind(kind: LineKind, depth: u32) -> u32
    requires { depth + 1 < 2 ^ 32 }
    ensures value { result ≡ spec.depth_behind kind depth }
    ensures most { result ≤ depth + 1 }
{
    if is_opener(kind) {
        return depth + 1;
    }
    if is_closer(kind) {
        return depth.saturating_sub(1);
    }
    depth
}

// Takes the next line, and gives its kind.
fn next_kind<L: Language>(
    alloc: Global,
    language: &L,
    cursor: &mut LineCursor<'_>,
) -> Result<Option<LineKind>, NoMemory>
    ensures first { IfOk result (λ kind.
        kind ≡ option_map (λ l. L.ties.kind l.text) (slice_get cursor.old 0)) }
    ensures rest { OnOk result (cursor.new ≡ drop 1 cursor.old) }
{
    let Some(line) = cursor.next_line(alloc)? else {
        return Ok(None);
    };
    Ok(Some(language.kind(line.bytes())))
}

/// Passes over the lines of the present block, inside which so many blocks are open, and over the
/// line that closes it. `NoMemory` where memory ran out.
pub fn skip_block<L: Language>(
    alloc: Global,
    language: &L,
    cursor: &mut LineCursor<'_>,
    depth: u32,
) -> Result<(), NoMemory>
    requires { depth + length cursor.old < 2 ^ 32 }
    ensures behind { OnOk result (tree.parse L.ties.kind cursor.new
        ≡ tree.closed (spec.outside_of depth (tree.parse L.ties.kind cursor.old).endings)) }
    ensures shorter { OnOk result (length cursor.new ≤ length cursor.old) }
{
    let mut depth = depth;
    'lines: loop {
        let Some(kind) = next_kind(alloc, language, cursor)? else {
            return Ok(());
        };
        if closes_here(depth, kind) {
            return Ok(());
        }
        depth = depth_behind(kind, depth);
    }
}

/// Passes over the lines of the present branch and over the line that ends it, and gives that line
/// where it begins another branch. `NoMemory` where memory ran out.
pub fn next_branch<'t, L: Language>(
    alloc: Global,
    language: &L,
    cursor: &mut LineCursor<'t>,
) -> Result<Option<Branch<'t>>, NoMemory>
    requires { length cursor.old < 2 ^ 32 }
    ensures behind { IfOk result (λ branch.
        spec.next_branch (tree.parse L.ties.kind cursor.old).endings
        ≡ (option_map seen branch, tree.parse L.ties.kind cursor.new)) }
    ensures shorter { IfOk result (λ branch.
        length cursor.new + taken branch ≤ length cursor.old) }
{
    let mut depth = 0;
    'lines: loop {
        let Some(line) = cursor.next_line(alloc)? else {
            return Ok(None);
        };
        let kind = language.kind(line.bytes());
        if ends_here(depth, kind) {
            if is_closer(kind) {
                return Ok(None);
            }
            return Ok(Some(Branch {
                is_else: is_else(kind),
                line,
            }));
        }
        drop(line);
        depth = depth_behind(kind, depth);
    }
}
