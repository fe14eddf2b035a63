//! What the acts of a process do to paths.
ghost use Rattle.std.specs.Prelude.{◌≡◌, ◌++◌, IfOk, OnOk, true, false};
ghost use Rattle.mk_strace.specs.declared.how.How.TheVariants as how;
ghost use Rattle.mk_recorder.specs.declared.known.Touch.TheVariants as touch;
ghost use Rattle.mk_recorder.specs.Touches as spec;

use crate::known::Touch;
use crate::place::{Place, is_elsewhere, is_path, place_of};
use crate::table::{Table, Touched, Touches};
use mk_bytes::{NoMemory, Text, skip};
use mk_strace::{Act, How, Name, Sort};
use std::alloc::Global;

// Adds what is done to the path that a name leads to. Whether that is known.
fn push(
    alloc: Global,
    out: &mut Touches,
    directory: &[u8],
    name: &Name,
    touch: Touch,
) -> Result<bool, NoMemory>
    ensures { IfOk result (λ clear. spec.touch_list clear out.new
        ≡ spec.with_touch out.old directory.now name.now touch) }
{
    match place_of(alloc, directory, name)? {
        Place::At(path) => out.push(Touched { path, touch }).and(Ok(true)),
        Place::Nowhere => Ok(true),
        Place::Unclear => Ok(false),
    }
}

// Adds two things that are done, each to the path that a name leads to.
fn push_two(
    alloc: Global,
    out: &mut Touches,
    directory: &[u8],
    one: &Name,
    first: Touch,
    other: &Name,
    second: Touch,
) -> Result<bool, NoMemory>
    ensures { IfOk result (λ clear. spec.touch_list clear out.new
        ≡ spec.with_two out.old directory.now one.now first other.now second) }
{
    if !push(alloc, out, directory, one, first)? {
        return Ok(false);
    }
    push(alloc, out, directory, other, second)
}

// What opening a file does to its path.
fn touch_by(how: How) -> Option<Touch>
    ensures { result ≡ spec.touch_by how }
{
    match how {
        How::Passes => None,
        How::Folder => Some(Touch::Folder),
        How::Makes => Some(Touch::Make),
        How::Updates => Some(Touch::Update),
        How::Overwrites => Some(Touch::Overwrite),
        How::ReadsOrMakes => Some(Touch::ReadOrMake),
        How::Reads => Some(Touch::Read),
    }
}

// A file is opened: what is done to it is done to the path by which it is named and to that of what
// is open, which are two where a symbolic link is followed.
fn push_open(
    alloc: Global,
    out: &mut Touches,
    directory: &[u8],
    name: &Name,
    real: &Name,
    how: How,
) -> Result<bool, NoMemory>
    ensures { IfOk result (λ clear. spec.touch_list clear out.new
        ≡ spec.with_open out.old directory.now name.now real.now how) }
{
    let Some(touch) = touch_by(how) else {
        return Ok(true);
    };
    if is_elsewhere(real) {
        return Ok(true);
    }
    push_two(alloc, out, directory, name, touch, real, touch)
}

fn push_miss(
    alloc: Global,
    out: &mut Touches,
    directory: &[u8],
    name: &Name,
) -> Result<bool, NoMemory>
    ensures { IfOk result (λ clear. spec.touch_list clear out.new
        ≡ spec.with_miss out.old directory.now name.now) }
{
    if !is_path(name) {
        return Ok(true);
    }
    push(alloc, out, directory, name, Touch::Miss)
}

fn push_look(
    alloc: Global,
    out: &mut Touches,
    directory: &[u8],
    name: &Name,
    sort: Sort,
) -> Result<bool, NoMemory>
    ensures { IfOk result (λ clear. spec.touch_list clear out.new
        ≡ spec.with_look out.old directory.now name.now sort) }
{
    match sort {
        Sort::File => push(alloc, out, directory, name, Touch::Look),
        Sort::Folder => push(alloc, out, directory, name, Touch::Folder),
        Sort::Other => Ok(true),
    }
}

fn push_removal(
    alloc: Global,
    out: &mut Touches,
    directory: &[u8],
    name: &Name,
    is_folder: bool,
) -> Result<bool, NoMemory>
    ensures { IfOk result (λ clear. spec.touch_list clear out.new
        ≡ spec.with_removal out.old directory.now name.now is_folder) }
{
    if is_folder {
        return push_two(
            alloc,
            out,
            directory,
            name,
            Touch::Folder,
            name,
            Touch::Remove,
        );
    }
    push(alloc, out, directory, name, Touch::Remove)
}

// Adds what is done to a path.
fn push_path(alloc: Global, out: &mut Touches, path: &[u8], touch: Touch) -> Result<(), NoMemory>
    ensures { OnOk result (out.new ≡ out.old ++ spec.touched path.now touch) }
{
    let path = Text::from_bytes(alloc, path)?;
    out.push(Touched { path, touch })
}

// A file is moved: it is read and taken away, and the other path is made.
fn push_file_move(alloc: Global, out: &mut Touches, from: &[u8], to: &[u8]) -> Result<(), NoMemory>
    ensures { OnOk result (out.new ≡ out.old ++ spec.file_move from.now to.now) }
{
    push_path(alloc, out, from, Touch::Read)?;
    push_path(alloc, out, from, Touch::Remove)?;
    push_path(alloc, out, to, Touch::Make)
}

// Where a path below a directory lies when the directory is moved.
fn moved(alloc: Global, from: &[u8], to: &[u8], path: &[u8]) -> Result<Text, NoMemory>
    ensures { IfOk result (λ text. text ≡ spec.moved from.now to.now path.now) }
{
    let mut text = Text::from_bytes(alloc, to)?;
    text.push(skip(path, from.len()))?;
    Ok(text)
}

fn push_moved(
    alloc: Global,
    out: &mut Touches,
    from: &[u8],
    to: &[u8],
    path: &[u8],
) -> Result<(), NoMemory>
    ensures { OnOk result (out.new ≡ out.old ++ spec.moved_below from.now to.now path.now) }
{
    let place = moved(alloc, from, to, path)?;
    push_file_move(alloc, out, path, place.bytes())
}

fn push_all_moved(
    alloc: Global,
    out: &mut Touches,
    from: &[u8],
    to: &[u8],
    paths: &[Text],
) -> Result<(), NoMemory>
    ensures { OnOk result (out.new ≡ out.old ++ spec.all_moved from.now to.now paths.now) }
{
    for path in paths {
        push_moved(alloc, out, from, to, path.bytes())?;
    }
    Ok(())
}

// A directory is moved: it counts as listed, each file that is known below it is moved, and the
// other path is a directory.
fn push_folder_move(
    alloc: Global,
    out: &mut Touches,
    table: &Table,
    from: &[u8],
    to: &[u8],
) -> Result<(), NoMemory>
    ensures { OnOk result (out.new ≡ out.old ++ spec.folder_move table.now from.now to.now) }
{
    let below = table.paths_below(alloc, from)?;
    let pushed = push_all_moved(alloc, out, from, to, below.as_slice());
    drop(below);
    pushed?;
    push_path(alloc, out, from, Touch::List)?;
    push_path(alloc, out, from, Touch::Remove)?;
    push_path(alloc, out, to, Touch::Folder)?;
    push_path(alloc, out, to, Touch::Make)
}

fn push_path_move(
    alloc: Global,
    out: &mut Touches,
    table: &Table,
    from: &[u8],
    to: &[u8],
) -> Result<(), NoMemory>
    ensures { OnOk result (out.new ≡ out.old ++ spec.path_move table.now from.now to.now) }
{
    if table.of(from).folder {
        return push_folder_move(alloc, out, table, from, to);
    }
    push_file_move(alloc, out, from, to)
}

fn push_move(
    alloc: Global,
    out: &mut Touches,
    table: &Table,
    directory: &[u8],
    from: &Name,
    to: &Name,
) -> Result<bool, NoMemory>
    ensures { IfOk result (λ clear. spec.touch_list clear out.new
        ≡ spec.with_move out.old table.now directory.now from.now to.now) }
{
    let Place::At(from) = place_of(alloc, directory, from)? else {
        return Ok(false);
    };
    match place_of(alloc, directory, to) {
        Ok(Place::At(to)) => {
            let pushed = push_path_move(alloc, out, table, from.bytes(), to.bytes());
            drop((from, to));
            pushed.and(Ok(true))
        }
        Ok(_) => Ok(false),
        Err(fault) => Err(fault),
    }
}

// A path that is never there.
fn hidden_path(alloc: Global, call: &[u8]) -> Result<Text, NoMemory>
    ensures { IfOk result (λ path. path ≡ spec.hidden_path call.now) }
{
    let mut path = Text::from_bytes(alloc, b"/what cannot be seen (")?;
    path.push(call)?;
    path.push(b")")?;
    Ok(path)
}

// What is done behind this is not seen, which is told as a read of a path that is never there.
fn push_hidden(alloc: Global, out: &mut Touches, call: &[u8]) -> Result<(), NoMemory>
    ensures { OnOk result (out.new ≡ out.old ++ spec.hidden call.now) }
{
    let path = hidden_path(alloc, call)?;
    out.push(Touched {
        path,
        touch: Touch::Read,
    })
}

// Adds what an act does to paths, where it is no move.
fn push_act(alloc: Global, out: &mut Touches, directory: &[u8], act: &Act) -> Result<bool, NoMemory>
    ensures { IfOk result (λ clear. spec.touch_list clear out.new
        ≡ spec.with_act out.old directory.now act.now) }
{
    match act {
        Act::Opens { name, open, how } => push_open(alloc, out, directory, name, open, *how),
        Act::Misses(name) => push_miss(alloc, out, directory, name),
        Act::Runs(name) => push(alloc, out, directory, name, Touch::Run),
        Act::Looks { name, sort } => push_look(alloc, out, directory, name, *sort),
        Act::Makes(name) => push(alloc, out, directory, name, Touch::Make),
        Act::Updates(name) => push(alloc, out, directory, name, Touch::Update),
        Act::MakesFolder(name) => push(alloc, out, directory, name, Touch::NewFolder),
        Act::Removes { name, is_folder } => {
            push_removal(alloc, out, directory, name, *is_folder)
        }
        Act::Links { from, to } => push_two(
            alloc,
            out,
            directory,
            from,
            Touch::Read,
            to,
            Touch::Make,
        ),
        _ => push_rest(alloc, out, directory, act),
    }
}

// Adds what the other acts do.
fn push_rest(
    alloc: Global,
    out: &mut Touches,
    directory: &[u8],
    act: &Act,
) -> Result<bool, NoMemory>
    ensures { IfOk result (λ clear. spec.touch_list clear out.new
        ≡ spec.with_rest out.old directory.now act.now) }
{
    match act {
        Act::Enters(name) => push(alloc, out, directory, name, Touch::Folder),
        Act::Lists(name) => push(alloc, out, directory, name, Touch::List),
        Act::Empties(name) => push(alloc, out, directory, name, Touch::Empty),
        Act::Hides(call) => push_hidden(alloc, out, call.bytes()).and(Ok(true)),
        _ => Ok(true),
    }
}

/// Adds what an act does to paths, in order, by what is known of them. Whether it is known where
/// its names lead.
pub fn push_touches(
    alloc: Global,
    out: &mut Touches,
    table: &Table,
    directory: &[u8],
    act: &Act,
) -> Result<bool, NoMemory>
    ensures { IfOk result (λ clear. spec.touch_list clear out.new
        ≡ spec.with_touches out.old table.now directory.now act.now) }
{
    match act {
        Act::Moves {
            from,
            to,
            is_swap: false,
        } => push_move(alloc, out, table, directory, from, to),
        Act::Moves { from, to, .. } => push_two(
            alloc,
            out,
            directory,
            from,
            Touch::Update,
            to,
            Touch::Update,
        ),
        _ => push_act(alloc, out, directory, act),
    }
}
