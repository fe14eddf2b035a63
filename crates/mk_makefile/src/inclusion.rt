//! Where files that are included are sought (make(1), "INCLUDE STATEMENTS, CONDITIONALS AND FOR
//! LOOPS").
ghost use Rattle.std.specs.Prelude.{◌≡◌, ◌≤◌, ◌∷◌, ◌++◌, [], length, reverse, take_while, IfOk};
ghost use Rattle.std.specs.Prelude.{OnOk};
ghost use Rattle.mk_bytes.specs.Paths as paths;
ghost use Rattle.mk_makefile.specs.Dependencies.{cleaned};
ghost use Rattle.mk_makefile.specs.Inclusions as spec;

use crate::fault::{Refusal, What};
use mk_blocks::IncludedFile;
use mk_bytes::{Items, NoMemory, Text, Texts, clean_path, is_absolute};
use mk_cli::Order;
use mk_directive::{Directive, Wanted, directive_on};
use std::alloc::Global;

fn name_len(path: &[u8]) -> usize
    ensures len { result ≡ length (take_while spec.is_no_slash (reverse path.now)) }
    ensures within { result ≤ length path.now }
{
    path.iter().rev().take_while(|byte| **byte != b'/').count()
}

// The directory of a path, with its final slash.
fn directory_of<'t>(path: &'t [u8]) -> &'t [u8]
    ensures { result.now ≡ spec.directory_of path.now }
{
    &path[..path.len() - name_len(path)]
}

// Adds the place of a name beside a file.
fn push_beside(
    alloc: Global,
    cwd: &[u8],
    file: &[u8],
    name: &[u8],
    places: &mut Texts,
) -> Result<(), NoMemory>
    ensures { OnOk result (places.new ≡ places.old
        ++ cleaned cwd.now ((spec.directory_of (paths.clean cwd.now file.now) ++ name.now) ∷ [])) }
{
    let path = clean_path(alloc, cwd, file)?;
    let mut beside = Text::from_bytes(alloc, directory_of(path.bytes()))?;
    beside.push(name)?;
    places.push(clean_path(alloc, cwd, beside.bytes())?)
}

// Adds the place of a name in a directory.
fn push_place(
    alloc: Global,
    cwd: &[u8],
    directory: &[u8],
    name: &[u8],
    places: &mut Texts,
) -> Result<(), NoMemory>
    ensures { OnOk result (places.new ≡ places.old
        ++ cleaned cwd.now (spec.in_all (directory.now ∷ []) name.now)) }
{
    let mut place = Text::from_bytes(alloc, directory)?;
    place.push(b"/")?;
    place.push(name)?;
    places.push(clean_path(alloc, cwd, place.bytes())?)
}

// Adds the places of a name in these directories.
fn push_places(
    alloc: Global,
    cwd: &[u8],
    directories: &Texts,
    name: &[u8],
    places: &mut Texts,
) -> Result<(), NoMemory>
    ensures { OnOk result (places.new ≡ places.old
        ++ cleaned cwd.now (spec.in_all directories.now name.now)) }
{
    for directory in directories.as_slice() {
        push_place(alloc, cwd, directory.bytes(), name, places)?;
    }
    Ok(())
}

// Adds the paths at which a file is sought that another one includes, in order.
fn push_candidates(
    alloc: Global,
    order: &Order,
    cwd: &[u8],
    file: &[u8],
    wanted: &Wanted<'_>,
    places: &mut Texts,
) -> Result<(), NoMemory>
    ensures { OnOk result (places.new ≡ places.old
        ++ spec.candidates order.now cwd.now file.now (wanted.now.system, wanted.now.name.now)) }
{
    if is_absolute(wanted.name) {
        return places.push(clean_path(alloc, cwd, wanted.name)?);
    }
    if !wanted.system {
        push_beside(alloc, cwd, file, wanted.name, places)?;
        push_places(alloc, cwd, &order.near, wanted.name, places)?;
    }
    push_places(alloc, cwd, &order.system, wanted.name, places)
}

/// The paths at which a file is sought that another one includes, in order.
pub fn candidates(
    alloc: Global,
    order: &Order,
    cwd: &[u8],
    file: &[u8],
    wanted: &Wanted<'_>,
) -> Result<Texts, NoMemory>
    ensures { IfOk result (λ places. places ≡ spec.candidates order.now cwd.now file.now
        (wanted.now.system, wanted.now.name.now)) }
{
    let mut places = Items::new(alloc, 0)?;
    push_candidates(alloc, order, cwd, file, wanted, &mut places)?;
    Ok(places)
}

/// Whether the directive of a line passes over a missing file.
pub fn may_miss(line: &[u8]) -> bool
    ensures { result ≡ spec.may_miss line.now }
{
    match directive_on(line) {
        Some(found) => matches!(found.directive, Directive::TryInclude),
        None => false,
    }
}

/// A file that has to be there, or that may be missing.
pub fn required(
    alloc: Global,
    optional: bool,
    name: &[u8],
    found: Option<IncludedFile>,
) -> Result<Option<IncludedFile>, Refusal>
    ensures { spec.IsRequired optional name.now found result }
{
    if found.is_some() || optional {
        return Ok(found);
    }
    Err(Refusal::Wrong(What::Include(Text::from_bytes(alloc, name)?)))
}
