//! What jobs read and missed.
ghost use Rattle.std.specs.Prelude.{◌≡◌, ◌++◌, IfOk, OnOk, codes, map, filter, flat_map};
ghost use Rattle.std.specs.List.{list_any};
ghost use Rattle.mk_listing.specs.Lists.{all_put_in, all_noted};
ghost use Rattle.mk_listing.specs.Looks as spec;

use crate::list::{Distinct, Ordered};
use mk_bytes::{NoMemory, Text, Texts};
use mk_filemon::Rec;
use mk_meta::Meta;
use mk_world::Op;
use std::alloc::Global;

/// The records of a job; none where its children gave none.
pub fn recorded(meta: &Meta) -> &[Rec]
    ensures { result.now ≡ spec.recorded meta.now.records }
{
    match &meta.records {
        Some(records) => records.as_slice(),
        None => &[],
    }
}

fn seeks(path: &[u8], op: &Op) -> bool
    ensures { result ≡ spec.seeks path.now op.now }
{
    match op {
        Op::Read(own) | Op::Miss(own) | Op::Move(own, _) => path == own.bytes(),
        Op::Write(_) | Op::Delete(_) => false,
    }
}

fn any_seeks(path: &[u8], records: &[Rec]) -> bool
    ensures { result ≡ list_any (λ one. spec.seeks path.now one.op) records.now }
{
    records.iter().any(|one| seeks(path, &one.op))
}

fn has_sought(path: &[u8], meta: &Meta) -> bool
    ensures { result ≡ spec.has_sought path.now meta.now }
{
    any_seeks(path, recorded(meta))
}

fn add_readers(targets: &mut Ordered, metas: &[Meta], path: &[u8]) -> Result<(), NoMemory>
    ensures { OnOk result (targets.new ≡ all_put_in targets.old
        (map (λ meta. meta.target) (filter (spec.has_sought path.now) metas.now))) }
{
    for meta in metas {
        if has_sought(path, meta) {
            targets.add(meta.target.bytes())?;
        }
    }
    Ok(())
}

/// The targets whose jobs read a path, or looked for it and missed it, in the order of their bytes,
/// each once. A file that is moved away is read.
pub fn readers(alloc: Global, metas: &[Meta], path: &[u8]) -> Result<Texts, NoMemory>
    ensures { IfOk result (λ targets. targets ≡ spec.readers metas.now path.now) }
{
    let mut targets = Ordered::new(alloc);
    add_readers(&mut targets, metas, path)?;
    targets.texts(alloc)
}

fn missed(alloc: Global, path: &Text) -> Result<Text, NoMemory>
    ensures { IfOk result (λ text. text ≡ codes "- " ++ path.now) }
{
    let mut text = Text::new(alloc);
    text.push_both(b"- ", path.bytes())?;
    Ok(text)
}

fn add_look(alloc: Global, looks: &mut Distinct, op: &Op) -> Result<(), NoMemory>
    ensures { OnOk result (looks.new ≡ all_noted looks.old (spec.looks_in op.now)) }
{
    match op {
        Op::Read(path) | Op::Move(path, _) => looks.add(path.bytes()),
        Op::Miss(path) => looks.add(missed(alloc, path)?.bytes()),
        Op::Write(_) | Op::Delete(_) => Ok(()),
    }
}

#[tactic(auto, using(crate::proofs::ListLemmas::all_noted_append))]
fn add_looks(alloc: Global, looks: &mut Distinct, records: &[Rec]) -> Result<(), NoMemory>
    ensures { OnOk result
        (looks.new ≡ all_noted looks.old (flat_map (λ one. spec.looks_in one.op) records.now)) }
{
    for one in records {
        add_look(alloc, looks, &one.op)?;
    }
    Ok(())
}

fn add_looks_for(
    alloc: Global,
    looks: &mut Distinct,
    target: &[u8],
    meta: &Meta,
) -> Result<(), NoMemory>
    ensures { OnOk result (looks.new ≡ all_noted looks.old (spec.looks_for target.now meta.now)) }
{
    if target == meta.target.bytes() {
        return add_looks(alloc, looks, recorded(meta));
    }
    Ok(())
}

fn add_all_looks(
    alloc: Global,
    looks: &mut Distinct,
    metas: &[Meta],
    target: &[u8],
) -> Result<(), NoMemory>
    ensures { OnOk result (looks.new ≡ all_noted looks.old
        (flat_map (spec.looks_for target.now) metas.now)) }
{
    for meta in metas {
        add_looks_for(alloc, looks, target, meta)?;
    }
    Ok(())
}

/// The paths that the job of a target read, and with `- ` before them those that it looked for and
/// missed, in the order of its records, each once. A file that is moved away is read.
pub fn looks(alloc: Global, metas: &[Meta], target: &[u8]) -> Result<Texts, NoMemory>
    ensures { IfOk result (λ looks. looks ≡ spec.looks metas.now target.now) }
{
    let mut looks = Distinct::new(alloc);
    add_all_looks(alloc, &mut looks, metas, target)?;
    looks.texts(alloc)
}
