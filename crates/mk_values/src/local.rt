//! The local names, which stand for what is made at the moment (make(1), "VARIABLE ASSIGNMENTS").
ghost use Rattle.std.specs.Prelude.{◌≡◌, IfOk, IsOk};
ghost use Rattle.mk_bytes.specs.Agrees.{Agrees};
ghost use Rattle.mk_values.specs.Locals as spec;
ghost use Rattle.mk_values.specs.declared.fault.ExpandFault.TheVariants.{NoMemory as no_memory};

use crate::fault::ExpandFault;
use mk_bytes::{Items, NoMemory, Text, Texts};
use mk_mods::{Mod, Val, apply, text};
use mk_pool::Region;
use std::alloc::Global;

/// What the local names stand for. They stand above all variables where there are `some`, and else
/// they are names like others. A short name with `D` or `F` behind it, as `@D`, is one of them too:
/// it stands for the heads or the tails of the words.
#[derive(Drop)]
pub struct Locals {
    /// `.TARGET` and `@`: the target.
    pub target: Text,
    /// `.ALLSRC` and `>`: all sources.
    pub all: Texts,
    /// `.IMPSRC` and `<`: the implied source.
    pub implied: Text,
    /// `.PREFIX` and `*`: the target's name without its directory and suffix.
    pub prefix: Text,
    /// `.OODATE` and `?`: the sources that are newer than the target.
    pub oodate: Texts,
    /// Whether there are local names at all.
    pub some: bool,
}

impl Locals {
    /// No local names. Takes no memory.
    pub fn none(alloc: Global) -> Result<Locals, NoMemory>
        ensures value { IfOk result (λ locals. locals ≡ spec.no_locals) }
        ensures succeeds { IsOk result }
    {
        Ok(Locals {
            target: Text::new(alloc),
            all: Items::new(alloc, 0)?,
            implied: Text::new(alloc),
            prefix: Text::new(alloc),
            oodate: Items::new(alloc, 0)?,
            some: false,
        })
    }
}

/// The local names.
#[derive(Clone, Copy)]
pub enum Local {
    Target,
    All,
    Implied,
    Prefix,
    Oodate,
}

fn is_either(name: &[u8], long: &[u8], short: &[u8]) -> bool
    ensures { result ≡ spec.is_either name.now long.now short.now }
{
    name == long || name == short
}

fn local_named(name: &[u8]) -> Option<Local>
    ensures { result ≡ spec.local_named name.now }
{
    if is_either(name, b".TARGET", b"@") {
        return Some(Local::Target);
    }
    if is_either(name, b".ALLSRC", b">") {
        return Some(Local::All);
    }
    if is_either(name, b".IMPSRC", b"<") {
        return Some(Local::Implied);
    }
    if is_either(name, b".PREFIX", b"*") {
        return Some(Local::Prefix);
    }
    if is_either(name, b".OODATE", b"?") {
        return Some(Local::Oodate);
    }
    None
}

// The part of each word that a byte behind a short name names: its head, as `:H` gives it, or its
// tail, as `:T` does.
fn part_named(byte: u8) -> Option<Mod>
    ensures { result ≡ spec.part_named byte }
{
    match byte {
        b'D' => Some(Mod::Head),
        b'F' => Some(Mod::Tail),
        _ => None,
    }
}

// A short name with `D` or `F` behind it.
fn part_form(name: &[u8]) -> Option<(Local, Mod)>
    ensures { result ≡ spec.part_form name.now }
{
    let [byte, part] = name else {
        return None;
    };
    Some((local_named(&[*byte])?, part_named(*part)?))
}

fn spaced(alloc: Global, texts: &Texts) -> Result<Text, NoMemory>
    ensures { IfOk result (λ text. text ≡ spec.spaced texts.now) }
{
    let mut out = Text::new(alloc);
    let [first, rest @ ..] = texts.as_slice() else {
        return Ok(out);
    };
    out.push(first.bytes())?;
    for text in rest {
        out.push(b" ")?;
        out.push(text.bytes())?;
    }
    Ok(out)
}

fn local_value(alloc: Global, locals: &Locals, local: Local) -> Result<Text, NoMemory>
    ensures { IfOk result (λ text. text ≡ spec.local_value locals.now local) }
{
    match local {
        Local::Target => locals.target.copy(alloc),
        Local::All => spaced(alloc, &locals.all),
        Local::Implied => locals.implied.copy(alloc),
        Local::Prefix => locals.prefix.copy(alloc),
        Local::Oodate => spaced(alloc, &locals.oodate),
    }
}

// A part of each word of a value.
fn part_value(alloc: Global, part: &Mod, value: &[u8]) -> Result<Text, ExpandFault>
    ensures { Agrees no_memory (λ text. text) result (spec.part_value part.now value.now) }
{
    let mut region = Region::new(alloc)?;
    let words = Val::new(alloc, &mut region, value)?;
    let parts = apply(alloc, &mut region, words, part)?;
    Ok(text(alloc, &region, &parts)?)
}

// A part of each word of the value of a local name.
fn local_part(alloc: Global, locals: &Locals, local: Local, part: &Mod) -> Result<Text, ExpandFault>
    ensures { Agrees no_memory (λ text. text) result
        (spec.part_value part.now (spec.local_value locals.now local)) }
{
    let value = local_value(alloc, locals, local)?;
    part_value(alloc, part, value.bytes())
}

/// The raw value of a local name, where there are some.
pub fn local_raw(alloc: Global, locals: &Locals, name: &[u8]) -> Result<Option<Text>, ExpandFault>
    ensures { Agrees no_memory (λ raw. raw) result (spec.local_raw locals.now name.now) }
{
    if !locals.some {
        return Ok(None);
    }
    if let Some((local, part)) = part_form(name) {
        let raw = local_part(alloc, locals, local, &part);
        drop(part);
        return Ok(Some(raw?));
    }
    match local_named(name) {
        None => Ok(None),
        Some(local) => Ok(Some(local_value(alloc, locals, local)?)),
    }
}

/// Whether a name is a local name, where there are some. Takes no memory.
pub fn is_local(locals: &Locals, name: &[u8]) -> bool
    ensures { result ≡ spec.is_local locals.now name.now }
{
    locals.some && (part_form(name).is_some() || local_named(name).is_some())
}
