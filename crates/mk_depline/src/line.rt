//! Dependency lines: targets, an operator, and sources.
ghost use Rattle.std.specs.Prelude.{◌≡◌, ◌<◌, length, position, drop, Ok, IfOk, IfSome, IsTrue};
ghost use Rattle.std.specs.Prelude.{OnOk};
ghost use Rattle.std.specs.List.{list_all, list_any};
ghost use Rattle.mk_bytes.specs.Agrees.{Agrees};
ghost use Rattle.mk_bytes.specs.Paths.{is_clean_directory};
ghost use Rattle.mk_bytes.specs.Words.{is_white as is_white_byte};
ghost use Rattle.mk_depline.specs.Lines as spec;
ghost use Rattle.mk_depline.specs.Names as names;
ghost use Rattle.mk_depline.specs.View.{sides_seen};
ghost use Rattle.mk_depline.specs.declared.fault.DepFault.TheVariants.{NoMemory as no_memory};

use crate::brace::spelled_words;
use crate::fault::DepFault;
use crate::name::{Special, special_named};
use mk_bytes::{Items, NoMemory, Text, Texts, are_names, clean_path, is_among, is_white};
use std::alloc::Global;

/// A dependency line. Its names are cleaned, but for attributes, special targets and rules.
#[derive(Drop)]
pub struct DepLine {
    pub targets: Texts,
    /// Whether the operator is `!`: its targets are always out of date.
    pub remake: bool,
    /// The sources in order, repeated ones, attributes and `.WAIT` included.
    pub sources: Texts,
    /// The special target, where the line has one. It is the only target then.
    pub special: Option<Special>,
    /// The two suffixes of a rule, where the line's one target is such.
    pub rule: Option<(Text, Text)>,
}

/// What stands before the operator of a line and behind it.
#[derive(Clone, Copy)]
pub struct Sides<'t> {
    pub targets: &'t [u8],
    pub remake: bool,
    pub sources: &'t [u8],
}

fn first_operator(text: &[u8]) -> Option<usize>
    ensures value { result ≡ position spec.is_operator text.now }
    ensures within { IfSome result (λ at. at < length text.now) }
{
    text.iter().position(|byte| *byte == b':' || *byte == b'!')
}

// What stands round the operator at the beginning of the rest of a line.
fn sides_round<'t>(targets: &'t [u8], rest: &'t [u8]) -> Result<Sides<'t>, DepFault>
    ensures { Agrees no_memory sides_seen result (spec.sides_round targets.now rest.now) }
{
    match rest {
        [] => Err(DepFault::NoOperator),
        [b':', b':', ..] => Err(DepFault::DoubleColon),
        [operator, sources @ ..] => Ok(Sides {
            targets,
            remake: *operator == b'!',
            sources,
        }),
    }
}

fn sides_of<'t>(text: &'t [u8]) -> Result<Sides<'t>, DepFault>
    ensures { Agrees no_memory sides_seen result (spec.sides_of text.now) }
{
    match first_operator(text) {
        Some(at) => sides_round(&text[..at], &text[at..]),
        None => Err(DepFault::NoOperator),
    }
}

// Cleans a name in its place. Attributes and special targets are clean as they are.
fn clean(alloc: Global, cwd: &[u8], name: &mut Text) -> Result<(), NoMemory>
    ensures { OnOk result (name.new ≡ spec.cleaned cwd.now name.old) }
{
    if are_names(name.bytes()) {
        return Ok(());
    }
    *name = clean_path(alloc, cwd, name.bytes())?;
    Ok(())
}

fn all_cleaned(alloc: Global, cwd: &[u8], names: Texts) -> Result<Texts, NoMemory>
    ensures { IfOk result (λ texts. texts ≡ spec.all_cleaned cwd.now names) }
{
    let mut names = names;
    for at in 0..names.len() {
        clean(alloc, cwd, names.get_mut(at))?;
    }
    Ok(names)
}

// What follows a known suffix, where that is a known suffix too.
fn other_suffix<'t>(known: &[Text], suffix: &[u8], name: &'t [u8]) -> Option<&'t [u8]>
    ensures { spec.shown_rule suffix.now result
        ≡ spec.rule_with known.now name.now suffix.now }
{
    let rest = name.strip_prefix(suffix)?;
    if is_among(known, rest) {
        Some(rest)
    } else {
        None
    }
}

// The two suffixes that a name is, of which the first is the first that fits.
fn rule_named(alloc: Global, known: &[Text], name: &[u8]) -> Result<Option<(Text, Text)>, NoMemory>
    ensures { IfOk result (λ rule. rule ≡ spec.rule_named known.now name.now) }
{
    for suffix in known {
        if let Some(rest) = other_suffix(known, suffix.bytes(), name) {
            return Ok(Some((suffix.copy(alloc)?, Text::from_bytes(alloc, rest)?)));
        }
    }
    Ok(None)
}

fn plain_line(
    alloc: Global,
    cwd: &[u8],
    remake: bool,
    targets: Texts,
    sources: Texts,
) -> Result<DepLine, NoMemory>
    ensures { IfOk result (λ line. line ≡ spec.plain_line cwd.now remake targets sources) }
{
    Ok(DepLine {
        targets: all_cleaned(alloc, cwd, targets)?,
        remake,
        sources: all_cleaned(alloc, cwd, sources)?,
        special: None,
        rule: None,
    })
}

// A line of a rule.
fn rule_line(
    alloc: Global,
    remake: bool,
    targets: Texts,
    rule: (Text, Text),
    sources: &Texts,
) -> Result<DepLine, DepFault>
    ensures { Agrees no_memory (λ line. line) result
        (spec.rule_line remake targets rule sources.now) }
{
    if !sources.is_empty() {
        return Err(DepFault::RuleSources);
    }
    Ok(DepLine {
        targets,
        remake,
        sources: Items::new(alloc, 0)?,
        special: None,
        rule: Some(rule),
    })
}

// A line of a special target.
fn special_line(
    alloc: Global,
    cwd: &[u8],
    remake: bool,
    targets: Texts,
    special: Special,
    sources: Texts,
) -> Result<DepLine, NoMemory>
    ensures { IfOk result (λ line. line
        ≡ spec.special_line cwd.now remake targets special sources) }
{
    Ok(DepLine {
        targets,
        remake,
        sources: all_cleaned(alloc, cwd, sources)?,
        special: Some(special),
        rule: None,
    })
}

fn is_special(name: &[u8]) -> bool
    ensures { result ≡ spec.is_special name.now }
{
    special_named(name).is_some()
}

fn are_mixed(targets: &[Text]) -> bool
    ensures { result ≡ list_any spec.is_special targets.now }
{
    targets.iter().any(|target| is_special(target.bytes()))
}

// The line of these targets and sources.
fn line_of(
    alloc: Global,
    cwd: &[u8],
    known: &Texts,
    remake: bool,
    targets: Texts,
    sources: Texts,
) -> Result<DepLine, DepFault>
    ensures { Agrees no_memory (λ line. line) result
        (spec.line_of cwd.now known.now remake targets sources) }
{
    match targets.as_slice() {
        [] => Err(DepFault::NoTargets),
        [target] => {
            if let Some(special) = special_named(target.bytes()) {
                return Ok(special_line(alloc, cwd, remake, targets, special, sources)?);
            }
            match rule_named(alloc, known.as_slice(), target.bytes())? {
                Some(rule) => rule_line(alloc, remake, targets, rule, &sources),
                None => Ok(plain_line(alloc, cwd, remake, targets, sources)?),
            }
        }
        several => {
            if are_mixed(several) {
                return Err(DepFault::MixedSpecial);
            }
            Ok(plain_line(alloc, cwd, remake, targets, sources)?)
        }
    }
}

fn is_blank(text: &[u8]) -> bool
    ensures { result ≡ list_all is_white_byte text.now }
{
    text.iter().all(|byte| is_white(*byte))
}

/// Reads a dependency line whose references are expanded, against the current directory and with
/// the known suffixes.
///
/// The first `:` or `!` parts targets and sources. Words are cut, then braces are spelled out from
/// the left, and then names are cleaned. A single target that is two known suffixes is a rule.
/// Where several faults hold, the first of their order in [`DepFault`] is answered.
pub fn parse_dep(
    alloc: Global,
    text: &[u8],
    cwd: &[u8],
    suffixes: &Texts,
) -> Result<DepLine, DepFault>
    requires { IsTrue (is_clean_directory cwd.now) }
    ensures { Agrees no_memory (λ line. line) result
        (spec.dep_line text.now cwd.now suffixes.now) }
{
    let parted = sides_of(text)?;
    if is_blank(parted.targets) {
        return Err(DepFault::NoTargets);
    }
    let targets = spelled_words(alloc, parted.targets)?;
    let sources = spelled_words(alloc, parted.sources)?;
    line_of(alloc, cwd, suffixes, parted.remake, targets, sources)
}
