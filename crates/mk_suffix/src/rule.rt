//! The rule from one suffix to another.
ghost use Rattle.std.specs.Prelude.{◌≡◌, ◌<◌, ◌++◌, length, IfOk, IfSome};
ghost use Rattle.std.specs.Option.{option_map};
ghost use Rattle.mk_depline.specs.Lines.{rule_named, rule_with, shown_rule};
ghost use Rattle.mk_suffix.specs.Chains as spec;
ghost use Rattle.mk_suffix.specs.Found.{is_marked};
ghost use Rattle.mk_suffix.specs.NameView.{seen};

use mk_bytes::{NoMemory, Text, is_among};
use mk_graph::{Attr, Graph};
use std::alloc::Global;

/// Whether the node of a name is so marked.
pub fn is_marked(graph: &Graph, name: &[u8], attr: Attr) -> bool
    ensures { result ≡ is_marked graph.now name.now attr }
{
    match graph.find(name) {
        Some(n) => graph.has(n, attr),
        None => false,
    }
}

/// A text of bytes and others behind them.
pub fn joined(alloc: Global, first: &[u8], second: &[u8]) -> Result<Text, NoMemory>
    ensures { IfOk result (λ text. text ≡ first.now ++ second.now) }
{
    let mut text = Text::from_bytes(alloc, first)?;
    text.push(second)?;
    Ok(text)
}

// What follows a known suffix, where that is a known suffix too.
fn other_suffix<'n>(known: &[Text], suffix: &[u8], name: &'n [u8]) -> Option<&'n [u8]>
    ensures { shown_rule suffix.now result ≡ rule_with known.now name.now suffix.now }
{
    let rest = name.strip_prefix(suffix)?;
    if is_among(known, rest) {
        Some(rest)
    } else {
        None
    }
}

/// The second of the two suffixes that a name is, of which the first is the first that fits.
pub fn second_part<'n>(known: &[Text], name: &'n [u8]) -> Option<&'n [u8]>
    ensures { seen result ≡ option_map (λ parts. parts.1) (rule_named known.now name.now) }
{
    for suffix in known {
        if let Some(rest) = other_suffix(known, suffix.bytes(), name) {
            return Some(rest);
        }
    }
    None
}

// Whether these are the two suffixes that a name is, of which the first is the first that fits.
fn has_parts(known: &[Text], name: &[u8], from: &[u8], to: &[u8]) -> bool
    ensures { result ≡ spec.are_parts from.now to.now (rule_named known.now name.now) }
{
    for suffix in known {
        if let Some(rest) = other_suffix(known, suffix.bytes(), name) {
            return suffix.bytes() == from && rest == to;
        }
    }
    false
}

/// The node of the rule from one suffix to another, or `None` where there is none.
pub fn rule_between(
    alloc: Global,
    graph: &Graph,
    known: &[Text],
    from: &[u8],
    to: &[u8],
) -> Result<Option<u32>, NoMemory>
    ensures value { IfOk result (λ rule. rule
        ≡ spec.rule_between graph.now known.now from.now to.now) }
    ensures within { IfOk result (λ rule. IfSome rule (λ n. n < length graph.now)) }
{
    let name = joined(alloc, from, to)?;
    if is_marked(graph, name.bytes(), Attr::Rule) && has_parts(known, name.bytes(), from, to) {
        return Ok(graph.find(name.bytes()));
    }
    Ok(None)
}
