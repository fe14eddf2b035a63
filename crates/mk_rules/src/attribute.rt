//! Attributes by their names.
ghost use Rattle.std.specs.Prelude.{◌≡◌};
ghost use Rattle.mk_rules.specs.Attributes as spec;

use mk_graph::Attr;

/// The attribute of this name. `.WAIT`, which parts sources, is none of a node.
pub fn attr_named(name: &[u8]) -> Option<Attr>
    ensures { result ≡ spec.attr_named name.now }
{
    match name {
        [b'.', ..] => dotted_named(name),
        _ => None,
    }
}

fn dotted_named(name: &[u8]) -> Option<Attr>
    ensures { result ≡ spec.attr_named name.now }
{
    if name == b".PHONY".as_slice() {
        return Some(Attr::Phony);
    }
    if name == b".EXEC".as_slice() {
        return Some(Attr::Exec);
    }
    if name == b".OPTIONAL".as_slice() {
        return Some(Attr::Optional);
    }
    if name == b".PRECIOUS".as_slice() {
        return Some(Attr::Precious);
    }
    if name == b".SILENT".as_slice() {
        return Some(Attr::Silent);
    }
    if name == b".IGNORE".as_slice() {
        return Some(Attr::Ignore);
    }
    if name == b".NOTMAIN".as_slice() {
        return Some(Attr::NotMain);
    }
    if name == b".USE".as_slice() {
        return Some(Attr::Macro);
    }
    if name == b".USEBEFORE".as_slice() {
        return Some(Attr::MacroBefore);
    }
    other_named(name)
}

fn other_named(name: &[u8]) -> Option<Attr>
    ensures { result ≡ spec.other_named name.now }
{
    if name == b".META".as_slice() {
        return Some(Attr::Meta);
    }
    if name == b".NOMETA".as_slice() {
        return Some(Attr::NoMeta);
    }
    if name == b".NOMETA_CMP".as_slice() {
        return Some(Attr::NoMetaCmp);
    }
    None
}
