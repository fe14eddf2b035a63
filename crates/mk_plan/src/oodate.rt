//! References to the sources that are newer than the target, by that name.
ghost use Rattle.std.specs.Prelude.{◌≡◌};
ghost use Rattle.mk_ast.specs.View.{mod_view, mods_view, part_view, tree_view};
ghost use Rattle.mk_plan.specs.Oodate as spec;

use mk_ast::{ModTree, ModTrees, Part, Tree};

fn is_oodate(name: &[u8]) -> bool
    ensures { result ≡ spec.is_oodate name.now }
{
    name == b".OODATE".as_slice() || name == b"?".as_slice()
}

#[tactic(auto, using(mk_ast::proofs::Views::views))]
fn is_oodate_part(part: &Part) -> bool
    ensures { result ≡ spec.is_oodate_part (part_view part.now) }
{
    match part {
        Part::Plain(text) => is_oodate(text.bytes()),
        _ => false,
    }
}

// Whether a name is this one, written out with no reference in it.
fn is_plain_oodate(name: &Tree) -> bool
    ensures { result ≡ spec.is_plain_oodate (tree_view name.now) }
{
    match name.as_slice() {
        [only] => is_oodate_part(only),
        _ => false,
    }
}

/// Whether a tree has a reference with the plain name `.OODATE` or `?` anywhere in it, also in
/// names and in arguments of modifiers.
#[cycle(refer)]
pub fn refers(tree: &Tree) -> bool
    ensures { result ≡ spec.refers (tree_view tree.now) }
{
    for part in tree.as_slice() {
        if part_refers(part) {
            return true;
        }
    }
    false
}

#[cycle(refer)]
#[tactic(auto, using(crate::proofs::OodateLemmas::referring))]
fn part_refers(part: &Part) -> bool
    ensures { result ≡ spec.part_refers (part_view part.now) }
{
    match part {
        Part::Plain(_) => false,
        Part::Escaped(_) => false,
        Part::Double => false,
        Part::Lone => false,
        Part::Short(byte) => is_oodate(&[*byte]),
        Part::Named {
            round: _,
            name,
            mods,
        } => is_oodate(name.bytes()) || mods_refer(mods),
        Part::Ref {
            round: _,
            name,
            mods,
        } => is_plain_oodate(name) || refers(name) || mods_refer(mods),
    }
}

#[cycle(refer)]
fn mods_refer(mods: &ModTrees) -> bool
    ensures { result ≡ spec.mods_refer (mods_view mods.now) }
{
    for one in mods.as_slice() {
        if mod_refers(one) {
            return true;
        }
    }
    false
}

#[cycle(refer)]
#[tactic(auto, using(crate::proofs::OodateLemmas::referring))]
fn mod_refers(one: &ModTree) -> bool
    ensures { result ≡ spec.mod_refers (mod_view one.now) }
{
    match one {
        ModTree::Keep(text) => refers(text),
        ModTree::Without(text) => refers(text),
        ModTree::Subst {
            delim: _,
            from,
            to,
            flags: _,
        } => refers(from) || refers(to),
        ModTree::Head => false,
        ModTree::Tail => false,
        ModTree::Root => false,
        ModTree::Extension => false,
        ModTree::Sort => false,
        ModTree::SortBack => false,
        ModTree::Unique => false,
        ModTree::Lower => false,
        ModTree::Upper => false,
        ModTree::Quote => false,
        ModTree::QuoteDollar => false,
        ModTree::Separator(_) => false,
        ModTree::OneWord(_) => false,
        ModTree::ManyWords(_) => false,
        ModTree::Select(places) => refers(places),
        ModTree::Range(count) => match count {
            None => false,
            Some(text) => refers(text),
        },
        ModTree::IfUndefined(text) => refers(text),
        ModTree::IfDefined(text) => refers(text),
        ModTree::NameOf => false,
        ModTree::Choose(first, second) => refers(first) || refers(second),
        ModTree::Each(_, body) => refers(body),
        ModTree::Suffix(old, new) => refers(old) || refers(new),
        ModTree::Empty => false,
    }
}
