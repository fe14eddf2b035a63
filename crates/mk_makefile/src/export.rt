//! Which variables are exported (make(1), the directives `.export` and `.unexport`), and references
//! to them.
ghost use Rattle.std.specs.Prelude.{◌≡◌, true, IfOk, OnOk};
ghost use Rattle.std.specs.List.{list_all};
ghost use Rattle.mk_makefile.specs.Exports as spec;
ghost use Rattle.mk_makefile.specs.Values.{reference};
ghost use Rattle.mk_meta.specs.Lawful.{is_export_name as is_lawful};

use mk_bytes::{NoMemory, Text};
use mk_export::Exports;
use mk_meta::is_export_name;
use std::alloc::Global;

fn are_lawful(names: &[Text]) -> bool
    ensures { result ≡ list_all is_lawful names.now }
{
    names.iter().all(|name| is_export_name(name.bytes()))
}

/// Whether these are names of variables that may be exported, at least one.
pub fn are_export_names(names: &[Text]) -> bool
    ensures { result ≡ spec.are_export_names names.now }
{
    match names {
        [] => false,
        [_, ..] => are_lawful(names),
    }
}

/// Exports variables of these names too. After a refusal the names are given up.
pub fn add_exports(exports: &mut Exports, names: &[Text]) -> Result<(), NoMemory>
    requires { list_all is_lawful names.now ≡ true }
    ensures { OnOk result (exports.new ≡ spec.all_added exports.old names.now) }
{
    for name in names {
        exports.add(name.bytes())?;
    }
    Ok(())
}

/// Exports no variables of these names any more.
pub fn remove_exports(exports: &mut Exports, names: &[Text])
    ensures { exports.new ≡ spec.all_removed exports.old names.now }
{
    for name in names {
        exports.remove(name.bytes());
    }
}

/// A reference to a variable.
pub fn reference_to(alloc: Global, name: &[u8]) -> Result<Text, NoMemory>
    ensures { IfOk result (λ text. text ≡ reference name.now) }
{
    let mut text = Text::from_bytes(alloc, b"${")?;
    text.push_both(name, b"}")?;
    Ok(text)
}
