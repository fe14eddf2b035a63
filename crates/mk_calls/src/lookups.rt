//! The names that are looked up where a text is evaluated.
use crate::refused::Refused;
use crate::rows::{Row, check};
use crate::texts::are;
use crate::variables::Untold;
use mk_ast::parse;
use mk_bytes::{Items, Text, Texts, is_clean_directory};
use mk_expand::{ExpandFault, Locals, names};
use mk_scopes::{Class, Env, Scopes};
use std::alloc::Global;

// What a row shows, the text, and the names that are looked up in it; none where it has a fault.
struct NamesRow(
    &'static str,
    &'static [u8],
    Option<&'static [&'static [u8]]>,
);

const NAMES: [NamesRow; 10] = [
    NamesRow(
        "each reference, in order",
        b"${a}$b${a:U}",
        Some(&[b"a", b"b", b"a"]),
    ),
    NamesRow("a text without references", b"a$$b", Some(&[])),
    NamesRow(
        "a name in a name comes first",
        b"${${a}}",
        Some(&[b"a", b"1"]),
    ),
    NamesRow("those of a value", b"${c}", Some(&[b"c", b"a", b"b"])),
    NamesRow(
        "a variable of :@ too, for each word",
        b"${d:@v@${v}${a}@}",
        Some(&[b"d", b"v", b"a", b"v", b"a"]),
    ),
    NamesRow(
        "an argument of defined, and only what is chosen",
        b"${defined(x):?${a}:${b}}",
        Some(&[b"defined(x)", b"x", b"b"]),
    ),
    NamesRow(
        "what is not evaluated is not looked up",
        b"${a:Ux${b}}",
        Some(&[b"a"]),
    ),
    NamesRow("an undefined one too", b"${x:U${b}}", Some(&[b"x", b"b"])),
    NamesRow("a fault in place of names", b"${a}${r}", None),
    NamesRow("a fault of a modifier too", b"${a}${b:[x]}", None),
];

const VARIABLES: [(&[u8], &[u8]); 5] = [
    (b"a", b"1"),
    (b"b", b"2"),
    (b"c", b"${a} ${b}"),
    (b"d", b"p q"),
    (b"r", b"x ${r}"),
];

fn variables(alloc: Global) -> Result<Scopes, Refused> {
    let cwd = Text::from_bytes(alloc, b"/w")?;
    if !is_clean_directory(cwd.bytes()) {
        return Err(Refused);
    }
    let vars = Items::new(alloc, 0)?;
    let program = Text::from_bytes(alloc, b"bmake")?;
    let mut scopes = Scopes::new(alloc, &Env { vars, cwd, program }, false)?;
    for (name, value) in &VARIABLES {
        scopes.assign(Class::Global, name, value)?;
    }
    Ok(scopes)
}

fn looked_up(alloc: Global, text: &[u8]) -> Result<Result<Texts, ExpandFault>, Refused> {
    let scopes = variables(alloc)?;
    let locals = Locals::none(alloc)?;
    match parse(alloc, text) {
        Ok(tree) => Ok(names(alloc, &scopes, &locals, &tree, &mut Untold)),
        Err(_) => Err(Refused),
    }
}

impl Row for NamesRow {
    fn shows(&self) -> &'static str {
        self.0
    }

    fn holds(&self, alloc: Global) -> Result<bool, Refused> {
        match (looked_up(alloc, self.1)?, self.2) {
            (Ok(names), Some(wanted)) => Ok(are(&names, wanted)),
            (Err(_), None) => Ok(true),
            _ => Ok(false),
        }
    }
}

#[test]
fn names_are_looked_up(rt: HostRuntime) {
    check(&rt, rt.alloc(), &NAMES);
}
