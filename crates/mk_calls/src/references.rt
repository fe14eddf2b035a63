//! References: texts that print back from their trees, and the ends of forms.
use crate::refused::Refused;
use crate::rows::{Row, check};
use mk_ast::AstFault::{Unclosed, UnknownModifier};
use mk_ast::{AstFault, Tree, parse, print};
use mk_form::reference_end;
use std::alloc::Global;

// What a row shows, and a text that prints back.
struct SpelledRow(&'static str, &'static [u8]);

impl Row for SpelledRow {
    fn shows(&self) -> &'static str {
        self.0
    }

    fn holds(&self, alloc: Global) -> Result<bool, Refused> {
        match parse(alloc, self.1) {
            Ok(tree) => prints(alloc, &tree, self.1),
            Err(_) => Ok(false),
        }
    }
}

const SPELLED: [SpelledRow; 32] = [
    SpelledRow("nothing", b""),
    SpelledRow("a word of a name", b"a${B:H}"),
    SpelledRow("all short forms", b"$$ $ $x$(y)$"),
    SpelledRow("a nested pair in a name", b"${a{b:c}d}"),
    SpelledRow("a nested round pair", b"$(a(b:c)d{)"),
    SpelledRow("a reference in a name", b"${a${b}c:H}"),
    SpelledRow("no left-out word", b"${X:shx=y}"),
    SpelledRow("a closer in the first text", b"${W:?a}b:c}"),
    SpelledRow("a modifier in the new text", b"${W:.c=.o:H}"),
    SpelledRow("a colon in the old text", b"${W:foo:bar=x}"),
    SpelledRow("a dollar as delimiter", b"${W:S$a$x$}"),
    SpelledRow("a backslash as delimiter", b"${W:S\\a\\x\\}"),
    SpelledRow("both anchors", b"${W:S/^a$/b/}"),
    SpelledRow("escaped anchors", b"${W:S/\\^a\\$/\\&&/}"),
    SpelledRow("a short name before the delimiter", b"${W:S/a/b$//}"),
    SpelledRow("flags in any order, and again", b"${W:S,a,b,gW1g}"),
    SpelledRow("an escaped colon of a pattern", b"${W:M\\\\:a:H}"),
    SpelledRow("no escaped closer of a pattern", b"${W:Ma\\}b}"),
    SpelledRow("a backslash before a dollar", b"${W:N\\${a}}"),
    SpelledRow("a colon as separator", b"${W:ts:}"),
    SpelledRow("no separator, and a head", b"${W:ts:H}"),
    SpelledRow("a colon as separator, and a head", b"${W:ts::H}"),
    SpelledRow("a backslash as separator", b"${W:ts\\}"),
    SpelledRow(
        "separators by their codes",
        b"${W:ts\\n:ts\\t:ts\\012:ts\\xfF:ts}",
    ),
    SpelledRow("words as one, and again many", b"$(W:tW:[*]:[0]:tw:[@])"),
    SpelledRow("a selection", b"${W:[1..$x]:[#]:[-1]}"),
    SpelledRow("numbers", b"${W:range:range=5:range=$n}"),
    SpelledRow("one of two texts", b"${X:Ua\\}b:D\\:\\$:L:?y:n$}"),
    SpelledRow("a body", b"${W:@v@<$v$@>@:@w@@}"),
    SpelledRow("orders and letters", b"${W:O:Or:u:tl:tu:Q:q:T:R:E:Na*}"),
    SpelledRow("a suffix with a percent", b"${W:%.c=\\=%.o}"),
    SpelledRow("empty modifiers", b"${X::U}${X:}"),
];

// Whether a tree is printed as this text.
fn prints(alloc: Global, tree: &Tree, text: &[u8]) -> Result<bool, Refused> {
    let printed = print(alloc, tree)?;
    Ok(printed.bytes() == text)
}

#[test]
fn prints_texts_back(rt: HostRuntime) {
    check(&rt, rt.alloc(), &SPELLED);
}

// What a row shows, a text, a place in it, and the end of the form there, or its fault.
struct FormRow(&'static str, &'static [u8], usize, Result<usize, AstFault>);

impl Row for FormRow {
    fn shows(&self) -> &'static str {
        self.0
    }

    fn holds(&self, alloc: Global) -> Result<bool, Refused> {
        let at = self.2;
        if at < self.1.len() && self.1[at] == b'$' {
            return Ok(reference_end(alloc, self.1, at) == self.3);
        }
        Ok(false)
    }
}

const FORMS: [FormRow; 8] = [
    FormRow("behind the closer", b"a${B}c", 1, Ok(5)),
    FormRow("no closer", b"x${B", 1, Err(Unclosed(1))),
    FormRow("behind a short name", b"a$xy", 1, Ok(3)),
    FormRow("behind two dollars", b"$$x", 0, Ok(2)),
    FormRow("a lone dollar", b"a$)", 1, Ok(2)),
    FormRow("a lone dollar at the end", b"a$", 1, Ok(2)),
    FormRow("only the form counts", b"a${B:H}${", 1, Ok(7)),
    FormRow(
        "a fault inside",
        b"ab${B:${C:Z}}",
        2,
        Err(UnknownModifier(10)),
    ),
];

#[test]
fn finds_the_end_of_a_form(rt: HostRuntime) {
    check(&rt, rt.alloc(), &FORMS);
}
