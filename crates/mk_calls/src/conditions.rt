//! What the texts of conditions are read as.
use crate::refused::Refused;
use crate::rows::{Row, check};
use mk_cond::CmpOp::{Equal, Greater, GreaterOrEqual, Less, LessOrEqual, NotEqual};
use mk_cond::Form::{Def, If, Inner, Make, Ndef, Nmake};
use mk_cond::{CmpOp, Cond, Form, Fun, parse_cond};
use std::alloc::Global;

// What is seen of a condition.
#[derive(Clone, Copy, PartialEq, Eq)]
enum Shape {
    Any(usize),
    All(usize),
    Not,
    Test(Fun),
    Alone(bool),
    Both(bool, CmpOp, bool),
}

fn seen_as(cond: &Cond) -> Shape {
    match cond {
        Cond::Any(conds) => Shape::Any(conds.len()),
        Cond::All(conds) => Shape::All(conds.len()),
        Cond::Not(_) => Shape::Not,
        Cond::Test(fun, _) => Shape::Test(*fun),
        Cond::Alone(side) => Shape::Alone(side.quoted),
        Cond::Both(left, op, right) => Shape::Both(left.quoted, *op, right.quoted),
    }
}

// What a row shows, the text, its form, and what it is read as.
struct ReadRow(&'static str, &'static [u8], Form, Shape);

impl Row for ReadRow {
    fn shows(&self) -> &'static str {
        self.0
    }

    fn holds(&self, alloc: Global) -> Result<bool, Refused> {
        match parse_cond(alloc, self.1, self.2) {
            Ok(cond) => Ok(seen_as(&cond) == self.3),
            Err(_) => Ok(false),
        }
    }
}

const READS: [ReadRow; 32] = [
    ReadRow(
        "or is read around and",
        b"a || b && c || d",
        If,
        Shape::Any(3),
    ),
    ReadRow("and", b"a&&b&&c", If, Shape::All(3)),
    ReadRow("parentheses first", b"(a || b) && c", If, Shape::All(2)),
    ReadRow(
        "parentheses leave no trace",
        b"((a))",
        If,
        Shape::Test(Fun::Defined),
    ),
    ReadRow("not stands for the comparison", b"!$a == b", If, Shape::Not),
    ReadRow("not binds closer than and", b"!a && b", If, Shape::All(2)),
    ReadRow("a word", b"a", If, Shape::Test(Fun::Defined)),
    ReadRow("a word behind ifdef", b"a", Def, Shape::Test(Fun::Defined)),
    ReadRow("a word behind ifndef", b"a", Ndef, Shape::Not),
    ReadRow("a word behind ifmake", b"a", Make, Shape::Test(Fun::Make)),
    ReadRow("a word behind ifnmake", b"a", Nmake, Shape::Not),
    ReadRow("a word in a name", b"a", Inner, Shape::Test(Fun::Defined)),
    ReadRow(
        "a word before an operator in a name",
        b"a<b",
        Inner,
        Shape::Both(false, Less, false),
    ),
    ReadRow(
        "blanks before an operator in a name",
        b"a  >= \"b\"",
        Inner,
        Shape::Both(false, GreaterOrEqual, true),
    ),
    ReadRow("no argument", b"exists()", If, Shape::Test(Fun::Exists)),
    ReadRow(
        "blanks before it",
        b"target \t(a)",
        If,
        Shape::Test(Fun::Target),
    ),
    ReadRow(
        "commands",
        b"commands(a)",
        Nmake,
        Shape::Test(Fun::Commands),
    ),
    ReadRow("make", b"make(a*)", Ndef, Shape::Test(Fun::Make)),
    ReadRow(
        "a function without it",
        b"defined",
        If,
        Shape::Test(Fun::Defined),
    ),
    ReadRow("a longer word", b"definedx", If, Shape::Test(Fun::Defined)),
    ReadRow(
        "a function's name before an operator",
        b"make == x",
        Inner,
        Shape::Both(false, Equal, false),
    ),
    ReadRow(
        "a nested pair in empty",
        b"empty(a(b):U)",
        If,
        Shape::Test(Fun::Empty),
    ),
    ReadRow("a reference", b"${X}", If, Shape::Alone(false)),
    ReadRow("a reference and text", b"${X}y", Ndef, Shape::Alone(false)),
    ReadRow("a quoted text", b"\"${X} )\"", If, Shape::Alone(true)),
    ReadRow("a number", b"-1", Make, Shape::Alone(false)),
    ReadRow(
        "a sign alone is a word",
        b"-a",
        If,
        Shape::Test(Fun::Defined),
    ),
    ReadRow(
        "a newline is no blank",
        b"\n",
        If,
        Shape::Test(Fun::Defined),
    ),
    ReadRow(
        "not equal",
        b"1!=2",
        If,
        Shape::Both(false, NotEqual, false),
    ),
    ReadRow(
        "a word on the right",
        b"1 <= a",
        If,
        Shape::Both(false, LessOrEqual, false),
    ),
    ReadRow(
        "a quoted right side",
        b"$a > \"b\"",
        If,
        Shape::Both(false, Greater, true),
    ),
    ReadRow("signs end a word", b"a||b", Inner, Shape::Any(2)),
];

#[test]
fn conditions_are_read(rt: HostRuntime) {
    check(&rt, rt.alloc(), &READS);
}
