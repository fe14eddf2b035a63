//! Attributes, compared.
ghost use Rattle.std.specs.Prelude.{◌≡◌, ◌↔◌, true};

use mk_graph::Marks;

// Whether these are alike in what they say of a node's file and of its making.
fn same_making(one: Marks, other: Marks) -> bool
    ensures { (result ≡ true) ↔ ((one.phony ≡ other.phony) × (one.exec ≡ other.exec)
        × (one.optional ≡ other.optional) × (one.precious ≡ other.precious)
        × (one.silent ≡ other.silent) × (one.ignore ≡ other.ignore)) }
{
    one.phony == other.phony
        && one.exec == other.exec
        && one.optional == other.optional
        && one.precious == other.precious
        && one.silent == other.silent
        && one.ignore == other.ignore
}

// Whether these are alike in what they say of a node's place in the makefiles.
fn same_standing(one: Marks, other: Marks) -> bool
    ensures { (result ≡ true) ↔ ((one.not_main ≡ other.not_main)
        × (one.macro_behind ≡ other.macro_behind) × (one.macro_before ≡ other.macro_before)
        × (one.wait ≡ other.wait) × (one.target ≡ other.target) × (one.rule ≡ other.rule)) }
{
    one.not_main == other.not_main
        && one.macro_behind == other.macro_behind
        && one.macro_before == other.macro_before
        && one.wait == other.wait
        && one.target == other.target
        && one.rule == other.rule
}

// Whether these are alike in what they say of a node's meta file, and of being always made.
fn same_meta(one: Marks, other: Marks) -> bool
    ensures { (result ≡ true) ↔ ((one.meta ≡ other.meta) × (one.no_meta ≡ other.no_meta)
        × (one.no_meta_cmp ≡ other.no_meta_cmp) × (one.remake ≡ other.remake)) }
{
    one.meta == other.meta
        && one.no_meta == other.no_meta
        && one.no_meta_cmp == other.no_meta_cmp
        && one.remake == other.remake
}

/// Whether these are the same attributes.
pub fn same_marks(one: Marks, other: Marks) -> bool
    ensures { (result ≡ true) ↔ (one ≡ other) }
{
    same_making(one, other) && same_standing(one, other) && same_meta(one, other)
}
