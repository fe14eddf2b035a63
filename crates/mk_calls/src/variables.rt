//! A variable by its name alone, whatever bytes that has.
use crate::refused::Refused;
use mk_bytes::{Items, NoMemory, Text, is_clean_directory};
use mk_cond::Fun;
use mk_expand::{FactFault, Facts, Locals, expand, name_tree};
use mk_scopes::{Class, Env, Scopes};
use std::alloc::Global;
use std::process::Abort;

/// Refuses every question, as want of memory does: that may stand in place of any answer.
#[derive(Drop)]
pub struct Untold;

impl Facts for Untold {
    ghost use Rattle.std.specs.Prelude.{[]};

    ghost lists = { λ _. record { requested = []; targets = []; with_commands = [] } };

    ghost asked = { λ _. [] };

    ghost faults = { λ _. 0 };

    ghost leads = { λ _ _. Unit {0} };

    fn fact(&mut self, _alloc: Global, _fun: Fun, _argument: &[u8]) -> Result<bool, FactFault> {
        Err(FactFault::NoMemory)
    }

    ghost stays = { λ _. tt };

    ghost goes_on = { λ _ _ _ _ _. tt };
}

// Variables where nothing is set.
fn scopes(rt: &impl Abort, alloc: Global) -> Result<Scopes, NoMemory> {
    let cwd = Text::from_bytes(alloc, b"/w")?;
    assert!(rt; is_clean_directory(cwd.bytes()));
    let vars = Items::new(alloc, 0)?;
    let program = Text::from_bytes(alloc, b"bmake")?;
    Scopes::new(alloc, &Env { vars, cwd, program }, false)
}

fn has_value(alloc: Global, scopes: &Scopes, name: &[u8], wanted: &[u8]) -> bool {
    let Ok(tree) = name_tree(alloc, name) else {
        return false;
    };
    let Ok(locals) = Locals::none(alloc) else {
        drop(tree);
        return false;
    };
    let value = expand(alloc, scopes, &locals, &tree, &mut Untold, false);
    drop(tree);
    drop(locals);
    match value {
        Ok(value) => value.bytes() == wanted,
        Err(_) => false,
    }
}

// Variables of which one has a dollar in its name.
fn with_dollar(rt: &impl Abort, alloc: Global) -> Result<Scopes, NoMemory> {
    let mut scopes = scopes(rt, alloc)?;
    scopes.assign(Class::Global, b"x$", b"name").and(Ok(scopes))
}

fn dollar_is_a_byte(rt: &impl Abort, alloc: Global) -> Result<bool, NoMemory> {
    let scopes = with_dollar(rt, alloc)?;
    let has = has_value(alloc, &scopes, b"x$", b"name");
    drop(scopes);
    Ok(has)
}

#[test]
fn a_dollar_in_a_name_is_a_byte(rt: HostRuntime) -> Result<(), Refused> {
    assert!(rt; dollar_is_a_byte(&rt, rt.alloc())?);
    Ok(())
}
