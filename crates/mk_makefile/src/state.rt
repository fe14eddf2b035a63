//! What the lines so far leave, from before the first line to behind the last.
ghost use Rattle.std.specs.Prelude.{◌≡◌, [], IsTrue, IfErr, IfOk};
ghost use Rattle.mk_bytes.specs.Paths.{is_clean_directory};
ghost use Rattle.mk_makefile.specs.Modes as modes;
ghost use Rattle.mk_makefile.specs.Moments.{moment_of};
ghost use Rattle.mk_makefile.specs.Orders.{first_moment};
ghost use Rattle.mk_makefile.specs.declared.fault.ReadFault.TheVariants.{NoMemory as no_memory};

use crate::fault::ReadFault;
use crate::note::Note;
use mk_bytes::{NoMemory, Text};
use mk_cli::Order;
use mk_export::Exports;
use mk_graph::{Made, Mode};
use mk_rules::Rules;
use mk_scopes::{Env, Scopes};
use std::alloc::Global;

/// The variables, which of them are exported, and what dependency lines left, in which makefile.
#[derive(Drop)]
pub struct Draft {
    pub scopes: Scopes,
    pub exports: Exports,
    pub rules: Rules,
    /// The makefile that is read, as the command line has it.
    pub file: Text,
}

/// What the lines so far leave.
#[derive(Drop)]
pub struct State {
    pub made: Draft,
    /// Whether command lines follow the last dependency line, so that they belong to its targets.
    pub in_group: bool,
    /// The questions so far, in order.
    pub notes: Vec<Note>,
}

impl State {
    /// What the lines so far leave, without the questions.
    pub fn into_made(self) -> Draft
        ensures { result ≡ self.made }
    {
        self.made
    }
}

/// What stands before the first line: the environment under a command line's orders.
pub fn first_state(alloc: Global, env: &Env, order: &Order) -> Result<State, NoMemory>
    requires { IsTrue (is_clean_directory env.now.cwd) }
    ensures moment { IfOk result (λ state.
        moment_of state order.now ≡ first_moment env.now order.now) }
    ensures asked { IfOk result (λ state. state.notes.items ≡ []) }
{
    let scopes = Scopes::new(alloc, env, order.env_first)?;
    match Rules::new(alloc) {
        Ok(rules) => Ok(State {
            made: Draft {
                scopes,
                exports: Exports::new(alloc),
                rules,
                file: Text::new(alloc),
            },
            in_group: false,
            notes: Vec::new(alloc),
        }),
        Err(fault) => {
            drop(scopes);
            Err(fault)
        }
    }
}

/// What makefiles leave.
pub fn made_of(draft: Draft, mode: Mode) -> Result<Made, ReadFault>
    ensures made { IfOk result (λ made. made ≡ modes.made_by draft mode) }
    ensures want { IfErr result (λ fault. fault ≡ no_memory) }
{
    match draft.rules.finish() {
        Ok(finished) => Ok(Made {
            scopes: draft.scopes,
            graph: finished.graph,
            suffixes: finished.suffixes,
            paths: finished.paths,
            main: finished.main,
            mode,
        }),
        Err(fault) => {
            drop(draft.scopes);
            Err(ReadFault::from(fault))
        }
    }
}
