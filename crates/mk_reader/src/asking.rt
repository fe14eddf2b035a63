//! What reading asks of the outside: values, conditions, files, commands and messages.
ghost use Rattle.std.specs.Prelude.{◌≡◌, [], IfOk, IsTrue};
ghost use Rattle.mk_bytes.specs.Paths.{is_clean_directory};
ghost use Rattle.mk_cond.specs.View.{cond_view};
ghost use Rattle.mk_values.specs.Locals.{no_locals};
ghost use Rattle.mk_values.specs.Value as expand;
ghost use Rattle.mk_values.specs.declared.fault.ExpandFault.TheVariants.{Failed as failed};
ghost use Rattle.mk_makefile.specs.Facts.{lists_of};
ghost use Rattle.mk_makefile.specs.Notes.{asked_by};
ghost use Rattle.mk_makefile.specs.Values as spec;
ghost use Rattle.mk_reader.specs.Ties.{Evaluated, Gave, outer};
ghost use Rattle.mk_world.specs.Causes.{HasCause};

use crate::reader::Reader;
use mk_bytes::{NoMemory, Text, Texts};
use mk_cond::Cond;
use mk_expand::{ExpandFault, Locals, eval_cond, value_of_text};
use mk_export::Exported;
use mk_makefile::{Note, ReadFacts, Refusal, State};
use mk_world::{Cmd, Sink, World};
use std::alloc::Global;
use std::snapshot::Snapshot;

// The value of a text where there are no local names.
fn value_in<W: World>(
    alloc: Global,
    world: &mut W,
    state: &mut State,
    requested: &Texts,
    keep: bool,
    text: &[u8],
) -> Result<Text, ExpandFault>
    ensures evaluated { Evaluated W.meaning (W.runs world.old []) (W.runs world.new [])
        (W.history world.old) (W.history world.new) state.old state.new (λ value. value) result
        (λ answers. (expand.of_text state.old.made.scopes no_locals
        (lists_of state.old.made.rules requested.now) answers keep
        (asked_by state.old.notes.items) text.now).answer) }
    ensures cause { HasCause failed (W.faults world.old) (W.faults world.new) result }
{
    let locals = Locals::none(alloc)?;
    let made = &state.made;
    let mut facts = ReadFacts {
        rules: &made.rules,
        requested,
        world,
        notes: &mut state.notes,
    };
    let value = value_of_text(alloc, &made.scopes, &locals, text, &mut facts, keep);
    drop(locals);
    value
}

// Whether a condition holds.
fn truth_in<W: World>(
    alloc: Global,
    world: &mut W,
    state: &mut State,
    requested: &Texts,
    cond: &Cond,
) -> Result<bool, ExpandFault>
    ensures evaluated { Evaluated W.meaning (W.runs world.old []) (W.runs world.new [])
        (W.history world.old) (W.history world.new) state.old state.new (λ truth. truth) result
        (λ answers. (expand.of_condition state.old.made.scopes no_locals
        (lists_of state.old.made.rules requested.now) answers
        (asked_by state.old.notes.items) (cond_view cond.now)).answer) }
    ensures cause { HasCause failed (W.faults world.old) (W.faults world.new) result }
{
    let locals = Locals::none(alloc)?;
    let made = &state.made;
    let mut facts = ReadFacts {
        rules: &made.rules,
        requested,
        world,
        notes: &mut state.notes,
    };
    let truth = eval_cond(alloc, &made.scopes, &locals, cond, &mut facts);
    drop(locals);
    truth
}

// The command of a text in a directory, with these variables in its environment.
fn command_to_run(
    alloc: Global,
    directory: &[u8],
    exports: &Exported,
    text: Text,
) -> Result<Cmd, NoMemory>
    ensures { IfOk result (λ cmd.
        cmd ≡ record { text = text; cwd = directory.now; exports = exports.now }) }
{
    let cwd = Text::from_bytes(alloc, directory)?;
    let exports = exports.share()?;
    Ok(Cmd { text, cwd, exports })
}

impl<'a, W: World, S: Sink> Reader<'a, W, S> {
    /// The value of a text where there are no local names; with `keep` as `:=` sets it.
    pub fn value(&mut self, alloc: Global, keep: bool, text: &[u8]) -> Result<Text, Refusal>
        ensures { Gave (outer W.meaning W.history W.faults W.runs S.held S.faults)
            self.old self.new (λ value. value) result
            (λ answers. spec.value answers keep text.now) }
    {
        let requested = &self.order.flags.requested;
        let value = value_in(alloc, self.world, self.state, requested, keep, text)?;
        Ok(value)
    }

    /// Whether a condition holds.
    pub fn truth(&mut self, alloc: Global, cond: &Cond) -> Result<bool, Refusal>
        ensures { Gave (outer W.meaning W.history W.faults W.runs S.held S.faults)
            self.old self.new (λ truth. truth) result
            (λ answers. spec.truth answers (cond_view cond.now)) }
    {
        let requested = &self.order.flags.requested;
        let truth = truth_in(alloc, self.world, self.state, requested, cond)?;
        Ok(truth)
    }

    /// The bytes of the file at a cleaned path, or `None` where it is missing.
    pub fn look(&mut self, alloc: Global, path: &Text) -> Result<Option<Text>, Refusal>
        ensures { Gave (outer W.meaning W.history W.faults W.runs S.held S.faults)
            self.old self.new (λ found. found) result
            (λ answers. spec.contents answers path.now) }
    {
        if self.state.notes.reserve(1).is_err() {
            return Err(Refusal::NoMemory);
        }
        let found = self.world.read(alloc, path.bytes())?;
        self.state
            .notes
            .push(Note::Read(Snapshot::of(path), Snapshot::of(&found)))
            .unwrap();
        Ok(found)
    }

    // What a command prints.
    fn printed(&mut self, alloc: Global, cmd: &Cmd) -> Result<Text, Refusal>
        requires directory { IsTrue (is_clean_directory cmd.now.cwd) }
        ensures { Gave (outer W.meaning W.history W.faults W.runs S.held S.faults)
            self.old self.new (λ output. output) result
            (λ answers. spec.printed_by answers cmd.now) }
    {
        if self.state.notes.reserve(1).is_err() {
            return Err(Refusal::NoMemory);
        }
        match self.world.ask(alloc, cmd) {
            Ok(ended) => {
                self.state
                    .notes
                    .push(Note::Ran(Snapshot::of(cmd), Snapshot::of(&ended)))
                    .unwrap();
                Ok(ended.output)
            }
            Err(fault) => {
                self.state.notes.push(Note::Cut(Snapshot::of(cmd))).unwrap();
                Err(Refusal::from(fault))
            }
        }
    }

    // What a text prints as a command in the current directory, with these variables.
    fn run_with(&mut self, alloc: Global, exports: &Exported, text: Text) -> Result<Text, Refusal>
        ensures { Gave (outer W.meaning W.history W.faults W.runs S.held S.faults)
            self.old self.new (λ output. output) result
            (λ answers s. spec.printed_by answers (spec.command_at s exports.now text) s) }
    {
        let cmd = command_to_run(alloc, self.state.made.scopes.cwd(), exports, text)?;
        self.printed(alloc, &cmd)
    }

    /// What a text prints as a command that is run in the current directory, with the exported
    /// variables in its environment.
    pub fn run(&mut self, alloc: Global, text: Text) -> Result<Text, Refusal>
        ensures { Gave (outer W.meaning W.history W.faults W.runs S.held S.faults)
            self.old self.new (λ output. output) result
            (λ answers. spec.output answers text) }
    {
        let exports = self.values(alloc)?;
        self.run_with(alloc, &exports, text)
    }
}
