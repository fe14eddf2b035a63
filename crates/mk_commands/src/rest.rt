//! What a command does from here to its end.
ghost use Rattle.std.specs.Prelude.{◌≡◌, [], ◌∷◌, ◌++◌, map, IfOk, OnOk};
ghost use Rattle.std.specs.Option.{option_copied};
ghost use Rattle.mk_world.specs.Records.{op_of};
ghost use Rattle.mk_world.specs.Deeds.{Store, after_deed, after_deeds};
ghost use Rattle.mk_world.specs.History.{contents};
ghost use Rattle.mk_world.specs.Talks as spec;
ghost use Rattle.mk_commands.specs.Clock.{numbers};
ghost use Rattle.mk_commands.specs.Files.{files_in};
ghost use Rattle.mk_commands.specs.Language.{language_next};
ghost use Rattle.mk_commands.specs.Rest.{doing_of};
ghost use Rattle.mk_commands.specs.Steps.{after_step, deed_at_next, ends_at, with_step};

use crate::clock::all_taken;
use crate::files::Files;
use crate::language::next;
use mk_bytes::{Items, NoMemory, Text};
use mk_world::{Answer, Answers, Cmd, Deed, Deeds, Next, Op, Ops, Request};
use std::alloc::Global;

/// The steps that are left, and the end behind them.
#[derive(Drop)]
pub struct Rest {
    pub deeds: Deeds,
    pub status: u8,
    pub output: Text,
}

impl Rest {
    /// How many numbers of the clock its steps take.
    pub fn numbers(&self) -> u64
        ensures { result ≡ numbers self.now.deeds }
    {
        all_taken(self.deeds.as_slice())
    }
}

// What stands at a path after a step, where this stood before.
fn changed<'a>(deed: &'a Deed, path: &[u8], before: Option<&'a Text>) -> Option<&'a Text>
    ensures { (store : Store) → store path.now ≡ option_copied before.entry
        → after_deed store deed.now path.now ≡ option_copied result }
{
    match deed {
        Deed::Read { .. } | Deed::Miss { .. } => before,
        Deed::Write {
            path: written,
            bytes,
        } => {
            if written.bytes() == path {
                return Some(bytes);
            }
            before
        }
        Deed::Delete { path: gone } => {
            if gone.bytes() == path {
                return None;
            }
            before
        }
        Deed::Move { from, to, bytes } => {
            if to.bytes() == path {
                return Some(bytes);
            }
            if from.bytes() == path {
                return None;
            }
            before
        }
    }
}

// What stands at a path after a step, where there is one.
fn stands_after<'a>(files: &'a Files, step: Option<&'a Deed>, path: &[u8]) -> Option<&'a Text>
    ensures { option_copied result
        ≡ after_step (contents (files_in files.now)) (option_copied step.entry) path.now }
{
    let found = files.bytes(path);
    match step {
        None => found,
        Some(deed) => changed(deed, path, found),
    }
}

// What stands at a path after a step, where there is one, and these steps behind it.
fn stands<'a>(
    files: &'a Files,
    step: Option<&'a Deed>,
    deeds: &'a [Deed],
    path: &[u8],
) -> Option<&'a Text>
    ensures { option_copied result
        ≡ after_deeds (after_step (contents (files_in files.now)) (option_copied step.entry))
        deeds.now path.now }
{
    let mut found = stands_after(files, step, path);
    for deed in deeds {
        found = changed(deed, path, found);
    }
    found
}

// What a request does after a step, where there is one, and these steps behind it.
fn deed_on(
    alloc: Global,
    files: &Files,
    step: Option<&Deed>,
    deeds: &[Deed],
    request: Request,
) -> Result<Deed, NoMemory>
    ensures { IfOk result (λ deed. deed ≡ spec.deed_on request
        (after_deeds (after_step (contents (files_in files.now)) (option_copied step.entry))
        deeds.now)) }
{
    match request {
        Request::Look { path } => match stands(files, step, deeds, path.bytes()) {
            None => Ok(Deed::Miss { path }),
            Some(bytes) => {
                let bytes = bytes.copy(alloc)?;
                Ok(Deed::Read { path, bytes })
            }
        },
        Request::Write { path, bytes } => Ok(Deed::Write { path, bytes }),
        Request::Delete { path } => Ok(Deed::Delete { path }),
        Request::Move { from, to } => match stands(files, step, deeds, from.bytes()) {
            None => Ok(Deed::Miss { path: from }),
            Some(bytes) => {
                let bytes = bytes.copy(alloc)?;
                Ok(Deed::Move { from, to, bytes })
            }
        },
    }
}

// How a step was answered.
fn answer_to(alloc: Global, deed: &Deed) -> Result<Answer, NoMemory>
    ensures { IfOk result (λ answer. answer ≡ spec.answer deed.now) }
{
    match deed {
        Deed::Read { bytes, .. } => Ok(Answer::Found {
            bytes: bytes.copy(alloc)?,
        }),
        Deed::Miss { .. } => Ok(Answer::Missing),
        Deed::Write { .. } | Deed::Delete { .. } => Ok(Answer::Done),
        Deed::Move { .. } => Ok(Answer::Stands),
    }
}

fn answers_to(alloc: Global, deeds: &[Deed]) -> Result<Answers, NoMemory>
    ensures { IfOk result (λ answers. answers ≡ map spec.answer deeds.now) }
{
    let mut answers = Items::new(alloc, 0)?;
    for deed in deeds {
        answers.push(answer_to(alloc, deed)?)?;
    }
    Ok(answers)
}

/// The answers to steps, and to one more behind them, where there is one.
pub fn answers_with(alloc: Global, deeds: &[Deed], step: Option<&Deed>) -> Result<Answers, NoMemory>
    ensures { IfOk result (λ answers. answers
        ≡ map spec.answer (with_step deeds.now (option_copied step.entry))) }
{
    let mut answers = answers_to(alloc, deeds)?;
    if let Some(deed) = step {
        answers.push(answer_to(alloc, deed)?)?;
    }
    Ok(answers)
}

/// The next step of a command that has done these steps, on the files as they stand; `None` at its
/// end.
pub fn deed_after(
    alloc: Global,
    files: &Files,
    cmd: &Cmd,
    done: &[Deed],
) -> Result<Option<Deed>, NoMemory>
    ensures { IfOk result (λ deed. deed ≡ deed_at_next (contents (files_in files.now))
        (language_next cmd.now (map spec.answer done.now))) }
{
    let answers = answers_to(alloc, done)?;
    let after = next(alloc, cmd, answers.as_slice());
    drop(answers);
    match after? {
        Next::Over { .. } => Ok(None),
        Next::More { request } => Ok(Some(deed_on(alloc, files, None, &[], request)?)),
    }
}

/// Whether a command has come to its end with these answers.
pub fn is_over(alloc: Global, cmd: &Cmd, answers: Answers) -> Result<bool, NoMemory>
    ensures { IfOk result (λ is. is ≡ ends_at (language_next cmd.now answers)) }
{
    let after = next(alloc, cmd, answers.as_slice());
    drop(answers);
    let after = after?;
    let is = matches!(&after, Next::Over { .. });
    drop(after);
    Ok(is)
}

// A request does its step behind these ones, and is answered.
fn do_request(
    alloc: Global,
    files: &Files,
    step: Option<&Deed>,
    request: Request,
    answers: &mut Answers,
    deeds: &mut Deeds,
) -> Result<(), NoMemory>
    ensures answers { OnOk result (answers.new ≡ answers.old
        ++ spec.answer (spec.deed_on request
        (after_deeds (after_step (contents (files_in files.now)) (option_copied step.entry))
        deeds.old)) ∷ []) }
    ensures deeds { OnOk result (deeds.new ≡ deeds.old
        ++ spec.deed_on request
        (after_deeds (after_step (contents (files_in files.now)) (option_copied step.entry))
        deeds.old) ∷ []) }
{
    let deed = deed_on(alloc, files, step, deeds.as_slice(), request)?;
    match add_answer(alloc, answers, &deed) {
        Err(fault) => {
            drop(deed);
            Err(fault)
        }
        Ok(()) => deeds.push(deed),
    }
}

// Adds how a step was answered.
fn add_answer(alloc: Global, answers: &mut Answers, deed: &Deed) -> Result<(), NoMemory>
    ensures { OnOk result (answers.new ≡ answers.old ++ spec.answer deed.now ∷ []) }
{
    answers.push(answer_to(alloc, deed)?)
}

/// What a command does from these answers on to its end, on the files after a step, where there is
/// one, which no one else changes.
pub fn rest_of(
    alloc: Global,
    files: &Files,
    step: Option<&Deed>,
    cmd: &Cmd,
    seen: Answers,
) -> Result<Rest, NoMemory>
    ensures { IfOk result (λ rest. spec.IsDoing language_next cmd.now seen
        (after_step (contents (files_in files.now)) (option_copied step.entry))
        (doing_of rest)) }
{
    let mut answers = seen;
    let mut deeds = Items::new(alloc, 0)?;
    'steps: loop {
        match next(alloc, cmd, answers.as_slice())? {
            Next::Over { status, output } => {
                return Ok(Rest {
                    deeds,
                    status,
                    output,
                });
            }
            Next::More { request } => {
                do_request(alloc, files, step, request, &mut answers, &mut deeds)?;
            }
        }
    }
}

// The record of a step.
fn op_for(alloc: Global, deed: &Deed) -> Result<Op, NoMemory>
    ensures { IfOk result (λ op. op ≡ op_of deed.now) }
{
    match deed {
        Deed::Read { path, .. } => Ok(Op::Read(path.copy(alloc)?)),
        Deed::Miss { path } => Ok(Op::Miss(path.copy(alloc)?)),
        Deed::Write { path, .. } => Ok(Op::Write(path.copy(alloc)?)),
        Deed::Delete { path } => Ok(Op::Delete(path.copy(alloc)?)),
        Deed::Move { from, to, .. } => Ok(Op::Move(from.copy(alloc)?, to.copy(alloc)?)),
    }
}

/// The records of steps, and of these behind them.
pub fn records_of(alloc: Global, deeds: &[Deed], more: &[Deed]) -> Result<Ops, NoMemory>
    ensures { IfOk result (λ records. records ≡ map op_of (deeds.now ++ more.now)) }
{
    let mut records = Items::new(alloc, 0)?;
    add_records(alloc, &mut records, deeds)?;
    add_records(alloc, &mut records, more)?;
    Ok(records)
}

fn add_records(alloc: Global, records: &mut Ops, deeds: &[Deed]) -> Result<(), NoMemory>
    ensures { OnOk result (records.new ≡ records.old ++ map op_of deeds.now) }
{
    for deed in deeds {
        records.push(op_for(alloc, deed)?)?;
    }
    Ok(())
}
