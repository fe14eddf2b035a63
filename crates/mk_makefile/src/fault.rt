//! What is wrong with makefiles, and how their reading ends otherwise.
ghost use Rattle.std.specs.Prelude.{◌≡◌};
ghost use Rattle.mk_makefile.specs.ReadFaults as spec;

use mk_ast::AstFault;
use mk_blocks::{BlockFault, FileFault, Wrong};
use mk_bytes::{Kind, NoMemory, Text};
use mk_cond::CondFault;
use mk_depline::DepFault;
use mk_expand::ExpandFault;
use mk_rules::RuleFault;
use mk_world::{SinkFault, WorldFault};
use std::alloc::Global;

/// What is wrong with a line of a makefile, or with an assignment of the command line.
#[derive(Drop)]
pub enum What {
    /// The logical line is longer than 1,048,576 bytes.
    TooLong,
    /// The physical line holds a zero byte.
    Zero,
    /// A command line follows no dependency line.
    LostCommand,
    /// The name of a variable is empty once it is expanded.
    EmptyName,
    /// The condition of a directive has a fault of its grammar at this place, counted from 0 at the
    /// beginning of what follows the word and its blanks. A fault of a reference is `Expand`.
    Cond(usize),
    /// A `.for` has no word `in`, or no name before it.
    ForForm,
    /// A `.for` has so many words for so many names, and these do not divide those.
    Count(usize, usize),
    /// An `.else` or `.elif` stands where no if-block is open, or behind its `.else`.
    Else,
    /// An `.endif` stands where the innermost open block is no if-block.
    Endif,
    /// An `.endfor` stands where the innermost open block is no loop.
    Endfor,
    /// A `.break` stands outside of loops.
    Break,
    /// The block that begins here is open at the end of the file.
    OpenBlock,
    /// What `.include` is given is neither a name in quotes nor one in angle brackets.
    IncludeForm,
    /// The file of this name is missing.
    Include(Text),
    /// An `.export` or `.unexport` has no word, or one that is no name of letters, digits and `_`
    /// with no digit first.
    ExportForm,
    /// A dependency line has no operator.
    NoOperator,
    /// A dependency line has the operator `::`.
    DoubleColon,
    /// A dependency line has no target, or none is left of it: its patterns match nothing.
    NoTargets,
    /// A special target stands beside another target.
    MixedSpecial,
    /// A target stood with the other operator before.
    Operators,
    /// A brace is open in a dependency line.
    Brace,
    /// A rule from one suffix to another has sources.
    RuleSources,
    /// A name would be one node more than there may be. `read` answers with `Limit` then.
    TooManyNames,
    /// An `.error` with this text.
    Error(Text),
    /// A name or a text has no value. The fault is never want of memory, nor a failure of the
    /// outside.
    Expand(ExpandFault),
}

impl From<RuleFault> for Refusal {
    ghost use Rattle.std.specs.Prelude.{◌≡◌};
    ghost use Rattle.mk_makefile.specs.Refusals.{of_rule_fault};

    ghost from_gives = { λ given fault. fault ≡ of_rule_fault given };

    fn from(fault: RuleFault) -> Refusal {
        match fault {
            RuleFault::Operators => Refusal::Wrong(What::Operators),
            RuleFault::TooManyNames => Refusal::Wrong(What::TooManyNames),
            RuleFault::NoMemory => Refusal::NoMemory,
        }
    }
}

impl From<DepFault> for Refusal {
    ghost use Rattle.std.specs.Prelude.{◌≡◌};
    ghost use Rattle.mk_makefile.specs.Refusals.{of_line_fault};

    ghost from_gives = { λ given fault. fault ≡ of_line_fault given };

    fn from(fault: DepFault) -> Refusal {
        match fault {
            DepFault::NoOperator => Refusal::Wrong(What::NoOperator),
            DepFault::DoubleColon => Refusal::Wrong(What::DoubleColon),
            DepFault::NoTargets => Refusal::Wrong(What::NoTargets),
            DepFault::MixedSpecial => Refusal::Wrong(What::MixedSpecial),
            DepFault::Brace => Refusal::Wrong(What::Brace),
            DepFault::RuleSources => Refusal::Wrong(What::RuleSources),
            DepFault::NoMemory => Refusal::NoMemory,
        }
    }
}

impl From<AstFault> for Refusal {
    ghost use Rattle.std.specs.Prelude.{◌≡◌};
    ghost use Rattle.mk_makefile.specs.Refusals.{of_ast};

    ghost from_gives = { λ given fault. fault ≡ of_ast given };

    fn from(fault: AstFault) -> Refusal {
        Refusal::from(ExpandFault::from(fault))
    }
}

/// How a call of the outside failed.
#[derive(Clone, Copy, PartialEq, Eq)]
pub enum Outside {
    /// The world failed, and has counted it.
    World,
    /// The sink failed, and has counted it.
    Sink,
    /// The world found no memory.
    NoMemory,
}

/// Why a line is refused.
#[derive(Drop)]
pub enum Refusal {
    /// The first thing that is wrong.
    Wrong(What),
    /// The outside failed so.
    Failed(Outside),
    /// Memory ran out.
    NoMemory,
}

impl From<NoMemory> for Refusal {
    ghost use Rattle.std.specs.Prelude.{◌≡◌};
    ghost use Rattle.mk_makefile.specs.declared.fault.Refusal.TheVariants.{NoMemory as no_memory};

    ghost from_gives = { λ _ fault. fault ≡ no_memory };

    fn from(_: NoMemory) -> Refusal {
        Refusal::NoMemory
    }
}

impl From<ExpandFault> for Refusal {
    ghost use Rattle.std.specs.Prelude.{◌≡◌};
    ghost use Rattle.mk_makefile.specs.Refusals.{of_expand};

    ghost from_gives = { λ given fault. fault ≡ of_expand given };

    fn from(fault: ExpandFault) -> Refusal {
        match fault {
            ExpandFault::NoMemory => Refusal::NoMemory,
            ExpandFault::Failed => Refusal::Failed(Outside::World),
            other => Refusal::Wrong(What::Expand(other)),
        }
    }
}

impl From<CondFault> for Refusal {
    ghost use Rattle.std.specs.Prelude.{◌≡◌};
    ghost use Rattle.mk_makefile.specs.Refusals.{of_cond};

    ghost from_gives = { λ given fault. fault ≡ of_cond given };

    fn from(fault: CondFault) -> Refusal {
        match fault {
            CondFault::Bad(at) => Refusal::Wrong(What::Cond(at)),
            CondFault::TooDeep(at) => Refusal::Wrong(What::Cond(at)),
            CondFault::Tree(fault) => Refusal::Wrong(What::Expand(ExpandFault::Tree(fault))),
            CondFault::NoMemory => Refusal::NoMemory,
        }
    }
}

impl From<WorldFault> for Refusal {
    ghost use Rattle.std.specs.Prelude.{◌≡◌};
    ghost use Rattle.mk_makefile.specs.Refusals.{of_world};

    ghost from_gives = { λ given fault. fault ≡ of_world given };

    fn from(fault: WorldFault) -> Refusal {
        match fault {
            WorldFault::Failed => Refusal::Failed(Outside::World),
            WorldFault::NoMemory => Refusal::Failed(Outside::NoMemory),
        }
    }
}

impl From<SinkFault> for Refusal {
    ghost use Rattle.std.specs.Prelude.{◌≡◌};
    ghost use Rattle.mk_makefile.specs.declared.fault.Outside.TheVariants.{Sink as sink};
    ghost use Rattle.mk_makefile.specs.declared.fault.Refusal.TheVariants.{Failed as failed};

    ghost from_gives = { λ _ fault. fault ≡ failed sink };

    fn from(_: SinkFault) -> Refusal {
        Refusal::Failed(Outside::Sink)
    }
}

/// Why the makefiles of a run could not be read.
#[derive(Drop)]
pub enum ReadFault {
    /// The makefile of this name, as the command line has it, is missing.
    NoFile(Text),
    /// A file, a line of it, counted from 1, and the first thing that is wrong. A makefile has the
    /// name that the command line has, and an included one the path that was read. For an
    /// assignment of the command line the name is empty and the line is 0.
    Bad(Text, u32, What),
    /// A count would pass this number.
    Limit(Kind, u64),
    /// A call of the world failed.
    World,
    /// A write of a message failed.
    Sink,
    /// Memory ran out.
    NoMemory,
}

impl From<NoMemory> for ReadFault {
    ghost use Rattle.std.specs.Prelude.{◌≡◌};
    ghost use Rattle.mk_makefile.specs.declared.fault.ReadFault.TheVariants.{NoMemory as no_memory};

    ghost from_gives = { λ _ fault. fault ≡ no_memory };

    fn from(_: NoMemory) -> ReadFault {
        ReadFault::NoMemory
    }
}

/// A fault of the makefiles or of the command line.
#[derive(Drop)]
pub enum Fault {
    /// As `ReadFault::NoFile`.
    NoFile(Text),
    /// As `ReadFault::Bad`.
    Bad(Text, u32, What),
    /// As `ReadFault::Limit`.
    Limit(Kind, u64),
}

impl From<Fault> for ReadFault {
    ghost use Rattle.std.specs.Prelude.{◌≡◌};
    ghost use Rattle.mk_makefile.specs.ReadFaults.{of_fault};

    ghost from_gives = { λ given fault. fault ≡ of_fault given };

    fn from(fault: Fault) -> ReadFault {
        match fault {
            Fault::NoFile(file) => ReadFault::NoFile(file),
            Fault::Bad(file, line, what) => ReadFault::Bad(file, line, what),
            Fault::Limit(kind, most) => ReadFault::Limit(kind, most),
        }
    }
}

/// Why reading stops.
#[derive(Drop)]
pub enum Stop {
    /// A fault of the makefiles or of the command line.
    Fault(Fault),
    /// The outside failed so.
    Failed(Outside),
    /// Memory ran out.
    NoMemory,
}

impl From<NoMemory> for Stop {
    ghost use Rattle.std.specs.Prelude.{◌≡◌};
    ghost use Rattle.mk_makefile.specs.declared.fault.Stop.TheVariants.{NoMemory as no_memory};

    ghost from_gives = { λ _ fault. fault ≡ no_memory };

    fn from(_: NoMemory) -> Stop {
        Stop::NoMemory
    }
}

impl From<FileFault<What, Outside>> for Stop {
    ghost use Rattle.std.specs.Prelude.{◌≡◌};
    ghost use Rattle.mk_makefile.specs.ReadFaults.{of_file};

    ghost from_gives = { λ given fault. fault ≡ of_file given };

    fn from(fault: FileFault<What, Outside>) -> Stop {
        match fault {
            FileFault::Bad(_, _, Wrong::Line(What::TooManyNames)) => {
                Stop::Fault(Fault::Limit(Kind::Names, 1_048_576))
            }
            FileFault::Bad(name, number, wrong) => {
                Stop::Fault(Fault::Bad(name, number, what_of(wrong)))
            }
            FileFault::TooManyLines => Stop::Fault(Fault::Limit(Kind::Lines, 4_194_304)),
            FileFault::TooManyFiles => Stop::Fault(Fault::Limit(Kind::Includes, 64)),
            FileFault::Failed(failure) => Stop::Failed(failure),
            FileFault::NoMemory => Stop::NoMemory,
        }
    }
}

impl From<Stop> for ReadFault {
    ghost use Rattle.std.specs.Prelude.{◌≡◌};
    ghost use Rattle.mk_makefile.specs.ReadFaults.{of_stop};

    ghost from_gives = { λ given fault. fault ≡ of_stop given };

    fn from(stop: Stop) -> ReadFault {
        match stop {
            Stop::Fault(fault) => ReadFault::from(fault),
            Stop::Failed(Outside::World) => ReadFault::World,
            Stop::Failed(Outside::Sink) => ReadFault::Sink,
            Stop::Failed(Outside::NoMemory) => ReadFault::NoMemory,
            Stop::NoMemory => ReadFault::NoMemory,
        }
    }
}

fn of_block(fault: BlockFault) -> What
    ensures { result ≡ spec.of_block fault }
{
    match fault {
        BlockFault::Else => What::Else,
        BlockFault::EndIf => What::Endif,
        BlockFault::EndFor => What::Endfor,
        BlockFault::Break => What::Break,
        BlockFault::OpenBlock => What::OpenBlock,
    }
}

fn what_of(wrong: Wrong<What>) -> What
    ensures { result ≡ spec.of_wrong wrong }
{
    match wrong {
        Wrong::TooLong => What::TooLong,
        Wrong::Zero => What::Zero,
        Wrong::Block(fault) => of_block(fault),
        Wrong::Line(what) => what,
    }
}

/// A line of no file was refused.
pub fn refused(alloc: Global, refusal: Refusal) -> Stop
    ensures { result ≡ spec.of_refusal refusal }
{
    match refusal {
        Refusal::Wrong(what) => Stop::Fault(Fault::Bad(Text::new(alloc), 0, what)),
        Refusal::Failed(failure) => Stop::Failed(failure),
        Refusal::NoMemory => Stop::NoMemory,
    }
}

/// What is wrong behind the last line of a makefile stands at its line 0.
pub fn refused_at_end(file: Text, refusal: Refusal) -> Stop
    ensures { result ≡ spec.of_end_refusal file refusal }
{
    match refusal {
        Refusal::Wrong(what) => Stop::Fault(Fault::Bad(file, 0, what)),
        Refusal::Failed(failure) => Stop::Failed(failure),
        Refusal::NoMemory => Stop::NoMemory,
    }
}
