ghost use Rattle.std.specs.Prelude.{◌≡◌, ◌↔◌, true, [], IsTrue, IfOk, OnOk, OnErr};
ghost use Rattle.std.specs.Option.{option_copied};
ghost use Rattle.mk_bytes.specs.Paths.{is_clean_directory};
ghost use Rattle.mk_scopes.specs.Scopes as spec;
ghost use Rattle.mk_scopes.specs.Tables.{all_assigned};

use crate::table::Table;
use mk_bytes::{NoMemory, Pairs, Text};
use std::alloc::Global;
use std::marker::Model;

/// What a process is given: the variables of its environment, of which the last of a name counts,
/// its current directory, and the name by which make was called.
#[derive(Drop)]
pub struct Env {
    pub vars: Pairs,
    pub cwd: Text,
    pub program: Text,
}

/// The classes that are assigned to. The command line's variables stand above the global ones.
#[derive(Clone, Copy, PartialEq, Eq)]
pub enum Class {
    Global,
    Command,
}

/// All variables of a run. Contracts see three tables, each the list of its names and values, each
/// name once, whether the environment stands above the globals, and the directory.
#[derive(Drop)]
pub struct Scopes {
    env: Table,
    globals: Table,
    commands: Table,
    env_first: bool,
    cwd: Text,
}

impl Model for Scopes {
    ghost use Rattle.std.specs.Prelude.{IsTrue};
    ghost use Rattle.mk_bytes.specs.Paths.{is_clean_directory};
    ghost use Rattle.mk_scopes.specs.Scopes.{Variables};

    ghost Value = { Variables };

    ghost view = { λ s. record {
      env = s.env;
      globals = s.globals;
      commands = s.commands;
      env_first = s.env_first;
      cwd = s.cwd;
    } };

    ghost invariant = { λ s. IsTrue (is_clean_directory s.cwd) };
}

fn table_of(alloc: Global, vars: &Pairs) -> Result<Table, NoMemory>
    ensures { IfOk result (λ table. table ≡ all_assigned [] vars.now) }
{
    let mut table = Table::new(alloc);
    for var in vars.as_slice() {
        table.assign(var.name.bytes(), var.value.bytes())?;
    }
    Ok(table)
}

fn first_globals(alloc: Global, cwd: &[u8], program: &[u8]) -> Result<Table, NoMemory>
    ensures { IfOk result (λ table. table ≡ spec.first_globals cwd.now program.now) }
{
    let mut table = Table::new(alloc);
    table.assign(b".CURDIR", cwd)?;
    table.assign(b".newline", b"\n")?;
    table.assign(b"MAKE", program)?;
    Ok(table)
}

impl Scopes {
    /// The variables of the environment, with the globals `.CURDIR`, `.newline` and `MAKE`, the
    /// name by which make was called. With `env_first` the environment stands above the globals
    /// (make(1), `-e`).
    pub fn new(alloc: Global, env: &Env, env_first: bool) -> Result<Scopes, NoMemory>
        requires { IsTrue (is_clean_directory env.now.cwd) }
        ensures { IfOk result (λ scopes. scopes ≡ spec.first_scopes env.now env_first) }
    {
        let cwd = env.cwd.copy(alloc)?;
        let globals = first_globals(alloc, cwd.bytes(), env.program.bytes())?;
        Ok(Scopes {
            env: table_of(alloc, &env.vars)?,
            globals,
            commands: Table::new(alloc),
            env_first,
            cwd,
        })
    }

    /// The directory of every command, against which all paths are cleaned. It is absolute and
    /// clean, whatever `.CURDIR` is set to. Takes no memory.
    pub fn cwd(&self) -> &[u8]
        ensures value { result.now ≡ self.now.cwd }
        ensures clean { IsTrue (is_clean_directory self.now.cwd) }
    {
        self.cwd.bytes()
    }

    /// The value of a variable as it was assigned: the command line's, else the first of the
    /// globals and the environment that has the name. `None` exactly where no class has it.
    /// Takes no memory.
    pub fn get(&self, name: &[u8]) -> Option<&Text>
        ensures { option_copied result ≡ spec.raw_value self.now name.now }
    {
        if let Some(value) = self.commands.get(name) {
            return Some(value);
        }
        let (first, second) = if self.env_first {
            (&self.env, &self.globals)
        } else {
            (&self.globals, &self.env)
        };
        if let Some(value) = first.get(name) {
            return Some(value);
        }
        second.get(name)
    }

    /// Gives a variable of a class this value. A global of a name that the command line has set is
    /// left as it is.
    pub fn assign(&mut self, class: Class, name: &[u8], value: &[u8]) -> Result<(), NoMemory>
        ensures ok { OnOk result (self.new ≡ spec.assigned_in self.old class name.now value.now) }
        ensures err { OnErr result (self.new ≡ self.old) }
    {
        match class {
            Class::Command => self.commands.assign(name, value),
            Class::Global => {
                if self.commands.get(name).is_some() {
                    return Ok(());
                }
                self.globals.assign(name, value)
            }
        }
    }

    /// Appends to a variable of a class, after one space. A name without a value in the class first
    /// takes the environment's; where there is none it is set. A global of a name that the command
    /// line has set is appended to all the same, below the command line's value. It costs what it
    /// appends (make(1), `+=`).
    pub fn append(&mut self, class: Class, name: &[u8], value: &[u8]) -> Result<(), NoMemory>
        ensures ok { OnOk result (self.new ≡ spec.appended_in self.old class name.now value.now) }
        ensures err { OnErr result (self.new ≡ self.old) }
    {
        match class {
            Class::Command => self.commands.append(name, value, &self.env),
            Class::Global => self.globals.append(name, value, &self.env),
        }
    }

    /// Whether these are the same variables with the same values, each class in the same order, in
    /// the same directory. Takes no memory.
    pub fn is_same(&self, other: &Scopes) -> bool
        ensures { (result ≡ true) ↔ (self.now ≡ other.now) }
    {
        self.env_first == other.env_first
            && self.cwd.bytes() == other.cwd.bytes()
            && self.commands.is_same(&other.commands)
            && self.globals.is_same(&other.globals)
            && self.env.is_same(&other.env)
    }

    /// Takes the global of a name away, if there is one; the command line's variable and the
    /// environment's stay. Takes no memory (make(1), `.undef`).
    pub fn undef(&mut self, name: &[u8])
        ensures { self.new ≡ spec.without_global self.old name.now }
    {
        self.globals.remove(name);
    }
}
