ghost use Rattle.std.specs.Prelude.{◌≡◌, ◌↔◌, true, [], Some, IfOk, OnOk, OnErr};
ghost use Rattle.std.specs.Option.{option_copied};
ghost use Rattle.mk_scopes.specs.Tables as spec;

use indexmap::IndexMap;
use mk_bytes::{NoMemory, Text};
use std::alloc::Global;
use std::marker::Model;

/// The variables of one class, each name once. No call shows their order.
#[derive(Drop)]
pub struct Table {
    alloc: Global,
    values: IndexMap<Vec<u8>, Text>,
}

impl Model for Table {
    ghost use Rattle.std.specs.Prelude.{List};
    ghost use Rattle.mk_bytes.specs.declared.pair.Pair.{Pair};
    ghost use Rattle.mk_scopes.specs.Entries.{pairs_of};

    ghost Value = { List Pair };

    ghost view = { λ table. pairs_of table.values.entries };
}

impl Table {
    pub fn new(alloc: Global) -> Table
        ensures { result ≡ [] }
    {
        Table {
            alloc,
            values: IndexMap::new(alloc),
        }
    }

    /// The value of a name. Takes no memory.
    pub fn get(&self, name: &[u8]) -> Option<&Text>
        ensures { option_copied result ≡ spec.value_in self.now name.now }
    {
        // The command line sets nothing most of the time.
        if self.values.is_empty() {
            return None;
        }
        self.values.get(name)
    }

    /// Gives a name this value, in the place of the one that it has.
    pub fn assign(&mut self, name: &[u8], value: &[u8]) -> Result<(), NoMemory>
        ensures ok { OnOk result (self.new ≡ spec.assigned self.old name.now value.now) }
        ensures err { OnErr result (self.new ≡ self.old) }
    {
        let name = Vec::from_slice(self.alloc, name)?;
        let value = Text::from_bytes(self.alloc, value)?;
        self.values.insert(name, value)?;
        Ok(())
    }

    /// Appends to the value of a name, after one space. A name without a value first takes the one
    /// that `below` has, and is set where there is none. It costs what it appends.
    pub fn append(&mut self, name: &[u8], value: &[u8], below: &Table) -> Result<(), NoMemory>
        ensures ok { OnOk result (self.new
            ≡ spec.appended self.old name.now value.now (spec.value_in below.now name.now)) }
        ensures err { OnErr result (self.new ≡ self.old) }
    {
        match self.values.get_index_of(name) {
            Some(place) => self.append_at(place, value),
            None => self.append_first(name, value, below),
        }
    }

    // Appends to the value at a place, after one space.
    fn append_at(&mut self, place: usize, value: &[u8]) -> Result<(), NoMemory>
        ensures ok { OnOk result (self.new ≡ spec.appended_at self.old place value.now) }
        ensures err { OnErr result (self.new ≡ self.old) }
    {
        let Some(text) = self.values.get_index_mut(place) else {
            return Ok(());
        };
        text.push_both(b" ", value)
    }

    // Appends to a name without a value.
    fn append_first(&mut self, name: &[u8], value: &[u8], below: &Table) -> Result<(), NoMemory>
        ensures ok { OnOk result (self.new ≡ spec.assigned self.old name.now
            (spec.joined (spec.value_in below.now name.now) value.now)) }
        ensures err { OnErr result (self.new ≡ self.old) }
    {
        let Some(before) = below.get(name) else {
            return self.assign(name, value);
        };
        let text = joined(self.alloc, before.bytes(), value)?;
        self.assign(name, text.bytes())
    }

    /// Whether this has the same variables as another table, with the same values and in the same
    /// order. Takes no memory.
    pub fn is_same(&self, other: &Table) -> bool
        ensures { (result ≡ true) ↔ (self.now ≡ other.now) }
    {
        let mut rest = self.values.as_slice();
        let mut behind = other.values.as_slice();
        'entries: while let Some(((name, value), more)) = rest.split_first() {
            let Some(((its_name, its_value), left)) = behind.split_first() else {
                return false;
            };
            if name.as_slice() != its_name.as_slice() || value.bytes() != its_value.bytes() {
                return false;
            }
            rest = more;
            behind = left;
        }
        behind.is_empty()
    }

    /// Takes a name and its value away, if it has one. The last name takes its place, so that it
    /// costs the same however many there are. Takes no memory.
    pub fn remove(&mut self, name: &[u8])
        ensures { self.new ≡ spec.without self.old name.now }
    {
        self.values.swap_remove(name);
    }
}

// A value behind another, after one space.
fn joined(alloc: Global, before: &[u8], value: &[u8]) -> Result<Text, NoMemory>
    ensures { IfOk result (λ text. text ≡ spec.joined (Some before.now) value.now) }
{
    let mut text = Text::from_bytes(alloc, before)?;
    text.push(b" ")?;
    text.push(value)?;
    Ok(text)
}
