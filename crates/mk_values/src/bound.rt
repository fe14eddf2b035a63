//! Variables of `:@`, each of which stands for one word after the other.
ghost use Rattle.std.specs.Prelude.{◌≡◌, ◌<◌, ◌≤◌, [], ◌∷◌, ◌++◌, length, IfOk, IfSome, OnOk};
ghost use Rattle.std.specs.Option.{option_copied};
ghost use Rattle.mk_ast.specs.View.{part_view};
ghost use Rattle.mk_values.specs.Limits.{max_text};
ghost use Rattle.mk_values.specs.Names as spec;
ghost use Rattle.mk_values.specs.Steps.{IsNamed, Lends};

use crate::limit::MAX_TEXT;
use crate::plain::{has_dollar, plain_bytes};
use mk_ast::Part;
use mk_bytes::{NoMemory, Text, is_among};
use std::alloc::Global;
use std::marker::Model;

/// A variable of `:@`, and the word for which it stands. Contracts see the pair of its name and
/// that word.
#[derive(Drop)]
pub struct Binding {
    name: Text,
    word: Vec<u8>,
}

impl Model for Binding {
    ghost use Rattle.mk_bytes.specs.declared.pair.Pair.{Pair};

    ghost Value = { Pair };

    ghost view = { λ binding. record {
      name = binding.name;
      value = binding.word.items;
    } };
}

impl Binding {
    /// A variable that stands for no bytes yet.
    pub fn new(alloc: Global, name: &[u8]) -> Result<Binding, NoMemory>
        ensures { IfOk result (λ binding. binding ≡ record { name = name.now; value = [] }) }
    {
        Ok(Binding {
            name: Text::from_bytes(alloc, name)?,
            word: Vec::new(alloc),
        })
    }

    /// Its name.
    pub fn name(&self) -> &[u8]
        ensures { result.now ≡ self.now.name }
    {
        self.name.bytes()
    }

    /// The word for which it stands.
    pub fn word(&self) -> &[u8]
        ensures { result.now ≡ self.now.value }
    {
        self.word.as_slice()
    }

    /// Lets it stand for another word. It keeps the memory of the word before.
    pub fn stand_for(&mut self, word: &[u8]) -> Result<(), NoMemory>
        ensures { OnOk result (self.new ≡ record { name = self.old.name; value = word.now }) }
    {
        self.word.clear();
        self.word.extend_from_slice(word)?;
        Ok(())
    }
}

/// The word for which a name among those of `:@` stands. The last of a name counts.
pub fn last_value<'b>(bound: &'b [Binding], name: &[u8]) -> Option<&'b [u8]>
    ensures { option_copied result ≡ spec.last_value bound.now name.now }
{
    let mut found = None;
    for binding in bound {
        if name == binding.name() {
            found = Some(binding.word());
        }
    }
    found
}

/// Lets a variable stand for its word above all others.
pub fn bind(bound: &mut Vec<Binding>, binding: Binding) -> Result<(), NoMemory>
    ensures { OnOk result (bound.new.items ≡ bound.old.items ++ binding ∷ []) }
{
    bound.push(binding)?;
    Ok(())
}

/// Takes back the variable that stands above all others.
pub fn unbind(bound: &mut Vec<Binding>) -> Binding
    requires { 0 < length bound.old.items }
    ensures { bound.old.items ≡ bound.new.items ++ result ∷ [] }
{
    bound.pop().unwrap()
}

// The name of a reference without modifiers, where no reference stands in it.
fn plain_name<'t>(part: &'t Part) -> Option<&'t [u8]>
    ensures name { IfSome result (λ name. IsNamed (part_view part.now) name.now) }
    ensures short { IfSome result (λ name. length name.now ≤ max_text) }
{
    match part {
        Part::Named {
            round: _,
            name,
            mods,
        } if mods.is_empty() && name.len() <= MAX_TEXT => Some(name.bytes()),
        Part::Ref {
            round: _,
            name,
            mods,
        } if mods.is_empty() => plain_bytes(name.as_slice()),
        _ => None,
    }
}

/// The name that a reference without modifiers looks up and the word that it finds: that of a
/// variable of `:@` that is not open, where the word has no `$`.
pub fn lent_word<'b, 't>(
    open_names: &[Text],
    bound: &'b [Binding],
    part: &'t Part,
) -> Option<(&'t [u8], &'b [u8])>
    ensures { IfSome result (λ found.
        Lends open_names.now bound.now (part_view part.now) found.0.now found.1.now) }
{
    let name = plain_name(part)?;
    let word = last_value(bound, name)?;
    if word.len() > MAX_TEXT || has_dollar(word) || is_among(open_names, name) {
        return None;
    }
    Some((name, word))
}
