//! Results that become the items of a state one by one.
ghost use Rattle.std.specs.Prelude.{◌≡◌, ◌≤◌, ◌-◌, length, IfOk, SomeIff};
ghost use Rattle.mk_bytes.specs.Agrees.{Agrees};
ghost use Rattle.mk_pieces.specs.Limits.{max_text};
ghost use Rattle.mk_pieces.specs.Pieces.{Begins};
ghost use Rattle.mk_mods.specs.Pieces.{seen, end_of};
ghost use Rattle.mk_mods.specs.Results as spec;
ghost use Rattle.mk_mods.specs.State.{text_of};
ghost use Rattle.mk_pieces.specs.declared.fault.ModFault.TheVariants.{NoMemory as no_memory};

use crate::piece::place_all;
use crate::val::{Separator, Val, room_behind};
use mk_bytes::{Items, NoMemory, Text, Texts};
use mk_pieces::{MAX_TEXT, ModFault};
use mk_pool::Region;
use std::alloc::Global;
use std::marker::Model;

/// Results so far. Contracts see the state whose items they are.
#[derive(Drop)]
pub struct Results {
    items: Texts,
    separator: Separator,
    one_word: bool,
    // How many bytes their printed text may still gain.
    room: usize,
}

impl Model for Results {
    ghost use Rattle.std.specs.Prelude.{◌≡◌, ◌+◌, length};
    ghost use Rattle.mk_pieces.specs.Limits.{max_text};
    ghost use Rattle.mk_mods.specs.State.{State, joined};

    ghost Value = { State };

    ghost view = { λ results. record {
      items = results.items;
      separator = results.separator;
      one_word = results.one_word;
    } };

    ghost invariant = { λ results.
        results.room + length (joined results.separator results.items) ≡ max_text };
}

impl Results {
    /// No results, with the separator and the flag of a state.
    pub fn new(alloc: Global, val: &Val) -> Result<Results, NoMemory>
        ensures { IfOk result (λ results.
            results ≡ spec.none val.now.separator val.now.one_word) }
    {
        Ok(Results {
            items: Items::new(alloc, 0)?,
            separator: val.separator,
            one_word: val.one_word,
            room: MAX_TEXT,
        })
    }

    /// Takes in a result: an item, or none where it is empty and the text is not one word.
    /// `TooLong` exactly where the printed text would pass 4,194,304 bytes.
    pub fn add(&mut self, text: Text) -> Result<(), ModFault>
        ensures { Agrees no_memory (λ done. self.new) result (spec.with_result self.old text) }
    {
        if text.is_empty() && !self.one_word {
            return Ok(());
        }
        let Some(room) = self.room_behind(text.bytes()) else {
            return Err(ModFault::TooLong);
        };
        self.items.push(text)?;
        self.room = room;
        Ok(())
    }

    // The room that one more item leaves.
    fn room_behind(&self, item: &[u8]) -> Option<usize>
        ensures { SomeIff result
            (length (text_of (spec.with_item self.now item.now)) ≤ max_text)
            (max_text - length (text_of (spec.with_item self.now item.now))) }
    {
        match self.items.as_slice().split_last() {
            None => self.room.checked_sub(item.len()),
            Some((left, _)) => room_behind(self.room, self.separator, left.bytes(), item),
        }
    }
}

/// The state of results, placed in the region.
pub fn with_results(alloc: Global, region: &mut Region, results: &Results) -> Result<Val, NoMemory>
    ensures state { IfOk result (λ new. seen region.new.bytes new ≡ results.now) }
    ensures within { IfOk result (λ new. end_of new ≤ length region.new.bytes) }
    ensures begins { Begins region.old.bytes region.new.bytes }
{
    Ok(Val {
        pieces: place_all(alloc, region, results.items.as_slice())?,
        separator: results.separator,
        one_word: results.one_word,
    })
}
