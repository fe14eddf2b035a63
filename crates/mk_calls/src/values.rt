//! Values of modifiers as pieces of a region.
use crate::refused::Refused;
use crate::texts::{are, texts};
use mk_bytes::{NoMemory, Texts};
use mk_mods::{Mod, ModFault, Val, apply, text, with_items, words_of};
use mk_pool::Region;
use std::alloc::Global;

// Whether this text is printed behind a modifier, and so many bytes are placed for it.
fn is_behind(
    alloc: Global,
    modifier: &Mod,
    from: &[u8],
    wanted: &[u8],
    more: usize,
) -> Result<bool, ModFault> {
    let mut region = Region::new(alloc)?;
    let val = Val::new(alloc, &mut region, from)?;
    let len = region.len();
    let val = apply(alloc, &mut region, val, modifier)?;
    let text = text(alloc, &region, &val)?;
    Ok(text.bytes() == wanted && region.len() - len == more && val.end() <= region.len())
}

#[test]
fn words_are_put_in_order(rt: HostRuntime) {
    let behind = is_behind(rt.alloc(), &Mod::Sort, b"b a", b"a b", 0);
    assert!(rt; behind == Ok(true));
}

#[test]
fn heads_place_nothing(rt: HostRuntime) {
    let behind = is_behind(rt.alloc(), &Mod::Head, b"b/x a", b"b .", 0);
    assert!(rt; behind == Ok(true));
}

#[test]
fn other_letters_are_placed(rt: HostRuntime) {
    let behind = is_behind(rt.alloc(), &Mod::Upper, b"a b", b"A B", 3);
    assert!(rt; behind == Ok(true));
}

// The words of the items `c d` and `e`.
fn words_of_items(alloc: Global) -> Result<Texts, NoMemory> {
    let mut region = Region::new(alloc)?;
    let val = Val::new(alloc, &mut region, b"b a")?;
    let items = texts(alloc, &[b"c d", b"e"])?;
    let val = with_items(alloc, &mut region, val, &items)?;
    words_of(alloc, &region, &val)
}

#[test]
fn items_have_words(rt: HostRuntime) -> Result<(), Refused> {
    let words = words_of_items(rt.alloc())?;
    assert!(rt; are(&words, &[b"c", b"d", b"e"]));
    Ok(())
}
