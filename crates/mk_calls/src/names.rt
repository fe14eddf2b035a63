//! Names of nodes, and the region in which words lie.
use crate::refused::Refused;
use mk_bytes::NoMemory;
use mk_pool::{MAX_NAMES, Name, Piece, Pool, PoolFault, Region};
use std::alloc::Global;

const INTERNED: [(&str, &[u8], u32); 3] = [
    ("the first text", b"a", 0),
    ("the same text again", b"a", 0),
    ("another text", b"b", 1),
];

// What the first row shows that is not so, one behind the other.
fn first_other(pool: &mut Pool) -> Result<Option<&'static str>, PoolFault> {
    for row in &INTERNED {
        let (shows, text, name) = *row;
        if pool.intern(text)? != Name(name) {
            return Ok(Some(shows));
        }
    }
    Ok(None)
}

// Whether a pool has two texts, of which `b` is the second one and `c` is none.
fn has_two(pool: &Pool) -> bool {
    pool.find(b"c").is_none() && pool.len() == 2 && pool.text(Name(1)) == b"b".as_slice()
}

// The same of a new pool, and whether it has the two texts then.
fn shared(alloc: Global) -> Result<(Option<&'static str>, bool), PoolFault> {
    let mut pool = Pool::new(alloc)?;
    let other = first_other(&mut pool);
    let has_two = has_two(&pool);
    drop(pool);
    Ok((other?, has_two))
}

#[test]
fn equal_texts_share_a_name(rt: HostRuntime) -> Result<(), Refused> {
    let (other, has_two) = shared(rt.alloc())?;
    assert_eq!(rt; other, None);
    assert!(rt; has_two);
    Ok(())
}

// The four bytes of each number below the most names, in this order.
fn fill(pool: &mut Pool) -> Result<(), PoolFault> {
    for n in 0..MAX_NAMES {
        pool.intern(&(n as u32).to_be_bytes())?;
    }
    Ok(())
}

// Whether a pool has that many texts, takes no new one, and still has the first.
fn is_full(pool: &mut Pool) -> bool {
    pool.len() == 1_048_576
        && pool.intern(b"x") == Err(PoolFault::Full)
        && pool.intern(b"\0\0\0\0") == Ok(Name(0))
}

// Whether a pool with all names is full.
fn is_filled(alloc: Global) -> Result<bool, PoolFault> {
    let mut pool = Pool::new(alloc)?;
    let filled = fill(&mut pool);
    let is_full = is_full(&mut pool);
    drop(pool);
    filled.and(Ok(is_full))
}

#[test]
fn a_full_pool_takes_no_new_text(rt: HostRuntime) -> Result<(), Refused> {
    assert!(rt; is_filled(rt.alloc())?);
    Ok(())
}

// A region with `ab cd` in it, and where that lies.
fn placed(alloc: Global) -> Result<(Region, Piece), NoMemory> {
    let mut region = Region::new(alloc)?;
    region.reserve(5)?;
    let piece = region.place(b"ab cd");
    Ok((region, piece))
}

// Whether the second word lies there, and the region goes back to four bytes.
fn goes_back(region: &mut Region) -> bool {
    if region.len() != 7 {
        return false;
    }
    let has_word = region.bytes(Piece { start: 5, end: 7 }) == b"cd".as_slice();
    region.back(4);
    has_word && region.len() == 4
}

#[test]
fn a_region_places_and_goes_back(rt: HostRuntime) -> Result<(), Refused> {
    let (mut region, piece) = placed(rt.alloc())?;
    assert!(rt; piece == Piece { start: 2, end: 7 });
    assert!(rt; goes_back(&mut region));
    Ok(())
}
