//! The children that a build holds.
use crate::refused::Refused;
use mk_bytes::NoMemory;
use mk_world::{Kids, Ticket};
use std::alloc::Global;

// Room for two children, of which one is added and taken out again; its ticket.
fn add_and_take(alloc: Global) -> Result<u32, NoMemory> {
    let mut kids: Kids<u8> = Kids::new(alloc, 2)?;
    kids.add(Ticket(7), 1);
    let (ticket, _) = kids.take(0);
    kids.finish();
    Ok(ticket.0)
}

#[test]
fn children_are_taken_out_and_given_up(rt: HostRuntime) -> Result<(), Refused> {
    assert_eq!(rt; add_and_take(rt.alloc())?, 7);
    Ok(())
}
