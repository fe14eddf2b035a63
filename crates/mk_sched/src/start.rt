//! What a scheduler keeps at the start of a run.
ghost use Rattle.std.specs.Prelude.{◌≡◌, ◌+◌, ◌*◌, ◌<◌, ◌==◌, ◌^◌, [], ℕ, if◌then◌else◌, length};
ghost use Rattle.std.specs.Prelude.{get_or, IsTrue, IfOk, OnOk};
ghost use Rattle.mk_plan.specs.Plans.{is_behind, node_at};
ghost use Rattle.mk_sched.specs.Counts.{AreFollowers, times};
ghost use Rattle.mk_sched.specs.Least.{IsTournament, entry};
ghost use Rattle.mk_sched.specs.Schedule.{predecessors};

use crate::followers::Followers;
use crate::least::compare_all;
use mk_bytes::NoMemory;
use mk_plan::Plan;
use std::alloc::Global;

/// How many predecessors each node has.
pub fn counts_of(alloc: Global, plan: &Plan) -> Result<Vec<usize>, NoMemory>
    ensures long { IfOk result (λ counts. length counts.items ≡ length plan.now) }
    ensures each { IfOk result (λ counts. (node : ℕ) → node < length plan.now
        → get_or counts.items node 0 ≡ length (node_at plan.now node).before) }
    ensures short { length plan.now < 2 ^ 32 }
{
    let mut counts = vec![in alloc; 0; plan.len() as usize]?;
    for n in 0..plan.len() {
        counts[n as usize] = plan.before(n).len();
    }
    Ok(counts)
}

// Nodes without followers.
fn no_followers(alloc: Global, count: usize) -> Result<Vec<Followers>, NoMemory>
    ensures long { IfOk result (λ followers. length followers.items ≡ count) }
    ensures none { IfOk result (λ followers. (node : ℕ) → get_or followers.items node [] ≡ []) }
{
    let mut followers = Vec::with_capacity(alloc, count)?;
    for _ in 0..count {
        followers.push(Followers::none(alloc))?;
    }
    Ok(followers)
}

// Puts a node among the followers of one.
fn follow_one(followers: &mut Vec<Followers>, one: usize, n: u32) -> Result<(), NoMemory>
    requires within { one < length followers.old.items }
    ensures long { length followers.new.items ≡ length followers.old.items }
    ensures ok { OnOk result ((other node : ℕ) → other < length followers.old.items
        → times node (get_or followers.new.items other [])
        ≡ times node (get_or followers.old.items other [])
        + (if n == node then (if one == other then 1 else 0) else 0)) }
{
    followers[one].push(n)?;
    Ok(())
}

// Puts a node among the followers of each of its predecessors.
fn follow(followers: &mut Vec<Followers>, before: &[u32], n: u32) -> Result<(), NoMemory>
    requires within { IsTrue (is_behind (length followers.old.items) before.now) }
    ensures long { length followers.new.items ≡ length followers.old.items }
    ensures ok { OnOk result ((one node : ℕ) → one < length followers.old.items
        → times node (get_or followers.new.items one [])
        ≡ times node (get_or followers.old.items one [])
        + (if n == node then times one before.now else 0)) }
{
    for one in before {
        follow_one(followers, *one as usize, n)?;
    }
    Ok(())
}

/// What each node is a predecessor of.
pub fn followers_of(alloc: Global, plan: &Plan) -> Result<Vec<Followers>, NoMemory>
    ensures { IfOk result (λ followers.
        AreFollowers (predecessors plan.now) followers.items) }
{
    let mut followers = no_followers(alloc, plan.len() as usize)?;
    for n in 0..plan.len() {
        follow(&mut followers, plan.before(n).as_slice(), n)?;
    }
    Ok(followers)
}

/// Enters each node by its count, where no node is decided.
pub fn entries_of(alloc: Global, counts: &[usize]) -> Result<Vec<u32>, NoMemory>
    requires short { length counts.now < 2 ^ 32 }
    ensures tournament { IfOk result (λ entries. IsTournament (length counts.now) entries.items) }
    ensures each { IfOk result (λ entries. (node : ℕ) → node < length counts.now
        → entry entries.items (length counts.now + node)
        ≡ (if get_or counts.now node 0 == 0 then node else length counts.now)) }
{
    let count = counts.len();
    let mut entries = vec![in alloc; count as u32; 2 * count]?;
    for node in 0..count {
        if counts[node] == 0 {
            entries[count + node] = node as u32;
        }
    }
    compare_all(&mut entries, count);
    Ok(entries)
}
