// Moving a line to slots with a cluster, and back. The 24 bytes that every slot has are copied.
#![tactic(auto)]

ghost use Rattle.std.specs.Prelude.{map, ◌≡◌, ◌≤◌, length};
ghost use Rattle.ints.specs.Limits.{whole32};
ghost use Rattle.slots.specs.Slot.{clustered_size, slot_of, slot_size};
ghost use Rattle.slots.specs.Fields.{with_cluster};
ghost use Rattle.slots.specs.code.Shape.{Fits};
ghost use Rattle.slots.specs.Line.{shape_with, slots};
ghost use Rattle.slots.specs.Numbered.{is_numbered_from, numbered_from};

use ints::big_endian::{read_i32, write_i32};
use slots::layout::{CLUSTER, CLUSTERED_SIZE, SLOT_SIZE};

// The line moved to slots with a cluster: each slot's number. Slots are named by their place: of `as_chunks_mut` no
// contract says what the target ends as.
pub fn number_slots(line: &[u8], n: usize, target: &mut [u8])
    requires { Fits (shape_with slot_size n) line.now × Fits (shape_with clustered_size n) target.old
        × (n ≤ whole32) }
    ensures { slots (shape_with clustered_size n) target.new
        ≡ numbered_from 0 (slots (shape_with slot_size n) line.now) }
{
    for i in 0..n {
        let a = i * SLOT_SIZE;
        let b = i * CLUSTERED_SIZE;
        let slot = &line[a..a + SLOT_SIZE];
        copy_numbered(slot, &mut target[b..b + CLUSTERED_SIZE], i as u32);
    }
}

// The line moved to slots without one.
pub fn drop_clusters(line: &[u8], n: usize, target: &mut [u8])
    requires { Fits (shape_with clustered_size n) line.now × Fits (shape_with slot_size n) target.old }
    ensures { slots (shape_with slot_size n) target.new
        ≡ map (with_cluster 0) (slots (shape_with clustered_size n) line.now) }
{
    for i in 0..n {
        let a = i * CLUSTERED_SIZE;
        let b = i * SLOT_SIZE;
        let slot = &line[a..a + CLUSTERED_SIZE];
        copy_slot(slot, &mut target[b..b + SLOT_SIZE]);
    }
}

// Is each cluster its slot's number? The clauses alone read n.
pub fn is_numbered(line: &[u8], n: usize) -> bool
    requires { Fits (shape_with clustered_size n) line.now }
    ensures { result ≡ is_numbered_from 0 (slots (shape_with clustered_size n) line.now) }
{
    let (slots, _) = line.as_chunks::<CLUSTERED_SIZE>();
    slots.iter().enumerate().all(|(i, slot)| cluster(slot) == i)
}

// A slot's cluster.
fn cluster(slot: &[u8]) -> usize
    requires { clustered_size ≤ length slot.now }
    ensures { result ≡ (slot_of slot.now).cluster }
{
    read_i32(slot, CLUSTER) as usize
}

// One slot copied, with a cluster. The cluster is written first: its four bytes are then one store.
fn copy_numbered(from: &[u8], to: &mut [u8], cluster: u32)
    requires { (slot_size ≤ length from.now) × (clustered_size ≤ length to.old) }
    ensures { slot_of to.new ≡ with_cluster cluster (slot_of from.now) }
{
    write_i32(to, CLUSTER, cluster);
    copy_slot(from, to);
}

// The first 24 bytes of a slot copied. What the target has for a cluster stays.
fn copy_slot(from: &[u8], to: &mut [u8])
    requires { (slot_size ≤ length from.now) × (slot_size ≤ length to.old) }
    ensures { slot_of to.new ≡ with_cluster (slot_of to.old).cluster
        (slot_of from.now) }
{
    to[..SLOT_SIZE].copy_from_slice(&from[..SLOT_SIZE]);
}
