//! Names in order of their bytes, and where each stands then.
ghost use Rattle.std.specs.Prelude.{◌≡◌, ◌<◌, ◌≤◌, length, map, slice_index, take, All, IfOk, IsTrue, ◌↔◌};
ghost use Rattle.std.specs.Io.{StartsWith};
ghost use Rattle.std.specs.Vec.{vec_capacity, vec_len};
ghost use Rattle.std.specs.List.Sorted.{IsSorted};
ghost use Rattle.name_order.specs.Names.{AreRisingBy, EndsWith, IsPutLast, SameMembers};
ghost use Rattle.name_order.specs.Places.{ArePlaced, ArePlaces, AreHeaded, HaveOneName, IsHead, IsTold, rank};

use std::alloc::{AllocError, Global};

/// A name's copy, and the name's place among those it was taken from: by the head, then by the name, and by the place where names are
/// the same. The head, which tells most names apart, lies here, where the name's bytes lie elsewhere.
#[derive(PartialEq, Eq, PartialOrd, Ord, Drop)]
struct Placed {
    head: u64,
    name: Vec<u8>,
    place: u32,
}

/// Names in order of their bytes, each once, and for the names that they were taken from the place of each.
#[derive(Drop)]
pub struct Ordered {
    pub names: Vec<Vec<u8>>,
    pub places: Vec<u32>,
}

// A byte of a name, and nought behind its last one.
fn byte_at(name: &[u8], at: usize) -> u8
    ensures { result ≡ slice_index name.now at }
{
    name.get(at).copied().unwrap_or(0)
}

// The first eight bytes as one number, the first of them the highest.
fn head_of(bytes: &[u8]) -> u64
    ensures { IsHead result bytes.now }
{
    u64::from_be_bytes([
        byte_at(bytes, 0),
        byte_at(bytes, 1),
        byte_at(bytes, 2),
        byte_at(bytes, 3),
        byte_at(bytes, 4),
        byte_at(bytes, 5),
        byte_at(bytes, 6),
        byte_at(bytes, 7),
    ])
}

// How many bytes two names begin with together.
fn same_bytes(name: &[u8], other: &[u8]) -> usize
    ensures within { result ≤ length other.now }
    ensures same { take result name.now ≡ take result other.now }
{
    let mut count = 0;
    while count < name.len() && count < other.len() && name[count] == other[count] {
        count += 1;
    }
    count
}

// What all names begin with.
fn front_of<'a>(names: &[&'a [u8]]) -> &'a [u8]
    ensures { All (λ n. StartsWith n.now result.now) names.now }
{
    let Some(first) = names.first() else {
        return b"";
    };
    let mut front = *first;
    for name in names {
        if !name.starts_with(front) {
            front = &front[..same_bytes(name, front)];
        }
    }
    front
}

// Copies of the names with their heads, behind what all names begin with, and places.
fn with_places(alloc: Global, names: &[&[u8]]) -> Result<Vec<Placed>, AllocError>
    requires { length names.now < 4294967296 }
    ensures placed { IfOk result (λ v. ArePlaced (map (λ n. n.now) names.now) v.items) }
    ensures headed { IfOk result (λ v. AreHeaded v.items) }
    ensures many { IfOk result (λ v. length v.items ≡ length names.now) }
{
    let front = front_of(names);
    let mut all = Vec::with_capacity(alloc, names.len())?;
    for (place, name) in names.iter().enumerate() {
        all.push_reserved(Placed {
            head: head_of(&name[front.len()..]),
            name: Vec::from_slice(alloc, name)?,
            place: place as u32,
        });
    }
    Ok(all)
}

// Whether the last name is this one.
fn ends_with(names: &[Vec<u8>], name: &[u8]) -> bool
    ensures { IsTrue result ↔ EndsWith (λ n. n.items) names.now name.now }
{
    match names.last() {
        Some(last) => last.as_slice() == name,
        None => false,
    }
}

// Puts a name behind the others, unless it is the last of them.
fn put_last(names: &mut Vec<Vec<u8>>, name: Vec<u8>)
    requires room { vec_len names.old < vec_capacity names.old }
    ensures put { IsPutLast (λ n. n.items) names.old.items name names.new.items }
    ensures room { vec_capacity names.new ≡ vec_capacity names.old }
{
    if !ends_with(names.as_slice(), name.as_slice()) {
        names.push_reserved(name);
    }
}

// The names of a sorted list, each once, and where each stands then.
fn each_once(alloc: Global, sorted: Vec<Placed>, count: usize) -> Result<Ordered, AllocError>
    requires sorted { IsSorted rank sorted.items }
    requires headed { AreHeaded sorted.items }
    requires within { All (λ p. p.place < count) sorted.items }
    requires apart { HaveOneName sorted.items }
    requires few { length sorted.items < 4294967296 }
    ensures rising { IfOk result (λ o. AreRisingBy (λ n. n.items) o.names.items) }
    ensures same { IfOk result (λ o.
        SameMembers (map (λ p. p.name.items) sorted.items) (map (λ n. n.items) o.names.items)) }
    ensures few { IfOk result (λ o. length o.names.items ≤ length sorted.items) }
    ensures many { IfOk result (λ o. length o.places.items ≡ count) }
    ensures told { IfOk result (λ o.
        All (IsTold (map (λ n. n.items) o.names.items) o.places.items) sorted.items) }
{
    let mut names: Vec<Vec<u8>> = Vec::with_capacity(alloc, sorted.len())?;
    let mut places: Vec<u32> = Vec::from_elem(alloc, 0, count)?;
    for own in sorted {
        let place = own.place as usize;
        put_last(&mut names, own.name);
        places[place] = names.len() as u32 - 1;
    }
    Ok(Ordered { names, places })
}

/// The names in order of their bytes, each once, and the places of all.
pub fn put_in_order(alloc: Global, names: &[&[u8]]) -> Result<Ordered, AllocError>
    requires { length names.now < 4294967296 }
    ensures rising { IfOk result (λ o. AreRisingBy (λ n. n.items) o.names.items) }
    ensures same { IfOk result (λ o.
        SameMembers (map (λ n. n.now) names.now) (map (λ n. n.items) o.names.items)) }
    ensures few { IfOk result (λ o. length o.names.items ≤ length names.now) }
    ensures places { IfOk result (λ o.
        ArePlaces (map (λ n. n.now) names.now) (map (λ n. n.items) o.names.items) o.places.items) }
{
    let mut all = with_places(alloc, names)?;
    all.sort_unstable();
    each_once(alloc, all, names.len())
}
