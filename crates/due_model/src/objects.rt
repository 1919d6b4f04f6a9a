//! The hosts and services of a configuration, found by their names.

ghost use Rattle.std.specs.Prelude.{◌≡◌, ◌≤◌, length, map, find, fold, IfOk, IfSome, vec_len};
ghost use Rattle.std.specs.Int.{from_le_bytes, w64};
ghost use Rattle.std.specs.Str.{bytes_eq};
ghost use Rattle.std.specs.Option.{option_copied};
ghost use Rattle.due_model.specs.claims.Limits.{max_objects};
ghost use Rattle.due_model.specs.claims.Objects.{has_name_at};
ghost use Rattle.due_model.specs.Objects.{IsIndexUpTo, has_hash_at, hash_of, is_hashed_name};
ghost use Rattle.due_model.specs.claims.Objects.{object_named};
ghost use Rattle.due_model.specs.Objects.{is_named_at, mixed, name_hash, object_hash};

use crate::config::{Object, ObjectId};
use graph::lists::{Lists, ListsBuilder};
use std::alloc::{AllocError, Global};
use std::marker::Model;

/// The hosts and services of a configuration, in number order, with an index of their names (chapter
/// "Object Definitions"). Contracts see the list of the objects alone.
#[derive(Drop)]
pub struct Objects {
    items: Vec<Object>,
    /// The hash of each object's name.
    hashes: Vec<u64>,
    /// As many as there are objects, at least one. Each has the objects whose name's hash leads to it.
    buckets: Lists<ObjectId>,
}

impl Model for Objects {
    ghost use Rattle.std.specs.Prelude.{◌≡◌, List, length, map};
    ghost use Rattle.due_model.specs.declared.config.Object.{Object};
    ghost use Rattle.due_model.specs.Objects.{IsIndexUpTo, object_hash};

    ghost Value = { List Object };

    ghost view = { λ s. s.items.items };

    ghost invariant = { λ s. (s.hashes.items ≡ map (object_hash s.items.items) s.items.items)
        × IsIndexUpTo s.items.items (length s.items.items) s.buckets };
}

impl Objects {
    /// Numbers the objects by their place and makes the index. The work grows with the objects and the
    /// bytes of their names. A refused growth drops the objects.
    pub fn new(alloc: Global, items: Vec<Object>) -> Result<Self, AllocError>
        requires { vec_len items ≤ max_objects }
        ensures { IfOk result (λ objects. objects ≡ items.items) }
    {
        let hashes = hashes_of(alloc, items.as_slice())?;
        let buckets = index_of(alloc, items.as_slice(), hashes.as_slice())?.build(alloc)?;
        Ok(Objects {
            items,
            hashes,
            buckets,
        })
    }

    /// The objects, in number order.
    pub fn as_slice(&self) -> &[Object]
        ensures { result.now ≡ self.now }
    {
        &self.items
    }

    /// How many objects there are.
    pub fn len(&self) -> usize
        ensures { result ≡ length self.now }
    {
        self.items.len()
    }

    /// The host of that name or, where a service is given, that service of that host: the first in number
    /// order. It reads the objects of one bucket alone and takes no memory.
    pub fn find(&self, host: &[u8], service: Option<&[u8]>) -> Option<ObjectId>
        ensures { result ≡ object_named self.now host.now (option_copied service.entry) }
    {
        let hash = hash_name(host, service);
        let bucket = (hash % self.buckets.len() as u64) as usize;
        let ids = self.buckets.get(bucket);
        first_named(
            self.items.as_slice(),
            self.hashes.as_slice(),
            ids,
            hash,
            host,
            service,
        )
    }
}

/// The hash of each object's name.
fn hashes_of(alloc: Global, objects: &[Object]) -> Result<Vec<u64>, AllocError>
    ensures { IfOk result (λ hashes. hashes.items ≡ map (object_hash objects.now) objects.now) }
{
    let mut hashes = Vec::with_capacity(alloc, objects.len())?;
    for object in objects {
        hashes.push(hash_object(objects, object))?;
    }
    Ok(hashes)
}

/// The index of these objects.
fn index_of(
    alloc: Global,
    objects: &[Object],
    hashes: &[u64],
) -> Result<ListsBuilder<ObjectId>, AllocError>
    requires few { length objects.now ≤ max_objects }
    requires hashes { hashes.now ≡ map (object_hash objects.now) objects.now }
    ensures { IfOk result (IsIndexUpTo objects.now (length objects.now)) }
{
    let mut buckets = ListsBuilder::new(alloc, objects.len().max(1))?;
    for number in 0..objects.len() {
        let bucket = (hashes[number] % buckets.len() as u64) as usize;
        buckets.push(bucket, ObjectId(number as u16))?;
    }
    Ok(buckets)
}

/// The hash of an object's name.
fn hash_object(objects: &[Object], object: &Object) -> u64
    ensures { result ≡ object_hash objects.now object.now }
{
    match object.host {
        None => hash_name(object.name.as_slice(), None),
        Some(id) => match objects.get(id.0 as usize) {
            None => 0,
            Some(host) => hash_name(host.name.as_slice(), Some(object.name.as_slice())),
        },
    }
}

/// The hash of a name.
#[inline(always)]
fn hash_name(host: &[u8], service: Option<&[u8]>) -> u64
    ensures { result ≡ name_hash host.now (option_copied service.entry) }
{
    let hash = hash_bytes(14695981039346656037, host);
    match service {
        None => hash,
        Some(service) => hash_bytes(hash ^ 255, service),
    }
}

/// The hash of bytes, going on from another. Where there are eight, the last eight may be read a second time, so that
/// none is read by itself.
#[inline(always)]
#[tactic(auto, unfolding(crate::specs::Objects::hash_of))]
fn hash_bytes(seed: u64, bytes: &[u8]) -> u64
    ensures { result ≡ hash_of seed bytes.now }
{
    match bytes.last_chunk::<8>() {
        None => hash_few(seed, bytes),
        Some(last) => {
            let (words, _) = bytes.as_chunks::<8>();
            mix(hash_words(seed, words), u64::from_le_bytes(*last))
        }
    }
}

/// The hash of bytes, one by one.
fn hash_few(seed: u64, bytes: &[u8]) -> u64
    ensures { result ≡ fold mixed seed bytes.now }
{
    bytes
        .iter()
        .fold(seed, |hash, byte| mix(hash, u64::from(*byte)))
}

/// The hash of words of eight bytes.
#[inline(always)]
fn hash_words(seed: u64, words: &[[u8; 8]]) -> u64
    ensures { result ≡ fold (λ hash word. mixed hash (from_le_bytes w64 word)) seed words.now }
{
    words
        .iter()
        .fold(seed, |hash, word| mix(hash, u64::from_le_bytes(*word)))
}

/// A word, mixed into a hash: each bit of either bears upon all bits.
#[inline(always)]
fn mix(hash: u64, word: u64) -> u64
    ensures { result ≡ mixed hash word }
{
    let product = u128::from(hash ^ word).wrapping_mul(11400714819323198485);
    (product % (1 << 64)) as u64 ^ ((product >> 64) % (1 << 64)) as u64
}

/// The first of these objects that has the hash and the name.
fn first_named(
    objects: &[Object],
    hashes: &[u64],
    ids: &[ObjectId],
    hash: u64,
    host: &[u8],
    service: Option<&[u8]>,
) -> Option<ObjectId>
    ensures { result
        ≡ find
        (is_hashed_name objects.now hashes.now hash host.now (option_copied service.entry))
        ids.now }
{
    ids.iter().copied().find(|id| is_hashed_name(objects, hashes, *id, hash, host, service))
}

/// Whether the object of that number has the hash and the name. Most others have another hash.
fn is_hashed_name(
    objects: &[Object],
    hashes: &[u64],
    id: ObjectId,
    hash: u64,
    host: &[u8],
    service: Option<&[u8]>,
) -> bool
    ensures { result
        ≡ is_hashed_name objects.now hashes.now hash host.now (option_copied service.entry) id }
{
    has_hash(hashes, id, hash) && is_named_at(objects, id, host, service)
}

/// Whether this is the hash of that number.
fn has_hash(hashes: &[u64], id: ObjectId, hash: u64) -> bool
    ensures { result ≡ has_hash_at hashes.now hash id }
{
    match hashes.get(id.0 as usize) {
        None => false,
        Some(found) => *found == hash,
    }
}

/// Whether bytes are the same. Most names are short: they are compared by two words, with no call.
#[inline(always)]
fn is_same(a: &[u8], b: &[u8]) -> bool
    ensures { result ≡ bytes_eq a.now b.now }
{
    if a.len() != b.len() {
        return false;
    }
    match has_same_ends::<8>(a, b) {
        Some(same) => same,
        None => match has_same_ends::<16>(a, b) {
            Some(same) => same,
            None => a == b,
        },
    }
}

/// The same of as many bytes as a word has, or up to twice as many: the first and the last are compared.
#[inline(always)]
fn has_same_ends<const N: usize>(a: &[u8], b: &[u8]) -> Option<bool>
    requires few { N ≤ 16 }
    requires long { length a.now ≡ length b.now }
    ensures { IfSome result (λ same. same ≡ bytes_eq a.now b.now) }
{
    if a.len() > 2 * N {
        return None;
    }
    let has_front = is_same_word(a.first_chunk::<N>()?, b.first_chunk::<N>()?);
    let has_back = is_same_word(a.last_chunk::<N>()?, b.last_chunk::<N>()?);
    Some(has_front && has_back)
}

/// Whether words are the same.
#[inline(always)]
fn is_same_word<const N: usize>(a: &[u8; N], b: &[u8; N]) -> bool
    ensures { result ≡ bytes_eq a.now b.now }
{
    *a == *b
}

/// Whether the object of that number has the name.
fn is_named_at(objects: &[Object], id: ObjectId, host: &[u8], service: Option<&[u8]>) -> bool
    ensures { result ≡ is_named_at objects.now host.now (option_copied service.entry) id }
{
    let Some(object) = objects.get(id.0 as usize) else {
        return false;
    };
    match (object.host, service) {
        (None, None) => is_same(object.name.as_slice(), host),
        (Some(id), Some(service)) => {
            is_same(object.name.as_slice(), service) && has_name(objects, id, host)
        }
        _ => false,
    }
}

/// Whether the object of that number has that own name.
fn has_name(objects: &[Object], id: ObjectId, name: &[u8]) -> bool
    ensures { result ≡ has_name_at objects.now name.now id }
{
    match objects.get(id.0 as usize) {
        None => false,
        Some(object) => is_same(object.name.as_slice(), name),
    }
}
