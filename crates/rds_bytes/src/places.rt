//! Where the numbers of keys are found.
ghost use Rattle.std.specs.Prelude.{
  ◌≡◌,
  ℕ,
  List,
  ◌++◌,
  ◌∷◌,
  [],
  true,
  false,
  suc,
  length,
  bit_and,
  slice_get,
  Some,
  IsTrue,
  if◌then◌else◌,
  OnOk,
  IfOk,
  IfErr,
};
ghost use Rattle.rds_names.specs.declared.fault.Fault.TheVariants.{Memory};
ghost use Rattle.rds_names.specs.Roster.{all_differ};
ghost use Rattle.rds_bytes.specs.Marks.{mark as its_mark};
ghost use Rattle.rds_bytes.specs.Numbers.{place_in};
ghost use Rattle.rds_bytes.specs.Places.{stands_at, tag, placed, seek, has_room, pushed, AreFound};
ghost use Rattle.rds_bytes.specs.Table.{has_key};

use crate::marks::mark_of;
use rds_names::{Fault, Key};
use std::alloc::Global;
use std::collections::BTreeMap;

/// How many numbers a bucket has room for.
const ROOM: usize = 4;

/// What a bucket has of a key: a part of its mark, and its number as one more. Where that is 0 there is room.
#[derive(Clone, Copy)]
struct Place {
    tag: u32,
    number: u32,
}

/// The places of keys whose marks name this bucket.
type Bucket = [Place; ROOM];

/// A bucket without keys.
const EMPTY: Bucket = [Place { tag: 0, number: 0 }; ROOM];

/// Where the numbers of keys are found. A key's mark names a bucket, which has its number beside a part of the mark: by
/// that most other keys are told apart unseen. Where the bucket was full, a map by order has it. So most keys are found
/// at once, and strangers, who choose the keys and with them their marks, make no look-up dearer than one in the map.
#[derive(Drop)]
pub struct KeyPlaces {
    buckets: Vec<Bucket>,
    mask: u64,
    others: BTreeMap<(u64, Key), usize>,
}

/// Whether the key of a number is this one.
pub fn has_at(keys: &[Key], number: usize, key: &Key) -> bool
    ensures value { result ≡ stands_at keys.now number key.now }
    ensures at { IsTrue result → slice_get keys.now number ≡ Some key.now }
{
    match keys.get(number) {
        Some(known) => *key == *known,
        None => false,
    }
}

/// The part of a mark by which keys of one bucket are told apart before their bytes are looked at.
fn tag_of(mark: u64) -> u32
    ensures { result ≡ tag mark }
{
    (mark & 0xffff_ffff) as u32
}

/// The number of a key with this tag, where the bucket has it.
fn seek(mut bucket: &[Place], keys: &[Key], tag: u32, key: &Key) -> Option<usize>
    ensures { result ≡ seek keys.now bucket.entry.now tag key.now }
{
    'seeking: while let Some((place, later)) = bucket.split_first() {
        if place.tag == tag {
            if let Some(number) = place.number.checked_sub(1) {
                if has_at(keys, number as usize, key) {
                    return Some(number as usize);
                }
            }
        }
        bucket = later;
    }
    None
}

/// Whether a bucket has room.
fn has_room(bucket: &Bucket) -> bool
    ensures { result ≡ has_room bucket.now }
{
    let [_, _, _, last] = *bucket;
    last.number == 0
}

/// A number in four bytes, as texts and buckets have it. One that doesn't go into these is reported as `Memory`: none
/// holds so many keys.
pub fn in_four_bytes(number: usize) -> Result<u32, Fault>
    ensures number { IfOk result (λ given. given ≡ number) }
    ensures memory { IfErr result (λ fault. fault ≡ Memory) }
{
    match u32::try_from(number) {
        Ok(number) => Ok(number),
        Err(_) => Err(Fault::Memory),
    }
}

/// A number as a bucket has it.
fn one_more(number: usize) -> Result<u32, Fault>
    ensures place { IfOk result (λ place. place ≡ suc number) }
    ensures memory { IfErr result (λ fault. fault ≡ Memory) }
{
    in_four_bytes(number.saturating_add(1))
}

impl Place {
    /// The place of the key that has this mark and this number.
    fn new(mark: u64, number: usize) -> Result<Place, Fault>
        ensures place { IfOk result (λ place. place ≡ placed mark number) }
        ensures memory { IfErr result (λ fault. fault ≡ Memory) }
    {
        Ok(Place {
            tag: tag_of(mark),
            number: one_more(number)?,
        })
    }
}

/// Puts a place first into a bucket, and says whether there was room.
fn put(bucket: &mut Bucket, place: Place) -> bool
    ensures room { result ≡ has_room bucket.old }
    ensures put { bucket.new ≡ (if result then pushed place bucket.old else bucket.old) }
{
    let [first, second, third, last] = *bucket;
    if last.number != 0 {
        return false;
    }
    *bucket = [place, first, second, third];
    true
}

impl KeyPlaces {
    /// No keys.
    pub fn new(alloc: Global) -> KeyPlaces
        ensures { AreFound result [] }
    {
        KeyPlaces {
            buckets: Vec::new(alloc),
            mask: 0,
            others: BTreeMap::new(alloc),
        }
    }

    /// The place of the bucket that a mark names.
    fn bucket_of(&self, mark: u64) -> usize
        ensures { result ≡ bit_and mark self.now.mask }
    {
        (mark & self.mask) as usize
    }

    /// The number of a key, where it is one of these.
    pub fn find(
        &self,
        alloc: Global,
        keys: &[Key],
        mark: u64,
        key: &Key,
    ) -> Result<Option<usize>, Fault>
        requires found { AreFound self.now keys.now }
        requires mark { mark ≡ its_mark key.now }
        ensures number { IfOk result (λ number. number ≡ place_in keys.now key.now) }
        ensures memory { IfErr result (λ fault. fault ≡ Memory) }
    {
        if let Some(bucket) = self.buckets.get(self.bucket_of(mark)) {
            if let Some(number) = seek(bucket, keys, tag_of(mark), key) {
                return Ok(Some(number));
            }
            if has_room(bucket) {
                return Ok(None);
            }
        }
        let marked = (mark, key.copy(alloc)?);
        Ok(self.others.get(&marked).copied())
    }

    /// Notes the number of a new key, which follows these.
    fn note(&mut self, alloc: Global, number: usize, mark: u64, key: &Key) -> Result<(), Fault>
        requires mark { mark ≡ its_mark key.now }
        ensures found { (keys : List (List ℕ)) → AreFound self.old keys → number ≡ length keys
            → has_key keys key.now ≡ false → OnOk result (AreFound self.new (keys ++ key.now ∷ [])) }
        ensures memory { IfErr result (λ fault. fault ≡ Memory) }
    {
        let place = Place::new(mark, number)?;
        let at = self.bucket_of(mark);
        if let Some(bucket) = self.buckets.get_mut(at) {
            if put(bucket, place) {
                return Ok(());
            }
        }
        self.others.insert((mark, key.copy(alloc)?), number)?;
        Ok(())
    }

    /// No keys, and buckets whose room so many keys take half of at most.
    fn with_room(alloc: Global, keys: usize) -> Result<KeyPlaces, Fault>
        ensures found { IfOk result (λ places. AreFound places []) }
        ensures memory { IfErr result (λ fault. fault ≡ Memory) }
    {
        let count = keys.div_ceil(ROOM / 2).next_power_of_two();
        let mut buckets = Vec::new(alloc);
        buckets.resize(count, EMPTY)?;
        Ok(KeyPlaces {
            buckets,
            mask: (count as u64).wrapping_sub(1),
            others: BTreeMap::new(alloc),
        })
    }

    /// The places of these keys, with room for so many.
    fn with_keys(alloc: Global, room: usize, keys: &[Key]) -> Result<KeyPlaces, Fault>
        requires { all_differ keys.now ≡ true }
        ensures found { IfOk result (λ places. AreFound places keys.now) }
        ensures memory { IfErr result (λ fault. fault ≡ Memory) }
    {
        let mut places = KeyPlaces::with_room(alloc, room)?;
        for (number, key) in keys.iter().enumerate() {
            places.note(alloc, number, mark_of(key), key)?;
        }
        Ok(places)
    }

    /// Notes that a new key follows these. Where these take half of the room, there is four times as much first, or as
    /// much as these and so many that are still to come take half of.
    pub fn add(
        &mut self,
        alloc: Global,
        keys: &[Key],
        mark: u64,
        key: &Key,
        coming: usize,
    ) -> Result<(), Fault>
        requires found { AreFound self.old keys.now }
        requires new { has_key keys.now key.now ≡ false }
        requires mark { mark ≡ its_mark key.now }
        ensures found { OnOk result (AreFound self.new (keys.now ++ key.now ∷ [])) }
        ensures memory { IfErr result (λ fault. fault ≡ Memory) }
    {
        if keys.len() >= self.buckets.len().saturating_mul(ROOM / 2) {
            let known = keys.len().saturating_add(coming).saturating_add(1);
            let room = keys.len().saturating_mul(4).max(known);
            *self = KeyPlaces::with_keys(alloc, room, keys)?;
        }
        self.note(alloc, keys.len(), mark, key)
    }
}
