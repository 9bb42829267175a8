ghost use Rattle.std.specs.Prelude.{◌≡◌, ◌-◌, ◌<◌, [], ◌∷◌, ◌++◌, length, take, slice_index, replicate, None, IfOk};
ghost use Rattle.sg_locks.specs.Links.{last_in};

use crate::bucket::BUCKETS;
use sg_base::OutOfMemory;
use std::alloc::Global;
use std::marker::Model;

// A place's bucket, and the place before it in that bucket. Both are below 4,096, and thousands of links are gone through
// between two uses of one: the less room they take, the more of all that is held stays near the processor.
#[derive(Clone, Copy)]
struct Link {
    bucket: u16,
    earlier: Option<u16>,
}

// The place, as places are counted.
#[inline(always)]
fn wide(place: Option<u16>) -> Option<usize>
    ensures { result ≡ place }
{
    match place {
        Some(place) => Some(place as usize),
        None => None,
    }
}

/// Places 0, 1, .. of a list, at most 4,096, each in a bucket. From the last place of a bucket one
/// gets to all others of it, the later one first. Contracts see the bucket of each place.
#[derive(Drop)]
pub struct Chains {
    // The last place in each bucket.
    last: Vec<Option<u16>>,
    links: Vec<Link>,
}

impl Model for Chains {
    ghost use Rattle.std.specs.Prelude.{List, ℕ, vec_capacity};
    ghost use Rattle.sg_locks.specs.Links.{buckets_of, AreLinked};

    ghost Value = { List ℕ };

    ghost view = { λ c. buckets_of c.links.items };

    ghost invariant = { λ c. AreLinked c.last.items (vec_capacity c.links) c.links.items };
}

// No bucket has a place.
fn no_places(alloc: Global) -> Result<Vec<Option<u16>>, OutOfMemory>
    ensures { IfOk result (λ v. v.items ≡ replicate 4096 None) }
{
    let Ok(mut last) = Vec::with_capacity(alloc, BUCKETS) else {
        return Err(OutOfMemory);
    };
    while last.len() < BUCKETS {
        last.push_reserved(None);
    }
    Ok(last)
}

impl Chains {
    /// There are no places yet. No other call takes memory.
    pub fn new(alloc: Global) -> Result<Chains, OutOfMemory>
        ensures { IfOk result (λ c. c ≡ []) }
    {
        let last = no_places(alloc)?;
        let Ok(links) = Vec::with_capacity(alloc, 4096) else {
            return Err(OutOfMemory);
        };
        Ok(Chains { last, links })
    }

    /// How many places there are.
    pub fn len(&self) -> usize
        ensures { result ≡ length self.now }
    {
        self.links.len()
    }

    /// The last place in the bucket.
    pub fn last(&self, bucket: usize) -> Option<usize>
        requires { bucket < 4096 }
        ensures { result ≡ last_in bucket self.now }
    {
        wide(self.last[bucket])
    }

    /// The place before this one in its bucket.
    pub fn earlier(&self, at: usize) -> Option<usize>
        requires { at < length self.now }
        ensures { result ≡ last_in (slice_index self.now at) (take at self.now) }
    {
        wide(self.links[at].earlier)
    }

    /// One more place.
    pub fn push(&mut self, bucket: usize)
        requires below { bucket < 4096 }
        requires room { length self.old < 4096 }
        ensures { self.new ≡ self.old ++ bucket ∷ [] }
    {
        let end = self.links.len() as u16;
        let earlier = self.last[bucket];
        self.links.push_reserved(Link {
            bucket: bucket as u16,
            earlier,
        });
        self.last[bucket] = Some(end);
    }

    /// Takes the last place away, if there is one.
    fn pop(&mut self)
        ensures { self.new ≡ take (length self.old - 1) self.old }
    {
        if let Some(link) = self.links.pop() {
            self.last[link.bucket as usize] = link.earlier;
        }
    }

    // Takes all places away.
    fn clear(&mut self)
        ensures { self.new ≡ [] }
    {
        self.last.fill(None);
        self.links.clear();
    }

    // Takes the last places away, one after another, and keeps so many first ones.
    fn pop_to(&mut self, len: usize)
        ensures { self.new ≡ take len self.old }
    {
        while self.len() > len {
            self.pop();
        }
    }

    /// Keeps the first places alone. Where none of very many is to be kept, all buckets are emptied at once.
    pub fn truncate(&mut self, len: usize)
        ensures { self.new ≡ take len self.old }
    {
        if len == 0 && self.len() > BUCKETS / 4 {
            self.clear();
            return;
        }
        self.pop_to(len);
    }
}
