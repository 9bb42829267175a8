ghost use Rattle.std.specs.Prelude.{◌≡◌, ◌<◌};
ghost use Rattle.sg_model.specs.Resources.{shown_resource};
ghost use Rattle.sg_locks.specs.Buckets.{bucket_of};
ghost use Rattle.sg_locks.specs.Found.{AreBucketsOf};

use crate::bucket::{Buckets, bucket_of, resource_bucket};
use sg_base::Name;
use sg_model::Resource;

// A name with its bucket.
#[derive(Clone, Copy)]
struct Known {
    name: Name,
    bucket: usize,
    ghost exact: { bucket ≡ bucket_of name },
    ghost below: { bucket < 4096 },
}

/// Finds buckets, and guesses places. The bucket of the name which was asked for last is kept, so that
/// what one operation touches, and what many operations on one object do, costs the work on a name once.
/// The places where the first touches of an operation were held are kept too: many operations on one
/// object hold these already, and at the same places.
#[derive(Clone, Copy)]
pub struct Finder {
    last: Option<Known>,
    places: [usize; 2],
}

impl Finder {
    /// Keeps no bucket yet.
    pub fn new() -> Finder {
        Finder {
            last: None,
            places: [0; 2],
        }
    }

    /// A place that may have the hold of an operation's touch with this index. What stands there says
    /// whether it does.
    #[inline(always)]
    pub fn likely_place(&self, index: usize) -> Option<usize> {
        if index < self.places.len() {
            Some(self.places[index])
        } else {
            None
        }
    }

    /// This place has the hold of an operation's touch with this index.
    #[inline(always)]
    pub fn keep_place(&mut self, index: usize, place: usize) {
        if index < self.places.len() {
            self.places[index] = place;
        }
    }

    // The bucket of a name that isn't the last one.
    #[cold]
    #[inline(never)]
    fn new_name(&mut self, name: &Name) -> usize
        ensures value { result ≡ bucket_of name.now }
        ensures below { result < 4096 }
    {
        let bucket = bucket_of(name);
        self.last = Some(Known {
            name: *name,
            bucket,
        });
        bucket
    }

    // The bucket of a name.
    #[inline(always)]
    fn name_bucket(&mut self, name: &Name) -> usize
        ensures value { result ≡ bucket_of name.now }
        ensures below { result < 4096 }
    {
        match &self.last {
            Some(known) if known.name == *name => known.bucket,
            _ => self.new_name(name),
        }
    }

    /// The buckets of a resource and of its name.
    #[inline(always)]
    pub fn buckets(&mut self, what: &Resource) -> Buckets
        ensures { AreBucketsOf result (shown_resource what.now) }
    {
        let name = match what {
            Resource::Name(name)
            | Resource::Len(name)
            | Resource::Item(name, _)
            | Resource::Key(name, _)
            | Resource::Body(name)
            | Resource::Keys(name)
            | Resource::AllOf(name) => self.name_bucket(name),
            Resource::Names => 0,
        };
        Buckets {
            name,
            resource: resource_bucket(name, what),
        }
    }
}
