ghost use Rattle.std.specs.Prelude.{◌≡◌, ◌<◌};
ghost use Rattle.sg_model.specs.Resources.{shown_resource};
ghost use Rattle.sg_model.specs.Touches.Region.{EachKey, Everything};
ghost use Rattle.sg_locks.specs.Buckets.{mixed, mixed_all, bucket_of, region_bucket, resource_bucket, name_bucket};

use sg_base::Name;
use sg_model::Resource;

/// How many buckets there are.
pub const BUCKETS: usize = 4096;

/// The bucket of a resource and that of its name, each below 4,096.
#[derive(Clone, Copy)]
pub struct Buckets {
    pub name: usize,
    pub resource: usize,
    ghost name_below: { name < 4096 },
    ghost below: { resource < 4096 },
}

// The bucket, with one more number.
fn mixed(bucket: usize, n: usize) -> usize
    requires bucket { bucket < 4096 }
    requires number { n < 4096 }
    ensures value { result ≡ mixed bucket n }
    ensures below { result < 4096 }
{
    (bucket * 31 + n) % BUCKETS
}

#[inline(never)]
fn mixed_all(start: usize, bytes: &[u8]) -> usize
    requires { start < 4096 }
    ensures value { result ≡ mixed_all start bytes.now }
    ensures below { result < 4096 }
{
    let mut bucket = start;
    for byte in bytes {
        bucket = mixed(bucket, *byte as usize);
    }
    bucket
}

/// The bucket of a name.
pub fn bucket_of(name: &Name) -> usize
    ensures value { result ≡ bucket_of name.now }
    ensures below { result < 4096 }
{
    mixed_all(0, name.text())
}

/// The bucket of all keys of the table whose name has this bucket.
pub fn keys_bucket(name: usize) -> usize
    requires { name < 4096 }
    ensures value { result ≡ region_bucket name EachKey }
    ensures below { result < 4096 }
{
    mixed(name, 4094)
}

/// The bucket of all of the object whose name has this bucket.
pub fn whole_bucket(name: usize) -> usize
    requires { name < 4096 }
    ensures value { result ≡ region_bucket name Everything }
    ensures below { result < 4096 }
{
    mixed(name, 4095)
}

/// The bucket of a resource whose name has this bucket.
#[inline(always)]
pub fn resource_bucket(name: usize, what: &Resource) -> usize
    requires name { name ≡ name_bucket (shown_resource what.now) }
    requires below { name < 4096 }
    ensures value { result ≡ resource_bucket (shown_resource what.now) }
    ensures below { result < 4096 }
{
    match what {
        Resource::Item(_, index) => mixed(name, (*index % 4096) as usize),
        Resource::Key(_, key) => mixed_all(mixed(name, 4089), key.bytes()),
        Resource::Name(_) => mixed(name, 4090),
        Resource::Len(_) => mixed(name, 4091),
        Resource::Body(_) => mixed(name, 4092),
        Resource::Keys(_) => keys_bucket(name),
        Resource::AllOf(_) => whole_bucket(name),
        Resource::Names => 0,
    }
}
