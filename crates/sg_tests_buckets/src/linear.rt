use sg_linear::{Address, Extent, fnv_1a};
use std::test::Fail;

// What the hash's authors give for the empty text, for `a` and for `foobar`.
#[test]
fn texts_have_the_published_hashes(rt: HostRuntime) {
    assert_eq!(rt; fnv_1a(b""), 0xcbf2_9ce4_8422_2325);
    assert_eq!(rt; fnv_1a(b"a"), 0xaf63_dc4c_8601_ec8c);
    assert_eq!(rt; fnv_1a(b"foobar"), 0x8594_4171_f739_67e8);
}

// From one bucket to five: the levels and splits, and the bucket of the hash 7 in each.
#[test]
fn a_table_grows(rt: HostRuntime) -> Result<(), Fail> {
    let mut extent = Extent::first();
    let shapes = [(0, 0, 0), (1, 0, 1), (1, 1, 1), (2, 0, 3), (2, 1, 3)];
    for (level, split, bucket) in shapes {
        assert_eq!(rt; extent.level, level);
        assert_eq!(rt; extent.split, split);
        assert_eq!(rt; extent.bucket_of(7), bucket);
        if extent.low > 524_288 {
            return Err(Fail::from("too large"));
        }
        extent = extent.grown();
    }
    assert!(rt; Extent::new(2, 4).is_none());
    assert!(rt; Extent::new(21, 0).is_none());
    Ok(())
}

// Which of the three buckets of a table of level 1 and split 1 the key belongs to, where it is one alone.
fn bucket_of(key: &[u8]) -> Option<u32> {
    let extent = Extent::new(1, 1)?;
    let mut found = None;
    for bucket in 0..3 {
        let there = Address { extent, bucket };
        if there.holds(key) {
            if found.is_some() {
                return None;
            }
            found = Some(bucket);
        }
    }
    found
}

// By the low bits of the published hashes: that of the empty text ends in 25, that of `a` in 8c, and that of `foobar`
// in e8. Bucket 0 was split, so that one bit more counts there.
#[test]
fn a_key_belongs_to_one_bucket(rt: HostRuntime) {
    assert_eq!(rt; bucket_of(b""), Some(1));
    assert_eq!(rt; bucket_of(b"a"), Some(0));
    assert_eq!(rt; bucket_of(b"foobar"), Some(0));
}
