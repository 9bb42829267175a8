// Walks over an array `a` of 16 items of 256 bytes, a table `t` of three entries of 1,005 bytes and a blob `b` of 40,000 bytes, after
// one damage each. The catalogue is page 0. The array has root 1, index page 2 and item pages 3 and 4; the table has root 9, a
// directory of pages 5, 7 and 8, and buckets 6 and 10; the blob has root 11 and bands 1 and 2.
use crate::trial::{Came, Damage, first_wrong};
use Came::*;
use Damage::*;
use std::test::Fail;

// What a walk over all of them comes to.
const WHOLE: Came = Sets(11, 2);

// Damages of the array, each with the page that is told.
const ARRAY: [(Damage, Came); 16] = [
    // one item more than there are
    (Set(1, 0, &[0, 1, 17, 0, 0, 0, 17, 0, 0, 0]), Broken(4)),
    // one item less
    (Set(1, 0, &[0, 1, 15, 0, 0, 0, 16, 0, 0, 0]), Broken(4)),
    // a length above the peak
    (Set(1, 0, &[0, 1, 17, 0, 0, 0, 16, 0, 0, 0]), Broken(1)),
    // a peak for an item page more
    (Set(1, 0, &[0, 1, 16, 0, 0, 0, 31, 0, 0, 0]), Broken(2)),
    // a peak for an item page less
    (Set(1, 0, &[0, 1, 15, 0, 0, 0, 15, 0, 0, 0]), Broken(2)),
    // a peak above the most
    (Set(1, 0, &[0, 1, 16, 0, 0, 0, 1, 0, 16, 0]), Broken(1)),
    // a size of no bytes
    (Set(1, 0, &[0, 0, 16, 0, 0, 0, 16, 0, 0, 0]), Broken(1)),
    // a size above the most
    (Set(1, 0, &[1, 1, 16, 0, 0, 0, 16, 0, 0, 0]), Broken(1)),
    // numbers of 9 bytes
    (Set(1, 0, &[0, 1, 16, 0, 0, 0, 16, 0, 0]), Broken(1)),
    // an item of another size
    (Set(3, 14, &[7; 255]), Broken(3)),
    // a page of another kind in place of the index page
    (Set(1, 1, &[5, 0, 0, 0]), Broken(5)),
    // the root once more
    (Set(1, 1, &[1, 0, 0, 0]), Broken(1)),
    // the first item page once more
    (Set(2, 1, &[3, 0, 0, 0]), Broken(3)),
    // the page of the catalogue
    (Set(2, 1, &[0, 0, 0, 0]), Broken(0)),
    // a page that there isn't
    (Set(2, 1, &[64, 0, 0, 0]), Broken(2)),
    // an item page with fewer items than stand in the first
    (Set(2, 0, &[4, 0, 0, 0]), Broken(4)),
];

// Damages of the catalogue, most in the row of the table.
const CATALOGUE: [(Damage, Came); 12] = [
    // a second object with the name of the first
    (
        Set(0, 1, &[2, 0, 0, 0, 0, 0, 0, 0, 0, 0, 9, 0, 0, 0, 1, 97]),
        Broken(0),
    ),
    // the root of another object
    (
        Set(0, 1, &[2, 0, 0, 0, 0, 0, 0, 0, 0, 0, 1, 0, 0, 0, 1, 116]),
        Broken(1),
    ),
    // the kind of another object
    (
        Set(0, 1, &[1, 0, 0, 0, 0, 0, 0, 0, 0, 0, 9, 0, 0, 0, 1, 116]),
        Broken(9),
    ),
    // the catalogue itself as a root
    (
        Set(0, 1, &[2, 0, 0, 0, 0, 0, 0, 0, 0, 0, 0, 0, 0, 0, 1, 116]),
        Broken(0),
    ),
    // a root that there isn't
    (
        Set(0, 1, &[2, 0, 0, 0, 0, 0, 0, 0, 0, 0, 64, 0, 0, 0, 1, 116]),
        Broken(0),
    ),
    // a kind that there isn't
    (
        Set(0, 1, &[4, 0, 0, 0, 0, 0, 0, 0, 0, 0, 9, 0, 0, 0, 1, 116]),
        Broken(0),
    ),
    // an object that was dropped by a transaction
    (
        Set(0, 1, &[2, 0, 7, 0, 0, 0, 0, 0, 0, 0, 9, 0, 0, 0, 1, 116]),
        Broken(0),
    ),
    // a name without letters
    (
        Set(0, 1, &[2, 0, 0, 0, 0, 0, 0, 0, 0, 0, 9, 0, 0, 0, 0]),
        Broken(0),
    ),
    // no row
    (Set(0, 1, &[2]), Broken(0)),
    // a peak below the rows that there are
    (Links(0, 0, 2), Broken(0)),
    // a peak for a page more
    (Links(0, 0, 80), Broken(0)),
    // a page more than the peak wants
    (Links(0, 1, 3), Broken(0)),
];

// Damages of the table. Keys with an odd last byte belong to its first bucket, and the others to its second.
const TABLE: [(Damage, Came); 20] = [
    // one entry more than there are
    (
        Set(
            9,
            0,
            &[
                1, 0, 0, 0, 0, 4, 0, 0, 0, 199, 11, 0, 0, 0, 0, 0, 0, 199, 11, 0, 0, 0, 0, 0, 0,
            ],
        ),
        Broken(9),
    ),
    // one byte less
    (
        Set(
            9,
            0,
            &[
                1, 0, 0, 0, 0, 3, 0, 0, 0, 198, 11, 0, 0, 0, 0, 0, 0, 199, 11, 0, 0, 0, 0, 0, 0,
            ],
        ),
        Broken(9),
    ),
    // a peak that has no second bucket
    (
        Set(
            9,
            0,
            &[
                1, 0, 0, 0, 0, 3, 0, 0, 0, 199, 11, 0, 0, 0, 0, 0, 0, 0, 8, 0, 0, 0, 0, 0, 0,
            ],
        ),
        Broken(5),
    ),
    // one bucket, and two names in the directory
    (
        Set(
            9,
            0,
            &[
                0, 0, 0, 0, 0, 3, 0, 0, 0, 199, 11, 0, 0, 0, 0, 0, 0, 199, 11, 0, 0, 0, 0, 0, 0,
            ],
        ),
        Broken(5),
    ),
    // three buckets
    (
        Set(
            9,
            0,
            &[
                1, 1, 0, 0, 0, 3, 0, 0, 0, 199, 11, 0, 0, 0, 0, 0, 0, 15, 39, 0, 0, 0, 0, 0, 0,
            ],
        ),
        Broken(5),
    ),
    // numbers of 24 bytes
    (
        Set(
            9,
            0,
            &[
                1, 0, 0, 0, 0, 3, 0, 0, 0, 199, 11, 0, 0, 0, 0, 0, 0, 199, 11, 0, 0, 0, 0, 0,
            ],
        ),
        Broken(9),
    ),
    // a second link
    (Links(9, 5, 1), Broken(9)),
    // another array as the directory
    (Links(9, 1, 0), Broken(1)),
    // the root itself as the directory
    (Links(9, 9, 0), Broken(9)),
    // the second bucket in place of the first
    (Set(8, 0, &[10, 0, 0, 0]), Broken(10)),
    // the first bucket once more
    (Set(8, 1, &[6, 0, 0, 0]), Broken(6)),
    // a bucket that there isn't
    (Set(8, 1, &[64, 0, 0, 0]), Broken(5)),
    // a key of the first bucket in the second
    (Put(10, 1, &[1, 0, 0, 0, 101]), Broken(10)),
    // a key for the second time
    (Put(6, 1, &[1, 0, 0, 0, 97]), Broken(6)),
    // a key without bytes
    (Put(6, 1, &[0, 0, 1, 0, 120]), Broken(6)),
    // an entry that is too short
    (Put(6, 1, &[1, 0, 1, 0, 97]), Broken(6)),
    // a page of another kind behind the bucket
    (Links(10, 11, 0), Broken(11)),
    // the first bucket behind the second
    (Links(10, 6, 0), Broken(6)),
    // a bucket behind itself
    (Links(10, 10, 0), Broken(10)),
    // a page behind it that there isn't
    (Links(10, 64, 0), Broken(10)),
];

// Damages of the blob, whose bytes end at byte 7,232 of band 2.
const BLOB: [(Damage, Came); 11] = [
    // a byte behind the length
    (Band(2, 7232, &[1]), Broken(11)),
    // the last byte of the last band
    (Band(2, 32767, &[1]), Broken(11)),
    // a length above the peak
    (Set(11, 0, &[65, 156, 0, 0, 64, 156, 0, 0]), Broken(11)),
    // a peak for a band more
    (Set(11, 0, &[64, 156, 0, 0, 1, 0, 1, 0]), Broken(11)),
    // a peak for a band less
    (Set(11, 0, &[0, 128, 0, 0, 0, 128, 0, 0]), Broken(11)),
    // a peak above the most
    (Set(11, 0, &[0, 0, 0, 0, 1, 0, 250, 0]), Broken(11)),
    // numbers of 7 bytes
    (Set(11, 0, &[64, 156, 0, 0, 64, 156, 0]), Broken(11)),
    // the first band once more
    (Set(11, 2, &[1, 0, 0, 0]), Broken(11)),
    // the band of the map
    (Set(11, 2, &[0, 0, 0, 0]), Broken(11)),
    // a band that there isn't
    (Set(11, 2, &[8, 0, 0, 0]), Broken(11)),
    // a number of one byte
    (Set(11, 2, &[2]), Broken(11)),
];

// One slot more than a page may have.
const SLOTS: [(Damage, Came); 6] = [
    // of the catalogue
    (Slots(0, 80), Broken(0)),
    // of an array's root
    (Slots(1, 140), Broken(1)),
    // of an index page
    (Slots(2, 510), Broken(2)),
    // of a page of items of 256 bytes
    (Slots(3, 16), Broken(3)),
    // of a table's root
    (Slots(9, 2), Broken(9)),
    // of a blob's root
    (Slots(11, 502), Broken(11)),
];

// What may stand there: it is no damage.
const ALLOWED: [(Damage, Came); 13] = [
    // a table's peak of bytes below its bytes, where it has both buckets
    (
        Set(
            9,
            0,
            &[
                1, 0, 0, 0, 0, 3, 0, 0, 0, 199, 11, 0, 0, 0, 0, 0, 0, 1, 8, 0, 0, 0, 0, 0, 0,
            ],
        ),
        WHOLE,
    ),
    // the greatest peak for two item pages
    (Set(1, 0, &[0, 1, 16, 0, 0, 0, 30, 0, 0, 0]), WHOLE),
    // the greatest peak for two bands
    (Set(11, 0, &[64, 156, 0, 0, 0, 0, 1, 0]), WHOLE),
    // a length below the peak
    (Set(11, 0, &[63, 156, 0, 0, 64, 156, 0, 0]), WHOLE),
    // the last byte of the blob
    (Band(2, 7231, &[1]), WHOLE),
    // as many slots as the catalogue may have
    (Slots(0, 79), WHOLE),
    // an array's root
    (Slots(1, 139), WHOLE),
    // an index page
    (Slots(2, 509), WHOLE),
    // a page of items
    (Slots(3, 15), WHOLE),
    // and one that has fewer
    (Slots(4, 15), WHOLE),
    // a bucket
    (Slots(10, 700), WHOLE),
    // a blob's root
    (Slots(11, 501), WHOLE),
    // links where none are read
    (Links(1, 8, 9), WHOLE),
];

#[test]
fn a_damaged_array_is_told(rt: HostRuntime) -> Result<(), Fail> {
    assert_eq!(rt; first_wrong(rt.alloc(), &ARRAY)?, None);
    Ok(())
}

#[test]
fn a_damaged_catalogue_is_told(rt: HostRuntime) -> Result<(), Fail> {
    assert_eq!(rt; first_wrong(rt.alloc(), &CATALOGUE)?, None);
    Ok(())
}

#[test]
fn a_damaged_table_is_told(rt: HostRuntime) -> Result<(), Fail> {
    assert_eq!(rt; first_wrong(rt.alloc(), &TABLE)?, None);
    Ok(())
}

#[test]
fn a_damaged_blob_is_told(rt: HostRuntime) -> Result<(), Fail> {
    assert_eq!(rt; first_wrong(rt.alloc(), &BLOB)?, None);
    Ok(())
}

#[test]
fn a_slot_past_a_pages_limit_is_told(rt: HostRuntime) -> Result<(), Fail> {
    assert_eq!(rt; first_wrong(rt.alloc(), &SLOTS)?, None);
    Ok(())
}

#[test]
fn what_is_allowed_is_no_damage(rt: HostRuntime) -> Result<(), Fail> {
    assert_eq!(rt; first_wrong(rt.alloc(), &ALLOWED)?, None);
    Ok(())
}
