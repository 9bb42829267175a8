use sg_base::Name;
use sg_model::Op;
use std::test::Fail;

// Operations are asked in functions that promise nothing, so that the test sees plain values.
fn is_changing(op: &Op<'_>) -> bool {
    op.is_changing()
}

// Whether get, len, find and read change anything.
fn are_reads_changing(name: Name) -> [bool; 4] {
    [
        is_changing(&Op::Get { name, index: 0 }),
        is_changing(&Op::Len { name }),
        is_changing(&Op::Find { name, key: b"k" }),
        is_changing(&Op::Read {
            name,
            at: 0,
            count: 1,
        }),
    ]
}

// Whether push and pop do.
fn are_others_changing(name: Name) -> [bool; 2] {
    [
        is_changing(&Op::Push { name, value: b"v" }),
        is_changing(&Op::Pop { name }),
    ]
}

fn name() -> Option<Name> {
    Name::new(b"a")
}

#[test]
fn four_operations_only_read(rt: HostRuntime) -> Result<(), Fail> {
    let name = name().ok_or("a name")?;
    assert_eq!(rt; are_reads_changing(name), [false; 4]);
    assert_eq!(rt; are_others_changing(name), [true; 2]);
    Ok(())
}
