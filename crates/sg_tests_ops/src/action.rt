use sg_action::write_and_take_off;

// Whether a write of 3 bytes into 8 leaves them as they were, once it's taken off by what stood there.
fn goes_back(at: usize, bytes: &[u8; 3]) -> bool {
    let mut band = *b"\x01\x02\x03\x04\x05\x06\x07\x08";
    if at > 5 {
        return false;
    }
    let mut before = [0; 3];
    before.copy_from_slice(&band[at..at + 3]);
    write_and_take_off(&mut band, at as u32, bytes, &before);
    band == *b"\x01\x02\x03\x04\x05\x06\x07\x08"
}

#[test]
fn a_write_is_taken_off(rt: HostRuntime) {
    for at in 0..6 {
        assert!(rt; goes_back(at, b"xyz"));
        assert!(rt; goes_back(at, &[0; 3]));
    }
}
