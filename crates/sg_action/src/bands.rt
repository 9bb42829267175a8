ghost use Rattle.std.specs.Prelude.{◌≡◌, ◌+◌, ◌≤◌, length};
ghost use Rattle.sg_base.specs.Overwritten.{overwritten};
ghost use Rattle.sg_action.specs.Opened.{StoodThere};

// Sets the bytes from byte `at` on.
fn overwrite(band: &mut [u8], at: u32, bytes: &[u8])
    requires { at + length bytes.now ≤ length band.old }
    ensures { band.new ≡ overwritten band.old at bytes.now }
{
    let start = at as usize;
    band[start..start + bytes.len()].copy_from_slice(bytes);
}

/// Writes bytes into a band and takes them off again, by the bytes that stood there: no byte is
/// another then.
pub fn write_and_take_off(band: &mut [u8], at: u32, bytes: &[u8], before: &[u8])
    requires { StoodThere band.old at (length bytes.now) before.now }
    ensures { band.new ≡ band.old }
{
    overwrite(band, at, bytes);
    overwrite(band, at, before);
}
