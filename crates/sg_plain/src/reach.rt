ghost use Rattle.std.specs.Prelude.{◌≡◌, true, false};
ghost use Rattle.sg_model.specs.Resources.{shown_resource, shown_touch};

use sg_model::{Resource, Touch};

/// A touch that writes.
pub fn written(what: Resource) -> Touch
    ensures { shown_touch result ≡ record { what = shown_resource what; write = true } }
{
    Touch { what, write: true }
}

/// A touch that only reads.
pub fn only_read(what: Resource) -> Touch
    ensures { shown_touch result ≡ record { what = shown_resource what; write = false } }
{
    Touch { what, write: false }
}
