// Why a verb on an array is refused, and the array where it isn't.
ghost use Rattle.std.specs.Prelude.{◌≡◌, ◌<◌, ◌≤◌, length, OnOk, IfOk, ⊤};
ghost use Rattle.sg_ops.specs.Table.{Table as Operations};
ghost use Rattle.sg_model.specs.Verb.Verb.{Push, Pop, Set, Get};
ghost use Rattle.sg_space.specs.View.{Counts, OnlyReads};
ghost use Rattle.sg_contents.specs.Standing.{HasContents, IfContents};
ghost use Rattle.sg_objects.specs.Found.{Checked, CanPushTo, CanPopOf, HasItem, CanSetIn};
ghost use Rattle.sg_space.specs.Pages.{WritesNone};

use crate::find::{ArrayAt, array_of};
use sg_base::Name;
use sg_model::Reason;
use sg_space::{PageSpace, SpaceFault};

// The most items of an array.
const MOST: u32 = 1_048_576;

/// The array onto which an item may be pushed.
pub fn check_push<P: PageSpace>(
    space: &mut P,
    name: Name,
    value: &[u8],
) -> Result<Result<ArrayAt, Reason>, SpaceFault>
    requires { HasContents (P.view space.old) (λ _. ⊤) }
    ensures counts { Counts (P.view space.old) (P.view space.new) result }
    ensures kept { OnOk result (OnlyReads (P.view space.old) (P.view space.new)) }
    ensures read { IfOk result (λ r. IfContents (P.view space.old) (λ s. Checked name (Push value.now) s (CanPushTo name (length value.now) s) r)) }
    ensures small { IfOk result (λ r. IfOk r (λ x. x.size ≤ 256)) }
    ensures later { (t : Operations) → P.later t space.old space.new }
    ensures means { (t : Operations) → P.means space.old t → P.means space.new t }
    ensures writes { WritesNone (P.view space.old) (P.view space.new) result }
{
    match array_of(space, name)? {
        Err(reason) => Ok(Err(reason)),
        Ok(found) => {
            if value.len() != found.size as usize {
                return Ok(Err(Reason::Declined));
            }
            if found.len >= MOST {
                return Ok(Err(Reason::TooMany));
            }
            Ok(Ok(found))
        }
    }
}

/// The array of which an item may be popped.
pub fn check_pop<P: PageSpace>(
    space: &mut P,
    name: Name,
) -> Result<Result<ArrayAt, Reason>, SpaceFault>
    requires { HasContents (P.view space.old) (λ _. ⊤) }
    ensures counts { Counts (P.view space.old) (P.view space.new) result }
    ensures kept { OnOk result (OnlyReads (P.view space.old) (P.view space.new)) }
    ensures read { IfOk result (λ r. IfContents (P.view space.old) (λ s. Checked name Pop s (CanPopOf name s) r)) }
    ensures small { IfOk result (λ r. IfOk r (λ x. x.size ≤ 256)) }
    ensures later { (t : Operations) → P.later t space.old space.new }
    ensures means { (t : Operations) → P.means space.old t → P.means space.new t }
    ensures writes { WritesNone (P.view space.old) (P.view space.new) result }
{
    match array_of(space, name)? {
        Err(reason) => Ok(Err(reason)),
        Ok(found) => {
            if found.len == 0 {
                return Ok(Err(Reason::OutOfRange));
            }
            Ok(Ok(found))
        }
    }
}

/// The array of which an item may be read.
pub fn check_get<P: PageSpace>(
    space: &mut P,
    name: Name,
    index: u64,
) -> Result<Result<ArrayAt, Reason>, SpaceFault>
    requires { HasContents (P.view space.old) (λ _. ⊤) }
    ensures counts { Counts (P.view space.old) (P.view space.new) result }
    ensures kept { OnOk result (OnlyReads (P.view space.old) (P.view space.new)) }
    ensures read { IfOk result (λ r. IfContents (P.view space.old) (λ s. Checked name (Get index) s (HasItem name index s) r)) }
    ensures small { IfOk result (λ r. IfOk r (λ x. x.size ≤ 256)) }
    ensures below { IfOk result (λ r. IfOk r (λ x. index < x.len)) }
    ensures later { (t : Operations) → P.later t space.old space.new }
    ensures means { (t : Operations) → P.means space.old t → P.means space.new t }
    ensures writes { WritesNone (P.view space.old) (P.view space.new) result }
{
    match array_of(space, name)? {
        Err(reason) => Ok(Err(reason)),
        Ok(found) => {
            if index >= found.len as u64 {
                return Ok(Err(Reason::OutOfRange));
            }
            Ok(Ok(found))
        }
    }
}

/// The array of which an item may be replaced by this one.
pub fn check_set<P: PageSpace>(
    space: &mut P,
    name: Name,
    index: u64,
    value: &[u8],
) -> Result<Result<ArrayAt, Reason>, SpaceFault>
    requires { HasContents (P.view space.old) (λ _. ⊤) }
    ensures counts { Counts (P.view space.old) (P.view space.new) result }
    ensures kept { OnOk result (OnlyReads (P.view space.old) (P.view space.new)) }
    ensures read { IfOk result (λ r. IfContents (P.view space.old) (λ s. Checked name (Set index value.now) s (CanSetIn name index (length value.now) s) r)) }
    ensures small { IfOk result (λ r. IfOk r (λ x. x.size ≤ 256)) }
    ensures below { IfOk result (λ r. IfOk r (λ x. index < x.len)) }
    ensures later { (t : Operations) → P.later t space.old space.new }
    ensures means { (t : Operations) → P.means space.old t → P.means space.new t }
    ensures writes { WritesNone (P.view space.old) (P.view space.new) result }
{
    match array_of(space, name)? {
        Err(reason) => Ok(Err(reason)),
        Ok(found) => {
            if index >= found.len as u64 {
                return Ok(Err(Reason::OutOfRange));
            }
            if value.len() != found.size as usize {
                return Ok(Err(Reason::Declined));
            }
            Ok(Ok(found))
        }
    }
}
