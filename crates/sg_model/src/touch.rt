ghost use Rattle.std.specs.Prelude.{◌≡◌, ◌↔◌, ◌<◌, ◌≤◌, ◌||◌, true, [], ◌∷◌, ◌++◌, length, map, IsTrue, option_copied};
ghost use Rattle.sg_model.specs.Touches.{same_resource, object_of, tells_kind, is_over, overlap, meet, conflict, AreInConflict};
ghost use Rattle.sg_model.specs.Resources.{shown_resource, shown_touch};

use crate::Key;
use sg_base::Name;

/// What a transaction can hold: parts of an object, or which objects there are.
#[derive(Clone, Copy)]
pub enum Resource {
    /// Whether an object is there, its kind, and an array's item size.
    Name(Name),
    /// The length of an array.
    Len(Name),
    /// An item of an array, or that there is none at this index.
    Item(Name, u64),
    /// The value under a key of a table, or that there is none.
    Key(Name, Key),
    /// The bytes of a blob.
    Body(Name),
    /// All the keys of a table, with their values.
    Keys(Name),
    /// Which objects there are.
    Names,
    /// All of an object.
    AllOf(Name),
}

/// A touch of a resource, which writes it or only reads it.
#[derive(Clone, Copy)]
pub struct Touch {
    pub what: Resource,
    pub write: bool,
}

impl Resource {
    /// Whether this resource and another are one.
    #[inline(always)]
    pub fn is_same(&self, other: &Resource) -> bool
        ensures { result ≡ same_resource (shown_resource self.now) (shown_resource other.now) }
    {
        match (self, other) {
            (Resource::Name(m), Resource::Name(n)) => m == n,
            (Resource::Len(m), Resource::Len(n)) => m == n,
            (Resource::Item(m, i), Resource::Item(n, j)) => i == j && m == n,
            (Resource::Key(m, k), Resource::Key(n, l)) => k == l && m == n,
            (Resource::Body(m), Resource::Body(n)) => m == n,
            (Resource::Keys(m), Resource::Keys(n)) => m == n,
            (Resource::Names, Resource::Names) => true,
            (Resource::AllOf(m), Resource::AllOf(n)) => m == n,
            _ => false,
        }
    }

    // The object that it is of, if it is of one.
    fn object(&self) -> Option<&Name>
        ensures { option_copied result ≡ object_of (shown_resource self.now) }
    {
        match self {
            Resource::Name(name)
            | Resource::Len(name)
            | Resource::Item(name, _)
            | Resource::Key(name, _)
            | Resource::Body(name)
            | Resource::Keys(name)
            | Resource::AllOf(name) => Some(name),
            Resource::Names => None,
        }
    }

    // Whether it tells that an object is there.
    fn tells_kind(&self) -> bool
        ensures { result ≡ tells_kind (shown_resource self.now) }
    {
        matches!(
            self,
            Resource::Names | Resource::Name(_) | Resource::AllOf(_)
        )
    }

    // Whether another resource of the same object lies within it and is a lesser one.
    fn is_over(&self, other: &Resource) -> bool
        ensures { result ≡ is_over (shown_resource self.now) (shown_resource other.now) }
    {
        match self {
            Resource::AllOf(_) => true,
            Resource::Keys(_) => matches!(other, Resource::Key(_, _)),
            _ => false,
        }
    }

    // Whether this resource and another of the same object cover a common part of it.
    fn overlaps(&self, other: &Resource) -> bool
        ensures { result ≡ overlap (shown_resource self.now) (shown_resource other.now) }
    {
        self.is_over(other) || other.is_over(self) || other.is_same(self)
    }

    /// Whether this resource and another cover a common part of the objects.
    fn meets(&self, other: &Resource) -> bool
        ensures { result ≡ meet (shown_resource self.now) (shown_resource other.now) }
    {
        match (self.object(), other.object()) {
            (Some(m), Some(n)) => m == n && self.overlaps(other),
            _ => self.tells_kind() && other.tells_kind(),
        }
    }
}

fn is_conflict(a: &Touch, b: &Touch) -> bool
    ensures { result ≡ conflict (shown_touch a.now) (shown_touch b.now) }
{
    (a.write || b.write) && a.what.meets(&b.what)
}

/// Whether two touches are in conflict: one of them writes, and their resources cover a common
/// part of the objects.
pub fn conflict(a: &Touch, b: &Touch) -> bool
    ensures value { result ≡ conflict (shown_touch a.now) (shown_touch b.now) }
    ensures exact { IsTrue result ↔ AreInConflict (shown_touch a.now) (shown_touch b.now) }
{
    is_conflict(a, b)
}

/// The most touches of one operation.
pub const MOST_TOUCHES: usize = 3;

/// What one operation touches: at most three touches.
#[derive(Clone, Copy)]
pub struct Touches {
    touches: [Touch; 3],
    len: usize,
    ghost few: { len ≤ 3 },
}

impl Touches {
    ghost use Rattle.sg_model.specs.TouchList.{shown_touches};

    /// No touches.
    #[inline(always)]
    pub fn new() -> Touches
        ensures { shown_touches result ≡ [] }
    {
        Touches {
            touches: [Touch {
                what: Resource::Names,
                write: false,
            }; 3],
            len: 0,
        }
    }

    /// There are no touches any more.
    #[inline(always)]
    pub fn clear(&mut self)
        ensures { shown_touches self.new ≡ [] }
    {
        self.len = 0;
    }

    /// The touches, in the order in which they were added.
    pub fn list(&self) -> &[Touch]
        ensures { map shown_touch result.now ≡ shown_touches self.now }
    {
        &self.touches[..self.len]
    }

    /// Adds a touch, where there are fewer than three.
    #[inline(always)]
    pub fn push(&mut self, touch: Touch)
        requires { length (shown_touches self.old) < MOST_TOUCHES }
        ensures { shown_touches self.new ≡ shown_touches self.old ++ shown_touch touch ∷ [] }
    {
        self.touches[self.len] = touch;
        self.len += 1;
    }
}
