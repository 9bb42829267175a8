ghost use Rattle.std.specs.Prelude.{◌≡◌, List, ℕ, None, ◌∷◌, MatchOption};
ghost use Rattle.std.specs.Option.{is_some};
ghost use Rattle.sg_words.specs.Requests.{plain_request, object_request, span_request, valued_request, takes_value, make_of};
ghost use Rattle.sg_words.specs.Verbs.{of_named, of_plain, of_valued, wants_one, wants_two, wants_three, has_number, has_two};

/// A verb with a name behind it, then up to three numbers, and at the end a value.
#[derive(Clone, Copy)]
pub enum Numbered {
    Push,
    Set,
    Apply,
    Del,
    Find,
    Write,
    Paint,
}

/// A verb with a value among its words.
#[derive(Clone, Copy)]
pub enum Valued {
    Put,
    With(Numbered),
}

/// A verb with a name behind it, and at the end up to two numbers.
#[derive(Clone, Copy)]
pub enum Named {
    MakeArray,
    MakeTable,
    MakeBlob,
    Discard,
    Pop,
    Get,
    Len,
    Read,
    Size,
    Keys,
}

/// A verb without words behind it.
#[derive(Clone, Copy)]
pub enum Alone {
    Begin,
    Commit,
    Abort,
    List,
}

/// A verb without a value among its words.
#[derive(Clone, Copy)]
pub enum Plain {
    Alone(Alone),
    Make,
    On(Named),
}

impl Numbered {
    /// Whether it has a number.
    pub fn wants_one(self) -> bool
        ensures { result ≡ wants_one self }
    {
        match self {
            Numbered::Set | Numbered::Apply | Numbered::Write | Numbered::Paint => true,
            Numbered::Push | Numbered::Del | Numbered::Find => false,
        }
    }

    /// Whether it has a second number.
    pub fn wants_two(self) -> bool
        ensures { result ≡ wants_two self }
    {
        match self {
            Numbered::Apply | Numbered::Paint => true,
            _ => false,
        }
    }

    /// Whether it has a third number.
    pub fn wants_three(self) -> bool
        ensures { result ≡ wants_three self }
    {
        match self {
            Numbered::Paint => true,
            _ => false,
        }
    }
}

impl Named {
    /// Whether it has a number.
    pub fn has_number(self) -> bool
        ensures { result ≡ has_number self }
    {
        match self {
            Named::MakeArray | Named::Get | Named::Read | Named::Size => true,
            _ => false,
        }
    }

    /// Whether it has a second number.
    pub fn has_two(self) -> bool
        ensures { result ≡ has_two self }
    {
        match self {
            Named::Read => true,
            _ => false,
        }
    }
}

/// The verb with a value among its words that a word is.
#[inline(always)]
#[tactic(auto, unfolding(crate::specs::Requests::valued_request))]
pub fn valued_verb(word: &[u8]) -> Option<Valued>
    ensures verb { MatchOption result ((args : List (List ℕ)) → valued_request word.now args ≡ None) (λ verb. (args : List (List ℕ)) → valued_request word.now args ≡ of_valued verb args) }
    ensures taken { is_some result ≡ takes_value word.now }
{
    if word == b"push".as_slice() {
        Some(Valued::With(Numbered::Push))
    } else if word == b"set".as_slice() {
        Some(Valued::With(Numbered::Set))
    } else if word == b"apply".as_slice() {
        Some(Valued::With(Numbered::Apply))
    } else if word == b"put".as_slice() {
        Some(Valued::Put)
    } else if word == b"del".as_slice() {
        Some(Valued::With(Numbered::Del))
    } else if word == b"find".as_slice() {
        Some(Valued::With(Numbered::Find))
    } else if word == b"write".as_slice() {
        Some(Valued::With(Numbered::Write))
    } else if word == b"paint".as_slice() {
        Some(Valued::With(Numbered::Paint))
    } else {
        None
    }
}

// The verb that reads or sizes a blob, or asks for all keys or names, that a word is.
#[inline(always)]
#[tactic(auto, unfolding(crate::specs::Requests::span_request))]
fn span_verb(word: &[u8]) -> Option<Plain>
    ensures { MatchOption result ((args : List (List ℕ)) → span_request word.now args ≡ None) (λ verb. (args : List (List ℕ)) → span_request word.now args ≡ of_plain verb args) }
{
    if word == b"read".as_slice() {
        Some(Plain::On(Named::Read))
    } else if word == b"size".as_slice() {
        Some(Plain::On(Named::Size))
    } else if word == b"keys".as_slice() {
        Some(Plain::On(Named::Keys))
    } else if word == b"list".as_slice() {
        Some(Plain::Alone(Alone::List))
    } else {
        None
    }
}

// The verb that drops, shortens or looks at an object, or one of the former, that a word is.
#[inline(always)]
#[tactic(auto, unfolding(crate::specs::Requests::object_request))]
fn object_verb(word: &[u8]) -> Option<Plain>
    ensures { MatchOption result ((args : List (List ℕ)) → object_request word.now args ≡ None) (λ verb. (args : List (List ℕ)) → object_request word.now args ≡ of_plain verb args) }
{
    if word == b"drop".as_slice() {
        Some(Plain::On(Named::Discard))
    } else if word == b"pop".as_slice() {
        Some(Plain::On(Named::Pop))
    } else if word == b"get".as_slice() {
        Some(Plain::On(Named::Get))
    } else if word == b"len".as_slice() {
        Some(Plain::On(Named::Len))
    } else {
        span_verb(word)
    }
}

/// The verb without a value among its words that a word is.
#[tactic(auto, unfolding(crate::specs::Requests::plain_request))]
pub fn plain_verb(word: &[u8]) -> Option<Plain>
    ensures { MatchOption result ((args : List (List ℕ)) → plain_request word.now args ≡ None) (λ verb. (args : List (List ℕ)) → plain_request word.now args ≡ of_plain verb args) }
{
    if word == b"begin".as_slice() {
        Some(Plain::Alone(Alone::Begin))
    } else if word == b"commit".as_slice() {
        Some(Plain::Alone(Alone::Commit))
    } else if word == b"abort".as_slice() {
        Some(Plain::Alone(Alone::Abort))
    } else if word == b"make".as_slice() {
        Some(Plain::Make)
    } else {
        object_verb(word)
    }
}

/// The verb that makes an object of the kind that a word is.
pub fn making_verb(kind: &[u8]) -> Option<Named>
    ensures { MatchOption result ((args : List (List ℕ)) → make_of (kind.now ∷ args) ≡ None) (λ verb. (args : List (List ℕ)) → make_of (kind.now ∷ args) ≡ of_named verb args) }
{
    if kind == b"array".as_slice() {
        Some(Named::MakeArray)
    } else if kind == b"table".as_slice() {
        Some(Named::MakeTable)
    } else if kind == b"blob".as_slice() {
        Some(Named::MakeBlob)
    } else {
        None
    }
}
