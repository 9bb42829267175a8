ghost use Rattle.std.specs.Prelude.{◌≡◌, ℕ, List, [], ◌∷◌, codes, true, false, Some, None};
ghost use Rattle.sg_command.specs.Asked.{asked, named, begins_plain, run_of, gen_of};
ghost use Rattle.sg_command.specs.declared.words.Command.TheVariants as Command;

/// Words as they are usually written are taken, with an option last: whatever folder, file and numbers they have, as long as each has a
/// byte and begins with no minus. Whether a number is one is left to `run_of` and `gen_of`.
pub fn written_words_are_taken()
    ensures init { (dir : List ℕ) → begins_plain dir ≡ true → asked (codes "init" ∷ dir ∷ []) ≡ Some (Command.Init false) }
    ensures sized { (dir file : List ℕ) → begins_plain dir ≡ true → begins_plain file ≡ true →
        asked (codes "init" ∷ dir ∷ codes "--geometry" ∷ file ∷ []) ≡ Some (Command.Init true) }
    ensures run { (dir : List ℕ) → begins_plain dir ≡ true → asked (codes "run" ∷ dir ∷ []) ≡ Some (Command.Run None) }
    ensures stopped { (dir number : List ℕ) → begins_plain dir ≡ true → begins_plain number ≡ true →
        asked (codes "run" ∷ dir ∷ codes "--stop-after" ∷ number ∷ []) ≡ run_of (Some number) }
    ensures dump { (dir : List ℕ) → begins_plain dir ≡ true → asked (codes "dump" ∷ dir ∷ []) ≡ Some Command.Dump }
    ensures check { (dir : List ℕ) → begins_plain dir ≡ true → asked (codes "check" ∷ dir ∷ []) ≡ Some Command.Check }
    ensures log { (dir : List ℕ) → begins_plain dir ≡ true → asked (codes "log" ∷ dir ∷ []) ≡ Some Command.Log }
    ensures drawn { (seed count : List ℕ) → begins_plain seed ≡ true → begins_plain count ≡ true →
        asked (codes "gen" ∷ seed ∷ count ∷ []) ≡ gen_of (Some seed) (Some count) }
    ensures folder { (dir : List ℕ) → begins_plain dir ≡ true → named (codes "run" ∷ dir ∷ []) ≡ record { dir = Some dir; file = None } }
    ensures folder_stopped { (dir number : List ℕ) → begins_plain dir ≡ true → begins_plain number ≡ true →
        named (codes "run" ∷ dir ∷ codes "--stop-after" ∷ number ∷ []) ≡ record { dir = Some dir; file = None } }
    ensures both { (dir file : List ℕ) → begins_plain dir ≡ true → begins_plain file ≡ true →
        named (codes "init" ∷ dir ∷ codes "--geometry" ∷ file ∷ []) ≡ record { dir = Some dir; file = Some file } }
{}
