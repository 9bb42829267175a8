ghost use Rattle.std.specs.Prelude.{◌≡◌, ◌≢◌, ◌⊎◌, true, false, IfSome};
ghost use Rattle.std.specs.IoError.{error_kind};
ghost use Rattle.std.specs.Process.{exit_status};
ghost use Rattle.sg_disk.specs.Disk.{refusing, Spent};
ghost use Rattle.sg_ops.specs.Table.{shipped_table, table_of};
ghost use Rattle.sg_commands.specs.Words.{are_run, are_init, are_log, are_served, call_disk, listing_asked, with_file, drawn, stop_after};
ghost use Rattle.sg_commands.specs.Drawing.{Draws, sunk};
ghost use Rattle.sg_commands.specs.Images.{IsOfStore};
ghost use Rattle.sg_commands.specs.Logged.{ListsLog};
ghost use Rattle.sg_commands.specs.Making.{SaysMade};
ghost use Rattle.sg_commands.specs.Written.{WritesObjects, text_for};
ghost use Rattle.sg_commands.specs.Sized.{Makes};
ghost use Rattle.sg_commands.specs.Stores.{grounds, says};
ghost use Rattle.sg_commands.specs.Top.{outside, Account};
ghost use Rattle.sg_main.specs.Texts.{number_of_status};

use crate::status::{Shown, exit_number};
use sg_base::{Sink, Source};
use sg_disk::Disk;
use sg_ops::Ops;
use sg_top::{Finish, Status, stasis};
use std::alloc::Global;
use std::io::{self, Eprint, ErrorKind};
use std::marker::Model;
use std::process::{ExitCode, Termination};
use std::thread::Threads;

/// How the program ended, which contracts see as its status. One is made by a run alone, of the status
/// with which `stasis` ended, or where the words of the process couldn't be had. `main` answers one, so
/// it can end with no other number.
#[derive(Drop)]
pub struct Ended {
    status: Status,
}

impl Model for Ended {
    ghost use Rattle.sg_commands.specs.declared.status.Status.{Status};

    ghost Value = { Status };

    ghost view = { λ e. e.status };
}

impl Ended {
    /// Does what the words say over this disk, with the shipped operations, and answers how it ended beside
    /// all that `stasis` left. Without the memory for these no run begins.
    pub fn of_run<R: Threads + Sync, D: Disk, S: Source, K: Sink>(
        rt: &R,
        alloc: Global,
        words: &[String],
        disk: D,
        script: &mut S,
        out: &mut K,
    ) -> (Ended, Finish<D>)
        ensures ended { result.0 ≡ result.1.status }
        ensures usage { result.1.status ≡ Status.Usage → are_served words.now ≡ false }
        ensures unused { are_served words.now ≡ false → ((result.1.status ≡ Status.Usage) ⊎ (result.1.status ≡ Status.Memory)) × (out.new ≡ out.old) }
        ensures apart { are_run words.now ≡ false → with_file words.now ≡ false → script.new ≡ script.old }
        ensures beside { call_disk words.now ≡ false → (result.1.disk ≡ disk) × (result.1.refused ≡ 0) }
        ensures made { are_init words.now ≡ true → Makes grounds says result.1.status (with_file words.now) D.told (outside (D.view disk) (S.left script.old) (S.faults script.old) (K.taken out.old) (K.faults out.old))
            (outside (D.view result.1.disk) (S.left script.new) (S.faults script.new) (K.taken out.new) (K.faults out.new)) result.1.refused }
        ensures said { are_init words.now ≡ true → SaysMade result.1.status (sunk (K.taken out.old) (K.faults out.old)) (sunk (K.taken out.new) (K.faults out.new)) }
        ensures objects { IfSome (listing_asked words.now) (λ listing. WritesObjects grounds says (text_for listing) shipped_table D.told (IsOfStore grounds says shipped_table (D.view disk)) (refusing (D.view disk) 0)
            (refusing (D.view result.1.disk) result.1.refused) (sunk (K.taken out.old) (K.faults out.old)) (sunk (K.taken out.new) (K.faults out.new)) result.1.status) }
        ensures listed { are_log words.now ≡ true → ListsLog result.1.status D.told (D.view disk) (D.view result.1.disk) (sunk (K.taken out.old) (K.faults out.old)) (sunk (K.taken out.new) (K.faults out.new)) }
        ensures drawn { IfSome (drawn words.now) (λ d. Draws result.1.status d (sunk (K.taken out.old) (K.faults out.old)) (sunk (K.taken out.new) (K.faults out.new))) }
        // All that `stasis` says, of the very disk that it left.
        ensures run { are_run words.now ≡ true → Account grounds says shipped_table D.told (IsOfStore grounds says shipped_table (D.view disk)) (outside (D.view disk) (S.left script.old) (S.faults script.old) (K.taken out.old) (K.faults out.old))
            (outside (D.view result.1.disk) (S.left script.new) (S.faults script.new) (K.taken out.new) (K.faults out.new)) result.1.refused result.1.status }
        ensures heeded { (result.1.status ≡ Status.Disk → ⊥) → ((D.view result.1.disk).faults ≡ (D.view disk).faults) × (result.1.refused ≡ 0) }
        ensures spent { Spent (stop_after words.now) (D.view disk).calls (D.view result.1.disk).calls result.1.refused }
    {
        match Ops::shipped(alloc) {
            Ok(ops) => Ended::of_shipped(rt, alloc, ops, words, disk, script, out),
            Err(_) => Ended::beside(Finish {
                status: Status::Memory,
                disk,
                refused: 0,
            }),
        }
    }

    // The same with operations that are the shipped ones.
    fn of_shipped<R: Threads + Sync, D: Disk, S: Source, K: Sink>(
        rt: &R,
        alloc: Global,
        ops: Ops,
        words: &[String],
        disk: D,
        script: &mut S,
        out: &mut K,
    ) -> (Ended, Finish<D>)
        requires shipped { table_of record_meaning range_meaning ops ≡ shipped_table }
        ensures ended { result.0 ≡ result.1.status }
        ensures usage { result.1.status ≡ Status.Usage → are_served words.now ≡ false }
        ensures unused { are_served words.now ≡ false → ((result.1.status ≡ Status.Usage) ⊎ (result.1.status ≡ Status.Memory)) × (out.new ≡ out.old) }
        ensures apart { are_run words.now ≡ false → with_file words.now ≡ false → script.new ≡ script.old }
        ensures beside { call_disk words.now ≡ false → (result.1.disk ≡ disk) × (result.1.refused ≡ 0) }
        ensures made { are_init words.now ≡ true → Makes grounds says result.1.status (with_file words.now) D.told (outside (D.view disk) (S.left script.old) (S.faults script.old) (K.taken out.old) (K.faults out.old))
            (outside (D.view result.1.disk) (S.left script.new) (S.faults script.new) (K.taken out.new) (K.faults out.new)) result.1.refused }
        ensures said { are_init words.now ≡ true → SaysMade result.1.status (sunk (K.taken out.old) (K.faults out.old)) (sunk (K.taken out.new) (K.faults out.new)) }
        ensures objects { IfSome (listing_asked words.now) (λ listing. WritesObjects grounds says (text_for listing) shipped_table D.told (IsOfStore grounds says shipped_table (D.view disk)) (refusing (D.view disk) 0)
            (refusing (D.view result.1.disk) result.1.refused) (sunk (K.taken out.old) (K.faults out.old)) (sunk (K.taken out.new) (K.faults out.new)) result.1.status) }
        ensures listed { are_log words.now ≡ true → ListsLog result.1.status D.told (D.view disk) (D.view result.1.disk) (sunk (K.taken out.old) (K.faults out.old)) (sunk (K.taken out.new) (K.faults out.new)) }
        ensures drawn { IfSome (drawn words.now) (λ d. Draws result.1.status d (sunk (K.taken out.old) (K.faults out.old)) (sunk (K.taken out.new) (K.faults out.new))) }
        ensures run { are_run words.now ≡ true → Account grounds says shipped_table D.told (IsOfStore grounds says shipped_table (D.view disk)) (outside (D.view disk) (S.left script.old) (S.faults script.old) (K.taken out.old) (K.faults out.old))
            (outside (D.view result.1.disk) (S.left script.new) (S.faults script.new) (K.taken out.new) (K.faults out.new)) result.1.refused result.1.status }
        ensures heeded { (result.1.status ≡ Status.Disk → ⊥) → ((D.view result.1.disk).faults ≡ (D.view disk).faults) × (result.1.refused ≡ 0) }
        ensures spent { Spent (stop_after words.now) (D.view disk).calls (D.view result.1.disk).calls result.1.refused }
    {
        Ended::beside(stasis(rt, alloc, ops, words, disk, script, out))
    }

    // How a command ended, beside what it left.
    fn beside<D: Disk>(left: Finish<D>) -> (Ended, Finish<D>)
        ensures ended { result.0 ≡ left.status }
        ensures left { result.1 ≡ left }
    {
        let status = left.status;
        (Ended { status }, left)
    }

    /// Where there was no memory for the words.
    pub fn without_memory() -> Ended
        ensures { result ≡ Status.Memory }
    {
        Ended {
            status: Status::Memory,
        }
    }

    /// Where the words of the process couldn't be had.
    pub fn without_words(e: &io::Error) -> Ended
        ensures memory { error_kind e.now ≡ ErrorKind.OutOfMemory → result ≡ Status.Memory }
        ensures usage { error_kind e.now ≢ ErrorKind.OutOfMemory → result ≡ Status.Usage }
    {
        let status = match e.kind() {
            ErrorKind::OutOfMemory => Status::Memory,
            _ => Status::Usage,
        };
        Ended { status }
    }
}

impl Termination for Ended {
    /// Says on standard error how the program ended, and answers the number for it.
    fn report<R: Eprint>(self, rt: &R) -> ExitCode
        ensures { exit_status result ≡ number_of_status self }
    {
        if self.status != Status::Done {
            let text = Shown(self.status);
            // Where standard error can't be written, the number alone says it.
            let _ = eprintln!(rt; "stasis: {text}");
        }
        ExitCode::from(exit_number(self.status))
    }
}
