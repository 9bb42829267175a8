// An engine that an opening found, as that of a store.
ghost use Rattle.std.specs.Prelude.{◌≡◌, ◌<◌, ◌≤◌, IfOk, IfErr, option_map};
ghost use Rattle.sg_alloc.specs.Flags.{map_bands_of};
ghost use Rattle.sg_analysis.specs.Analysis.{losers_of};
ghost use Rattle.sg_ops.specs.Table.{Table};
ghost use Rattle.sg_recovery.specs.Chains.{next_lsn};
ghost use Rattle.sg_recovery.specs.Formed.{IsLog};
ghost use Rattle.sg_action.specs.States.{State};
ghost use Rattle.sg_reader.specs.Reader.{limits};
ghost use Rattle.sg_reader.proofs.Decide.{reader};
ghost use Rattle.sg_store.specs.Engine.{Sizes};
ghost use Rattle.sg_shown.specs.Shown.{Finds, extent_of, lent, over};
ghost use Rattle.sg_regained.specs.Regained.{unfinished_in};

use crate::Paged;
use sg_actions::Engine;
use sg_analysis::Analysis;
use sg_ops::Ops;
use sg_regained::{FoundSpace, Unresumed, found, resume};
use sg_starting::{Reopens, Unstarted};
use std::alloc::Global;

impl<E: Engine> Paged<E> {
    /// Over an engine that an opening found, of so many pages and bands, whose log was analysed so. Where memory
    /// is refused the engine is handed back as it was. It is to be resumed before its first action.
    pub fn found(
        alloc: Global,
        engine: E,
        pages: u32,
        bands: u32,
        analysis: &Analysis,
    ) -> Result<Paged<E>, E>
        requires few { pages ≤ 1048576 }
        requires formed { (E.view engine).Told → IsLog (E.view engine).base (E.view engine).steps }
        requires below { (E.view engine).Told → next_lsn (E.view engine).steps ≤ (E.view engine).tail }
        requires based { (E.view engine).Told → (E.view engine).base ≤ (E.view engine).tail }
        requires start { (E.view engine).Told → (E.view engine).base ≡ E.first_byte engine }
        requires within { (E.view engine).Told → (pages ≤ (E.view engine).extent.pages) × (bands ≤ (E.view engine).extent.bands) }
        requires losers { (E.view engine).Told → analysis.now.losers ≡ losers_of (E.view engine).steps }
        requires unfinished { (E.view engine).Told → option_map (λ p. (p.0.0, p.1)) analysis.now.unfinished ≡ unfinished_in (E.view engine).steps }
        // It is as the opening found it, of whatever the engine's records mean, where it may have so many pages and
        // bands.
        ensures finds { (t : Table) (z : Sizes) (from : State) → E.means engine t from → from.size ≡ extent_of z → z.pages ≡ pages → z.bands ≡ bands
            → E.limits z.pages z.bands ≡ limits (reader z.pages z.bands) → 0 < z.pages → map_bands_of z.pages z.bands ≤ z.bands
            → IfOk result (λ s. Finds (lent (over s.acts) s.room) t z from) }
        ensures engine { IfOk result (λ s. s.acts.engine ≡ engine) }
        ensures breaks { IfOk result (λ s. s.acts.breaks ≡ 0) }
        ensures refused { IfErr result (λ e. e ≡ engine) }
    {
        match found(alloc, engine, pages, bands, analysis) {
            Ok(FoundSpace { acts, room }) => Ok(Paged {
                acts,
                room: Some(room),
            }),
            Err(engine) => Err(engine),
        }
    }
}

impl<E: Engine> Reopens for Paged<E> {
    fn resume(self, ops: &Ops) -> Result<Self, Unstarted<Self>> {
        let Paged { acts, room } = self;
        match resume(acts, room, ops) {
            Ok(acts) => Ok(Paged { acts, room: None }),
            Err(Unresumed { why, acts }) => {
                let engine = Paged { acts, room: None };
                Err(Unstarted { why, engine })
            }
        }
    }
}
