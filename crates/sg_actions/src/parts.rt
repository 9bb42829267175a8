// What a space over an engine is made of.
ghost use Rattle.std.specs.Prelude.{◌≡◌};

use crate::rows::{Actor, Row};
use crate::{Acts, Engine};
use sg_alloc::Maps;
use std::snapshot::Snapshot;

/// What a space over an engine is made of, between its calls.
pub struct Parts<E> {
    pub engine: E,
    /// What is taken, with what the open action has freed.
    pub maps: Maps,
    /// A flag that is clear for each that the open action has freed.
    pub unfreed: Maps,
    /// Who acts.
    pub actor: Actor,
    /// The last record of each transaction but of who acts.
    pub rows: Vec<Row>,
    /// How many breaks were counted.
    pub breaks: u64,
    /// Whether an action was begun.
    pub begun: bool,
    /// How many pages and bands there are.
    pub count: u32,
    pub bands: u32,
}

impl<E: Engine> Acts<E> {
    ghost use Rattle.std.specs.Prelude.{◌≡◌, ◌≤◌, length};
    ghost use Rattle.sg_actions.specs.Acting.{CanChange};
    ghost use Rattle.sg_actions.specs.Taken.{AreFlags, AreSaid, IsWithin};

    /// Of these parts. What the engine holds now is what it held when the action began.
    pub fn of_parts(parts: Parts<E>) -> Acts<E>
        requires count { parts.count ≡ length parts.maps.pages }
        requires width { parts.bands ≡ length parts.maps.bands }
        requires few { parts.count ≤ 1048576 }
        requires pages { AreFlags parts.maps.pages parts.unfreed.pages }
        requires bands { AreFlags parts.maps.bands parts.unfreed.bands }
        requires said { (E.view parts.engine).Told → AreSaid parts.maps.pages (E.view parts.engine).now.pages }
        requires within { (E.view parts.engine).Told → IsWithin parts.maps.pages parts.maps.bands (E.view parts.engine).extent }
        // no break is counted over an engine that tells
        requires unbroken { (E.view parts.engine).Told → parts.breaks ≡ 0 }
        requires goes_on { CanChange (E.view parts.engine) parts.begun parts.actor }
        ensures engine { result.engine ≡ parts.engine }
        ensures maps { result.maps ≡ parts.maps }
        ensures unfreed { result.unfreed ≡ parts.unfreed }
        ensures actor { result.actor ≡ parts.actor }
        ensures rows { result.rows ≡ parts.rows }
        ensures breaks { result.breaks ≡ parts.breaks }
        ensures begun { result.begun ≡ parts.begun }
        ensures begun_at { result.begun_at.value ≡ parts.engine }
    {
        let Parts {
            engine,
            maps,
            unfreed,
            actor,
            rows,
            breaks,
            begun,
            count,
            bands,
        } = parts;
        let begun_at = Snapshot::of(&engine);
        Acts {
            engine,
            maps,
            unfreed,
            actor,
            rows,
            breaks,
            begun,
            begun_at,
            count,
            bands,
        }
    }

    /// Its parts.
    pub fn into_parts(self) -> Parts<E>
        ensures engine { result.engine ≡ self.engine }
        ensures maps { result.maps ≡ self.maps }
        ensures unfreed { result.unfreed ≡ self.unfreed }
        ensures actor { result.actor ≡ self.actor }
        ensures rows { result.rows ≡ self.rows }
        ensures breaks { result.breaks ≡ self.breaks }
        ensures begun { result.begun ≡ self.begun }
        ensures count { result.count ≡ length self.maps.pages }
        ensures bands { result.bands ≡ length self.maps.bands }
        ensures few { result.count ≤ 1048576 }
        ensures page_flags { AreFlags self.maps.pages self.unfreed.pages }
        ensures band_flags { AreFlags self.maps.bands self.unfreed.bands }
        ensures within { (E.view self.engine).Told → IsWithin self.maps.pages self.maps.bands (E.view self.engine).extent }
        ensures unbroken { (E.view self.engine).Told → self.breaks ≡ 0 }
        ensures goes_on { CanChange (E.view self.engine) self.begun self.actor }
    {
        let Acts {
            engine,
            maps,
            unfreed,
            actor,
            rows,
            breaks,
            begun,
            begun_at,
            count,
            bands,
        } = self;
        drop(begun_at);
        Parts {
            engine,
            maps,
            unfreed,
            actor,
            rows,
            breaks,
            begun,
            count,
            bands,
        }
    }
}
