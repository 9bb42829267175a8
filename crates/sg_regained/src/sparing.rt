// Rows in which transactions may begin, of a space over an engine.
ghost use Rattle.std.specs.Prelude.{◌≡◌, ◌++◌, true, replicate};
ghost use Rattle.sg_actions.specs.Ending.{vacant};

use sg_actions::{Acts, Engine, Parts, Row};
use sg_base::TxnId;

// Puts vacant rows behind others: 64, one for each transaction that may go on at a time, and one behind them.
// `false` where memory is refused.
fn push_spare(rows: &mut Vec<Row>) -> bool
    ensures { result ≡ true → rows.new.items ≡ rows.old.items ++ replicate 65 vacant }
{
    let vacant = Row {
        txn: TxnId(0),
        last: 0,
    };
    'more: for _at in 0..65u64 {
        if rows.push(vacant).is_err() {
            return false;
        }
    }
    true
}

/// A space over an engine, and whether there was memory for more rows.
pub struct Spared<E: Engine> {
    pub acts: Acts<E>,
    pub has_rows: bool,
}

/// Puts vacant rows behind those of a space. Nothing else changes.
pub fn with_spare<E: Engine>(acts: Acts<E>) -> Spared<E>
    ensures engine { result.acts.engine ≡ acts.engine }
    ensures unfreed { result.acts.unfreed ≡ acts.unfreed }
    ensures actor { result.acts.actor ≡ acts.actor }
    ensures breaks { result.acts.breaks ≡ acts.breaks }
    ensures begun { result.acts.begun ≡ acts.begun }
    ensures rows { result.has_rows ≡ true → result.acts.rows.items ≡ acts.rows.items ++ replicate 65 vacant }
{
    let Parts {
        engine,
        maps,
        unfreed,
        actor,
        mut rows,
        breaks,
        begun,
        count,
        bands,
    } = acts.into_parts();
    let has_rows = push_spare(&mut rows);
    let acts = Acts::of_parts(Parts {
        engine,
        maps,
        unfreed,
        actor,
        rows,
        breaks,
        begun,
        count,
        bands,
    });
    Spared { acts, has_rows }
}
