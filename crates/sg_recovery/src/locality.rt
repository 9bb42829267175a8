// The laws of a setting, from what its verbs and notes do to cells.
ghost use Rattle.sg_recovery.specs.Laws.{Laws};
ghost use Rattle.sg_recovery.specs.Cells.{Cells, CellLaws, setting_of};
ghost use Rattle.sg_recovery.specs.ArrayCase.{array_cells};

/// Readings made of cells, of which verbs and notes touch some. A caller's proof picks them.
pub trait CellGround {
    ghost cells: { Cells };
}

/// Tells a proof that a setting is lawful where each note and each verb is local to the cells that it
/// touches: locks on cells are then enough for notes and verbs of different transactions to change
/// places. It runs no code.
pub fn cells_are_lawful<G: CellGround>()
    ensures { CellLaws G.cells → Laws (setting_of G.cells) }
{}

/// Tells a proof that the laws can be met: an array with items to push, pop and write meets them, for
/// all its notes. It runs no code.
pub fn arrays_are_lawful()
    ensures cells { CellLaws array_cells }
    ensures setting { Laws (setting_of array_cells) }
{}
