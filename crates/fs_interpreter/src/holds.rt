//! Tests, as bits.

ghost use Rattle.std.specs.Prelude.{not, ◌&&◌, ◌||◌, IfOk};
ghost use Rattle.fs_interpreter.specs.Meanings.{Grows, IsBit};
ghost use Rattle.fs_interpreter.specs.States.{AreCells, cell_at, Fits};
ghost use Rattle.fs_interpreter.specs.Steps.{holds_in};
ghost use Rattle.fs_lang.specs.Meaning.{test_of};

use crate::bits::Bits;
use crate::cells::Cells;
use crate::reads::{dir_at, empty_at, file_at, link_at, none_at, or, truth};
use crate::table::Table;
use fs_lang::Test;
use rh_base::NoMemory;

/// Whether the test holds of what the cells tell.
#[cycle(held_test)]
#[tactic(auto, using(fs_lang::specs::Meaning::test_of_not, fs_lang::specs::Meaning::test_of_and, fs_lang::specs::Meaning::test_of_or))]
pub(crate) fn holds<B: Bits>(
    bits: &mut B,
    table: &Table,
    test: &Test,
    cells: &Cells<B>,
) -> Result<B::Bit, NoMemory>
    requires { Fits (B.meanings bits.old) table.now cells.now }
    ensures gives { IfOk result
        (IsBit (B.meanings bits.new)
        (λ v. holds_in table.now (test_of test.now) (cell_at (B.meanings bits.old) v cells.now))) }
    ensures grows { Grows (B.meanings bits.old) (B.meanings bits.new) }
    ensures cells { AreCells (B.meanings bits.new) cells.now }
{
    match test {
        Test::True => truth(bits, cells, true),
        Test::False => truth(bits, cells, false),
        Test::Not(a) => fails(bits, table, a.get(), cells),
        Test::And(a, b) => both_hold(bits, table, a.get(), b.get(), cells),
        Test::Or(a, b) => one_holds(bits, table, a.get(), b.get(), cells),
        Test::IsFile(p) => file_at(bits, cells, table.position(p)),
        Test::IsLink(p) => link_at(bits, cells, table.position(p)),
        Test::IsDir(p) => dir_at(bits, cells, table.position(p)),
        Test::IsEmpty(p) => empty_at(bits, cells, table.position(p), table.children(p)),
        Test::IsNone(p) => none_at(bits, cells, table.position(p)),
    }
}

#[cycle(held_test)]
fn fails<B: Bits>(
    bits: &mut B,
    table: &Table,
    a: &Test,
    cells: &Cells<B>,
) -> Result<B::Bit, NoMemory>
    requires { Fits (B.meanings bits.old) table.now cells.now }
    ensures gives { IfOk result
        (IsBit (B.meanings bits.new)
        (λ v. not (holds_in table.now (test_of a.now) (cell_at (B.meanings bits.old) v cells.now)))) }
    ensures grows { Grows (B.meanings bits.old) (B.meanings bits.new) }
    ensures cells { AreCells (B.meanings bits.new) cells.now }
{
    let inner = holds(bits, table, a, cells)?;
    bits.not(&inner)
}

#[cycle(held_test)]
fn both_hold<B: Bits>(
    bits: &mut B,
    table: &Table,
    a: &Test,
    b: &Test,
    cells: &Cells<B>,
) -> Result<B::Bit, NoMemory>
    requires { Fits (B.meanings bits.old) table.now cells.now }
    ensures gives { IfOk result
        (IsBit (B.meanings bits.new)
        (λ v. holds_in table.now (test_of a.now) (cell_at (B.meanings bits.old) v cells.now) && holds_in table.now
        (test_of b.now) (cell_at (B.meanings bits.old) v cells.now))) }
    ensures grows { Grows (B.meanings bits.old) (B.meanings bits.new) }
    ensures cells { AreCells (B.meanings bits.new) cells.now }
{
    let first = holds(bits, table, a, cells)?;
    let second = holds(bits, table, b, cells)?;
    bits.and(&first, &second)
}

#[cycle(held_test)]
fn one_holds<B: Bits>(
    bits: &mut B,
    table: &Table,
    a: &Test,
    b: &Test,
    cells: &Cells<B>,
) -> Result<B::Bit, NoMemory>
    requires { Fits (B.meanings bits.old) table.now cells.now }
    ensures gives { IfOk result
        (IsBit (B.meanings bits.new)
        (λ v. holds_in table.now (test_of a.now) (cell_at (B.meanings bits.old) v cells.now) || holds_in table.now
        (test_of b.now) (cell_at (B.meanings bits.old) v cells.now))) }
    ensures grows { Grows (B.meanings bits.old) (B.meanings bits.new) }
    ensures cells { AreCells (B.meanings bits.new) cells.now }
{
    let first = holds(bits, table, a, cells)?;
    let second = holds(bits, table, b, cells)?;
    or(bits, &first, &second)
}
