// The parts, put in one after another as the compiler's walk would put their sequence in: each part's cells moved, and its marks.
ghost use Rattle.std.specs.Prelude.{ℕ, length, List, []};
ghost use Rattle.model.specs.declared.Options.{Options};
ghost use Rattle.model.specs.Program.{stmt_at};
ghost use Rattle.model.specs.NetlistFile.{pulse_of};
ghost use Rattle.model.specs.PartPromises.{joined_program};
ghost use Rattle.compiler.specs.Walk.{Done};
ghost use Rattle.compiler.specs.Whole.{RootsDone, Made};
ghost use Rattle.joiner.specs.Lent.{parts_with};
ghost use Rattle.joiner.specs.Stands.{Placeable, Given, PartsReady, SomeGiven, SomeReady};

use crate::moving::Spot;
use crate::parts::Parts;
use compiler::walk::Place;
use compiler::whole::Netlist;

// One part, where the first memory is `memory`.
fn place_part(
    cells: &mut [u8],
    marks: &mut [u16; 800],
    program: &[u8],
    file: &[u8],
    memory: u16,
    at: Place,
) -> Place
    requires { Placeable memory program.now file.now at (length cells.old) }
    ensures { (F : ℕ → ℕ) → Done (pulse_of file.now) memory F (stmt_at program.now 0) at cells.old cells.new marks.old marks.new result }
{
    let own = crate::owning::own_of(file);
    let spot = Spot {
        wire: at.wire,
        delay: at.delay,
        cell: at.cell,
    };
    let end = crate::moving::put_part(cells, file, own, memory, spot);
    // no heap: a list of a fixed size, with zeros behind the gates, which no cell of kind 41 comes to
    let mut gates = [0u16; 400];
    crate::gates::put_gates(&mut gates, program);
    let mark = crate::marks::put_marks(
        marks,
        cells,
        &gates,
        usize::from(at.cell),
        usize::from(end.cell),
        at.mark,
    );
    Place {
        wire: end.wire,
        delay: end.delay,
        cell: end.cell,
        mark,
        ..at
    }
}

// The parts one after another: each starts with the finish of the one before. The pulse lengths that are lent tell nothing of a part's cells or marks.
fn put_parts(cells: &mut [u8], marks: &mut [u16; 800], parts: Parts, memory: u16) -> Place
    requires { SomeReady parts memory (length cells.old) }
    ensures { (options : Options) (pulses : List ℕ) → PartsReady options (parts_with parts.entry pulses) memory (length cells.old) → RootsDone (joined_program (parts_with parts.entry pulses)) [] memory cells.old cells.new marks.old marks.new result }
{
    let mut at = Place {
        wire: 0,
        delay: 3,
        cell: memory + 16 + 8,
        mark: 0,
        out: 0,
    };
    for part in parts {
        at = place_part(cells, marks, part.program, part.file, memory, at);
    }
    at
}

// The netlist of the whole, for any options and pulse lengths with which the parts are accepted: those that are lent may be others, or none. As in
// compiling, the walk is put in twice: the first time it tells where the memories begin. What follows a walk is the compiler's own; the walks themselves
// differ, here with no callers, and a function that is lent one would be longer than the two calls.
pub fn put_netlist(cells: &mut [u8], parts: Parts) -> Netlist
    requires { SomeGiven parts (length cells.old) }
    ensures { (options : Options) (pulses : List ℕ) → Given options (parts_with parts.entry pulses) (length cells.old) → Made (joined_program (parts_with parts.entry pulses)) cells.new result }
{
    let mut marks = [0u16; 800];
    let first = put_parts(cells, &mut marks, parts, 179);
    let clocks = compiler::whole::join_clocks(cells, &marks, first);
    let end = put_parts(cells, &mut marks, parts, clocks.memory);
    let walked = compiler::whole::join_words(cells, &marks, end);
    compiler::whole::close(cells, clocks, walked)
}
