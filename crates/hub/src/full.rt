// The full run of a program. Everything is checked before anything is written, because a refusal changes no lent byte.
ghost use Rattle.std.specs.Prelude.{◌≡◌, ◌≤◌, List, ◌∷◌, ℕ, length};
ghost use Rattle.model.specs.declared.Options.{Options};
ghost use Rattle.model.specs.declared.Answer.{Answer};
ghost use Rattle.model.specs.declared.Format.TheVariants.{Full};
ghost use Rattle.model.specs.Refusals.{Checked, first, Accepted};
ghost use Rattle.model.specs.Word.{Bytes};
ghost use Rattle.model.specs.NetlistFile.{cell_limit, file_check};
ghost use Rattle.model.specs.Calls.{ReturnedBoth, overwrite, shows, full_state, full_count};
ghost use Rattle.state.specs.Stands.{Runs};
ghost use Rattle.hub.specs.Lent.{lent_checks, asked, HasCells, Tells};

use model::asked::check_asked;
use model::sizes::{BLOCK, ELEMENTS, STATE_CELL, STATE_HEADER};
use model::{Answer, Checked, Options, refuse};

// A kind of circuit that programs are compiled to.
pub trait Circuit {
    // The check of a program, the file of its netlist, what is told of a full run's answer, and the call of that run.
    ghost checked: { Options → List ℕ → Checked };

    ghost made: { Options → List ℕ → List ℕ };

    ghost told: { List ℕ → Answer → List ℕ → Answer };

    ghost called: { Options → List ℕ → List ℕ → ℕ → List ℕ → List ℕ → ReturnedBoth };

    fn check(options: Options, program: &[u8]) -> Checked
        ensures { result ≡ checked options program.now };

    fn count_cells(options: Options, program: &[u8]) -> usize
        requires { checked options program.now ≡ Accepted }
        ensures { HasCells (made options program.now) result };

    fn compile(options: Options, program: &[u8], netlist: &mut [u8]) -> usize
        requires { (checked options program.now ≡ Accepted) × (length (made options program.now) ≤ length netlist.old) }
        ensures length { result ≡ length (made options program.now) }
        ensures lent { netlist.new ≡ overwrite (made options program.now) netlist.old };

    fn tell(netlist: &[u8], answer: Answer, state: &[u8]) -> Answer
        requires { Runs Full netlist.now state.now }
        ensures { result ≡ told netlist.now answer state.now };

    // The file of an accepted program's netlist is accepted.
    ghost compiled: { (options : Options) (program : List ℕ) → Bytes program → checked options program ≡ Accepted → file_check (made options program) ≡ Accepted };

    // The call tells what its checks and the run of that file say.
    ghost tells: { (options : Options) (program words : List ℕ) (budget : ℕ) (netlist state : List ℕ) → Tells (first (checked options program ∷ asked (made options program) words budget netlist state)) told (made options program) words budget netlist state (called options program words budget netlist state) };
}

// Refusals 13 and 14, where the netlist has n cells. Of a state the simulator asks the same, in either format and of no other buffer.
fn check_lent(n: usize, words: &[u8], budget: u32, netlist: &[u8], state: &[u8]) -> Checked
    requires { n ≤ cell_limit }
    ensures { result ≡ first (lent_checks n words.now budget netlist.now state.now) }
{
    check_asked(budget, words)?;
    if netlist.len() < BLOCK * netlist::blocks::blocks_for(n) {
        return refuse(14, 0);
    }
    if state.len() < STATE_HEADER + STATE_CELL * n + ELEMENTS {
        return refuse(14, 0);
    }
    Ok(())
}

// The circuit's own refusals, 13, 14. What is given and lent to a full run stays, here and below, as callers hand it over: a struct would be made for one call.
fn check<C: Circuit>(
    options: Options,
    program: &[u8],
    words: &[u8],
    budget: u32,
    netlist: &[u8],
    state: &[u8],
) -> Checked
    ensures { result ≡ first (C.checked options program.now ∷ asked (C.made options program.now) words.now budget netlist.now state.now) }
{
    C::check(options, program)?;
    let n = C::count_cells(options, program);
    check_lent(n, words, budget, netlist, state)
}

// The run of a program that was not refused.
fn run_accepted<C: Circuit>(
    options: Options,
    program: &[u8],
    words: &[u8],
    budget: u32,
    netlist: &mut [u8],
    state: &mut [u8],
) -> Answer
    requires { first (C.checked options program.now ∷ asked (C.made options program.now) words.now budget netlist.old state.old) ≡ Accepted }
    ensures answer { result ≡ C.told (C.made options program.now) (shows Full (C.made options program.now) (full_state (C.made options program.now) words.now budget state.old) (full_count (C.made options program.now) words.now budget state.old)) (full_state (C.made options program.now) words.now budget state.old) }
    ensures netlist { netlist.new ≡ overwrite (C.made options program.now) netlist.old }
    ensures state { state.new ≡ full_state (C.made options program.now) words.now budget state.old }
{
    let length = C::compile(options, program, netlist);
    let answer = simulator::runs::full_run(&netlist[..length], words, budget, state);
    C::tell(&netlist[..length], answer, state)
}

// A compiling, and a full run of what it wrote, in two lent buffers.
pub fn run<C: Circuit>(
    options: Options,
    program: &[u8],
    words: &[u8],
    budget: u32,
    netlist: &mut [u8],
    state: &mut [u8],
) -> Answer
    ensures answer { result ≡ (C.called options program.now words.now budget netlist.old state.old).answer }
    ensures netlist { netlist.new ≡ (C.called options program.now words.now budget netlist.old state.old).netlist }
    ensures state { state.new ≡ (C.called options program.now words.now budget netlist.old state.old).state }
{
    if let Err(r) = check::<C>(options, program, words, budget, netlist, state) {
        return Answer::refused(r);
    }
    run_accepted::<C>(options, program, words, budget, netlist, state)
}
