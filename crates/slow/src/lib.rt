// Gates that take their time: a second full run of a program's netlist, in lent buffers.
#![tactic(auto)]

ghost use Rattle.std.specs.Prelude.{◌≡◌, ◌*◌, ◌<◌, ◌≤◌, length};
ghost use Rattle.model.specs.Circuit.{level};
ghost use Rattle.model.specs.Calls.{overwrite};
ghost use Rattle.model.specs.Gates.{end_at, slow_answer, value_bytes};
ghost use Rattle.slow.specs.Ring.{cells_of, values_by, WorksFor};

pub mod net; // what a slow run is of
mod ring; // rings of words
mod gates; // what cells show
mod instants; // instants, cell after cell
mod answers; // values and answers
pub mod calls; // a slow run of a program

use crate::net::Net;
use model::{Answer, Outcome};

// A slow run. The values of its last instant go into one lent buffer; the other is to work in.
pub fn run(net: &Net<'_>, budget: u32, values: &mut [u8], work: &mut [u8]) -> Answer
    requires { WorksFor net.now work.old × (net.now.finish < net.now.n) × (budget ≤ 1000000) × (2 * net.now.n ≤ length values.old) }
    ensures answer { result ≡ slow_answer (cells_of net.now) net.now.finish (values_by net.now) (end_at (level (values_by net.now) net.now.finish) 0 budget) }
    ensures values { values.new ≡ overwrite (value_bytes (λ k. values_by net.now k (end_at (level (values_by net.now) net.now.finish) 0 budget)) 0 net.now.n) values.old }
{
    let t = instants::run(net, budget, work);
    answers::put_values(values, net.n, work, t);
    let last = answers::words_in(net, work, t);
    let outcome = if ring::word_at(work, net.finish, t) == 1 {
        Outcome::Ended
    } else {
        Outcome::Open
    };
    Answer {
        outcome,
        instant: t,
        count: t + 1,
        words: last,
    }
}
