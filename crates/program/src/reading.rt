// Whether bytes can be read as a program: refusals 1 to 6.
// Each contract is an equation with model/ProgramChecks.
ghost use Rattle.std.specs.Prelude.{◌≡◌, ℕ, ◌≤◌, ◌<◌, length, take, MatchOption};
ghost use Rattle.model.specs.Refusals.{first, first_fault};
ghost use Rattle.model.specs.Program.{node_at, node_count, nodes_at};
ghost use Rattle.model.specs.ProgramChecks.{program_length_wrong, unused_set, absent, node_fault, reading, root_sorts, program_checks, added, added_fault};

use crate::{kinds, nodes};
use model::sizes::{NODE, PROGRAM_MOST};
use model::{Checked, Node, refuse};

const MOST_PROCEDURES: usize = 8;

// A field without a use that is not zero. What a use is stays a number here and below: a row has the numbers of model's table (model::kinds).
fn spare(used: u8, value: u16) -> bool
    ensures { result ≡ unused_set used value }
{
    if used == 0 { 0 < value } else { false }
}

// A variable above 15, or an array above 3.
fn absent(used: u8, n: u16) -> bool
    ensures { result ≡ absent used n }
{
    ((used == 2) & (15 < n)) | ((used == 3) & (3 < n))
}

// Refusals 2 to 4 of one node, by the number, as definition `node_fault` tells them.
fn fault_of(node: Node) -> Option<u8>
    ensures { MatchOption result (node_fault node ≡ 0) (λ number. (node_fault node ≡ number) × (0 < number)) }
{
    let row = kinds::kind_row(node.kind);
    if row.sort == 0 {
        return Some(2);
    }
    if spare(row.delay, node.delay as u16) | spare(row.number, node.n) {
        return Some(3);
    }
    if absent(row.number, node.n) {
        Some(4)
    } else {
        None
    }
}

// Refusal 1.
fn length_wrong(program: &[u8]) -> bool
    ensures { result ≡ program_length_wrong program.now }
{
    let n = program.len();
    (n == 0) | ((PROGRAM_MOST < n) | (0 < n % NODE))
}

// Refusals 2 to 4: the first node with a fault.
fn first_fault(program: &[u8]) -> Checked
    ensures { result ≡ first_fault (λ i. node_fault (node_at program.now i)) 0 (node_count program.now) }
{
    for (i, node) in program.chunks_exact(NODE).enumerate() {
        if let Some(number) = fault_of(nodes::read_node(node, 0)) {
            return refuse(number, i);
        }
    }
    Ok(())
}

// Refusals 5 and 6. What is still to be read is always some expressions and then some statements, so two counts tell it.
fn first_misread(program: &[u8], procedures: usize) -> Checked
    requires { (length program.now ≤ 800) × (procedures ≤ 8) }
    ensures { result ≡ reading (root_sorts procedures) 0 (nodes_at program.now 0) }
{
    let mut exprs: usize = 0;
    let mut stmts: usize = procedures + 1;
    for (i, node) in program.chunks_exact(NODE).enumerate() {
        let row = kinds::kind_row(nodes::read_node(node, 0).kind);
        if exprs == 0 {
            if stmts == 0 {
                return refuse(6, i);
            }
            if row.sort != 2 {
                return refuse(5, i);
            }
            exprs = row.exprs as usize;
            stmts = stmts - 1 + row.stmts as usize;
        } else {
            if row.sort != 1 {
                return refuse(5, i);
            }
            exprs = exprs - 1 + row.exprs as usize;
        }
    }
    if exprs + stmts == 0 {
        return Ok(());
    }
    refuse(6, program.len() / NODE)
}

// Refusals 1 to 6, which no operator time touches.
pub fn early_check(program: &[u8], procedures: usize) -> Checked
    ensures { (τ : ℕ → ℕ) (w : ℕ) → result ≡ first (take 3 (program_checks τ w procedures program.now)) }
{
    if (MOST_PROCEDURES < procedures) | length_wrong(program) {
        return refuse(1, 0);
    }
    first_fault(program)?;
    first_misread(program, procedures)
}

// A kind that document 01 doesn't have.
fn added(kind: u8) -> bool
    ensures { result ≡ added kind }
{
    (kind == 10) | ((24 <= kind) & (kind <= 27))
}

// Refusal 28: the first node of such a kind.
pub fn first_added(program: &[u8]) -> Checked
    ensures { result ≡ first_fault (added_fault program.now) 0 (node_count program.now) }
{
    for (i, node) in program.chunks_exact(NODE).enumerate() {
        if added(nodes::read_node(node, 0).kind) {
            return refuse(28, i);
        }
    }
    Ok(())
}
