// Sets of variables, a bit for each, and a wire for each variable.
ghost use Rattle.std.specs.Prelude.{◌≡◌, ◌+◌, ◌<◌, ◌≤◌, eqb, refl};
ghost use Rattle.model.specs.Word.{pick};
ghost use Rattle.model.specs.Functional.{many, placed};
ghost use Rattle.functional.specs.Sets.{has, wired, Agrees, Tells};

use compiler::words::Words;

// The wires that bring a statement the words of the variables.
#[derive(Clone, Copy)]
pub struct Wires {
    pub of: [u16; 16],
}

impl Words for Wires {
    ghost come_on = { λ w us. Agrees w.of us };

    ghost has_arrays = { λ w. ⊥ };

    ghost some_wires = { λ w. (wired w.of, λ x h. refl) };

    fn variable(&self, x: u16) -> u16 {
        self.of[usize::from(x)]
    }

    // No array has a wire: an element is refused (28).
    fn array(&self, _a: u16) -> u16 {
        0
    }
}

// The set of all variables.
pub const ALL: u16 = 65535;

// How many variables are in a set.
pub fn many(set: u16) -> u16
    ensures { result ≡ many (has set) }
{
    set.count_ones() as u16
}

// Whether variable x is in a set.
pub fn has(set: u16, x: usize) -> bool
    requires { x < 16 }
    ensures { result ≡ has set x }
{
    (set >> x) % 2 == 1
}

// The same wire for each variable.
pub fn same(wire: u16) -> Wires
    ensures { Agrees result.of (λ x. wire) }
{
    let of = [wire; 16];
    Wires { of }
}

// The wires of cells at `from`, one for each variable of a set; the others are those of ws.
pub fn placed(set: u16, from: u16, ws: Wires) -> Wires
    requires { from + 16 ≤ 65535 }
    ensures { Agrees result.of (placed (has set) from (wired ws.of)) }
{
    let mut of = ws.of;
    let mut at = from;
    for (x, wire) in of.iter_mut().enumerate() {
        if has(set, x) {
            *wire = at;
            at += 1;
        }
    }
    Wires { of }
}

// The wires us of the variables of a set; the others are those of ws.
pub fn chosen(set: u16, us: Wires, ws: Wires) -> Wires
    ensures { Agrees result.of (λ x. pick (has set x) (wired us.of x) (wired ws.of x)) }
{
    let of = std::array::from_fn(
        |x: usize| -> u16
            requires { x < 16 }
            ensures { result ≡ pick (has set x) (wired us.of x) (wired ws.of x) }
        { if has(set, x) { us.of[x] } else { ws.of[x] } },
    );
    Wires { of }
}

// The set of one variable; an array is no variable.
pub fn single(x: u16) -> u16
    ensures { Tells result (λ y. eqb y x) }
{
    if x < 16 {
        return 1 << x;
    }
    0
}

// The wires ws, but for one variable.
pub fn replaced(x: u16, wire: u16, ws: Wires) -> Wires
    ensures { Agrees result.of (λ y. pick (eqb y x) wire (wired ws.of y)) }
{
    chosen(single(x), same(wire), ws)
}
