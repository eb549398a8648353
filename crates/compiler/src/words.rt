// Where the words of variables and of arrays come from.
ghost use Rattle.std.specs.Prelude.{◌≡◌, ◌+◌, ◌<◌, ◌≤◌, refl};
ghost use Rattle.model.specs.Program.{array_var};
ghost use Rattle.model.specs.Numbering.{Wires, memory_wires};

pub trait Words {
    // The wires that bring them, and whether arrays have any.
    ghost come_on: { Self → Wires → Type 0 };

    ghost has_arrays: { Self → Type 0 };

    fn variable(&self, x: u16) -> u16
        requires { x < 16 }
        ensures { (ws : Wires) → come_on self.now ws → result ≡ ws x };

    // The wire of array a, which is variable 16 + a, where arrays have any. No Option: the walk would unwrap it at each element.
    fn array(&self, a: u16) -> u16
        requires { a < 4 }
        ensures { has_arrays self.now → (ws : Wires) → come_on self.now ws → result ≡ ws (array_var a) };

    // Some wires do.
    ghost some_wires: { (w : Self) → (ws : Wires) × come_on w ws };
}

// The sixteen memories, from a first one on, and the arrays' cells behind them.
#[derive(Clone, Copy)]
pub struct Memories {
    pub first: u16,
    ghost low: { first + 24 ≤ 627 },
}

impl Words for Memories {
    ghost come_on = { λ m ws. ws ≡ memory_wires m.first };

    ghost has_arrays = { λ m. Unit {0} };

    ghost some_wires = { λ m. (memory_wires m.first, refl) };

    fn variable(&self, x: u16) -> u16 {
        self.first + x
    }

    fn array(&self, a: u16) -> u16 {
        self.first + 16 + 2 * a
    }
}
