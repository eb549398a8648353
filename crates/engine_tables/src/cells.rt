// The cells of a netlist file, field by field, and the numbers of its delays and registers.
ghost use Rattle.std.specs.Prelude.{◌≡◌, ◌%◌, ◌<◌, ◌≤◌, IfSome, length, get_or};
ghost use Rattle.model.specs.NetlistFile.{in_file, cells_at};
ghost use Rattle.netlist.specs.declared.cells.Layout.TheVariants.{InFile};
ghost use Rattle.netlist.specs.Offsets.{Room};
ghost use Rattle.engine_laws.specs.Decoded.{Decoded, Ranks, Delays};

use netlist::cells::{self, Layout};

// The most delays that have a number.
pub const DELAYS: usize = 256;

// The cells of a netlist, field by field; there are n, and the engine has room for 1,024. The lists are the caller's, and may be longer; one that no call
// reads may be empty.
#[derive(Clone, Copy)]
pub struct Circuit<'a> {
    pub kind: &'a [u8],
    pub delay: &'a [u8],
    pub a: &'a [u16],
    pub b: &'a [u16],
    pub n: usize,
    ghost few: { n ≤ 1024 },
}

// The fields of the first n cells of a file.
pub fn read_cells(
    kind: &mut [u8],
    delay: &mut [u8],
    a: &mut [u16],
    b: &mut [u16],
    file: &[u8],
    n: usize,
)
    requires { Room InFile file.now n × (n ≤ length kind.old) × (n ≤ length delay.old) × (n ≤ length a.old) × (n ≤ length b.old) }
    ensures { Decoded (cells_at in_file file.now 0 n) kind.new delay.new a.new b.new n }
{
    for k in 0..n {
        let c = cells::cell_at(file, Layout::InFile, k);
        kind[k] = c.kind;
        delay[k] = c.delay;
        a[k] = c.a;
        b[k] = c.b;
    }
}

impl Circuit<'_> {
    // Numbers for delays and registers, and the cell of each delay; answers how many delays there are, unless there are more than 256.
    pub fn number_cells(&self, rank: &mut [u8], delays: &mut [u16]) -> Option<usize>
        requires { (self.now.n ≤ length rank.old) × (256 ≤ length delays.old) × (self.now.n ≤ length self.now.kind.now) × (self.now.n ≤ length self.now.delay.now) }
        ensures { IfSome result (λ count. (count ≤ 256) × Ranks (λ k. get_or self.now.kind.now k 0) (λ k. get_or self.now.delay.now k 0) rank.new self.now.n × Delays (λ k. get_or self.now.kind.now k 0) self.now.n delays.new count) }
    {
        let mut count: usize = 0;
        let mut memories: usize = 0;
        for k in 0..self.n {
            // Kinds are the numbers of model/Circuit's shape, by which the laws count cells.
            let x = self.kind[k];
            match x {
                34 => {
                    if count == DELAYS {
                        return None;
                    }
                    rank[k] = count as u8;
                    delays[count] = k as u16;
                    count += 1;
                }
                40 => {
                    rank[k] = (memories % 256) as u8;
                    memories += 1;
                }
                42 => rank[k] = 16 + self.delay[k] % 4,
                _ => {}
            }
        }
        Some(count)
    }

    // Where the cells that cell k names are looked up: their numbers, if it is a netlist's.
    pub(crate) fn inputs(&self, k: usize) -> (usize, usize)
        requires { (k < length self.now.a.now) × (k < length self.now.b.now) }
        ensures { (result.0 ≡ get_or self.now.a.now k 0 % 1024) × (result.1 ≡ get_or self.now.b.now k 0 % 1024) }
    {
        (usize::from(self.a[k] % 1024), usize::from(self.b[k] % 1024))
    }
}
