// What a netlist file tells beside its cells, as one value: made once from the head of a file that is accepted, and passed on.
// Its contract is an equation with model/NetlistFile, field by field (specs/Headers).
ghost use Rattle.model.specs.Refusals.{Accepted};
ghost use Rattle.std.specs.Prelude.{◌≡◌};
ghost use Rattle.model.specs.NetlistFile.{file_check};
ghost use Rattle.netlist.specs.Headers.{header_of};

use crate::blocks;

// How many cells there are, which of them is the finish, and how long pulses are.
#[derive(Clone, Copy, PartialEq, Eq)]
pub struct Header {
    pub count: usize,
    pub finish: usize,
    pub pulse: u8,
}

pub fn header_of(file: &[u8]) -> Header
    requires { file_check file.now ≡ Accepted }
    ensures { result ≡ header_of file.now }
{
    let count = word::get16(file, 2) as usize;
    let finish = word::get16(file, 4) as usize;
    let pulse = blocks::pulse_of(file) as u8;
    Header {
        count,
        finish,
        pulse,
    }
}
