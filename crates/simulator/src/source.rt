// What a run is of.
use model::Format;
use netlist::header::Header;

// A netlist file that is accepted, what its head tells, and the format of its state. That the file is accepted and a state has its size each function asks
// for itself, in one clause: a state is lent to be read here and to be written there. It is passed by reference, since it would be copied for each cell.
#[derive(Clone, Copy)]
pub struct Source<'a> {
    pub format: Format,
    pub file: &'a [u8],
    pub h: Header,
}
