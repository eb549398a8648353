// The reader over all words of a text: how many nodes the text has, or where its grammar is broken.
ghost use Rattle.std.specs.Prelude.{◌≡◌, ◌-◌, ◌≤◌, length};
ghost use Rattle.text.specs.Shown.{lists};
ghost use Rattle.text.specs.Parsing.{Parses, Going};

use crate::frames::NO_FRAME;
use crate::machine::Machine;
use scanner::Words;

// So many nodes, which stand in the list as long as they are at most 200; or the place where no continuation fits.
pub fn parse(text: &[u8], nodes: &mut [u8]) -> Result<usize, usize>
    requires { (length text.now ≤ 4096) × (length nodes.old ≡ 800) }
    ensures { Parses text.now nodes.new result }
{
    let mut stack = [NO_FRAME; 4096];
    let mut m = Machine::at_first();
    for w in Words::of(text) {
        m = crate::reader::step(&mut stack, nodes, m, w.token);
        if crate::reader::is_broken(m) {
            return Err(w.place);
        }
    }
    if crate::reader::is_complete(&stack, m) {
        return Ok(usize::from(m.count));
    }
    Err(text.len())
}
