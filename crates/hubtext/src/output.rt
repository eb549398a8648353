// What hubtext writes for a text: the program's bytes, or the line of a refusal. The contract is an equation with model/Hubtext.
ghost use Rattle.std.specs.Prelude.{◌≡◌, length};
ghost use Rattle.model.specs.Calls.{overwrite};
ghost use Rattle.model.specs.Hubtext.{hubtext_output};

use model::Written;
use model::sizes::PROGRAM_MOST;

pub fn output(source: &[u8], out: &mut [u8; 1024]) -> usize
    ensures length { result ≡ length (hubtext_output source.now) }
    ensures out { out.new ≡ overwrite (hubtext_output source.now) out.old }
{
    let mut program = [0u8; PROGRAM_MOST];
    match hub::read_text(hub::defaults(), source, &mut program) {
        Ok(Written { count, .. }) => word::put_bytes(out, 0, &program[..count]),
        Err(r) => lines::put_refusal(out, r.number, r.place),
    }
}
