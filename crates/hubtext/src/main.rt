// The program hubtext: output has what it writes. This reads and writes, and says where nothing could be written.
#![tactic(auto)]

mod output;

use std::io;
use std::io::Write;

// A text above 4,096 bytes is refused whatever follows, so 4,097 bytes tell all (cut-text in proofs/Outputs).
fn main(rt: HostRuntime) -> io::Result<()> {
    let mut source = [0u8; 4097];
    let count = lines::read_all(&mut rt.stdin(), &mut source)?;
    let mut out = [0u8; 1024];
    let length = output::output(&source[..count], &mut out);
    if rt.stdout().write_all(&out[..length]).is_err() {
        eprintln!(rt; "hubtext: standard output can't be written")?;
    }
    Ok(())
}
