// The program hubrun: printed has what it prints. This reads and writes, and says where nothing could be written.
#![tactic(auto)]

mod printed;

use std::io;
use std::io::Write;

// A program above 800 bytes is refused whatever follows, so 36 + 801 bytes tell all (cut-text in proofs/Texts).
fn main(rt: HostRuntime) -> io::Result<()> {
    let mut input = [0u8; 837];
    let count = lines::read_all(&mut rt.stdin(), &mut input)?;
    let mut out = [0u8; 512];
    let length = printed::text(&input[..count], &mut out);
    if rt.stdout().write_all(&out[..length]).is_err() {
        eprintln!(rt; "hubrun: standard output can't be written")?;
    }
    Ok(())
}
