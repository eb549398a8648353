// What the programs hubrun and hubtext share: reading their input into a lent buffer, and numbers put into the lent buffer of their output.
// Each contract of a put tells the place after what was put in, and the buffer's list at exit: `sets d i v` is d with v put in from i on; the texts
// themselves are model/Hubrun's. There is no heap, so no String takes them: a buffer and the place in it go along.
#![tactic(auto)]

ghost use Rattle.std.specs.Prelude.{◌≡◌, [], ◌∷◌, ◌++◌, ◌+◌, ◌<◌, ◌≤◌, IfOk, length, take};
ghost use Rattle.std.specs.Io.KnownBytes.{Consumes, IsAtEnd};
ghost use Rattle.std.proofs.lemmas.List.Edits.{sets};
ghost use Rattle.model.specs.Calls.{overwrite};
ghost use Rattle.model.specs.Hubrun.{decimal, line, refused_word};

use itoa::Buffer;
use std::io;
use std::io::Read;

// Reads until the input ends or the buffer is full; answers how many bytes. How many a read gives is known only after it, so no `for` walks over them.
pub fn read_all<R: Read>(input: &mut R, bytes: &mut [u8]) -> io::Result<usize>
    ensures within { IfOk result (λ n. n ≤ length bytes.new) }
    ensures read { IfOk result (λ n. Consumes (R.remaining input.old) (R.remaining input.new) (take n bytes.new)) }
    ensures all { IfOk result (λ n. n < length bytes.new → IsAtEnd (R.remaining input.new)) }
{
    let mut count = 0;
    while count < bytes.len() {
        let read = input.read(&mut bytes[count..])?;
        if read == 0 {
            return Ok(count);
        }
        count += read;
    }
    Ok(count)
}

// A number, without a zero in front.
#[tactic(auto, using(crate::proofs::Digits::same_decimal))]
pub fn put_decimal(out: &mut [u8], at: usize, n: usize) -> usize
    requires { at + length (decimal n) ≤ length out.old }
    ensures next { result ≡ at + length (decimal n) }
    ensures out { out.new ≡ sets out.old at (decimal n) }
{
    let mut buffer = Buffer::new();
    word::put_bytes(out, at, buffer.format(n).as_bytes())
}

// A number and the byte after it: a space, or the line feed.
#[tactic(auto, using(crate::proofs::Puts::put_after))]
pub fn put_number(out: &mut [u8], at: usize, n: usize, after: u8) -> usize
    requires { at + length (decimal n) + 1 ≤ length out.old }
    ensures next { result ≡ at + length (decimal n) + 1 }
    ensures out { out.new ≡ sets out.old at (decimal n ++ (after ∷ [])) }
{
    let end = put_decimal(out, at, n);
    out[end] = after;
    end + 1
}

// The text of a refusal. The number widens by `as`, with which proofs compute.
pub fn put_refusal(out: &mut [u8], number: u8, place: usize) -> usize
    requires { 50 ≤ length out.old }
    ensures next { result ≡ length (line (refused_word ∷ decimal number ∷ decimal place ∷ [])) }
    ensures out { out.new ≡ overwrite (line (refused_word ∷ decimal number ∷ decimal place ∷ [])) out.old }
{
    let told = word::put_bytes(out, 0, b"refused ");
    let numbered = put_number(out, told, number as usize, b' ');
    put_number(out, numbered, place, b'\n')
}
