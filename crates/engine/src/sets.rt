// Sets of small numbers, 64 to a word.
ghost use Rattle.std.specs.Prelude.{◌≡◌, ◌-◌, ◌/◌, ◌<◌, eqb, length};
ghost use Rattle.std.specs.Int.Bits.{bit_and};
ghost use Rattle.std.specs.Int.Count.{count_trailing_zeros};
ghost use Rattle.engine_laws.specs.Sets.{member, inserted};

// Number i is put into the set.
pub fn put(set: &mut [u64], i: usize)
    requires { i / 64 < length set.old }
    ensures { set.new ≡ inserted set.old i }
{
    let at = i / 64;
    let bit = 1u64 << ((i % 64) as u32);
    set[at] |= bit;
}

// Whether it is in the set.
pub fn has(set: &[u64], i: usize) -> bool
    requires { i / 64 < length set.now }
    ensures { result ≡ eqb (member set.now i) 1 }
{
    let x = set[i / 64];
    (x >> ((i % 64) as u32)) % 2 == 1
}

// The least member of a word that is not 0.
pub fn first(x: u64) -> usize
    requires { 0 < x }
    ensures { result ≡ count_trailing_zeros 64 x }
{
    x.trailing_zeros() as usize
}

// The word without it.
pub fn rest(x: u64) -> u64
    requires { 0 < x }
    ensures { result ≡ bit_and x (x - 1) }
{
    x & (x - 1)
}
