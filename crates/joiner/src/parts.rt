// Parts in the bytes that are lent: a program and its file one after another, part by part, with the lengths of these in that order.
ghost use Rattle.std.specs.Prelude.{◌≡◌, length, get_or, take, drop};
ghost use Rattle.joiner.specs.Lent.{parts_left, with_pulse};

use model::Options;

// A part: its program, its netlist file and its given pulse length.
#[derive(Clone, Copy)]
pub struct LentPart<'a> {
    pub program: &'a [u8],
    pub file: &'a [u8],
    pub pulse: u8,
}

// The parts that are left, one after another. Lengths and pulse lengths are lists by themselves, as callers lend them (hub_join).
#[derive(Clone, Copy)]
pub struct Parts<'a> {
    pub lengths: &'a [u32],
    pub pulses: &'a [u8],
    pub bytes: &'a [u8],
}

impl<'a> Parts<'a> {
    // How many parts there are: a last length by itself is that of a program without a file.
    pub fn number(&self) -> usize
        ensures { result ≡ length (parts_left self.now) }
    {
        self.lengths.len().div_ceil(2)
    }

    // The given pulse length of the first, 0 where it is missing: definition `parts_in`.
    pub fn pulse(&self) -> u8
        ensures { result ≡ get_or self.now.pulses.now 0 0 }
    {
        self.pulses.first().copied().unwrap_or(0)
    }
}

impl<'a> Iterator for Parts<'a> {
    ghost use Rattle.std.specs.Iterator.{YieldsFirstBy, item_count};
    ghost use Rattle.joiner.specs.Lent.{part_of, parts_left};

    type Item = LentPart<'a>;

    ghost next_gives = { YieldsFirstBy part_of parts_left };

    ghost remaining = { item_count parts_left };

    // A file whose length is missing is empty, and a missing pulse length is 0: definition `parts_in`.
    fn next(&mut self) -> Option<LentPart<'a>> {
        let (n, lengths) = self.lengths.split_first()?;
        let (program, bytes) = split_within(self.bytes, *n as usize);
        let (m, lengths) = first_or(lengths, 0);
        let (file, bytes) = split_within(bytes, m as usize);
        let (pulse, pulses) = first_or(self.pulses, 0);
        *self = Parts {
            lengths,
            pulses,
            bytes,
        };
        Some(LentPart {
            program,
            file,
            pulse,
        })
    }
}

// The first n bytes, or all of them, and those behind.
fn split_within(bytes: &[u8], n: usize) -> (&[u8], &[u8])
    ensures front { result.0.now ≡ take n bytes.now }
    ensures back { result.1.now ≡ drop n bytes.now }
{
    bytes.split_at(n.min(bytes.len()))
}

// The first of a list, or what stands for it where there is none, and those behind.
pub(crate) fn first_or<T: Copy>(xs: &[T], none: T) -> (T, &[T])
    ensures first { result.0 ≡ get_or xs.now 0 none }
    ensures behind { result.1.now ≡ drop 1 xs.now }
{
    match xs.split_first() {
        Some((x, behind)) => (*x, behind),
        None => (none, xs),
    }
}

// What is given beside a part, of the options their table alone, and its pulse length.
pub fn beside(options: Options, pulse: u8) -> Options
    ensures { result ≡ with_pulse options pulse }
{
    Options {
        procedures: 0,
        pulse,
        ..options
    }
}
