// Bits of a 16-bit number: the few operations that labels, blocks and lifts are made of, by shifts, masks and counts. Each promises a definition of
// specs/ and the range that its callers need; no caller looks at how it is found.

#![tactic(auto)]

ghost use Rattle.std.specs.Prelude.{◌≡◌};
ghost use Rattle.std.specs.Int.Bits.{bit_xor};
ghost use Rattle.std.specs.Int.Count.{ones};
ghost use Rattle.bits.specs.Bits.{log2, lowest_one, clear_below, bits_below, IsBelow};

// The place of the highest one bit of x, which is log x to base 2, rounded down; 0 for 0. It is the width less one, less the count of leading zeros:
// a ladder of comparisons would be mispredicted.
pub fn log2(x: u16) -> u16
    ensures { IsBelow (log2 x) 16 result }
{
    if x == 0 {
        return 0;
    }
    15 - u16::leading_zeros(x) as u16
}

// The lowest one bit of x, as a number; 0 for 0.
pub fn lowest_one(x: u16) -> u16
    ensures { result ≡ lowest_one x }
{
    if x == 0 {
        return 0;
    }
    x - (x & (x - 1))
}

// How many bits of x are one.
pub fn count_ones(x: u16) -> u16
    ensures { IsBelow (ones x) 17 result }
{
    u16::count_ones(x) as u16
}

// x with the bits below place i cleared: none is left from place 16 on.
pub fn clear_below(x: u16, i: u16) -> u16
    ensures { result ≡ clear_below i x }
{
    if 15 < i {
        return 0;
    }
    (x >> i) << i
}

// The bits of x below place i: all of them from place 16 on.
pub fn bits_below(x: u16, i: u16) -> u16
    ensures { result ≡ bits_below i x }
{
    if 15 < i {
        return x;
    }
    x & ((1 << i) - 1)
}

// The bits in which x and y differ.
pub fn xor(x: u16, y: u16) -> u16
    ensures { result ≡ bit_xor x y }
{
    x ^ y
}
