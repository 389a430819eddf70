// The characters that have a signal (01, Text; 02, T-01: small letters as the capitals), and the first byte of a text that has none
// (Numbers returned, 1).
#![tactic(auto)]

ghost use Rattle.std.specs.Prelude.{◌≡◌};
ghost use Rattle.signals.specs.Numbers.{first_not};
ghost use Rattle.text.specs.Encoding.{has_signal};

// Of the bytes below 64, which have a signal: bit n, from the right, is that of byte n. They are 5, 7, 10, 13, 32, 39 to 41, 43 to 58,
// 61 and 63.
const BELOW_64: u64 =
    0b1010_0111_1111_1111_1111_1011_1000_0001_0000_0000_0000_0000_0010_0100_1010_0000;

// Whether a byte has a signal. Clearing bit 5 makes a small letter its capital; bit 7 stays, so that no byte over 127 is one.
fn has_signal(byte: u8) -> bool
    ensures { result ≡ has_signal byte }
{
    if byte < 64 {
        return (BELOW_64 >> byte) & 1 == 1;
    }
    let capital = byte & 223;
    (64 < capital) & (capital < 91)
}

// The index of the first byte that has no signal; the text's length where each has one.
pub fn first_without(text: &[u8]) -> usize
    ensures { result ≡ first_not has_signal text.now }
{
    for i in 0..text.len() {
        if !has_signal(text[i]) {
            return i;
        }
    }
    text.len()
}
