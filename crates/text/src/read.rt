// What stands at the beginning of some bytes: a number, a line. Each is given with the bytes behind it.

ghost use Rattle.std.specs.Prelude.{◌≡◌};
ghost use Rattle.std.specs.List.{position};
ghost use Rattle.text.specs.Bytes.{is_lf};
ghost use Rattle.text.specs.Fields.{number_from, number, number_then};
ghost use Rattle.text.specs.Found.{value_of, FirstLine};

// A number at the beginning, 0, or digits of which the first is not 0: its value, and the bytes behind it.
pub fn find_number(bytes: &[u8]) -> Option<(u16, &[u8])>
    ensures { value_of result ≡ number bytes.now }
{
    match bytes {
        [b'0', rest @ ..] => Some((0, rest)),
        [digit @ b'1'..=b'9', rest @ ..] => number_from((digit - b'0') as u16, rest),
        _ => None,
    }
}

// The same of a number whose first digits make `first`, and whose other digits stand at the beginning.
fn number_from(first: u16, bytes: &[u8]) -> Option<(u16, &[u8])>
    ensures { value_of result ≡ number_from first bytes.now }
{
    let mut v = first;
    let mut rest = bytes;
    while let [digit @ b'0'..=b'9', others @ ..] = rest {
        v = v.checked_mul(10)?.checked_add((digit - b'0') as u16)?;
        rest = others;
    }
    Some((v, rest))
}

// A number at the beginning, with a word behind it: its value, and the bytes behind the word.
pub fn find_number_then<'a>(bytes: &'a [u8], word: &[u8]) -> Option<(u16, &'a [u8])>
    ensures { value_of result ≡ number_then word.now bytes.now }
{
    let (n, rest) = find_number(bytes)?;
    let rest = rest.strip_prefix(word)?;
    Some((n, rest))
}

// The first line of a text: its bytes before its LF, and the bytes behind that.
pub fn first_line(text: &[u8]) -> Option<(&[u8], &[u8])>
    ensures { FirstLine text.now result }
{
    let end = first_lf(text)?;
    Some((&text[..end], &text[end + 1..]))
}

// The place of the first LF.
fn first_lf(bytes: &[u8]) -> Option<usize>
    ensures { result ≡ position is_lf bytes.now }
{
    bytes.iter().position(|&x| x == b'\n')
}
