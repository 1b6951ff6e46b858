// The machine line: the first line of an input, with the count of the machine's parts.

ghost use Rattle.lines.specs.Read.{machine_count, next_as};
ghost use Rattle.lines.specs.Gives.{rest_of, Takes, AdmitGives, StartGives};

use crate::reader::Reader;
use tree::Refusal;

// The most parts that a program takes.
const MOST: u16 = 512;

// Reads the machine line: how many parts, and the reader of the lines after it; or the refusal that ends the run.
pub fn machine_line(input: &[u8]) -> Result<(usize, Reader<'_>), Refusal>
    ensures { StartGives input.entry result }
{
    let mut reader = Reader::new(input, 0);
    let n = count(&mut reader).ok_or(Refusal::MalformedLine(1))?;
    let parts = admit(n)?;
    Ok((parts, reader))
}

// Takes a machine line.
fn count(reader: &mut Reader) -> Option<u16>
    ensures { Takes (λ n. n) (next_as machine_count (rest_of reader.old)) reader.old reader.new result }
{
    reader.next()?.machine_count()
}

// Tests 1 and 2 of a machine's count.
fn admit(n: u16) -> Result<usize, Refusal>
    ensures { AdmitGives n result }
{
    if n == 0 {
        return Err(Refusal::Empty);
    }
    if MOST < n {
        return Err(Refusal::TooLarge);
    }
    Ok(n as usize)
}
