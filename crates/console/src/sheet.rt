// The part lines.

ghost use Rattle.console.specs.Gives.{EntryGives, EntriesGive};

use lines::Reader;

// Takes the part lines into the sheet, one for each of its cells; or the number of the line at which they break off.
pub(crate) fn part_lines(reader: &mut Reader, parents: &mut [u16]) -> Result<(), usize>
    ensures { EntriesGive reader.old reader.new parents.new result }
{
    for v in 0..parents.len() {
        parents[v] = part_line(reader, v).ok_or(v + 2)?;
    }
    Ok(())
}

// Takes the line of part v: its entry.
fn part_line(reader: &mut Reader, v: usize) -> Option<u16>
    ensures { EntryGives v reader.old reader.new result }
{
    reader.next()?.entry(v)
}
