// A job's text: the line `job D L`, and then a sheet.
ghost use Rattle.sheet.specs.Read.{tables_of, SameTables};
ghost use Rattle.sheet.specs.Reader.{Reads};
ghost use Rattle.sheet.specs.Job.{job_line, ReadsJob};

use crate::fault::TextFault;
use crate::read::read_sheet;
use crate::reader::Reader;
use crate::record::JobSizes;
use crate::tables::SheetTables;

// The most averages after a split.
const DEGREES: u32 = 9;
// The most splits.
const LEVELS: u32 = 8;

// The two numbers of the job's line.
fn job_line(reader: &mut Reader<'_>) -> Result<(u32, u32), TextFault>
    ensures { Reads job_line reader.old result reader.new }
{
    reader.expect(b"job")?;
    reader.expect(b" ")?;
    let degree = reader.natural(1, DEGREES)?;
    reader.expect(b" ")?;
    let levels = reader.natural(0, LEVELS)?;
    reader.expect(b"\n")?;
    Ok((degree, levels))
}

// Reads the job that a text is, and its sheet into the tables; the whole text is judged before a table is written.
pub fn read_job(text: &[u8], tables: &mut SheetTables<'_>) -> Result<JobSizes, TextFault>
    ensures read { ReadsJob text.now (tables_of tables.old) result (tables_of tables.new) }
    ensures lent { SameTables tables.old tables.new }
{
    let mut reader = Reader { text, at: 0 };
    let (degree, levels) = job_line(&mut reader)?;
    let sizes = read_sheet(text, reader.at, tables)?;
    Ok(JobSizes {
        degree,
        levels,
        sizes,
    })
}
