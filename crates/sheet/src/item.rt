// What a sheet lists, item after item.
ghost use Rattle.sheet.specs.Form.{Form};
ghost use Rattle.sheet.specs.Sheet.{point_line, corner};
ghost use Rattle.sheet.specs.Reader.{Reads};

use crate::fault::TextFault;
use crate::reader::Reader;
use point::solid::SolidRecord;

// The greatest vertex number.
const LAST_VERTEX: u32 = 1048575;

pub trait Item: Copy {
    // how one is written
    ghost form: { Form Self };

    fn read(reader: &mut Reader<'_>) -> Result<Self, TextFault>
        ensures { Reads form reader.old result reader.new };
}

// The point of a line.
impl Item for SolidRecord {
    ghost form = { point_line };

    fn read(reader: &mut Reader<'_>) -> Result<SolidRecord, TextFault> {
        let x = reader.coordinate()?;
        reader.expect(b" ")?;
        let y = reader.coordinate()?;
        reader.expect(b" ")?;
        let z = reader.coordinate()?;
        reader.expect(b"\n")?;
        Ok(SolidRecord { x, y, z })
    }
}

// A corner is its vertex number, after a blank.
impl Item for u32 {
    ghost form = { corner };

    fn read(reader: &mut Reader<'_>) -> Result<u32, TextFault> {
        reader.expect(b" ")?;
        reader.natural(0, LAST_VERTEX)
    }
}
