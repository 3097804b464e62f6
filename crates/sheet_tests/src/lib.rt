// Tests of the reader at the edges of the form. They stand apart, since a crate with tests is proved twice.
#![tactic(auto)]

#[cfg(test)]
mod tests {
    use point::solid::SolidRecord;
    use refusal::Refusal;
    use sheet::fault::TextFault;
    use sheet::read::read_sheet;
    use sheet::record::Sizes;
    use sheet::tables::SheetTables;
    use std::process::Abort;
    use std::test::Fail;

    const OLD: SolidRecord = SolidRecord { x: 7, y: 7, z: 7 };

    // What the reader answers with tables of four points, two faces and eight corners.
    fn answer(text: &[u8]) -> Result<Sizes, TextFault> {
        let mut points = [OLD; 4];
        let mut lengths = [7u32; 2];
        let mut corners = [7u32; 8];
        let mut tables = SheetTables {
            points: &mut points,
            lengths: &mut lengths,
            corners: &mut corners,
        };
        read_sheet(text, 0, &mut tables)
    }

    fn declines(rt: &impl Abort, text: &[u8], number: u32, value: i128, case: &str) {
        match answer(text) {
            Ok(_) => panic!(rt; "{case}: it was accepted"),
            Err(fault) => assert_eq!(rt;
                Refusal::from(fault),
                Refusal::with(number, value),
                "{case}"
            ),
        }
    }

    #[test]
    fn not_of_the_form(rt: HostRuntime) {
        declines(&rt, b"", 8, 0, "empty");
        declines(&rt, b"points 01\n", 8, 7, "leading zero");
        declines(&rt, b"points -1\n", 8, 7, "a minus in a count");
        declines(
            &rt,
            b"points -99999999999\n",
            8,
            7,
            "the sign before the range",
        );
        declines(&rt, b"points 0\nfaces 0\nend", 8, 20, "no last line end");
        declines(
            &rt,
            b"points 0\nfaces 0\nend\n ",
            8,
            21,
            "a byte after the end",
        );
        declines(
            &rt,
            b"points 0\r\nfaces 0\r\nend\r\n",
            8,
            7,
            "carriage return",
        );
        declines(&rt, b"points\t0\nfaces 0\nend\n", 8, 0, "tab");
        declines(&rt, b"points \0\nfaces 0\nend\n", 8, 7, "NUL");
        declines(&rt, b"points 1\n0 -0 0\n", 8, 11, "minus zero");
    }

    #[test]
    fn past_a_limit(rt: HostRuntime) {
        declines(&rt, b"points 1048577\n", 9, 7, "too many points");
        declines(&rt, b"points 1\n0 16777217 0\n", 9, 11, "coordinate above");
        declines(&rt, b"points 1\n-16777217 0 0\n", 9, 9, "coordinate below");
        declines(&rt, b"points 0\nfaces 1\n0\n", 9, 17, "no corner");
        declines(&rt, b"points 0\nfaces 1\n65 0\n", 9, 17, "65 corners");
        declines(
            &rt,
            b"points 0\nfaces 1\n1 1048576\n",
            9,
            19,
            "vertex number",
        );
    }

    #[test]
    fn long_numbers(rt: HostRuntime) -> Result<(), Fail> {
        let mut text = b"points ".to_vec(rt.alloc())?;
        for _ in 0..400 {
            text.push(b'9')?;
        }
        declines(&rt, text.as_slice(), 9, 7, "400 digits");
        text.push(b'x')?;
        declines(&rt, text.as_slice(), 8, 7, "and then a letter");
        Ok(())
    }

    #[test]
    fn short_tables(rt: HostRuntime) {
        declines(
            &rt,
            b"points 5\n1 1 1\n1 1 1\n1 1 1\n1 1 1\n1 1 1\nfaces 0\nend\n",
            1,
            5,
            "points first",
        );
        declines(
            &rt,
            b"points 0\nfaces 3\n3 0 1 2\n3 0 1 2\n3 0 1 2\nend\n",
            1,
            3,
            "then faces",
        );
        declines(
            &rt,
            b"points 0\nfaces 2\n5 0 1 2 3 4\n4 0 1 2 3\nend\n",
            1,
            9,
            "then corners",
        );
    }

    #[test]
    fn what_the_tables_hold(rt: HostRuntime) {
        let mut points = [OLD; 3];
        let mut lengths = [7u32; 2];
        let mut corners = [7u32; 4];
        let text = b"points 2\n-16777216 0 16777216\n1 -1 10\nfaces 1\n3 0 1048575 1\nend\n";
        let sizes = Sizes {
            points: 2,
            faces: 1,
            corners: 3,
        };
        let mut tables = SheetTables {
            points: &mut points,
            lengths: &mut lengths,
            corners: &mut corners,
        };
        assert_eq!(rt; read_sheet(text, 0, &mut tables), Ok(sizes));
        let first = SolidRecord {
            x: -16777216,
            y: 0,
            z: 16777216,
        };
        let second = SolidRecord { x: 1, y: -1, z: 10 };
        assert_eq!(rt; points, [first, second, OLD]);
        assert_eq!(rt; lengths, [3, 7]);
        assert_eq!(rt; corners, [0, 1048575, 1, 7]);
    }
}
