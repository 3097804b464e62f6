// Tests of the writer on worked sheets. They stand apart, since a crate with tests is proved twice.
#![tactic(auto)]

#[cfg(test)]
mod tests {
    use point::solid::SolidRecord;
    use refusal::Refusal;
    use skin::quad::Quad;
    use skin::skin::Skin;
    use skin::table::TableSkin;
    use std::alloc::Global;
    use std::process::Abort;
    use std::test::Fail;
    use writer::write::write_skin;

    // Two triangles, 0 1 2 and 0 2 1.
    const NEXT: [u32; 6] = [1, 2, 0, 4, 5, 3];

    const PREV: [u32; 6] = [2, 0, 1, 5, 3, 4];

    const TWIN: [u32; 6] = [5, 4, 3, 2, 1, 0];

    const A: SolidRecord = SolidRecord { x: 0, y: 0, z: 0 };

    const B: SolidRecord = SolidRecord { x: 12, y: 0, z: 0 };

    const C: SolidRecord = SolidRecord { x: 0, y: 12, z: 0 };

    // Its edges' middles and its faces' centre.
    const AB: SolidRecord = SolidRecord { x: 6, y: 0, z: 0 };

    const BC: SolidRecord = SolidRecord { x: 6, y: 6, z: 0 };

    const CA: SolidRecord = SolidRecord { x: 0, y: 6, z: 0 };

    const M: SolidRecord = SolidRecord { x: 4, y: 4, z: 0 };

    // This text is written, and the byte after it is left.
    fn writes<S: Skin>(
        rt: &impl Abort,
        heap: Global,
        skin: &S,
        points: &[SolidRecord],
        backward: bool,
        text: &[u8],
    ) -> Result<(), Fail> {
        let mut buf = [b'#'; 512];
        let n = write_skin(heap, skin, points, backward, &mut buf)?;
        assert!(rt; n < 512);
        assert!(rt; &buf[..n] == text);
        assert!(rt; buf[n] == b'#');
        Ok(())
    }

    fn declines<S: Skin>(
        rt: &impl Abort,
        heap: Global,
        skin: &S,
        points: &[SolidRecord],
        buf: &mut [u8],
        value: i128,
        case: &str,
    ) -> Result<(), Fail> {
        match write_skin(heap, skin, points, false, buf) {
            Ok(_) => panic!(rt; "{case}: it was written"),
            Err(fault) => {
                assert_eq!(rt;
                    fault.refusal().ok_or("no memory")?,
                    Refusal {
                        number: 1,
                        value: Some(value),
                    },
                    "{case}"
                );
                Ok(())
            },
        }
    }

    #[test]
    fn triangles(rt: HostRuntime) -> Result<(), Fail> {
        let skin = TableSkin::new(6, &NEXT, &PREV, &TWIN)?;
        let points = [A, B, C, A, C, B];
        let text = b"points 3\n0 0 0\n12 0 0\n0 12 0\nfaces 2\n3 0 1 2\n3 0 2 1\nend\n";
        writes(&rt, rt.alloc(), &skin, &points, false, text)?;
        let text = b"points 3\n0 0 0\n12 0 0\n0 12 0\nfaces 2\n3 0 2 1\n3 0 1 2\nend\n";
        writes(&rt, rt.alloc(), &skin, &points, true, text)
    }

    #[test]
    fn out_of_range(rt: HostRuntime) -> Result<(), Fail> {
        let skin = TableSkin::new(6, &NEXT, &PREV, &TWIN)?;
        let far = SolidRecord {
            x: -16_777_216,
            y: 0,
            z: 16_777_216,
        };
        let out = SolidRecord {
            x: 5,
            y: 0,
            z: 16_777_217,
        };
        let points = [A, far, out, A, out, far];
        let text =
            b"points 3\n0 0 0\n-16777216 0 16777216\n0 0 0\nfaces 2\n3 0 1 2\n3 0 2 1\nend\n";
        writes(&rt, rt.alloc(), &skin, &points, false, text)
    }

    // 33 + 30·3 + 3·2 + 8·6 bytes are needed.
    #[test]
    fn too_short(rt: HostRuntime) -> Result<(), Fail> {
        let skin = TableSkin::new(6, &NEXT, &PREV, &TWIN)?;
        let points = [A, B, C, A, C, B];
        let mut small = [b'#'; 176];
        let case = "points before the buffer";
        declines(&rt, rt.alloc(), &skin, &points[..5], &mut small, 6, case)?;
        let case = "a byte too few";
        declines(&rt, rt.alloc(), &skin, &points, &mut small, 177, case)?;
        assert!(rt; small[0] == b'#');
        let mut enough = [b'#'; 177];
        assert!(rt; write_skin(rt.alloc(), &skin, &points, false, &mut enough)? == 57);
        Ok(())
    }

    #[test]
    fn refined(rt: HostRuntime) -> Result<(), Fail> {
        let skin = TableSkin::new(6, &NEXT, &PREV, &TWIN)?;
        let points = [
            A, AB, M, CA, B, BC, M, AB, C, CA, M, BC, A, CA, M, AB, C, BC, M, CA, B, AB, M, BC,
        ];
        let text =
            b"points 8\n0 0 0\n6 0 0\n4 4 0\n0 6 0\n12 0 0\n6 6 0\n0 12 0\n4 4 0\nfaces 6\n4 0 1 2 3\n4 4 5 2 1\n4 6 3 2 5\n4 0 3 7 1\n4 6 5 7 3\n4 4 1 7 5\nend\n";
        writes(&rt, rt.alloc(), &Quad::new(skin), &points, false, text)
    }
}
