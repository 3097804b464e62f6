// Tests of closing and spreading: what is left in the tables, and the refusals that no example sheet shows.
#![tactic(auto)]

#[cfg(test)]
mod tests {
    use closing::fault::SkinFault;
    use closing::points::spread;
    use closing::tables::close;
    use std::test::Fail;

    // The triangles 0 1 2 and 0 2 1.
    const LENGTHS: [u32; 2] = [3, 3];

    const CORNERS: [u32; 6] = [0, 1, 2, 0, 2, 1];

    #[test]
    fn two_triangles(rt: HostRuntime) {
        let mut next = [7u32; 7];
        let mut prev = [7u32; 7];
        let mut twin = [7u32; 7];
        assert_eq!(rt;
            close(3, &LENGTHS, &CORNERS, &mut next, &mut prev, &mut twin),
            Ok(6)
        );
        assert_eq!(rt; next, [1, 2, 0, 4, 5, 3, 7]);
        assert_eq!(rt; prev, [2, 0, 1, 5, 3, 4, 7]);
        assert_eq!(rt; twin, [5, 4, 3, 2, 1, 0, 7]);
    }

    #[test]
    fn a_flipped_face_clears_the_tables(rt: HostRuntime) {
        let mut next = [7u32; 7];
        let mut prev = [7u32; 7];
        let mut twin = [7u32; 7];
        let corners = [0, 1, 2, 0, 1, 2];
        assert_eq!(rt;
            close(3, &LENGTHS, &corners, &mut next, &mut prev, &mut twin),
            Err(SkinFault::Met(3))
        );
        assert_eq!(rt; next, [0, 0, 0, 0, 0, 0, 7]);
        assert_eq!(rt; prev, [0, 0, 0, 0, 0, 0, 7]);
        assert_eq!(rt; twin, [0, 0, 0, 0, 0, 0, 7]);
    }

    #[test]
    fn a_short_table_changes_nothing(rt: HostRuntime) {
        let mut next = [7u32; 6];
        let mut prev = [7u32; 5];
        let mut twin = [7u32; 6];
        assert_eq!(rt;
            close(3, &LENGTHS, &CORNERS, &mut next, &mut prev, &mut twin),
            Err(SkinFault::Short(6))
        );
        assert_eq!(rt; next, [7; 6]);
        assert_eq!(rt; prev, [7; 5]);
        assert_eq!(rt; twin, [7; 6]);
    }

    // 16,385 faces of 64 corners have 1,048,640 in all, and a face of two corners is told before that.
    #[test]
    fn too_many_corners(rt: HostRuntime) -> Result<(), Fail> {
        let mut lengths = vec![in rt.alloc(); 64u32; 16_385]?;
        let mut next = [7u32; 1];
        let mut prev = [7u32; 1];
        let mut twin = [7u32; 1];
        assert_eq!(rt;
            close(3, &lengths, &CORNERS, &mut next, &mut prev, &mut twin),
            Err(SkinFault::TooMany)
        );
        lengths.push(2)?;
        assert_eq!(rt;
            close(3, &lengths, &CORNERS, &mut next, &mut prev, &mut twin),
            Err(SkinFault::Face(16_385))
        );
        Ok(())
    }

    #[test]
    fn points_of_corners(rt: HostRuntime) {
        let points = [10u32, 11, 12];
        let mut table = [7u32; 7];
        assert_eq!(rt; spread(6, &CORNERS, &points, &mut table), Ok(()));
        assert_eq!(rt; table, [10, 11, 12, 10, 12, 11, 7]);
        let mut short = [7u32; 5];
        assert_eq!(rt;
            spread(6, &CORNERS, &points, &mut short),
            Err(SkinFault::Short(6))
        );
        assert_eq!(rt;
            spread(6, &CORNERS, &[10u32, 11], &mut table),
            Err(SkinFault::Stray(2))
        );
    }
}
