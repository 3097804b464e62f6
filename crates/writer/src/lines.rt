// The lines of a sheet onto a page.
ghost use Rattle.std.specs.Prelude.{◌≡◌, ◌<◌, map};
ghost use Rattle.std.specs.List.{flat_map};
ghost use Rattle.mesh.specs.Mesh.{turn};
ghost use Rattle.mesh.specs.Count.{leaders, vertices, faces};
ghost use Rattle.skin.specs.Skins.{mesh};
ghost use Rattle.skin.specs.Counts.{along};
ghost use Rattle.skin.specs.Orbits.{to_come, ring_of};
ghost use Rattle.sheet.specs.Sheet.{point_text, face_text, sheet_text};
ghost use Rattle.writer.specs.Buffer.{Put, Room};
ghost use Rattle.writer.specs.Pages.{HasRoom, Grows};
ghost use Rattle.writer.specs.Points.{meant, point_at};
ghost use Rattle.writer.specs.Listing.{way, corners_from, sheet_of};

use crate::listing::Listing;
use crate::page::Page;
use point::kind::PointKind;
use point::solid::SolidRecord;
use point::solid::kind::Solid;
use skin::count::{Counts, Ring};
use skin::leaders::leaders;
use skin::orbit::{Darts, orbit};
use skin::skin::Skin;

// The line of the point that a record means.
fn put_point(page: &mut Page, stored: &SolidRecord)
    requires { HasRoom (point_text (meant stored.now)) page.old }
    ensures { Grows (point_text (meant stored.now)) page.old page.new }
{
    let point = Solid::load(stored);
    let (x, y, z) = (point.x(), point.y(), point.z());
    page.signed(x);
    page.byte(b' ');
    page.signed(y);
    page.byte(b' ');
    page.signed(z);
    page.byte(b'\n');
}

impl<'a, S: Skin> Listing<'a, S> {
    // The darts of the face of h from h on, each once; none for a dart of n or more.
    fn corners(&self, h: u32) -> Darts<'a, S>
        ensures { to_come (S.Skin.n result.skin.now) (along result.ring (mesh S.Skin result.skin.now)) result.first result.last ≡ ring_of (S.Skin.n self.now.skin.now) (way (mesh S.Skin self.now.skin.now) self.now.backward) h }
    {
        let ring = if self.backward {
            Ring::Back
        } else {
            Ring::Face
        };
        orbit(self.skin, ring, h)
    }

    // The line of the face of h, from h on.
    fn put_face(&self, page: &mut Page, h: u32)
        requires dart { h < S.Skin.n self.now.skin.now }
        requires room { HasRoom (face_text (corners_from (mesh S.Skin self.now.skin.now) self.now.backward h)) page.old }
        ensures { Grows (face_text (corners_from (mesh S.Skin self.now.skin.now) self.now.backward h)) page.old page.new }
    {
        page.number(self.corners(h).count());
        for d in self.corners(h) {
            page.byte(b' ');
            page.number(self.numbers[d as usize] as usize);
        }
        page.byte(b'\n');
    }

    // The lines of all points, one a vertex.
    fn put_points(&self, page: &mut Page)
        requires { HasRoom (flat_map point_text (map (point_at self.now.points.now) (leaders (turn (mesh S.Skin self.now.skin.now)) (S.Skin.n self.now.skin.now)))) page.old }
        ensures { Grows (flat_map point_text (map (point_at self.now.points.now) (leaders (turn (mesh S.Skin self.now.skin.now)) (S.Skin.n self.now.skin.now)))) page.old page.new }
    {
        for h in leaders(self.skin, Ring::Vertex) {
            put_point(page, &self.points[h as usize]);
        }
    }

    // The lines of all faces.
    fn put_faces(&self, page: &mut Page)
        requires { HasRoom (flat_map face_text (map (corners_from (mesh S.Skin self.now.skin.now) self.now.backward) (leaders (S.Skin.next self.now.skin.now) (S.Skin.n self.now.skin.now)))) page.old }
        ensures { Grows (flat_map face_text (map (corners_from (mesh S.Skin self.now.skin.now) self.now.backward) (leaders (S.Skin.next self.now.skin.now) (S.Skin.n self.now.skin.now)))) page.old page.new }
    {
        for h in leaders(self.skin, Ring::Face) {
            self.put_face(page, h);
        }
    }

    // The whole text into a buffer that has room for it, and its length; the skin's vertices and faces were counted.
    pub fn put_sheet(&self, counts: Counts, buf: &mut [u8]) -> usize
        requires v_counted { counts.vertices ≡ vertices (mesh S.Skin self.now.skin.now) }
        requires f_counted { counts.faces ≡ faces (mesh S.Skin self.now.skin.now) }
        requires room { Room 0 (sheet_text (sheet_of (mesh S.Skin self.now.skin.now) self.now.points.now self.now.backward)) buf.old }
        ensures { Put 0 result (sheet_text (sheet_of (mesh S.Skin self.now.skin.now) self.now.points.now self.now.backward)) buf.old buf.new }
    {
        let mut page = Page::new(buf);
        page.heading(b"points ", counts.vertices);
        self.put_points(&mut page);
        page.heading(b"faces ", counts.faces);
        self.put_faces(&mut page);
        page.word(b"end\n");
        page.at
    }
}
