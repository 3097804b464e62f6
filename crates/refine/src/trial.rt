// A kind of point tried on skins: each is opened, split, averaged, pulled and averaged again.
use crate::shapes::{TORUS_STARTS, TRIANGLE_STARTS, fill, triangles};
use crate::show::show;
use crate::stop::Stop;
use point::kind::PointKind;
use refusal::Refusal;
use skin::skin::Skin;
use skin::torus::Torus;
use std::io;
use workpiece::calls::may_open;
use workpiece::piece::{Action, Step, Workpiece};

// The places of each table of points, enough for one split of either skin.
pub const PLACES: usize = 64;

#[derive(Drop)]
pub struct Trial<'a, K: PointKind> {
    // twice how far a mean of the kind may lie from the exact mean
    pub slack: u32,
    // the records of the vertices
    pub vertices: &'a [K::Record],
    // where the vertex of dart 0 is pulled
    pub to: K::Point,
}

// A step that is handed the whole table.
pub fn whole<P>(action: Action<P>) -> Step<P> {
    Step {
        places: PLACES,
        action,
    }
}

// (The table of points is lent, so that a trial needs no heap.)
impl<K: PointKind> Trial<'_, K> {
    // Gives each dart of a skin the record of the vertex that it starts from, and the first vertex's to the places that are left.
    fn lay(&self, starts: &[usize], table: &mut [K::Record]) {
        if let Some(first) = self.vertices.first() {
            for place in table.iter_mut() {
                *place = *first;
            }
        }
        fill(starts, self.vertices, table);
    }

    // A split with three averages, a pull at dart 0 and one average more, with a look before and after, and two steps that are declined: for
    // too few places, and for a dart that is none.
    fn pull<S: Skin>(
        &self,
        rt: &HostRuntime,
        piece: &mut Workpiece<S>,
        table: &mut [K::Record],
    ) -> io::Result<()> {
        let mut make = |step| show::<K>(rt, piece.make::<K>(table, step));
        make(whole(Action::Count))?;
        make(whole(Action::Split))?;
        make(whole(Action::Count))?;
        for _ in 0..3 {
            make(whole(Action::Average))?;
        }
        make(whole(Action::Read(0)))?;
        make(whole(Action::Place(0, self.to)))?;
        make(Step {
            places: 5,
            action: Action::Average,
        })?;
        make(whole(Action::Average))?;
        make(whole(Action::Read(0)))?;
        make(whole(Action::Read(64)))?;
        make(whole(Action::Count))
    }

    // Opens a skin, pulls it, and prints how far a coordinate can be from its exact fraction.
    fn refine<S: Skin + Drop>(
        &self,
        rt: &HostRuntime,
        skin: S,
        starts: &[usize],
        table: &mut [K::Record],
    ) -> Result<(), Stop> {
        self.lay(starts, table);
        may_open::<S, K>(&skin, table).map_err(Refusal::from)?;
        let mut piece = Workpiece::open(skin);
        self.pull(rt, &mut piece, table)?;
        let averages = piece.averages();
        let limit = self.slack.saturating_mul(averages);
        println!(rt; "deviation at most {limit} half units after {averages} averages")?;
        Ok(())
    }

    // Over a torus and over two triangles.
    pub fn run(&self, rt: &HostRuntime, name: &str, table: &mut [K::Record]) -> Result<(), Stop> {
        println!(rt; "torus, {name}")?;
        let torus = Torus::new(2, 2).map_err(Refusal::from)?;
        self.refine(rt, torus, &TORUS_STARTS, table)?;
        println!(rt; "triangles, {name}")?;
        let triangles = triangles().map_err(Refusal::from)?;
        self.refine(rt, triangles, &TRIANGLE_STARTS, table)
    }
}
