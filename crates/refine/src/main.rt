// The program refine: workpieces over a torus and over dart tables, of solids and of pull rows, each split, averaged, pulled and averaged
// again, with what every step answered; one whose refined sheet is printed; and one at full size.
#![tactic(auto)]

mod full;
mod shapes;
mod show;
mod stop;
mod trial;
mod written;

use anyhow::anyhow;
use full::full_size;
use point::row::kind::Pull;
use point::row::{PullRecord, PullRow, ROW_TOTAL};
use point::solid::kind::Solid;
use point::solid::{SolidPoint, SolidRecord};
use refusal::Refusal;
use shapes::{TRIANGLE_STARTS, fill, triangles};
use show::{declined, show};
use skin::table::TableSkin;
use stop::Stop;
use trial::{PLACES, Trial, whole};
use workpiece::calls::open_and_run;
use workpiece::piece::{Action, Answer};
use written::written;

// Units of a solid, each 1/1024 mm, in twelve and in nine millimetres.
const SIDE: i32 = 12_288;

const UP: i32 = 9_216;

// Points in a plane, pulled up.
fn with_solids(rt: &HostRuntime) -> Result<(), Stop> {
    let at = |x, y| SolidRecord { x, y, z: 0 };
    let vertices = [at(0, 0), at(SIDE, 0), at(0, SIDE), at(SIDE, SIDE)];
    let trial = Trial::<Solid> {
        slack: 1,
        vertices: &vertices,
        to: SolidPoint::new(0, 0, UP).map_err(Refusal::from)?,
    };
    trial.run(rt, "solids", &mut [vertices[0]; PLACES])
}

// Vertices that are each moved by a handle of their own.
fn moved() -> [PullRecord; 4] {
    let moved_by = |weights| PullRecord { weights };
    [
        moved_by([ROW_TOTAL, 0, 0, 0]),
        moved_by([0, ROW_TOTAL, 0, 0]),
        moved_by([0, 0, ROW_TOTAL, 0]),
        moved_by([0, 0, 0, ROW_TOTAL]),
    ]
}

// Such vertices, pulled to the last handle.
fn with_rows(rt: &HostRuntime) -> Result<(), Stop> {
    let vertices = moved();
    let trial = Trial::<Pull> {
        slack: 2,
        vertices: &vertices,
        to: PullRow::new([0, 0, 0, ROW_TOTAL]).map_err(Refusal::from)?,
    };
    trial.run(rt, "pull rows", &mut [vertices[0]; PLACES])
}

// The triangles opened and refined in one run: a split and one average.
fn at_once(rt: &HostRuntime) -> Result<(), Stop> {
    println!(rt; "triangles, pull rows, one run")?;
    let skin = triangles().map_err(Refusal::from)?;
    let vertices = moved();
    let mut table = [vertices[0]; PLACES];
    fill(&TRIANGLE_STARTS, &vertices, &mut table);
    let steps = [
        whole(Action::Count),
        whole(Action::Split),
        whole(Action::Count),
        whole(Action::Average),
        whole(Action::Count),
        whole(Action::Read(2)),
    ];
    let mut answers = [Answer::Split(Ok(())); 6];
    open_and_run::<TableSkin, Pull>(skin, &mut table, &steps, &mut answers).map_err(
        |declined| Refusal::from(declined.fault),
    )?;
    for answer in answers {
        show::<Pull>(rt, answer)?;
    }
    Ok(())
}

// Prints why a part stopped, where a call declined.
fn told(rt: &HostRuntime, part: Result<(), Stop>) -> anyhow::Result<()> {
    match part {
        Ok(()) => {},
        Err(Stop::Declined(refusal)) => declined(rt, refusal)?,
        Err(Stop::Memory) => return Err(anyhow!("no memory")),
        Err(Stop::Io(error)) => return Err(error.into()),
    }
    Ok(())
}

fn run(rt: &HostRuntime) -> anyhow::Result<()> {
    told(rt, with_solids(rt))?;
    told(rt, with_rows(rt))?;
    told(rt, at_once(rt))?;
    told(rt, written(rt))?;
    full_size(rt)
}

fn main(rt: HostRuntime) -> anyhow::Result<()> {
    run(&rt)
}
