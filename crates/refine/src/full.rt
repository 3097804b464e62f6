// A job at full size: the torus of 256 by 256 quads, split to 1,048,576 darts and averaged three times, with the microseconds of each call on
// standard error.
use crate::show::show;
use mesh::DARTS;
use point::solid::SolidRecord;
use point::solid::kind::Solid;
use skin::torus::Torus;
use std::time::Instant;
use workpiece::calls::may_open;
use workpiece::piece::{Answer, Workpiece};

const SIDE: usize = 256;

// The record of the vertex that a dart of the torus starts from; past the torus's darts they start over.
fn corner(h: usize) -> SolidRecord {
    let j = h % 4;
    let right = if j == 1 || j == 2 { 1 } else { 0 };
    let up = if j >= 2 { 1 } else { 0 };
    let x = (h / 4 % SIDE + right) % SIDE;
    let y = (h / 4 / SIDE + up) % SIDE;
    SolidRecord {
        x: 1024 * x as i32,
        y: 1024 * y as i32,
        z: ((x * x + 3 * y) % 1000) as i32,
    }
}

// A number that depends on every place of a table.
fn digest(table: &[SolidRecord]) -> u64 {
    let mut all = 0u64;
    for place in table {
        for c in [place.x, place.y, place.z] {
            all = all.wrapping_mul(31).wrapping_add(c.unsigned_abs() as u64);
        }
    }
    all
}

// Makes a call, and tells the microseconds that it took.
fn timed<T: Drop, F: FnOnce() -> T>(rt: &HostRuntime, name: &str, call: F) -> anyhow::Result<T>
    requires { F.IsAlwaysCallable call }
{
    let start = Instant::now(rt)?;
    let answer = call();
    let took = start.elapsed(rt)?;
    eprintln!(rt; "{name} {}", took.as_micros())?;
    Ok(answer)
}

fn refine(rt: &HostRuntime, torus: Torus, table: &mut [SolidRecord]) -> anyhow::Result<()> {
    let opened = timed(rt, "open", || may_open::<Torus, Solid>(&torus, table))?;
    println!(rt; "opens: {}", opened.is_ok())?;
    let mut piece = Workpiece::open(torus);
    let split = timed(rt, "split", || piece.split::<Solid>(table))?;
    show::<Solid>(rt, Answer::Split(split))?;
    for _ in 0..3 {
        let averaged = timed(rt, "average", || piece.average::<Solid>(table))?;
        show::<Solid>(rt, Answer::Average(averaged))?;
    }
    show::<Solid>(rt, Answer::Count(piece.count::<Solid>(table)))?;
    println!(rt; "digest {}", digest(table))?;
    Ok(())
}

pub fn full_size(rt: &HostRuntime) -> anyhow::Result<()> {
    println!(rt; "torus 256 by 256, solids")?;
    let mut table = vec![in rt.alloc(); corner(0); DARTS as usize]?;
    for (h, place) in table.as_mut_slice().iter_mut().enumerate() {
        *place = corner(h);
    }
    if let Ok(torus) = Torus::new(256, 256) {
        refine(rt, torus, table.as_mut_slice())?;
    }
    Ok(())
}
