// A tour of the skins: each is walked, dart by dart, beside another that means the same, and their rings are counted.
#![tactic(auto)]

mod copy;
mod nest;

use copy::{copied, tables_alike};
use mesh::figures_stand;
use nest::eight_rungs;
use refusal::Refusal;
use skin::alike::alike;
use skin::count::count;
use skin::dual::Dual;
use skin::fault::Fault;
use skin::ladder::Ladder;
use skin::quad::Quad;
use skin::skin::Skin;
use skin::table::TableSkin;
use skin::torus::Torus;
use std::time::Instant;

// The two triangles 0 1 2 and 0 2 1, back to back.
const NEXT: [u32; 6] = [1, 2, 0, 4, 5, 3];

const PREV: [u32; 6] = [2, 0, 1, 5, 3, 4];

const TWIN: [u32; 6] = [5, 4, 3, 2, 1, 0];

fn main(rt: HostRuntime) -> anyhow::Result<()> {
    tour(&rt)
}

fn tour(rt: &HostRuntime) -> anyhow::Result<()> {
    figures_stand();
    if let Ok(torus) = Torus::new(512, 512) {
        walk_torus(rt, torus)?;
    }
    if let Ok(torus) = Torus::new(1, 1) {
        climb(rt, torus)?;
    }
    if let Ok(torus) = Torus::new(256, 256) {
        race(rt, torus)?;
    }
    triangles(rt)?;
    decline(rt)
}

// The counts of a skin, after its name.
fn show<S: Skin>(rt: &HostRuntime, name: &str, skin: &S) -> anyhow::Result<()> {
    let darts = skin.n();
    let c = count(skin);
    println!(rt;
        "{name}: {darts} darts, {} vertices, {} edges, {} faces",
        c.vertices, c.edges, c.faces
    )?;
    Ok(())
}

fn verdict(alike: bool) -> &'static str {
    if alike { "alike" } else { "different" }
}

// A large torus beside a ladder of no bits over it, and beside tables copied from that.
fn walk_torus(rt: &HostRuntime, torus: Torus) -> anyhow::Result<()> {
    show(rt, "torus 512 by 512", &torus)?;
    let ladder = Ladder::new(torus);
    println!(rt;
        "  a ladder of no bits: {}",
        verdict(alike(&ladder, &torus))
    )?;
    let tables = copied(rt.alloc(), &ladder)?;
    println!(rt;
        "  tables copied from the ladder: {}",
        verdict(tables_alike(&tables, &torus))
    )?;
    Ok(())
}

// A ladder with eight bits, 0 and 1 in turn, beside the Quads and Duals that it stands for.
fn climb(rt: &HostRuntime, torus: Torus) -> anyhow::Result<()> {
    let mut ladder = Ladder::new(torus);
    for bit in [false, true, false, true, false, true, false, true] {
        let _ = ladder.add(bit);
    }
    show(rt, "torus 1 by 1 with eight rungs", &ladder)?;
    println!(rt;
        "  Quads and Duals nested: {}",
        verdict(eight_rungs(&ladder, torus))
    )?;
    tell(rt, "  a ninth rung", ladder.add(false))
}

// The rings of a ladder and of tables that mean the same, with the microseconds that counting takes on standard error.
fn race(rt: &HostRuntime, torus: Torus) -> anyhow::Result<()> {
    let mut ladder = Ladder::new(torus);
    let _ = ladder.add(false);
    let tables = copied(rt.alloc(), &ladder)?;
    timed(rt, "ladder", &ladder)?;
    if let Ok(held) = TableSkin::new(
        ladder.n(),
        tables.next.as_slice(),
        tables.prev.as_slice(),
        tables.twin.as_slice(),
    ) {
        timed(rt, "tables", &held)?;
    }
    Ok(())
}

fn timed<S: Skin>(rt: &HostRuntime, name: &str, skin: &S) -> anyhow::Result<()> {
    let start = Instant::now(rt)?;
    let c = count(skin);
    let took = start.elapsed(rt)?;
    println!(rt;
        "torus 256 by 256 with one rung, {name}: {} vertices, {} edges, {} faces",
        c.vertices, c.edges, c.faces
    )?;
    eprintln!(rt; "{name} {}", took.as_micros())?;
    Ok(())
}

// Two triangles, split, and the Dual of that.
fn triangles(rt: &HostRuntime) -> anyhow::Result<()> {
    let Ok(skin) = TableSkin::new(6, &NEXT, &PREV, &TWIN) else {
        return Ok(());
    };
    show(rt, "two triangles", &skin)?;
    let split = Dual::new(Quad::new(skin));
    show(rt, "two triangles split", &split)?;
    show(rt, "two triangles split, their Dual", &Dual::new(split))
}

// What is declined.
fn decline(rt: &HostRuntime) -> anyhow::Result<()> {
    let mut skin = TableSkin::empty();
    tell(rt, "a torus 0 by 513", Torus::new(0, 513))?;
    tell(rt, "a torus 512 by 513", Torus::new(512, 513))?;
    tell(
        rt,
        "1,048,577 darts in tables of 6",
        skin.adopt(1_048_577, &NEXT, &PREV, &TWIN),
    )?;
    tell(
        rt,
        "7 darts in tables of 6",
        skin.adopt(7, &NEXT, &PREV, &TWIN),
    )?;
    tell(
        rt,
        "5 darts, with entries of 5",
        skin.adopt(5, &NEXT, &PREV, &TWIN),
    )?;
    tell(
        rt,
        "prev given for next",
        skin.adopt(6, &PREV, &PREV, &TWIN),
    )?;
    tell(rt, "lawful tables", skin.adopt(6, &NEXT, &PREV, &TWIN))
}

// What was answered; a refusal that returns nothing is told with 0.
fn tell<T: Drop>(rt: &HostRuntime, what: &str, answer: Result<T, Fault>) -> anyhow::Result<()> {
    match answer.map_err(Refusal::from) {
        Ok(_) => println!(rt; "{what}: taken")?,
        Err(r) => println!(rt; "{what}: refused {} {}", r.number, r.value.unwrap_or(0))?,
    }
    Ok(())
}
