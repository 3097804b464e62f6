// How answers, points and refusals are printed.
use point::kind::PointKind;
use refusal::Refusal;
use std::io;
use workpiece::piece::Answer;

// The number of a cause and the value returned with it.
pub fn declined(rt: &HostRuntime, refusal: Refusal) -> io::Result<()> {
    println!(rt; "refused {refusal}")
}

// The coordinates of a point, on one line. (No `Display`: a kind's point has none, and another crate cannot give it one.)
fn show_point<K: PointKind>(rt: &HostRuntime, point: &K::Point) -> io::Result<()> {
    print!(rt; "read")?;
    for c in (0..K::coordinates()).filter_map(|i| K::coordinate(point, i)) {
        print!(rt; " {c}")?;
    }
    println!(rt; "")
}

// What a step answered.
pub fn show<K: PointKind>(rt: &HostRuntime, answer: Answer<K::Point>) -> io::Result<()> {
    let printed = match answer {
        Answer::Split(done) => done.map(|()| println!(rt; "split")),
        Answer::Average(rings) => rings.map(|rings| println!(rt; "averaged {rings} rings")),
        Answer::Place(done) => done.map(|()| println!(rt; "placed")),
        Answer::Read(point) => point.map(|point| show_point::<K>(rt, &point)),
        Answer::Count(counts) => counts.map(|c| {
            println!(rt;
                "vertices {} edges {} faces {}",
                c.vertices, c.edges, c.faces
            )
        }),
    };
    printed.unwrap_or_else(|fault| declined(rt, Refusal::from(fault)))
}
