// A workpiece, the steps that it can be told to make, and what they answer. (The file cites no specification that names these types.)
use crate::carrier::Carrier;
use crate::fault::WorkFault;
use skin::count::Counts;

// The splits and the averages that a workpiece may make at most.
pub const SPLITS: u32 = 8;

pub const AVERAGES: u32 = 255;

// A carrier, the skin whose vertices carry the points, with the averages made so far. The table of points is lent at each call: it has a
// place for each dart of the carrier, with the point of the vertex that the dart starts from.
#[derive(Drop)]
pub struct Workpiece<S> {
    pub(crate) carrier: Carrier<S>,
    pub(crate) averages: u32,
}

// A call of a workpiece, by the name of its method; darts are of the carrier.
#[derive(Clone, Copy)]
pub enum Action<P> {
    Split,
    Average,
    Place(u32, P),
    Read(u32),
    Count,
}

// An action, with how many places of the table are handed over for it (all, if the table has fewer).
#[derive(Clone, Copy)]
pub struct Step<P> {
    pub places: usize,
    pub action: Action<P>,
}

// What a call answered.
#[derive(Clone, Copy)]
pub enum Answer<P> {
    Split(Result<(), WorkFault>),
    Average(Result<u32, WorkFault>),
    Place(Result<(), WorkFault>),
    Read(Result<P, WorkFault>),
    Count(Result<Counts, WorkFault>),
}

// An opening with a run that was declined: the workpiece, which is new, and the fault.
#[derive(Drop)]
pub struct Declined<S> {
    pub piece: Workpiece<S>,
    pub fault: WorkFault,
}
