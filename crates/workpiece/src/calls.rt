// The calls of a workpiece: opening, the six calls, and runs of them.
ghost use Rattle.std.specs.Prelude.{◌≡◌, ◌<◌, ◌≤◌, map, length, Decides, MatchResult};
ghost use Rattle.skin.specs.Skins.{mesh};
ghost use Rattle.point.specs.Kinds.{place as placing};
ghost use Rattle.workpiece.specs.Law.{work, opened_skin};
ghost use Rattle.workpiece.specs.Calls.{AverageDone, SplitDone, PlaceDone, ReadDone, CountDone};
ghost use Rattle.workpiece.specs.declared.fault.WorkFault.TheVariants.{Short};
ghost use Rattle.workpiece.specs.Answers.{reach_answer};
ghost use Rattle.workpiece.specs.Opening.{Agreeing, MayOpen, Opened};
ghost use Rattle.workpiece.specs.Runs.{StepDone, RunDone, WholeLaw};

use crate::carrier::Carrier;
use crate::fault::WorkFault;
use crate::piece::{AVERAGES, Action, Answer, Declined, SPLITS, Step, Workpiece};
use crate::rings::{average_faces, following, ring_store, spread};
use mesh::DARTS;
use point::kind::PointKind;
use skin::count::{Counts, Ring, count as counted};
use skin::skin::Skin;

// Declines with 1 where a table has fewer places than are needed.
fn room<T>(table: &[T], places: usize) -> Result<(), WorkFault>
    ensures { MatchResult result (λ _. places ≤ length table.now) (λ f. (f ≡ Short places) × (length table.now < places)) }
{
    if table.len() < places {
        return Err(WorkFault::Short(places));
    }
    Ok(())
}

// Whether the point of a dart is that of its turn.
fn agrees<S: Skin, K: PointKind>(skin: &S, table: &[K::Record], h: u32) -> bool
    requires within { h < S.Skin.n skin.now }
    requires covers { S.Skin.n skin.now ≤ length table.now }
    ensures { Decides result (Agreeing (mesh S.Skin skin.now) (map (placing K.PointKind) table.now) h) }
{
    let t = following(skin, Ring::Vertex, h);
    K::alike(&K::load(&table[h as usize]), &K::load(&table[t as usize]))
}

// Looks whether a skin and a table of points can be opened: 1 by the darts, then 4 with the smallest dart whose point differs from that of
// its turn.
pub fn may_open<S: Skin, K: PointKind>(skin: &S, table: &[K::Record]) -> Result<(), WorkFault>
    ensures { MayOpen (mesh S.Skin skin.now) (map (placing K.PointKind) table.now) result }
{
    let n = skin.n();
    room(table, n as usize)?;
    match (0..n).find(|h| !agrees::<S, K>(skin, table, *h)) {
        Some(h) => Err(WorkFault::Differs(h)),
        None => Ok(()),
    }
}

impl<S: Skin> Workpiece<S> {
    // A new workpiece over a skin, which `may_open` has looked at.
    pub fn open(skin: S) -> Workpiece<S>
        ensures { Opened S.Skin skin result }
    {
        Workpiece {
            carrier: Carrier::over(skin),
            averages: 0,
        }
    }

    // The skin that was opened, given back to its holder.
    pub fn into_skin(self) -> S
        ensures { result ≡ opened_skin self }
    {
        self.carrier.into_base()
    }

    // The skin whose vertices carry the points.
    pub fn carrier(&self) -> &Carrier<S>
        ensures { result.now ≡ self.now.carrier }
    {
        &self.carrier
    }

    // How many splits were made.
    pub fn splits(&self) -> u32
        ensures { result ≡ (work S.Skin self.now).splits }
    {
        self.carrier.splits()
    }

    // How many averages were made.
    pub fn averages(&self) -> u32
        ensures { result ≡ (work S.Skin self.now).averages }
    {
        self.averages
    }

    // What a place and a read look for: 1 by the darts, then 2.
    fn reach<T>(&self, table: &[T], dart: u32) -> Result<(), WorkFault>
        ensures { result ≡ reach_answer tt (work S.Skin self.now).carrier.n dart (length table.now) }
    {
        let n = self.carrier.n();
        room(table, n as usize)?;
        if dart >= n {
            return Err(WorkFault::NoDart(dart));
        }
        Ok(())
    }

    // Gives each dart the mean over its face ring; the carrier becomes its Dual. Answers how many rings there are.
    pub fn average<K: PointKind>(&mut self, table: &mut [K::Record]) -> Result<u32, WorkFault>
        ensures { AverageDone S.Skin K.PointKind self.old table.old result self.new table.new }
    {
        room(table, self.carrier.n() as usize)?;
        if self.averages >= AVERAGES {
            return Err(WorkFault::AveragesSpent);
        }
        let rings = average_faces::<Carrier<S>, K>(&self.carrier, table);
        self.carrier.to_dual();
        self.averages += 1;
        Ok(rings)
    }

    // The carrier becomes the Dual of its Quad, and places 4h to 4h + 3 get the point of h.
    pub fn split<K: PointKind>(&mut self, table: &mut [K::Record]) -> Result<(), WorkFault>
        ensures { SplitDone S.Skin K.PointKind self.old table.old result self.new table.new }
    {
        if self.carrier.splits() >= SPLITS {
            return Err(WorkFault::SplitsSpent);
        }
        let n = self.carrier.n();
        let more = 4 * n as usize;
        if more > DARTS as usize {
            return Err(WorkFault::TooManyDarts);
        }
        room(table, more)?;
        spread::<K>(table, n);
        self.carrier.to_split();
        Ok(())
    }

    // Puts a point on the whole vertex ring of a dart.
    pub fn place<K: PointKind>(
        &mut self,
        table: &mut [K::Record],
        dart: u32,
        point: K::Point,
    ) -> Result<(), WorkFault>
        ensures { PlaceDone S.Skin K.PointKind dart (K.PointKind.numbers point) self.old table.old result self.new table.new }
    {
        self.reach(table, dart)?;
        let stored = K::store(&point);
        ring_store::<Carrier<S>, K>(&self.carrier, table, dart, Ring::Vertex, stored);
        Ok(())
    }

    // The point of a dart.
    pub fn read<K: PointKind>(&self, table: &[K::Record], dart: u32) -> Result<K::Point, WorkFault>
        ensures { ReadDone S.Skin K.PointKind dart self.now table.now result }
    {
        self.reach(table, dart)?;
        Ok(K::load(&table[dart as usize]))
    }

    // Vertices, edges and faces of the carrier.
    pub fn count<K: PointKind>(&self, table: &[K::Record]) -> Result<Counts, WorkFault>
        ensures { CountDone S.Skin K.PointKind self.now table.now result }
    {
        room(table, self.carrier.n() as usize)?;
        Ok(counted(&self.carrier))
    }

    // Makes one step, with the front part of the table that it is handed.
    pub fn make<K: PointKind>(
        &mut self,
        table: &mut [K::Record],
        step: Step<K::Point>,
    ) -> Answer<K::Point>
        ensures { StepDone S.Skin K.PointKind step self.old table.old result self.new table.new }
    {
        let places = step.places.min(table.len());
        let front = &mut table[..places];
        // A run is a list of steps, of which the law is stated, so what to call comes as a value.
        match step.action {
            Action::Split => Answer::Split(self.split::<K>(front)),
            Action::Average => Answer::Average(self.average::<K>(front)),
            Action::Place(dart, point) => Answer::Place(self.place::<K>(front, dart, point)),
            Action::Read(dart) => Answer::Read(self.read::<K>(front, dart)),
            Action::Count => Answer::Count(self.count::<K>(front)),
        }
    }

    // Makes steps, one after the other, and answers each; declined with 1 if there are fewer places for answers than steps.
    pub fn run<K: PointKind>(
        &mut self,
        table: &mut [K::Record],
        steps: &[Step<K::Point>],
        answers: &mut [Answer<K::Point>],
    ) -> Result<(), WorkFault>
        ensures { RunDone S.Skin K.PointKind steps.now self.old table.old answers.old result self.new table.new answers.new }
    {
        room(answers, steps.len())?;
        // (of what is written through a zip of iter_mut the check learns nothing)
        let wanted = &mut answers[..steps.len()];
        for (i, answer) in wanted.iter_mut().enumerate() {
            *answer = self.make::<K>(table, steps[i]);
        }
        Ok(())
    }
}

// Opens a skin with a table of points, makes steps one after the other, and answers each. It looks for what the opening is declined for, and
// then for 1 by the places for answers.
pub fn open_and_run<S: Skin, K: PointKind>(
    skin: S,
    table: &mut [K::Record],
    steps: &[Step<K::Point>],
    answers: &mut [Answer<K::Point>],
) -> Result<Workpiece<S>, Declined<S>>
    ensures { WholeLaw S.Skin K.PointKind steps.now skin table.old answers.old result table.new answers.new }
{
    if let Err(fault) = may_open::<S, K>(&skin, table) {
        let piece = Workpiece::open(skin);
        return Err(Declined { piece, fault });
    }
    let mut piece = Workpiece::open(skin);
    match piece.run::<K>(table, steps, answers) {
        Ok(()) => Ok(piece),
        Err(fault) => Err(Declined { piece, fault }),
    }
}
