// What the intake says of a text: what its sheet closes to, or why it is declined.
ghost use Rattle.std.specs.Prelude.{◌≡◌, IfOk, Some};
ghost use Rattle.std.specs.String.{string_bytes};
ghost use Rattle.intake.specs.Reports.{report_of, report_text, tally_text};

use crate::fault::IntakeFault;
use crate::survey::{Survey, close_text};
use refusal::Refused;
use skin::count::Counts;
use std::alloc::{AllocError, Global};
use std::fmt;

// (A type of its own and no `Result`, so that it can say how it is printed.)
#[derive(Clone, Copy)]
pub enum Report {
    // the sheet closes
    Closed(Survey),
    // it was declined
    Declined(Refused),
}

// The lines of the counts.
#[derive(Clone, Copy)]
struct Tally(Counts);

impl fmt::Display for Tally {
    ghost output = { λ x. Some (tally_text x.0) };

    fn fmt<W: fmt::Write>(&self, f: &mut fmt::Formatter<W>) -> fmt::Result {
        let vertices = self.0.vertices;
        let edges = self.0.edges;
        let faces = self.0.faces;
        write!(f, "vertices {vertices}\nedges {edges}\nfaces {faces}\n")
    }
}

impl fmt::Display for Report {
    ghost output = { λ x. Some (report_text x) };

    fn fmt<W: fmt::Write>(&self, f: &mut fmt::Formatter<W>) -> fmt::Result {
        match self {
            Report::Closed(found) => {
                let darts = found.darts;
                let tally = Tally(found.counts);
                let figure = found.figure;
                write!(
                    f,
                    "darts {darts}\n{tally}vertices - edges + faces {figure}\n"
                )
            }
            Report::Declined(refused) => write!(f, "{refused}"),
        }
    }
}

// What is found in a text.
pub fn found(heap: Global, text: &[u8]) -> Result<Report, AllocError>
    ensures { IfOk result (λ x. x ≡ report_of text.now) }
{
    match close_text(heap, text) {
        Ok(found) => Ok(Report::Closed(found)),
        Err(IntakeFault::Skin(fault)) => Ok(Report::Declined(Refused::from(fault))),
        Err(IntakeFault::Memory) => Err(AllocError),
    }
}

// The same in words.
pub fn said(heap: Global, text: &[u8]) -> Result<String, AllocError>
    ensures { IfOk result (λ s. string_bytes s ≡ report_text (report_of text.now)) }
{
    let report = found(heap, text)?;
    format!(in heap; "{report}")
}
