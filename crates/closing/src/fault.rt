// Why a sheet is not taken as a skin.
ghost use Rattle.std.specs.Prelude.{◌≡◌, MatchOption};
ghost use Rattle.closing.specs.declared.fault.SkinFault.{SkinFault};
ghost use Rattle.closing.specs.Refusals.{refusal_of, refused_by};
ghost use Rattle.closing.specs.declared.fault.SkinFault.TheVariants.{Text};

use refusal::{Layer, Refusal, Refused};
use sheet::fault::TextFault;

// Each case carries the value that is returned with it.
#[derive(Clone, Copy, PartialEq, Eq, Debug)]
pub enum SkinFault {
    // the text of the sheet was declined
    Text(TextFault),
    // a table is too short: the places needed
    Short(u32),
    // the faces have over 1,048,576 corners in all
    TooMany,
    // a corner names a vertex that is not there: the smallest such dart
    Stray(u32),
    // a face has not 3 to 64 corners: the first such face
    Face(usize),
    // a face names a vertex twice: the first dart of the first such face
    Twice(u32),
    // a directed edge was met at a smaller dart: the smallest such dart
    Met(u32),
    // no dart goes back along an edge: the smallest dart without one
    Single(u32),
    // a vertex is in no face: the smallest
    Bare(u32),
    // the darts of a vertex form several rings: the smallest such vertex
    Several(u32),
    // a vertex ring has over 64 darts: the smallest such vertex
    Crowded(u32),
}

// The number of the cause and the value returned.
impl From<SkinFault> for Refusal {
    ghost from_gives = { λ fault r. r ≡ refusal_of fault };

    fn from(fault: SkinFault) -> Refusal {
        match fault {
            SkinFault::Text(fault) => Refusal::from(fault),
            SkinFault::Short(places) => Refusal::with(1, places as i128),
            SkinFault::TooMany => Refusal::bare(5),
            SkinFault::Stray(dart) => Refusal::with(10, dart as i128),
            SkinFault::Face(face) => Refusal::with(11, face as i128),
            SkinFault::Twice(dart) => Refusal::with(12, dart as i128),
            SkinFault::Met(dart) => Refusal::with(13, dart as i128),
            SkinFault::Single(dart) => Refusal::with(14, dart as i128),
            SkinFault::Bare(vertex) => Refusal::with(15, vertex as i128),
            SkinFault::Several(vertex) => Refusal::with(16, vertex as i128),
            SkinFault::Crowded(vertex) => Refusal::with(17, vertex as i128),
        }
    }
}

// The refusal with the layer that declined: a text fault is the text's.
impl From<SkinFault> for Refused {
    ghost from_gives = { λ fault r. r ≡ refused_by fault };

    fn from(fault: SkinFault) -> Refused {
        let layer = match fault {
            SkinFault::Text(_) => Layer::Text,
            _ => Layer::Skin,
        };
        Refused {
            refusal: Refusal::from(fault),
            layer,
        }
    }
}

impl From<TextFault> for SkinFault {
    ghost from_gives = { λ x y. y ≡ Text x };

    fn from(fault: TextFault) -> SkinFault {
        Self::Text(fault)
    }
}

// Declines for what was found, if anything was.
pub(crate) fn none_or<T, F: FnOnce(T) -> SkinFault>(
    found: Option<T>,
    fault: F,
) -> Result<(), SkinFault>
    requires { F.IsAlwaysCallable fault }
    ensures { MatchOption found (result ≡ Ok tt) (λ x. (e : SkinFault) × F.post fault x e × (result ≡ Err e)) }
{
    match found {
        Some(x) => Err(fault(x)),
        None => Ok(()),
    }
}
