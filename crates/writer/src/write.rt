// A skin and the points of its darts as a sheet.
ghost use Rattle.std.specs.Prelude.{◌≡◌, ◌+◌, ◌*◌, ◌<◌, ◌≤◌, MatchResult};
ghost use Rattle.skin.specs.Skins.{mesh};
ghost use Rattle.writer.specs.Outcome.{Writes};

use crate::fault::WriteFault;
use crate::listing::Listing;
use point::solid::SolidRecord;
use skin::count::{Counts, count};
use skin::skin::Skin;
use std::alloc::Global;

// Declines with the fault where there are fewer places than needed.
fn at_least(places: usize, needed: usize, fault: WriteFault) -> Result<(), WriteFault>
    ensures { MatchResult result (λ _. needed ≤ places) (λ y. (places < needed) × (y ≡ fault)) }
{
    if places < needed {
        return Err(fault);
    }
    Ok(())
}

// The bytes that the buffer for a sheet must have.
fn bytes_needed(n: u32, counts: Counts) -> usize
    ensures { result ≡ 33 + 30 * counts.vertices + 3 * counts.faces + 8 * n }
{
    33 + 30 * counts.vertices as usize + 3 * counts.faces as usize + 8 * n as usize
}

// Writes the sheet of a skin and the points of its darts from the start of the buffer, and answers its length.
// Faces are followed by next, or by prev where `backward` is set.
pub fn write_skin<S: Skin>(
    heap: Global,
    skin: &S,
    points: &[SolidRecord],
    backward: bool,
    buf: &mut [u8],
) -> Result<usize, WriteFault>
    ensures { Writes (mesh S.Skin skin.now) points.now backward buf.old buf.new result }
{
    let n = skin.n();
    at_least(points.len(), n as usize, WriteFault::Points(n))?;
    let counts = count(skin);
    let needed = bytes_needed(n, counts);
    at_least(buf.len(), needed, WriteFault::Buffer(needed))?;
    let listing = Listing::new(heap, skin, points, backward)?;
    Ok(listing.put_sheet(counts, buf))
}
