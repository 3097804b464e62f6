// The vertex numbers of the darts of a skin.
ghost use Rattle.std.specs.Prelude.{◌≡◌, ◌<◌, map, nat_lt, IfOk};
ghost use Rattle.std.specs.List.{range_with_len, find};
ghost use Rattle.std.specs.Vec.{vec_items, vec_len};
ghost use Rattle.mesh.specs.Mesh.{turn, ring};
ghost use Rattle.skin.specs.Skins.{mesh};
ghost use Rattle.writer.specs.Listing.{vertex_of};

use skin::count::Ring;
use skin::orbit::orbit;
use skin::skin::Skin;
use std::alloc::{AllocError, Global};

// The first dart after h, round its start vertex, that is smaller; none where h is the smallest.
fn first_below<S: Skin>(skin: &S, h: u32) -> Option<u32>
    requires { h < S.Skin.n skin.now }
    ensures { result ≡ find (λ d. nat_lt d h) (ring (turn (mesh S.Skin skin.now)) h) }
{
    orbit(skin, Ring::Vertex, h).find(|d| *d < h)
}

// The vertex numbers of all darts.
pub fn vertex_numbers<S: Skin>(heap: Global, skin: &S) -> Result<Vec<u32>, AllocError>
    ensures { IfOk result (λ v. (vec_items v ≡ map (vertex_of (mesh S.Skin skin.now)) (range_with_len 0 (S.Skin.n skin.now))) × (vec_len v ≡ S.Skin.n skin.now)) }
{
    let mut numbers = Vec::new(heap);
    let mut found = 0u32;
    for h in 0..skin.n() {
        let number = match first_below(skin, h) {
            Some(d) => numbers[d as usize],
            None => {
                let next = found;
                found += 1;
                next
            },
        };
        numbers.push(number)?;
    }
    Ok(numbers)
}
