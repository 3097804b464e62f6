// What a sheet lists.
ghost use Rattle.std.specs.Prelude.{◌≡◌, ◌≤◌, map, length, IfOk};
ghost use Rattle.std.specs.List.{range_with_len};
ghost use Rattle.std.specs.Vec.{vec_items, vec_len};
ghost use Rattle.skin.specs.Skins.{mesh};
ghost use Rattle.writer.specs.Listing.{vertex_of};

use crate::rings::vertex_numbers;
use point::solid::SolidRecord;
use skin::skin::Skin;
use std::alloc::{AllocError, Global};

// A skin with the points and the vertex numbers of its darts.
#[derive(Drop)]
pub struct Listing<'a, S: Skin> {
    pub skin: &'a S,
    pub points: &'a [SolidRecord],
    pub numbers: Vec<u32>,
    // Whether faces are followed by prev. (No `Ring` in its place: the contracts speak of the flag, and a Ring may also go round a vertex.)
    pub backward: bool,
    ghost long: { S.Skin.n skin.now ≤ length points.now },
    ghost all: { vec_len numbers ≡ S.Skin.n skin.now },
    ghost numbered: { vec_items numbers ≡ map (vertex_of (mesh S.Skin skin.now)) (range_with_len 0 (S.Skin.n skin.now)) },
}

impl<'a, S: Skin> Listing<'a, S> {
    pub fn new(
        heap: Global,
        skin: &'a S,
        points: &'a [SolidRecord],
        backward: bool,
    ) -> Result<Listing<'a, S>, AllocError>
        requires { S.Skin.n skin.now ≤ length points.now }
        ensures { IfOk result (λ x. (x.skin.now ≡ skin.now) × (x.points.now ≡ points.now) × (x.backward ≡ backward)) }
    {
        let numbers = vertex_numbers(heap, skin)?;
        Ok(Listing {
            skin,
            points,
            numbers,
            backward,
        })
    }
}
