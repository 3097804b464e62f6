// Whether two skins mean the same.
ghost use Rattle.std.specs.Prelude.{◌≡◌, ℕ, ◌<◌, true, ◌&&◌, Decides};
ghost use Rattle.mesh.specs.Mesh.{Same};
ghost use Rattle.skin.specs.Skins.{mesh, Told};

use crate::skin::Skin;

// Whether both have as many darts and answer alike at each.
pub fn alike<S: Skin, O: Skin>(skin: &S, other: &O) -> bool
    ensures { Decides result (Same (mesh S.Skin skin.now) (mesh O.Skin other.now)) }
{
    let n = skin.n();
    n == other.n() && (0..n).all(|h| alike_at(skin, other, h))
}

// Whether both answer alike at h.
fn alike_at<S: Skin, O: Skin>(skin: &S, other: &O, h: u32) -> bool
    requires dart { h < S.Skin.n skin.now }
    requires other { h < O.Skin.n other.now }
    ensures { Decides result (Told (mesh S.Skin skin.now) (mesh O.Skin other.now) h) }
{
    skin.next(h) == other.next(h) && skin.prev(h) == other.prev(h) && skin.twin(h) == other.twin(h)
}
