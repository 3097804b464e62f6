// A skin copied into tables, and tables looked at as a skin.
ghost use Rattle.std.specs.Prelude.{◌≡◌, ℕ, ◌<◌, IfOk, Decides};
ghost use Rattle.mesh.specs.Mesh.{Same};
ghost use Rattle.skin.specs.Skins.{mesh};
ghost use Rattle.skin.specs.Fit.{Fit};
ghost use Rattle.tour.specs.Copies.{held};

use skin::alike::alike;
use skin::skin::Skin;
use skin::table::TableSkin;
use std::alloc::{AllocError, Global};

// What the three calls of a skin tell, dart by dart.
#[derive(Drop)]
pub struct Tables {
    pub next: Vec<u32>,
    pub prev: Vec<u32>,
    pub twin: Vec<u32>,
}

// The tables of a skin.
pub fn copied<S: Skin>(heap: Global, skin: &S) -> Result<Tables, AllocError>
    ensures { IfOk result (λ t. Same (held (S.Skin.n skin.now) t) (mesh S.Skin skin.now)) }
{
    let next = (0..skin.n()).filter_map(|h| skin.next(h)).collect(heap)?;
    let prev = (0..skin.n()).filter_map(|h| skin.prev(h)).collect(heap)?;
    let twin = (0..skin.n()).filter_map(|h| skin.twin(h)).collect(heap)?;
    Ok(Tables { next, prev, twin })
}

// Whether the tables are a skin that means the same.
pub fn tables_alike<S: Skin>(tables: &Tables, skin: &S) -> bool
    ensures { Decides result (Fit (S.Skin.n skin.now) tables.now.next.items tables.now.prev.items tables.now.twin.items × Same (held (S.Skin.n skin.now) tables.now) (mesh S.Skin skin.now)) }
{
    let held = TableSkin::new(
        skin.n(),
        tables.next.as_slice(),
        tables.prev.as_slice(),
        tables.twin.as_slice(),
    );
    held.is_ok_and(|held| alike(&held, skin))
}
