// A skin over three lent tables, with its laws in its type. (No specification that this file cites may name the type.)
ghost use Rattle.mesh.specs.Mesh.{Lawful};
ghost use Rattle.skin.specs.Drawn.{drawn};

pub mod calls;
mod columns;
mod scan;

use columns::Columns;

// The first n places of three tables that someone else holds; no table skin that breaks a law can be made.
#[derive(Drop)]
pub struct TableSkin<'a> {
    columns: Columns<'a>,
    ghost lawful: { ∥ Lawful (drawn columns) ∥₁ },
}
