// Meshes of darts: the limit on darts, and the worked examples of counting (what a mesh is stands in specs/).
#![tactic(auto)]

ghost use Rattle.mesh.specs.Examples.{Figures};

// The darts that a mesh may have at most.
pub const DARTS: u32 = 1_048_576;

// The counts of a small torus and of two triangles, before and after a split.
pub fn figures_stand()
    ensures { Figures }
{}
