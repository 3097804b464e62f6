// The skins that the program refines.
use skin::fault::Fault;
use skin::table::TableSkin;

// What follows each dart of the triangles 0 1 2 and 0 2 1, what stands before it, and its other side.
const NEXT: [u32; 6] = [1, 2, 0, 4, 5, 3];

const PREV: [u32; 6] = [2, 0, 1, 5, 3, 4];

const TWIN: [u32; 6] = [5, 4, 3, 2, 1, 0];

// The vertex that each of their darts starts from.
pub const TRIANGLE_STARTS: [usize; 6] = [0, 1, 2, 0, 2, 1];

// The same of a torus of 2 by 2 quads.
pub const TORUS_STARTS: [usize; 16] = [0, 1, 3, 2, 1, 0, 2, 3, 2, 3, 1, 0, 3, 2, 0, 1];

// The two triangles, back to back.
pub fn triangles() -> Result<TableSkin<'static>, Fault> {
    TableSkin::new(6, &NEXT, &PREV, &TWIN)
}

// Gives each dart the record of the vertex that it starts from.
pub fn fill<T: Copy>(starts: &[usize], vertices: &[T], table: &mut [T]) {
    for (place, v) in table.iter_mut().zip(starts) {
        if let Some(record) = vertices.get(*v) {
            *place = *record;
        }
    }
}
