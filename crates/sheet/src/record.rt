// What the reader answers.

// How many points, faces and corners a sheet has.
#[derive(Clone, Copy, PartialEq, Eq, Debug)]
pub struct Sizes {
    pub points: usize,
    pub faces: usize,
    pub corners: usize,
}

// The sizes of a judged sheet, and where the lines of its points and of its faces begin.
#[derive(Clone, Copy)]
pub struct Layout {
    pub sizes: Sizes,
    pub points: usize,
    pub faces: usize,
}

// What a job asks for, and the sizes of its sheet: `levels` times one split and `degree` averages.
#[derive(Clone, Copy, PartialEq, Eq, Debug)]
pub struct JobSizes {
    pub degree: u32,
    pub levels: u32,
    pub sizes: Sizes,
}
