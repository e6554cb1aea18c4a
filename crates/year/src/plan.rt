// A campaign to drive.
ghost use Rattle.year.specs.Lent.{Runs};

// What it is started with.
#[derive(Clone, Copy)]
pub struct Opening {
    pub order: u32,
    pub taps: u32,
    pub capacity: u32,
}

// `lag` is how many visits after its own a day is withdrawn, `most` how many periods its captures have at the most. What the calls are lent is enough for it.
#[derive(Clone, Copy)]
pub struct Plan {
    pub opening: Opening,
    pub period: usize,
    pub lag: usize,
    pub most: usize,
    ghost runs: { Runs opening.capacity period lag most },
}
