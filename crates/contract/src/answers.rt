// What the calls on a package answer besides a length. A call that only changes the package answers nothing but that it is done.

// How a part is cut: how many bytes each piece has, and how many of the first pieces have one more.
#[derive(Clone, Copy)]
pub struct Cut {
    pub size: usize,
    pub rest: usize,
}

// How many items are held, how many groups are a part, the charge.
#[derive(Clone, Copy)]
pub struct Totals {
    pub items: usize,
    pub parts: usize,
    pub charge: usize,
}
