// What the lines of a text are judged by (document 02, slip 13).

// The number of the text's addresses, and its format: sets stand in format 2 alone.
#[derive(Clone, Copy)]
pub struct Scope {
    pub addresses: usize,
    pub format: usize,
}
