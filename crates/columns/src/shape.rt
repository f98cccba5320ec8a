// The shape of a table: so many records of so many numbers.
#[derive(Clone, Copy)]
pub struct Shape {
    pub width: usize,
    pub count: usize,
}
