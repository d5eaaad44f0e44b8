/// A row: one mark for each pin, and its last word.
#[derive(Clone, Copy)]
pub struct Row<'a> {
    pub marks: &'a [u8],
    pub value: &'a [u8],
}
