// A row as a source hands it out: the part of the memory that holds its bytes, or none for a null.
pub type RowRef<'a> = Option<&'a [u8]>;
