// What a column may hold: text or any bytes, with nulls or without.
#[derive(Clone, Copy, Debug, PartialEq, Eq)]
pub struct DType {
    pub utf8: bool,
    pub nullable: bool,
}
