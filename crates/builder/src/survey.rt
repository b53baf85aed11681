// What a call names, summed up before anything is written. Each count is held to 64 bits.
#[derive(Clone, Copy)]
pub struct Survey {
    pub rows: u64,
    pub nulls: u64,
    pub bytes: u64,
}
