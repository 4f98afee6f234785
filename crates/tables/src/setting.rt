// What a load is told beside the description and its image.

// The base address, and the edition whose rule on halves the writes keep.
#[derive(Clone, Copy)]
pub struct Setting {
    pub base: u32,
    pub edition: u32,
}
