// What a load says of an object that stands: its type. The crate `judge` judges it.
use crate::walk::Places;

// Where an object stands, and how many elements there are with its own.
#[derive(Clone, Copy)]
pub struct Standing {
    pub places: Places,
    pub total: u64,
}
