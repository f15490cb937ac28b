// What became of a store.
use model::Origin;

// What a put answers: the store waits in the processor's store buffer, or it landed in memory
// directly, with the word, serial and origin that the cell now has. It is no Option, since `None`
// would not say that the store waits.
#[derive(Clone, Copy, PartialEq, Eq, Debug)]
pub enum Stored {
    Waiting,
    Landed((u32, u8, Origin)),
}
