// Reading the parts of a machine: its cells and its buffers.
ghost use Rattle.std.specs.Prelude.{◌≡◌, ◌<◌, replicate, slice_set};
ghost use Rattle.kinds.specs.Kinds.{behind};
ghost use Rattle.model.specs.Lists.{oldest};
ghost use Rattle.model.specs.Memory.{initial_cell};
ghost use Rattle.port.specs.Holdings.{landed, serials, shown, store_at};
ghost use Rattle.machine.specs.Parts.{cells_of};

use crate::access::Access;
use buffers::Query;
use model::{Cell, Origin, WaitingStore};

// The cells of a new machine.
pub fn initial_cells() -> [Cell; 8]
    ensures { result ≡ replicate 8 initial_cell }
{
    [Cell::initial(); 8]
}

// A store becomes the cell of the address, one serial on. Answers word, serial and origin, as the
// cell now has them.
pub fn overwrite(cells: &mut [Cell; 8], access: Access, store: WaitingStore) -> (u32, u8, Origin)
    requires { (cells_of cells.old access.address).serial < 255 }
    ensures value { result ≡ shown (landed (cells_of cells.old access.address) store) }
    ensures cells { cells.new ≡ slice_set cells.old access.address (landed (cells_of cells.old access.address) store) }
{
    let cell = &mut cells[access.address as usize];
    *cell = Cell {
        word: store.word,
        serial: cell.serial + 1,
        origin: store.origin,
    };
    (cell.word, cell.serial, cell.origin)
}

// The sum of all serials.
pub fn serials(cells: &[Cell; 8]) -> usize
    ensures { result ≡ serials (cells_of cells.now) }
{
    cells.iter().map(|cell| cell.serial as usize).sum()
}

// The oldest that the query picks.
pub fn first<T: Copy, Q: Query<T>>(items: &[T], query: &Q) -> Option<T>
    ensures { result ≡ oldest (Q.picks query.now) items.now }
{
    items.iter().find(|item| query.hits(item)).copied()
}

// Whether the oldest store of all is at another address.
pub fn behind(stores: &[WaitingStore], address: u8) -> bool
    ensures { result ≡ behind (store_at address) stores.now }
{
    stores.first().is_some_and(|store| store.address != address)
}
