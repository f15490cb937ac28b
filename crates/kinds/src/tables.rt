// The ordering tables of the four kinds.
use model::{Order, Row, Table};

// An instruction that stands above every later one.
const ALWAYS: Row = Row {
    load: Order::Always,
    store: Order::Always,
    reconcile: Order::Always,
    commit: Order::Always,
};

// A store that later loads and Reconciles may overtake.
const STORE: Row = Row {
    load: Order::Never,
    reconcile: Order::Never,
    ..ALWAYS
};

pub const SC_TABLE: Table = Table {
    load: ALWAYS,
    store: ALWAYS,
    reconcile: ALWAYS,
    commit: ALWAYS,
};

// A load may overtake an earlier store.
pub const TSO_TABLE: Table = Table {
    store: STORE,
    ..SC_TABLE
};

// Also a store may overtake an earlier one at another address.
pub const PSO_TABLE: Table = Table {
    store: Row {
        store: Order::SameAddress,
        ..STORE
    },
    ..SC_TABLE
};

// Also a load may overtake an earlier load at another address, and a Commit.
pub const WMM_TABLE: Table = Table {
    load: Row {
        load: Order::SameAddress,
        ..ALWAYS
    },
    commit: Row {
        load: Order::Never,
        ..ALWAYS
    },
    ..PSO_TABLE
};
