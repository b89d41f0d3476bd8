//! The table as threads share it.

ghost use Rattle.std.specs.Prelude.{◌≡◌, IfOk};
ghost use Rattle.hy_shared.specs.Layout.{IsLayout};

use crate::law::Law;
use crate::layout::Layout;
use crate::places::word_count;
use crate::root::Root;
use crate::view::View;
use atomic_table::Table;
use hy_base::NoMemory;
use std::alloc::Global;
use std::marker::Model;

/// The metadata of a store: the record of each key, shared by clients in threads.
#[derive(Drop)]
pub struct SharedMeta {
    pub(crate) table: Table<(), View, Layout, Law, Global>,
    pub(crate) layout: Layout,
}

impl Model for SharedMeta {
    ghost use Rattle.std.specs.Prelude.{◌≡◌};
    ghost use Rattle.hy_shared.specs.Layout.{IsLayout, word_count};
    ghost use Rattle.hy_shared.specs.Sessions.{TableValue};

    ghost Value = { TableValue };

    ghost view = { λ t. record { id = t.table.shared.table_id; layout = t.layout } };

    ghost invariant = { λ t. (t.table.shared.key ≡ t.layout) × (t.table.shared.table_id.words ≡ word_count t.layout) × IsLayout t.layout };
}

impl SharedMeta {
    /// A table without records, and the root of its sessions.
    pub fn new(
        alloc: Global,
        keys: u32,
        clients: u32,
        ops: u32,
        f: u8,
        k: u8,
    ) -> Result<(SharedMeta, Root), NoMemory>
        requires { IsLayout (record { keys = keys; clients = clients; ops = ops; f = f; k = k }) }
        ensures layout { IfOk result (λ made. made.0.layout ≡ record { keys = keys; clients = clients; ops = ops; f = f; k = k }) }
        ensures root { IfOk result (λ made. (made.1.table ≡ made.0) × (made.1.given ≡ 0)) }
    {
        let layout = Layout {
            keys,
            clients,
            ops,
            f,
            k,
        };
        let words = vec![in alloc; 0u64; word_count(&layout)]?;
        let (table, seat) = Table::of_words(alloc, words.as_slice(), &layout)?;
        let root = Root {
            seat,
            layout,
            given: 0,
        };
        Ok((SharedMeta { table, layout }, root))
    }

    /// The numbers that the table was made with.
    pub fn layout(&self) -> Layout
        ensures value { result ≡ self.now.layout }
        ensures ruled { IsLayout result }
    {
        self.layout
    }
}
