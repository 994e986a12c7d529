//! A schema that is read, and what is stale and what is listed by it.
use crate::tests::{address, device, opened};
use ee_fakes::images::{TWO_MOVES, VOLUME};
use ee_settings::{Held, ListFault, Listed, Schema, SchemaFault, Stale, StaleFault};
use ee_store::Variables;
use std::alloc::{Allocator, Global};
use std::process::Abort;
use toml::Table;

/// A call of a schema.
#[derive(Clone, Copy)]
pub enum Task {
    Read,
    Entries,
    Stale,
    List,
}

// The table of the schema.
fn table(rt: &impl Abort, memory: Global) -> Table {
    let table = toml::table_from_slice(memory, VOLUME);
    table.ok().expect(rt, "no table")
}

// Whether the first entry alone is stale, or none was found for want of memory.
fn is_first<A: Allocator>(found: Result<Vec<u64, A>, StaleFault>) -> Option<bool> {
    match found {
        Ok(entries) => Some(entries.as_slice() == [1].as_slice()),
        Err(StaleFault::Memory) => None,
        Err(_) => Some(false),
    }
}

// Whether the setting alone is stale, with 13, or none was found for want of memory.
fn is_stale<A: Allocator>(found: Result<Vec<Stale, A>, StaleFault>) -> Option<bool> {
    let wanted = [Stale {
        entry: 1,
        value: 13,
    }];
    match found {
        Ok(stale) => Some(stale.as_slice() == wanted.as_slice()),
        Err(StaleFault::Memory) => None,
        Err(_) => Some(false),
    }
}

// Whether both addresses are listed, the first with the setting, or none for want of memory.
fn are_both<A: Allocator>(
    rt: &impl Abort,
    found: Result<Vec<Listed, A>, ListFault>,
) -> Option<bool> {
    let wanted = [
        Listed {
            address: address(rt, 1),
            entry: Some(1),
            held: Held::Stale(13),
        },
        Listed {
            address: address(rt, 2),
            entry: None,
            held: Held::Value(5),
        },
    ];
    match found {
        Ok(listed) => Some(listed.as_slice() == wanted.as_slice()),
        Err(ListFault::Memory) => None,
        Err(_) => Some(false),
    }
}

// Whether a table is read as the schema.
fn is_read<A: Allocator + Copy, V: Variables>(
    alloc: A,
    memory: Global,
    table: &Table,
    store: &V,
) -> Option<bool> {
    match Schema::from_table(alloc, table) {
        Ok(schema) => is_stale(schema.stale_values(memory, store)),
        Err(SchemaFault::Memory) => None,
        Err(_) => Some(false),
    }
}

// Whether it gives what is wanted of a store after two moves.
fn is_given<A: Allocator + Copy, V: Variables>(
    task: Task,
    alloc: A,
    rt: &impl Abort,
    memory: Global,
    store: &V,
) -> Option<bool> {
    let table = table(rt, memory);
    if let Task::Read = task {
        return is_read(alloc, memory, &table, store);
    }
    let schema = Schema::from_table(memory, &table).expect(rt, "no schema");
    match task {
        Task::List => are_both(rt, schema.list(alloc, store)),
        Task::Entries => is_first(schema.stale(alloc, store)),
        _ => is_stale(schema.stale_values(alloc, store)),
    }
}

/// Whether it gives what is wanted of the store after two moves.
pub fn done<A: Allocator + Copy>(
    task: Task,
    alloc: A,
    rt: &impl Abort,
    memory: Global,
) -> Option<bool> {
    let store = opened(rt, device(rt, memory, TWO_MOVES));
    is_given(task, alloc, rt, memory, &store)
}
