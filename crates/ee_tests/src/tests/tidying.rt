//! Settings of later schemas, over both kinds of store, and with power cut in each step of a
//! tidying.
use crate::tests::{address, device, opened, same, text_of};
use ee_codec::Address;
use ee_fakes::images::{TIDIED, TWO_MOVES, VOLUME};
use ee_flash::{Flash, Fuse, MemFlash, Tear};
use ee_settings::{GetFault, Reading, Schema, TidyFault};
use ee_store::{IndexedStore, OpenIndexed, Variables};
use std::alloc::Global;
use std::process::Abort;

/// An image, the text of a schema that names all of its addresses but one, the entries that are
/// stale, how `volume` reads, and the image behind the tidying.
type Row = (
    &'static [u8],
    &'static [u8],
    &'static [u64],
    Result<Reading, GetFault>,
    &'static [u8],
);

const ROWS: [Row; 2] = [
    // The value of address 1 is out of the range of the setting, and address 2 has none.
    (TWO_MOVES, VOLUME, &[1], Ok(Reading::Default(5)), TIDIED),
    // And then there is no setting any more.
    (
        TIDIED,
        b"",
        &[],
        Err(GetFault::UnknownName),
        b"ee 1 6
1 aaaaaaaa00000003 aaaaaaaaaaaaaaaa - aaaaaaaaaaaaaaaa 0000000d00000001 0000000500000002
1 aaaaaaaa00000004 aaaaaaaaaaaaaaaa - - 0000000d00000001 0000000d00010001
",
    ),
];

// The schema of a text.
fn schema(rt: &impl Abort, memory: Global, text: &[u8]) -> Schema {
    let table = toml::table_from_slice(memory, text)
        .ok()
        .expect(rt, "no table");
    Schema::from_table(memory, &table).expect(rt, "no schema")
}

// The device after two moves, of which a later step is cut.
fn moved_twice(rt: &impl Abort, memory: Global, fuse: Fuse) -> MemFlash {
    let mut flash = device(rt, memory, TWO_MOVES);
    flash.arm(fuse);
    flash
}

// The store with an index of a device, with power turned on.
fn indexed<F: Flash + Drop>(rt: &impl Abort, memory: Global, mut flash: F) -> IndexedStore<F> {
    flash.power_on();
    IndexedStore::open(memory, flash)
        .ok()
        .expect(rt, "no store")
}

// Whether the entries of the row are stale, and `volume` reads as it says.
fn is_stale<V: Variables>(memory: Global, schema: &Schema, store: &V, row: Row) -> bool {
    let Ok(entries) = schema.stale(memory, store) else {
        return false;
    };
    entries.as_slice() == row.2 && schema.get(store, "volume") == row.3
}

// Whether the schema tidies one address away, and then none, and is stale before and behind it.
fn tidies<V: Variables>(memory: Global, schema: &Schema, store: &mut V, row: Row) -> bool {
    is_stale(memory, schema, store, row)
        && schema.tidy(store) == Ok(1)
        && is_stale(memory, schema, store, row)
        && schema.tidy(store) == Ok(0)
        && is_stale(memory, schema, store, row)
}

// The image behind the tidying of a store without an index.
fn tidied_by_scan<F: Flash + Drop>(
    rt: &impl Abort,
    memory: Global,
    schema: &Schema,
    flash: F,
    row: Row,
) -> Vec<u8> {
    let mut store = opened(rt, flash);
    same(rt, "scanned", tidies(memory, schema, &mut store, row), true);
    text_of(rt, memory, &store.into_flash())
}

// The same of a store with one.
fn tidied_by_index<F: Flash + Drop>(
    rt: &impl Abort,
    memory: Global,
    schema: &Schema,
    flash: F,
    row: Row,
) -> Vec<u8> {
    let mut store = indexed(rt, memory, flash);
    same(rt, "indexed", tidies(memory, schema, &mut store, row), true);
    text_of(rt, memory, &store.into_flash())
}

#[test]
fn later_schemas(rt: HostRuntime) {
    let memory = rt.alloc();
    for row in ROWS {
        let schema = schema(&rt, memory, row.1);
        let text = tidied_by_scan(&rt, memory, &schema, device(&rt, memory, row.0), row);
        same(&rt, "scanned", text.as_slice(), row.4);
        let text = tidied_by_index(&rt, memory, &schema, device(&rt, memory, row.0), row);
        same(&rt, "indexed", text.as_slice(), row.4);
    }
}

/// The steps of the tidying: an erase, the receive word, the element that stays, and two marks.
const STEPS: u64 = 5;

// Whether a tidying is cut.
fn is_cut<V: Variables>(schema: &Schema, store: &mut V) -> bool {
    schema.tidy(store) == Err(TidyFault::Cut) && !store.is_on()
}

// Whether address 1 has 13 before and behind a tidying, which leaves it alone.
fn has_thirteen<V: Variables>(schema: &Schema, store: &mut V, one: Address) -> bool {
    let before = store.read(one);
    let tidied = schema.tidy(store);
    before == Ok(Some(13)) && tidied.is_ok() && store.read(one) == before && store.live_count() == 1
}

// Cuts the tidying of a store without an index, and opens it again.
fn cut_scanned<F: Flash + Drop>(rt: &impl Abort, schema: &Schema, flash: F) -> bool {
    let mut store = opened(rt, flash);
    let is_cut = is_cut(schema, &mut store);
    let mut store = opened(rt, store.into_flash());
    is_cut && has_thirteen(schema, &mut store, address(rt, 1))
}

// The same of a store with one.
fn cut_indexed<F: Flash + Drop>(
    rt: &impl Abort,
    memory: Global,
    schema: &Schema,
    flash: F,
) -> bool {
    let mut store = indexed(rt, memory, flash);
    let is_cut = is_cut(schema, &mut store);
    let mut store = indexed(rt, memory, store.into_flash());
    is_cut && has_thirteen(schema, &mut store, address(rt, 1))
}

#[test]
fn each_step_of_a_tidying_is_cut(rt: HostRuntime) {
    let memory = rt.alloc();
    let schema = schema(&rt, memory, VOLUME);
    for after in 0..STEPS {
        for tear in [Tear::Nothing, Tear::Done, Tear::Torn, Tear::Mixed] {
            let fuse = Fuse { after, tear };
            let flash = moved_twice(&rt, memory, fuse);
            same(&rt, fuse, cut_scanned(&rt, &schema, flash), true);
            let flash = moved_twice(&rt, memory, fuse);
            same(&rt, fuse, cut_indexed(&rt, memory, &schema, flash), true);
        }
    }
}
