//! Why a table is no schema, and why settings aren't read, set, told as stale, listed or tidied.
use ee_core::WriteFault;

/// Why a table is no schema: the first entry with a fault, by rising name in the order of bytes,
/// and its first fault. Entries are counted from 1.
///
/// Source: ours.
#[derive(Clone, Copy, Debug, PartialEq, Eq)]
pub enum SchemaFault {
    /// The name of this entry isn't 1 to 32 of `a` to `z`, `0` to `9` and `_`, the first a letter.
    BadName(u64),
    /// This entry is no table of the four whole numbers `address`, `min`, `max` and `default`, and
    /// none of a record: of `address`, of `bytes` or `text`, and of a `default` in quotes.
    BadField(u64),
    /// An address that isn't 1 to 65534, another number that isn't 0 to 4294967295, or a default
    /// that isn't `min` to `max`. Or a record with an address that isn't, of no byte or more than
    /// 65532, or with a default that it may not have.
    BadRange(u64),
    /// An earlier entry has an address of this one.
    SameAddress(u64),
    /// Memory ran out. It can come in place of any other answer.
    Memory,
}

/// Why a setting can't be read, the first cause that applies.
///
/// Source: ours.
#[derive(Clone, Copy, Debug, PartialEq, Eq)]
pub enum GetFault {
    /// The schema has no setting of this name.
    UnknownName,
    /// The device is off.
    Off,
}

/// Why a setting isn't set, the first cause that applies. All but a `Cut` of the store leave
/// the device as it was.
///
/// Source: ours.
#[derive(Clone, Copy, Debug, PartialEq, Eq)]
pub enum SetFault {
    /// The schema has no setting of this name.
    UnknownName,
    /// The value isn't in the range of the setting.
    OutOfRange {
        /// The least value of the setting.
        min: u32,
        /// The greatest value of the setting.
        max: u32,
    },
    /// The store refused the write.
    Store(WriteFault),
}

/// Why stale settings can't be told, the first cause that applies.
///
/// Source: ours.
#[derive(Clone, Copy, Debug, PartialEq, Eq)]
pub enum StaleFault {
    /// The device is off.
    Off,
    /// Memory ran out. It can come in place of any answer but `Off`.
    Memory,
}

/// Why what a store holds can't be listed, the first cause that applies.
///
/// Source: ours.
#[derive(Clone, Copy, Debug, PartialEq, Eq)]
pub enum ListFault {
    /// The device is off.
    Off,
    /// Memory ran out. It can come in place of any answer but `Off`.
    Memory,
}

/// Why a store isn't tidied, or not to the end. Before `Spent` and `Cut` the first of the addresses
/// were forgotten, and nothing else changed.
///
/// Source: ours.
#[derive(Clone, Copy, Debug, PartialEq, Eq)]
pub enum TidyFault {
    /// The device is off.
    Off,
    /// A forgetting was refused, and changed nothing: every slot is used, and the generation is the
    /// greatest, 4294967294.
    Spent,
    /// Power failed in a forgetting. The device is off; the address has its value still or has
    /// none.
    Cut,
}
