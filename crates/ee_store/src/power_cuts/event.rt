//! What a store at the bench is asked, what it answers, and what a list of events leaves.
use ee_codec::Address;
use ee_core::{ClearFault, ForgetFault, OpenFault, Put, WriteAllFault, WriteFault, Written};
use ee_flash::Flash;
use std::alloc::{Allocator, Global};

/// What a store is asked, or what becomes of its device.
///
/// Source: ours.
#[derive(Clone, Copy, Debug, PartialEq, Eq)]
pub enum Event<'a> {
    /// The address is to have the value.
    Put { address: Address, value: u32 },
    /// Each of these addresses is to have its value, all of them at once.
    PutAll(&'a [Put]),
    /// The address is to have no value.
    Forget { address: Address },
    /// The value of the address is asked.
    Get { address: Address },
    /// No address is to have a value.
    Clear,
    /// A clean step is asked.
    Clean,
    /// The device is given back, if a store is open; power is turned on, and the store is opened.
    Reopen,
    /// As `Reopen`, and a device on which no value was ever stored gets its first store.
    Start,
}

/// What an event is answered.
///
/// Source: ours.
#[derive(Clone, Copy, Debug, PartialEq, Eq)]
pub enum Answer {
    /// The put, the list or the forgetting was stored, in this manner.
    Done(Written),
    /// The value that the address has, if it has one.
    Value(Option<u32>),
    /// Whether the clear found a slot used, and emptied the store.
    Cleared(bool),
    /// Whether the clean step found a page to erase, and erased it.
    Cleaned(bool),
    /// A store is open.
    Opened,
    /// Why a put is not done, or why a clean step is not; never `Off`.
    Refused(WriteFault),
    /// Why no value of a list is put; never `Off`.
    NotWritten(WriteAllFault),
    /// Why a forgetting is not done; never `Off`.
    NotForgotten(ForgetFault),
    /// Why a clear is not done; never `Off`.
    NotCleared(ClearFault),
    /// Why no store is open.
    NotOpened(OpenFault),
    /// No store is open, or its device is off. Nothing changed.
    Off,
}

/// What a list of events left.
///
/// Source: ours.
#[derive(Drop)]
pub struct Driven<F: Flash + Drop, A: Allocator = Global> {
    /// The device.
    pub flash: F,
    /// The answers, one for each event.
    pub log: Vec<Answer, A>,
    /// Whether the image right after the event had its change, for each put, each list, each
    /// forgetting and each clear in which power was cut, in their order: the address has that
    /// value, each address of the list has its value, the address has none, or no address has one.
    pub kept: Vec<bool, A>,
}
