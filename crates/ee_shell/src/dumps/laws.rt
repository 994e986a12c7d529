//! What holds of every device and every dump. Each function does nothing: its contract is the law.
ghost use Rattle.ee_shell.specs.Dumps.Laws.{DumpOrTorn, DumpsAreRead, ExportOfImport, ImportOfExport, OneDevice, OneTorn, WholeImportIsADump};

/// The device that a device's dump makes is that device, with no wear, and the dump has no pair
/// that sums to less than all ones.
pub fn import_of_export()
    ensures { ImportOfExport }
{}

/// Bytes of the right length are the dump of a device, which is the one that they make.
pub fn export_of_import()
    ensures { ExportOfImport }
{}

/// What made a device is its dump, where no word of it is torn.
pub fn whole_import_is_a_dump()
    ensures { WholeImportIsADump }
{}

/// Two devices with one size, one dump and one wear are the same, but for power and cuts.
pub fn one_device()
    ensures { OneDevice }
{}

/// A device's dump has the length of its size.
pub fn dumps_are_read()
    ensures { DumpsAreRead }
{}

/// A device has a dump, or a first torn word; of coded words one all of whose numbers have one.
pub fn dump_or_torn()
    ensures { DumpOrTorn }
{}

/// It has not both, and one first torn word at most.
pub fn one_torn()
    ensures { OneTorn }
{}
