//! What holds of every image and every dump. Each function does nothing: its contract is the law.
ghost use Rattle.ee_shell.specs.Part.InspectLaws.{DoubtsAreTold, ScanIsToldAsItsFault, UsedSlotsAddUp};
ghost use Rattle.ee_shell.specs.Part.Laws.{ExportOfImport, HexImportOfExport, ImportOfExport, TornExportOfImport};

/// An image that was exported is imported as it was, with no wear.
pub fn import_of_export()
    ensures { ImportOfExport }
{}

/// A dump that was imported is exported as it was.
pub fn export_of_import()
    ensures { ExportOfImport }
{}

/// And so is a dump of pairs or of coded words, where no word of it is torn.
pub fn torn_export_of_import()
    ensures { TornExportOfImport }
{}

/// An image that was exported as Intel HEX is imported as it was, with no wear, from every address.
pub fn hex_import_of_export()
    ensures { HexImportOfExport }
{}

/// What `inspect` says of a scan that finds no live set is what the fault's own line says.
pub fn scan_is_told_as_its_fault()
    ensures { ScanIsToldAsItsFault }
{}

/// The slots that `inspect` counts as live, superseded and torn are all the used ones.
pub fn used_slots_add_up()
    ensures { UsedSlotsAddUp }
{}

/// `inspect` tells an address to be in doubt exactly where some slot in front of a torn one speaks
/// of it, and none behind that torn one does.
pub fn doubts_are_told()
    ensures { DoubtsAreTold }
{}
