//! The jobs of the program: files are read whole, then the work is done, and what it gives is
//! written.
ghost use Rattle.std.specs.Prelude.{◌≡◌};

use crate::files::{FileLocks, save};
use ee_commands::{
    check_script, clean_image, forget_all, format_image, plan_script, rescue_image, size_parts,
    states_text, wear_text,
};
use ee_flash::Shape;
use ee_image_store::ImageAndText;
use ee_interface::command_line::{HELP, Job, VERSION, read_whole, write_whole};
use ee_interface::{Fault, File, fault_line, status_of};
use ee_replay::{replay, replay_indexed, try_script};
use ee_shell::by_name::{
    Language, apply_values, get_setting, header_text, list_text, set_setting, stale_text,
    tidy_image, unset_setting, verify_values,
};
use ee_shell::part::{Form, export_hex, export_image, import_hex, import_image, inspect_text};
use ee_shell::xcube::import_xcube;
use std::alloc::Global;
use std::os::unix::fs::MetadataExt;
use std::rt::Files;
use std::{fs, io};

/// The status of a bad command line.
pub const BAD_COMMAND_LINE: u8 = 2;

/// The path by which standard output is looked at.
const STANDARD_OUTPUT: &str = "/dev/stdout";

/// The status of want of memory.
pub const OUT_OF_MEMORY: u8 = 5;

/// Does a job. In a dry run no file is written.
pub(crate) fn work<R: FileLocks + Input + Print + AllocGlobal>(
    rt: &R,
    is_dry: bool,
    job: &Job<'_>,
) -> Result<(), Fault> {
    match *job {
        Job::Try { shape } => try_input(rt, shape),
        Job::Format { shape, image } => format_file(rt, is_dry, shape, image),
        Job::Import {
            form,
            shape,
            dump,
            image,
        } => import_file(rt, is_dry, form, shape, dump, image),
        Job::Export { form, image, dump } => export_file(rt, is_dry, form, image, dump),
        Job::ImportHex {
            form,
            shape,
            base,
            dump,
            image,
        } => import_hex_file(rt, is_dry, form, shape, base, dump, image),
        Job::ExportHex {
            form,
            fill,
            image,
            base,
            dump,
        } => export_hex_file(rt, is_dry, form, fill, image, base, dump),
        Job::ImportXcube { shape, dump, image } => {
            import_xcube_file(rt, is_dry, shape, dump, image)
        }
        Job::Inspect { image } => tell_inside(rt, image),
        Job::Run {
            indexed,
            image,
            script,
        } => run_files(rt, is_dry, indexed, image, script),
        Job::Get {
            image,
            settings,
            name,
        } => tell_setting(rt, image, settings, name),
        Job::Set {
            image,
            settings,
            name,
            value,
        } => set_file(rt, is_dry, image, settings, name, value),
        Job::Unset {
            image,
            settings,
            name,
        } => unset_file(rt, is_dry, image, settings, name),
        Job::Verify {
            image,
            settings,
            values,
        } => verify_file(rt, image, settings, values),
        Job::Apply {
            image,
            settings,
            values,
        } => apply_file(rt, is_dry, image, settings, values),
        Job::Header { rust, settings } => tell_header(rt, rust, settings),
        Job::Plan { image, script } => tell_plan(rt, image, script),
        Job::Check {
            image,
            script,
            certificate,
        } => check_files(rt, image, script, certificate),
        Job::Wear { image, before } => tell_wear(rt, image, before),
        Job::States { image } => tell_states(rt, image),
        Job::Clean { image } => clean_file(rt, is_dry, image),
        Job::Rescue { image } => rescue_file(rt, is_dry, image),
        Job::ForgetAll { force, image } => forget_in_file(rt, is_dry, force, image),
        Job::Stale { image, settings } => tell_stale(rt, image, settings),
        Job::Tidy { image, settings } => tidy_file(rt, is_dry, image, settings),
        Job::List { image, settings } => tell_values(rt, image, settings),
        Job::Size {
            words,
            script,
            cycles,
            runs,
        } => tell_sizes(rt, words, script, cycles, runs),
        Job::Help => print(rt, HELP.as_bytes()),
        Job::Version => print(rt, VERSION.as_bytes()),
    }
}

/// Tries the script of standard input, and prints its report.
fn try_input<R: Input + Print + AllocGlobal>(rt: &R, shape: Shape) -> Result<(), Fault> {
    let script = match read_whole(rt.alloc(), &mut rt.reader()) {
        Ok(script) => script,
        Err(fault) => return Err(Fault::reading(File::Script, fault)),
    };
    let replayed = try_script(rt.alloc(), shape, &script)?;
    print(rt, &replayed.report)
}

/// Writes a new image.
fn format_file<R: FileLocks + Print + AllocGlobal>(
    rt: &R,
    is_dry: bool,
    shape: Shape,
    image: &str,
) -> Result<(), Fault> {
    write_new(
        rt,
        is_dry,
        image,
        format_image(rt.alloc(), shape),
        b"formatted\n",
    )
}

/// Writes the image of a part, from its bytes.
fn import_file<R: FileLocks + Print + AllocGlobal>(
    rt: &R,
    is_dry: bool,
    form: Form,
    shape: Shape,
    dump: &str,
    image: &str,
) -> Result<(), Fault> {
    let bytes = read_file(rt, File::Dump, dump)?;
    let imported = import_image(rt.alloc(), shape, form, &bytes);
    write_new(rt, is_dry, image, imported, b"imported\n")
}

/// Writes the bytes of the part of an image.
fn export_file<R: FileLocks + Print + AllocGlobal>(
    rt: &R,
    is_dry: bool,
    form: Form,
    image: &str,
    dump: &str,
) -> Result<(), Fault> {
    let text = read_file(rt, File::Image, image)?;
    let bytes = export_image(rt.alloc(), form, &text);
    write_dump(rt, is_dry, dump, bytes)
}

/// Writes the image of a part, from Intel HEX. The part begins at the base.
fn import_hex_file<R: FileLocks + Print + AllocGlobal>(
    rt: &R,
    is_dry: bool,
    form: Form,
    shape: Shape,
    base: u32,
    dump: &str,
    image: &str,
) -> Result<(), Fault> {
    let lines = read_file(rt, File::Dump, dump)?;
    let imported = import_hex(rt.alloc(), shape, form, base, &lines);
    write_new(rt, is_dry, image, imported, b"imported\n")
}

/// Writes the bytes of the part of an image as Intel HEX, with `fill` of erased words too. The part
/// begins at the base.
fn export_hex_file<R: FileLocks + Print + AllocGlobal>(
    rt: &R,
    is_dry: bool,
    form: Form,
    fill: bool,
    image: &str,
    base: u32,
    dump: &str,
) -> Result<(), Fault> {
    let text = read_file(rt, File::Image, image)?;
    let lines = export_hex(rt.alloc(), fill, form, &text, base);
    write_dump(rt, is_dry, dump, lines)
}

/// Writes the image of a store with the values of a part of X-CUBE-EEPROM, from its bytes.
fn import_xcube_file<R: FileLocks + Print + AllocGlobal>(
    rt: &R,
    is_dry: bool,
    shape: Shape,
    dump: &str,
    image: &str,
) -> Result<(), Fault> {
    let bytes = read_file(rt, File::Dump, dump)?;
    let imported = import_xcube(rt.alloc(), shape, &bytes);
    write_new(rt, is_dry, image, imported, b"imported\n")
}

/// Prints what stands in an image, whatever it is.
fn tell_inside<R: Files + Print + AllocGlobal>(rt: &R, image: &str) -> Result<(), Fault> {
    let image = read_file(rt, File::Image, image)?;
    print_text(rt, inspect_text(rt.alloc(), &image))
}

/// Answers a script on an image, writes the image that this leaves in its place, and prints the
/// report. `indexed` says whether the store keeps an index in memory.
fn run_files<R: FileLocks + Print + AllocGlobal>(
    rt: &R,
    is_dry: bool,
    indexed: bool,
    image: &str,
    script: &str,
) -> Result<(), Fault> {
    let before = read_file(rt, File::Image, image)?;
    let lines = read_file(rt, File::Script, script)?;
    let replayed = if indexed {
        replay_indexed(rt.alloc(), &before, &lines)?
    } else {
        replay(rt.alloc(), &before, &lines)?
    };
    write_image(rt, is_dry, image, Some(&before), &replayed.image)?;
    print(rt, &replayed.report)
}

/// Prints what a setting reads as in an image.
fn tell_setting<R: Files + Print + AllocGlobal>(
    rt: &R,
    image: &str,
    settings: &str,
    name: &str,
) -> Result<(), Fault> {
    let image = read_file(rt, File::Image, image)?;
    let settings = read_file(rt, File::Settings, settings)?;
    let text = get_setting(rt.alloc(), rt.alloc(), &image, &settings, name);
    print_text(rt, text)
}

/// Gives a setting of an image a value, and writes the image in its place.
fn set_file<R: FileLocks + Print + AllocGlobal>(
    rt: &R,
    is_dry: bool,
    image: &str,
    settings: &str,
    name: &str,
    value: u32,
) -> Result<(), Fault> {
    let before = read_file(rt, File::Image, image)?;
    let table = read_file(rt, File::Settings, settings)?;
    let set = set_setting(rt.alloc(), rt.alloc(), &before, &table, name, value);
    write_changed(rt, is_dry, image, &before, set)
}

/// Forgets the value of a setting of an image, and writes the image in its place.
fn unset_file<R: FileLocks + Print + AllocGlobal>(
    rt: &R,
    is_dry: bool,
    image: &str,
    settings: &str,
    name: &str,
) -> Result<(), Fault> {
    let before = read_file(rt, File::Image, image)?;
    let table = read_file(rt, File::Settings, settings)?;
    let unset = unset_setting(rt.alloc(), rt.alloc(), &before, &table, name);
    write_changed(rt, is_dry, image, &before, unset)
}

/// Prints which settings of an image have not the values of a file. Where there are some, that is
/// told behind it.
fn verify_file<R: Files + Print + AllocGlobal>(
    rt: &R,
    image: &str,
    settings: &str,
    values: &str,
) -> Result<(), Fault> {
    let image = read_file(rt, File::Image, image)?;
    let table = read_file(rt, File::Settings, settings)?;
    let wanted = read_file(rt, File::Values, values)?;
    let verified = verify_values(rt.alloc(), rt.alloc(), &image, &table, &wanted)?;
    print(rt, &verified.text)?;
    if verified.all_stored {
        return Ok(());
    }
    Err(Fault::ValuesDiffer)
}

/// Gives settings of an image the values of a file, and writes the image in its place.
fn apply_file<R: FileLocks + Print + AllocGlobal>(
    rt: &R,
    is_dry: bool,
    image: &str,
    settings: &str,
    values: &str,
) -> Result<(), Fault> {
    let before = read_file(rt, File::Image, image)?;
    let applied = applied_to(rt, &before, settings, values);
    write_changed(rt, is_dry, image, &before, applied)
}

/// What giving settings of an image the values of a file makes of it.
fn applied_to<R: Files + AllocGlobal>(
    rt: &R,
    image: &[u8],
    settings: &str,
    values: &str,
) -> Result<ImageAndText<Global>, Fault> {
    let table = read_file(rt, File::Settings, settings)?;
    let given = read_file(rt, File::Values, values)?;
    apply_values(rt.alloc(), rt.alloc(), image, &table, &given)
}

/// Prints the constants of settings, in Rust or in C.
fn tell_header<R: Files + Print + AllocGlobal>(
    rt: &R,
    rust: bool,
    settings: &str,
) -> Result<(), Fault> {
    let table = read_file(rt, File::Settings, settings)?;
    let language = if rust { Language::Rust } else { Language::C };
    print_text(rt, header_text(rt.alloc(), rt.alloc(), &table, language))
}

/// Prints the certificate of what a script changes on an image.
fn tell_plan<R: Files + Print + AllocGlobal>(
    rt: &R,
    image: &str,
    script: &str,
) -> Result<(), Fault> {
    let image = read_file(rt, File::Image, image)?;
    let script = read_file(rt, File::Script, script)?;
    let text = plan_script(rt.alloc(), &image, &script);
    print_text(rt, text)
}

/// Checks a certificate of what a script changes on an image, and prints what it proves.
fn check_files<R: Files + Print + AllocGlobal>(
    rt: &R,
    image: &str,
    script: &str,
    certificate: &str,
) -> Result<(), Fault> {
    let image = read_file(rt, File::Image, image)?;
    let script = read_file(rt, File::Script, script)?;
    let certificate = read_file(rt, File::Certificate, certificate)?;
    let text = check_script(rt.alloc(), &image, &script, &certificate);
    print_text(rt, text)
}

/// Prints how often the pages of an image were erased, since an image before it where one is named.
fn tell_wear<R: Files + Print + AllocGlobal>(
    rt: &R,
    image: &str,
    before: Option<&str>,
) -> Result<(), Fault> {
    let now = read_file(rt, File::Image, image)?;
    let text = match before {
        None => wear_text(rt.alloc(), &now, None),
        Some(before) => wear_since(rt, &now, before),
    };
    print_text(rt, text)
}

/// How often the pages of an image were erased since the one of a file.
fn wear_since<R: Files + AllocGlobal>(rt: &R, now: &[u8], before: &str) -> Result<Vec<u8>, Fault> {
    let then = read_file(rt, File::Before, before)?;
    wear_text(rt.alloc(), now, Some(&then))
}

/// Prints the state of each page of an image.
fn tell_states<R: Files + Print + AllocGlobal>(rt: &R, image: &str) -> Result<(), Fault> {
    let before = read_file(rt, File::Image, image)?;
    print_text(rt, states_text(rt.alloc(), &before))
}

/// Erases the pages of an image that wait for it, writes the image in its place, and
/// prints their number.
fn clean_file<R: FileLocks + Print + AllocGlobal>(
    rt: &R,
    is_dry: bool,
    image: &str,
) -> Result<(), Fault> {
    let before = read_file(rt, File::Image, image)?;
    let cleaned = clean_image(rt.alloc(), &before);
    write_changed(rt, is_dry, image, &before, cleaned)
}

/// Makes an image legal, whatever stands in it, writes it in its place, and prints its bad words.
fn rescue_file<R: FileLocks + Print + AllocGlobal>(
    rt: &R,
    is_dry: bool,
    image: &str,
) -> Result<(), Fault> {
    let before = read_file(rt, File::Image, image)?;
    let rescued = rescue_image(rt.alloc(), &before);
    write_changed(rt, is_dry, image, &before, rescued)
}

/// Forgets all addresses of an image, by force or only where none has a value, writes it in its
/// place, and prints how many had one.
fn forget_in_file<R: FileLocks + Print + AllocGlobal>(
    rt: &R,
    is_dry: bool,
    force: bool,
    image: &str,
) -> Result<(), Fault> {
    let before = read_file(rt, File::Image, image)?;
    let forgotten = forget_all(rt.alloc(), force, &before);
    write_changed(rt, is_dry, image, &before, forgotten)
}

/// Prints the settings whose stored value in an image isn't in their range.
fn tell_stale<R: Files + Print + AllocGlobal>(
    rt: &R,
    image: &str,
    settings: &str,
) -> Result<(), Fault> {
    let image = read_file(rt, File::Image, image)?;
    let settings = read_file(rt, File::Settings, settings)?;
    let text = stale_text(rt.alloc(), rt.alloc(), &image, &settings);
    print_text(rt, text)
}

/// Forgets the addresses of an image that no setting has, writes the image in its place, and
/// prints their number.
fn tidy_file<R: FileLocks + Print + AllocGlobal>(
    rt: &R,
    is_dry: bool,
    image: &str,
    settings: &str,
) -> Result<(), Fault> {
    let before = read_file(rt, File::Image, image)?;
    let table = read_file(rt, File::Settings, settings)?;
    let tidied = tidy_image(rt.alloc(), rt.alloc(), &before, &table);
    write_changed(rt, is_dry, image, &before, tidied)
}

/// Prints what each address of an image has, with the names of settings where their file is named.
fn tell_values<R: Files + Print + AllocGlobal>(
    rt: &R,
    image: &str,
    settings: Option<&str>,
) -> Result<(), Fault> {
    let image = read_file(rt, File::Image, image)?;
    let text = match settings {
        None => list_text(rt.alloc(), rt.alloc(), &image, None),
        Some(settings) => named_values(rt, &image, settings),
    };
    print_text(rt, text)
}

/// What each address of an image has, with the names of a file's settings.
fn named_values<R: Files + AllocGlobal>(
    rt: &R,
    image: &[u8],
    settings: &str,
) -> Result<Vec<u8>, Fault> {
    let table = read_file(rt, File::Settings, settings)?;
    list_text(rt.alloc(), rt.alloc(), image, Some(&table))
}

/// Prints for each number of pages whether it bears so many runs of a script. Where none does,
/// that is told behind it.
fn tell_sizes<R: Files + Print + AllocGlobal>(
    rt: &R,
    words: u16,
    script: &str,
    cycles: u32,
    runs: u32,
) -> Result<(), Fault> {
    let script = read_file(rt, File::Script, script)?;
    let sizes = size_parts(rt.alloc(), words, &script, cycles, runs)?;
    print(rt, &sizes.text)?;
    if sizes.some_enough {
        return Ok(());
    }
    Err(Fault::NoSizeEnough)
}

/// All bytes of a file.
pub(crate) fn read_file<R: Files + AllocGlobal>(
    rt: &R,
    file: File,
    path: &str,
) -> Result<Vec<u8>, Fault> {
    let mut reader = match fs::open(rt, path) {
        Ok(reader) => reader,
        Err(_) => return Err(Fault::CannotRead(file)),
    };
    match read_whole(rt.alloc(), &mut reader) {
        Ok(bytes) => Ok(bytes),
        Err(fault) => Err(Fault::reading(file, fault)),
    }
}

/// Whether standard output goes to the plain file of this path, where the system tells that.
/// What is printed would be written over what the file gets.
fn is_output<R: Files>(rt: &R, path: &str) -> bool {
    match (fs::metadata(rt, STANDARD_OUTPUT), fs::metadata(rt, path)) {
        (Ok(output), Ok(file)) => {
            file.is_file() && output.dev() == file.dev() && output.ino() == file.ino()
        }
        _ => false,
    }
}

/// Writes an image in the place of its file, of which `before` was read, if it was: then only where
/// the file still is that. Its file is closed afterwards. In a dry run it is left as it was.
fn write_image<R: FileLocks + AllocGlobal>(
    rt: &R,
    is_dry: bool,
    path: &str,
    before: Option<&[u8]>,
    image: &[u8],
) -> Result<(), Fault> {
    if is_output(rt, path) {
        return Err(Fault::OutputIsWritten);
    }
    if is_dry {
        return Ok(());
    }
    match save(rt, path, before, image) {
        Ok(()) => Ok(()),
        Err(fault) => Err(fault.into_fault()),
    }
}

/// Writes the image that a command made, in the place of whatever its file was, and says so.
fn write_new<R: FileLocks + Print + AllocGlobal>(
    rt: &R,
    is_dry: bool,
    path: &str,
    image: Result<Vec<u8>, Fault>,
    said: &[u8],
) -> Result<(), Fault> {
    write_image(rt, is_dry, path, None, &image?)?;
    print(rt, said)
}

/// Writes the image that a command left, in the place of its file, of which `before` was read,
/// and prints its text.
fn write_changed<R: FileLocks + Print + AllocGlobal>(
    rt: &R,
    is_dry: bool,
    path: &str,
    before: &[u8],
    changed: Result<ImageAndText, Fault>,
) -> Result<(), Fault> {
    let changed = changed?;
    write_image(rt, is_dry, path, Some(before), &changed.image)?;
    print(rt, &changed.text)
}

/// Writes the dump that a command made, in the place of whatever its file was, and says so.
fn write_dump<R: FileLocks + Print + AllocGlobal>(
    rt: &R,
    is_dry: bool,
    path: &str,
    dump: Result<Vec<u8>, Fault>,
) -> Result<(), Fault> {
    let dump = dump?;
    if is_output(rt, path) {
        return Err(Fault::OutputIsWritten);
    }
    if is_dry {
        return print(rt, b"exported\n");
    }
    match save(rt, path, None, &dump) {
        Ok(()) => print(rt, b"exported\n"),
        Err(fault) => Err(fault.into_dump_fault()),
    }
}

/// Prints the text that a command made.
pub(crate) fn print_text<R: Print>(rt: &R, text: Result<Vec<u8>, Fault>) -> Result<(), Fault> {
    print(rt, &text?)
}

/// Prints on standard output.
pub(crate) fn print<R: Print>(rt: &R, text: &[u8]) -> Result<(), Fault> {
    match write_whole(&mut io::writer(rt), text) {
        Ok(()) => Ok(()),
        Err(_) => Err(Fault::CannotWriteOutput),
    }
}

/// Prints the line of a fault on standard error, and gives its status.
pub(crate) fn tell<R: Eprint + AllocGlobal>(rt: &R, fault: &Fault) -> u8 {
    match fault_line(rt.alloc(), fault) {
        Ok(line) => {
            eprint_bytes(rt, &line);
            status_of(fault)
        }
        Err(_) => out_of_memory(rt),
    }
}

/// Says that the words can't be read, and gives the status.
pub fn bad_command_line<R: Eprint>(rt: &R) -> u8
    ensures { result ≡ BAD_COMMAND_LINE }
{
    eprint_bytes(rt, b"ee: bad command line\n");
    BAD_COMMAND_LINE
}

/// Says that memory ran out, with no memory, and gives the status.
pub fn out_of_memory<R: Eprint>(rt: &R) -> u8
    ensures { result ≡ OUT_OF_MEMORY }
{
    eprint_bytes(rt, b"ee: out of memory\n");
    OUT_OF_MEMORY
}

/// Prints on standard error. Where that fails there is nobody left to tell.
pub(crate) fn eprint_bytes<R: Eprint>(rt: &R, line: &[u8]) {
    if let Ok(text) = str::from_utf8(line) {
        let _ = rt.eprint(text);
    }
}
