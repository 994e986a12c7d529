//! Settings by name: programmed at the factory, listed, and tidied by a later firmware.
use super::part::Part;
use super::scripts::address_of;
use ee_shell::{
    Language, apply_values, get_setting, header_text, list_text, stale_text, tidy_image,
};
use std::mem::swap;

/// How many settings a schema has.
const COUNT: u32 = 600;

/// The greatest value of a setting.
const GREATEST: u32 = 1000000;

/// Makes a schema: a table for each setting, but for so many of a hundred.
fn make_schema(part: &mut Part, without: u32) {
    part.text.clear();
    for number in 0..COUNT {
        if !part.dice.comes(without) {
            write_setting(part, number);
        }
    }
    swap(&mut part.text, &mut part.schema);
}

/// Writes the table of a setting.
fn write_setting(part: &mut Part, number: u32) {
    let least = u64::from(part.dice.below(10));
    let greatest = part.dice.below(GREATEST / 2).saturating_add(GREATEST / 2);
    part.push("[channel_", u64::from(number));
    part.push("_gain]\naddress = ", address_of(number, COUNT));
    part.push("\nmin = ", least);
    part.push("\nmax = ", u64::from(greatest));
    part.push("\ndefault = ", least);
    part.end("\n\n");
}

/// Writes values for all settings, within the range that each has in any schema.
fn write_values(part: &mut Part) {
    part.text.clear();
    for number in 0..COUNT {
        let value = part.dice.below(GREATEST / 2 - 10).saturating_add(10);
        part.push("channel_", u64::from(number));
        part.push("_gain = ", u64::from(value));
        part.end("\n");
    }
}

/// Programs a part with values, lists what it has, reads a setting, and lets a later firmware's
/// schema tell what is stale and tidy up.
pub fn settings(part: &mut Part) {
    make_schema(part, 0);
    write_values(part);
    give_values(part);
    tell_values(part);
    make_schema(part, 10);
    tidy(part);
}

/// Makes the header of a schema, and gives a part the values.
fn give_values(part: &mut Part) {
    let alloc = part.alloc;
    let header = header_text(alloc, alloc, part.schema.as_slice(), Language::C);
    part.take_text(header);
    let (schema, values) = (part.schema.as_slice(), part.text.as_slice());
    let applied = apply_values(alloc, alloc, part.image.as_slice(), schema, values);
    part.change(applied);
}

/// Tells a part's values.
fn tell_values(part: &mut Part) {
    let alloc = part.alloc;
    let (image, schema) = (part.image.as_slice(), part.schema.as_slice());
    let listed = list_text(alloc, alloc, image, Some(schema));
    let gain = get_setting(alloc, alloc, image, schema, "channel_7_gain");
    part.take_text(listed);
    part.take_text(gain);
}

/// Tells what is stale by a schema, and forgets what it has no setting for.
fn tidy(part: &mut Part) {
    let alloc = part.alloc;
    let (image, schema) = (part.image.as_slice(), part.schema.as_slice());
    let stale = stale_text(alloc, alloc, image, schema);
    let tidied = tidy_image(alloc, alloc, image, schema);
    part.take_text(stale);
    part.change(tidied);
}
