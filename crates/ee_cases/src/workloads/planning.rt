//! Certificates made and checked, and a part's size chosen.
use super::part::Part;
use ee_shell::{check_script, plan_script, size_parts};

/// Plans the moves of a script, checks the plan, and asks how large a part must be for it.
pub fn certify(part: &mut Part) {
    part.write(40000, 0, 0, 70);
    let (image, script) = (part.image.as_slice(), part.text.as_slice());
    let certificate = plan_script(part.alloc, image, script);
    part.take_text(certificate);
    check(part);
    choose_size(part);
}

/// Checks the plan that was told.
fn check(part: &mut Part) {
    let (image, script) = (part.image.as_slice(), part.text.as_slice());
    let proved = check_script(part.alloc, image, script, part.told.as_slice());
    part.take_text(proved);
}

/// Asks how large a part must be.
fn choose_size(part: &mut Part) {
    let runs = part.dice.below(10000).saturating_add(1);
    match size_parts(part.alloc, 256, part.text.as_slice(), 10000, runs) {
        Ok(sizes) => part.take_text(Ok(sizes.text)),
        Err(fault) => part.take_text(Err(fault)),
    }
}
