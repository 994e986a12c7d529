//! Jobs that answer scripts.
use super::part::Part;
use ee_shell::format_image;

/// A firmware's day: some of a thousand variables are written often.
pub fn run(part: &mut Part) {
    part.write(60000, 50, 2, 50);
    answer(part);
}

/// With hardly a slot to spare most writes in a row are soon a move.
pub fn crowded(part: &mut Part) {
    part.write(5000, 30, 1, 0);
    answer(part);
}

/// Many cuts come among some changes or in a move, with power on behind each.
pub fn brown_outs(part: &mut Part) {
    part.text.clear();
    for _ in 0..250 {
        part.write_cut(150);
        part.write_lines(50, 30, 5, 20);
        part.end("p\nc\n");
    }
    answer(part);
}

/// A new part is filled, so that each further variable is refused.
pub fn refused(part: &mut Part) {
    part.put(format_image(part.alloc, part.shape));
    part.text.clear();
    part.write_filling();
    part.write_new(2000);
    part.answer(true);
}

/// Answers the script four times, each time on the image that the time before left.
fn answer(part: &mut Part) {
    for _ in 0..4 {
        part.answer(true);
    }
}
