//! Reading the text of an image.
ghost use Rattle.std.specs.Prelude.{◌≡◌, ◌⊎◌, ℕ, ◌<◌, ◌^◌, Some, List, [], ◌∷◌, ◌++◌, SomeIff, IfSome, IfNone, IfOk, IfErr, IsSomeAnd, MatchResult, decimal};
ghost use Rattle.ee_text.specs.Field.{space};
ghost use Rattle.ee_text.specs.Fields.{fields_left};
ghost use Rattle.ee_flash.specs.Size.{Size, IsWithinLimits, page_count, size_of};
ghost use Rattle.ee_flash.specs.Device.{Device, IsBelowAllOnes, IsFormed};
ghost use Rattle.ee_flash.specs.Memory.{device_of, memory_of, unused_memory};
ghost use Rattle.ee_image.specs.Text.{size_text, image_text, at_rest, word_text, IsNumbered};
ghost use Rattle.ee_image.specs.Fault.{BeginsWithSize, NoSize, IsImageFault, IsImageTextFault};
ghost use Rattle.ee_image.specs.Reading.{AreWordsRead, IsWordsFault, IsNextPage, IsPageFault, ArePagesRead, IsPagesFault};

use crate::ImageFault;
use crate::word::leading_word;
use ee_flash::{Cells, MemFlash, Shape, Word};
use ee_text::{Fields, next_field, next_line, number};
use std::alloc::Allocator;

/// The most bytes that a text may have.
const LONGEST: usize = 4_194_304;

/// The most bytes that a wear and the space behind it have, since 2^64 - 1 has twenty digits. The
/// space is looked for in no more: what is no page's line is refused before the work grows with it.
const MOST_WEAR_BYTES: usize = 21;

/// The device that a text spells. It is on, with no cuts, no steps and no fuse.
///
/// # Errors
///
/// The first that applies: `TooLong`, more than 4194304 bytes; `BadLine(1)`, no size in the first
/// line; `BadShape`, no 1 to 64 pages in each set or no 5 to 512 words in a page; `BadLine(n)`, the
/// first line that is no page's, or is missing, or is one too many. `Memory`, memory ran out, can
/// come in place of any answer but `TooLong`.
///
/// Source: ours.
pub fn read_image<A: Allocator + Copy>(alloc: A, bytes: &[u8]) -> Result<MemFlash<A>, ImageFault>
    ensures found { IfOk result (λ flash. bytes.now ≡ image_text (device_of flash)) }
    ensures at_rest { IfOk result (λ flash. memory_of flash ≡ unused_memory (at_rest (device_of flash))) }
    ensures fault { IfErr result (IsImageFault bytes.now) }
    // Every device's text is read, and every fault is named.
    ensures only { (device : Device) → IsFormed device → bytes.now ≡ image_text device
        → MatchResult result
        (λ flash. device_of flash ≡ at_rest device)
        (λ fault. fault ≡ ImageFault.Memory) }
    ensures names { (fault : ImageFault) → IsImageTextFault bytes.now fault
        → MatchResult result (λ _. ⊥) (λ given. (given ≡ fault) ⊎ (given ≡ ImageFault.Memory)) }
{
    if bytes.len() > LONGEST {
        return Err(ImageFault::TooLong);
    }
    let Some((heading, rest)) = next_heading(bytes) else {
        return Err(ImageFault::BadLine(1));
    };
    let Some(shape) = heading.shape() else {
        return Err(ImageFault::BadShape);
    };
    let (cells, wear) = read_pages(alloc, shape, rest)?;
    match MemFlash::of_cells(shape, cells, wear) {
        Ok(flash) => Ok(flash),
        Err(_) => unreachable!("each page has its words and its wear"),
    }
}

/// The numbers of the first line.
#[derive(Clone, Copy)]
struct Heading {
    pages: u64,
    words: u64,
}

impl Heading {
    /// The shape of these numbers, within the limits.
    fn shape(self) -> Option<Shape>
        ensures { SomeIff result
            (IsWithinLimits (size_of self.pages self.words)) (size_of self.pages self.words) }
    {
        Shape::new(self.pages as usize, self.words as usize)
    }
}

/// The numbers of the first line, and what stands behind it.
fn next_heading(text: &[u8]) -> Option<(Heading, &[u8])>
    ensures found { IfSome result (λ parts.
        BeginsWithSize text.now (size_of parts.0.pages parts.0.words) parts.1.now) }
    ensures none { IfNone result (NoSize text.now) }
{
    let (line, rest) = next_line(text)?;
    Some((read_heading(line)?, rest))
}

/// The numbers that the first line says.
fn read_heading(line: &[u8]) -> Option<Heading>
    ensures found { IfSome result (λ heading. line.now
        ≡ size_text (size_of heading.pages heading.words)) }
    ensures only { (size : Size) → IsNumbered size → line.now ≡ size_text size
        → result ≡ Some record { pages = size.pages; words = size.words } }
{
    let mut fields = Fields::of(line);
    if fields.next()? != b"ee".as_slice() {
        return None;
    }
    let pages = next_number(&mut fields)?;
    let words = next_number(&mut fields)?;
    if fields.next().is_some() {
        return None;
    }
    Some(Heading { pages, words })
}

/// The number that the next field writes.
fn next_number(fields: &mut Fields<'_>) -> Option<u64>
    ensures found { IfSome result
        (λ n. fields_left fields.old ≡ decimal n ∷ fields_left fields.new) }
    ensures only { (n : ℕ) (more : List (List ℕ)) → n < 2 ^ 64
        → fields_left fields.old ≡ decimal n ∷ more
        → (result ≡ Some n) × (fields_left fields.new ≡ more) }
{
    number(fields.next()?)
}

/// Why no page was read.
#[derive(Clone, Copy)]
enum PageFault {
    /// There is no line of a page.
    Bad,
    /// Memory ran out.
    NoMemory,
}

/// The words and the wear of each page, where their lines are all of the text.
fn read_pages<A: Allocator + Copy>(
    alloc: A,
    shape: Shape,
    text: &[u8],
) -> Result<(Cells<A>, Vec<u64, A>), ImageFault>
    ensures found { IfOk result (λ read.
        ArePagesRead shape.words (page_count shape) text.now [] read.0 read.1.items) }
    ensures fault { IfErr result (IsPagesFault shape text.now) }
{
    let pages = 2 * shape.pages();
    let mut cells = Cells::with_capacity(alloc, pages * shape.words())?;
    let mut wear = Vec::with_capacity(alloc, pages)?;
    let mut rest = text;
    for page in 0..pages {
        match next_page(rest, shape.words(), &mut cells) {
            Ok((count, more)) => {
                if wear.push(count).is_err() {
                    return Err(ImageFault::Memory);
                }
                rest = more;
            }
            Err(PageFault::Bad) => return Err(ImageFault::BadLine(page as u64 + 2)),
            Err(PageFault::NoMemory) => return Err(ImageFault::Memory),
        }
    }
    if !rest.is_empty() {
        return Err(ImageFault::BadLine(pages as u64 + 2));
    }
    Ok((cells, wear))
}

/// The wear of the page whose line stands at the front, and what stands behind it. Its words go to
/// the end of `cells`; after an error there may be a part of them.
fn next_page<'a, A: Allocator>(
    text: &'a [u8],
    words: usize,
    cells: &mut Cells<A>,
) -> Result<(u64, &'a [u8]), PageFault>
    requires { 0 < words }
    ensures found { IfOk result (λ read.
        IsNextPage words read.0 text.now read.1.now cells.old cells.new) }
    ensures fault { IfErr result (IsPageFault words text.now) }
{
    let Some((wear, rest)) = leading_wear(text) else {
        return Err(PageFault::Bad);
    };
    match read_words(rest, words, cells)? {
        [b'\n', behind @ ..] => Ok((wear, behind)),
        _ => Err(PageFault::Bad),
    }
}

/// The wear at the front of a page's line, up to its first space, and what stands behind it.
fn leading_wear(text: &[u8]) -> Option<(u64, &[u8])>
    ensures found { IfSome result (λ parts. (parts.0 < 2 ^ 64)
        × (text.now ≡ decimal parts.0 ++ parts.1.now)) }
    ensures only { (wear : ℕ) (behind : List ℕ) → wear < 2 ^ 64
        → text.now ≡ decimal wear ++ space ∷ behind
        → IsSomeAnd result (λ parts. (parts.0 ≡ wear) × (parts.1.now ≡ space ∷ behind)) }
{
    let front = &text[..text.len().min(MOST_WEAR_BYTES)];
    let (field, _) = next_field(front);
    Some((number(field)?, &text[field.len()..]))
}

/// Reads so many words, each behind one space, and gives what stands behind them. They go to the
/// end of `cells`; after an error there may be a part of them.
fn read_words<'a, A: Allocator>(
    text: &'a [u8],
    count: usize,
    cells: &mut Cells<A>,
) -> Result<&'a [u8], PageFault>
    ensures found { IfOk result (λ rest.
        AreWordsRead count text.now rest.now cells.old cells.new) }
    ensures fault { IfErr result (IsWordsFault count text.now) }
{
    let mut rest = text;
    for _ in 0..count {
        let Some((word, behind)) = next_word(rest) else {
            return Err(PageFault::Bad);
        };
        if cells.push(word).is_err() {
            return Err(PageFault::NoMemory);
        }
        rest = behind;
    }
    Ok(rest)
}

/// The word behind the space at the front, and what stands behind it.
fn next_word(text: &[u8]) -> Option<(Word, &[u8])>
    ensures found { IfSome result (λ parts. IsBelowAllOnes parts.0
        × (text.now ≡ (space ∷ word_text parts.0) ++ parts.1.now)) }
    ensures only { (word : Word) (behind : List ℕ) → IsBelowAllOnes word
        → text.now ≡ (space ∷ word_text word) ++ behind
        → IsSomeAnd result (λ parts. (parts.0 ≡ word) × (parts.1.now ≡ behind)) }
{
    match text {
        [b' ', field @ ..] => leading_word(field),
        _ => None,
    }
}
