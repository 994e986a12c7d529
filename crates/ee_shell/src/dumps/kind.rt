//! What the marks of a dump tell of its form.
ghost use Rattle.std.specs.Prelude.{◌≡◌, IfNone, IfSome, IsTrue, ◌↔◌};
ghost use Rattle.ee_shell.specs.Dumps.Kind.{HasMark, IsAsked, IsOfKind, IsOfOtherKind, Tells, TellsOther, bytes_number};
ghost use Rattle.ee_shell.specs.declared.dumps.kind.Marking.{Marking as MarkingOf};
ghost use Rattle.ee_shell.specs.declared.dumps.kind.Marking.TheVariants.{Pairs as Paired};

use crate::dumps::Form;
use ee_flash::Shape;
use ee_nor::coded::shape_of_mark;
use ee_nor::complement_of;

/// The number of a mark.
const MARK: u64 = 0xAAAA_AAAA_AAAA_AAAA;

/// The form that the mark of a set tells.
///
/// Source: ours.
#[derive(Clone, Copy, Debug, PartialEq, Eq)]
pub enum Marking {
    /// Words as they are.
    Words,
    /// Words beside their complements.
    Pairs,
    /// Coded words of a device of so many pages of a set, 1 to 64, and so many words of a page,
    /// 5 to 512.
    Coded { pages: usize, words: usize },
}

/// What the mark of a set tells, where that is another form than this, or another shape. Of each
/// set it is looked for where that form has it, so no shape is needed to find it.
///
/// Source: ours.
pub fn other_kind(form: Form, shape: Shape, dump: &[u8]) -> Option<Marking>
    ensures found { IfSome result (IsOfOtherKind form shape dump.now) }
    ensures none { IfNone result (IsOfKind form shape dump.now) }
{
    let (first, second) = dump.split_at(dump.len() / 2);
    match other_told(form, shape, first) {
        Some(marking) => Some(marking),
        None => other_told(form, shape, second),
    }
}

/// The same of a set.
#[tactic(auto, using(crate::proofs::DumpsLemmas::Kinds::asked_alone, crate::proofs::DumpsLemmas::Kinds::silent_asks))]
fn other_told(form: Form, shape: Shape, set: &[u8]) -> Option<Marking>
    ensures found { IfSome result (TellsOther form shape set.now) }
    ensures none { IfNone result ((marking : MarkingOf) → ¬ TellsOther form shape set.now marking) }
{
    let Some(marking) = marking_of(set) else {
        return None;
    };
    if is_asked(form, shape, marking) {
        None
    } else {
        Some(marking)
    }
}

/// Whether a marking is that of a part of this form and shape.
fn is_asked(form: Form, shape: Shape, marking: Marking) -> bool
    ensures { IsTrue result ↔ IsAsked form shape marking }
{
    match (form, marking) {
        (Form::Words, Marking::Words) | (Form::Pairs, Marking::Pairs) => true,
        (Form::Coded, Marking::Coded { pages, words }) => {
            pages == shape.pages() && words == shape.words()
        }
        _ => false,
    }
}

/// What a set's mark tells, if it has one.
#[tactic(auto, using(crate::proofs::DumpsLemmas::Kinds::none_told))]
fn marking_of(set: &[u8]) -> Option<Marking>
    ensures found { IfSome result (Tells set.now) }
    ensures none { IfNone result ((marking : MarkingOf) → ¬ Tells set.now marking) }
{
    let second = number_of(set, 1);
    if second == MARK {
        return Some(Marking::Words);
    }
    if has_paired_mark(set) {
        return Some(Marking::Pairs);
    }
    let Some(shape) = shape_of_mark(second) else {
        return None;
    };
    Some(Marking::Coded {
        pages: shape.pages(),
        words: shape.words(),
    })
}

/// Whether the mark of a set stands beside its complement.
fn has_paired_mark(set: &[u8]) -> bool
    ensures { IsTrue result ↔ HasMark set.now Paired }
{
    number_of(set, 2) == MARK && number_of(set, 3) == complement_of(MARK)
}

/// The number of eight bytes, the least first. 0 past the end.
fn number_of(bytes: &[u8], at: usize) -> u64
    ensures { result ≡ bytes_number bytes.now at }
{
    let (numbers, _) = bytes.as_chunks::<8>();
    match numbers.get(at) {
        Some(number) => u64::from_le_bytes(*number),
        None => 0,
    }
}
