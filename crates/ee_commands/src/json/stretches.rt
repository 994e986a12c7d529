//! The document of `plan`.
ghost use Rattle.std.specs.Prelude.{◌≡◌, ◌++◌, ◌∷◌, IfErr, IfOk, OnOk};
ghost use Rattle.ee_check.specs.Certificate.{claim_of};
ghost use Rattle.ee_commands.specs.Documents.{IsPlanDocument};
ghost use Rattle.ee_commands.specs.Json.{heading_text, item, plan_document, stretch_items, stretch_object};
ghost use Rattle.ee_commands.specs.Planning.{IsPlanningFault};
ghost use Rattle.ee_interface.specs.Causes.{NamesEach};

use super::writing::push_array;
use crate::planning::planned;
use ee_check::{Certificate, Stretch};
use ee_interface::Fault;
use ee_text::push_number_behind;
use std::alloc::{AllocError, Allocator};

/// The tight certificate of a script on the image that a text spells, as a document:
/// `{"slots":C,"fill":F,"live":L,"writes":N,"stretches":[..],"transfers":K}`, with
/// `{"to":P,"from":Q}` for each stretch.
///
/// Source: ours.
///
/// # Errors
///
/// As of `plan_script`.
pub fn plan_json<A: Allocator + Copy>(
    alloc: A,
    image: &[u8],
    script: &[u8],
) -> Result<Vec<u8, A>, Fault>
    ensures planned { IfOk result (λ text. IsPlanDocument image.now script.now text.items) }
    ensures fault { IfErr result (IsPlanningFault image.now script.now) }
    // No cause is passed over.
    ensures names { NamesEach Fault.Memory (IsPlanningFault image.now script.now) result }
{
    let certificate = planned(alloc, image, script)?;
    Ok(document_of(alloc, &certificate)?)
}

/// The document of a certificate.
fn document_of<A: Allocator + Copy>(
    alloc: A,
    certificate: &Certificate<A>,
) -> Result<Vec<u8, A>, AllocError>
    ensures { IfOk result (λ text. text.items ≡ plan_document (claim_of certificate.now)) }
{
    let mut stretches = Vec::new(alloc);
    push_stretches(&certificate.stretches, &mut stretches)?;
    let mut text = Vec::new(alloc);
    push_heading(certificate, &mut text)?;
    push_array(&mut text, &stretches)?;
    push_number_behind(
        &mut text,
        b",\"transfers\":",
        certificate.stretches.len() as u64,
    )?;
    text.extend_from_slice(b"}\n")?;
    Ok(text)
}

/// Writes what stands before the stretches. After an error there may be a part of it.
fn push_heading<A: Allocator, B: Allocator>(
    certificate: &Certificate<A>,
    out: &mut Vec<u8, B>,
) -> Result<(), AllocError>
    ensures { OnOk result
        (out.new.items ≡ out.old.items ++ heading_text (claim_of certificate.now)) }
{
    push_number_behind(out, b"{\"slots\":", certificate.slots)?;
    push_number_behind(out, b",\"fill\":", certificate.fill)?;
    push_number_behind(out, b",\"live\":", certificate.live)?;
    push_number_behind(out, b",\"writes\":", certificate.writes)?;
    out.extend_from_slice(b",\"stretches\":")
}

/// Writes the objects of stretches, each behind a comma. After an error there may be a part of
/// them.
fn push_stretches<B: Allocator>(
    stretches: &[Stretch],
    out: &mut Vec<u8, B>,
) -> Result<(), AllocError>
    ensures { OnOk result
        (out.new.items ≡ out.old.items ++ stretch_items stretches.now) }
{
    for stretch in stretches {
        push_stretch(*stretch, out)?;
    }
    Ok(())
}

/// Writes the object of a stretch behind a comma. After an error there may be a part of it.
fn push_stretch<B: Allocator>(stretch: Stretch, out: &mut Vec<u8, B>) -> Result<(), AllocError>
    ensures { OnOk result (out.new.items ≡ out.old.items ++ item (stretch_object stretch)) }
{
    push_number_behind(out, b",{\"to\":", stretch.to)?;
    push_number_behind(out, b",\"from\":", stretch.from)?;
    out.extend_from_slice(b"}")
}
