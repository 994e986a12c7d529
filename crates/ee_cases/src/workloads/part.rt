//! A part that a job works on, with the texts that are made for it and what is told of it.
use super::dice::Dice;
use super::digest::Digest;
use super::job::Job;
use ee_flash::Shape;
use ee_interface::Fault;
use ee_shell::{ImageAndText, format_image, replay};
use ee_text::push_number_behind;
use std::alloc::Global;

/// A part, as the text of its image, and all that a job has beside it.
///
/// Like a stream it keeps its fault, which the job tells at its end: no step of a job asks whether
/// the one before it failed.
#[derive(Drop)]
pub struct Part {
    pub alloc: Global,
    pub shape: Shape,
    /// How many variables there are, 1 to 65534.
    pub live: u32,
    pub dice: Dice,
    pub image: Vec<u8>,
    /// The text that was written last, a script or values.
    pub text: Vec<u8>,
    pub schema: Vec<u8>,
    /// What was told last.
    pub told: Vec<u8>,
    digest: Digest,
    fault: Option<Fault>,
}

impl Part {
    /// The part that a job begins with: each of its variables has a value.
    pub fn new(alloc: Global, job: Job, seed: u32) -> Result<Part, Fault> {
        let (_, pages, words, live) = job.facts();
        let Some(shape) = Shape::new(pages, words) else {
            return Err(Fault::Memory);
        };
        let mut part = Part {
            alloc,
            shape,
            live,
            dice: Dice::new(seed),
            image: format_image(alloc, shape)?,
            text: Vec::new(alloc),
            schema: Vec::new(alloc),
            told: Vec::new(alloc),
            digest: Digest::new(),
            fault: None,
        };
        part.write_filling();
        part.answer(false);
        Ok(part)
    }

    /// Keeps the first fault.
    fn fail(&mut self, fault: Fault) {
        if self.fault.is_none() {
            self.fault = Some(fault);
        }
    }

    /// Writes a number behind a front.
    pub fn push(&mut self, front: &str, number: u64) {
        if push_number_behind(&mut self.text, front.as_bytes(), number).is_err() {
            self.fail(Fault::Memory);
        }
    }

    /// Writes the end of a line.
    pub fn end(&mut self, end: &str) {
        if self.text.extend_from_slice(end.as_bytes()).is_err() {
            self.fail(Fault::Memory);
        }
    }

    /// Answers the script that was written, and takes the report if it is told.
    pub fn answer(&mut self, is_told: bool) {
        match replay(self.alloc, self.image.as_slice(), self.text.as_slice()) {
            Ok(replayed) => {
                if is_told {
                    self.digest.take(replayed.report.as_slice());
                }
                self.image = replayed.image;
            }
            Err(fault) => self.fail(Fault::from(fault)),
        }
    }

    /// Takes the image that a command leaves, and what it tells.
    pub fn change(&mut self, changed: Result<ImageAndText, Fault>) {
        match changed {
            Ok(changed) => {
                self.digest.take(changed.text.as_slice());
                self.image = changed.image;
            }
            Err(fault) => self.fail(fault),
        }
    }

    /// Takes what a command tells.
    pub fn take_text(&mut self, told: Result<Vec<u8>, Fault>) {
        match told {
            Ok(told) => {
                self.digest.take(told.as_slice());
                self.told = told;
            }
            Err(fault) => self.fail(fault),
        }
    }

    /// Takes the image that a command makes.
    pub fn put(&mut self, image: Result<Vec<u8>, Fault>) {
        match image {
            Ok(image) => self.image = image,
            Err(fault) => self.fail(fault),
        }
    }

    /// The digest of all that was told, and of the image behind it where the job changes that.
    pub fn digest_of(&self, job: Job) -> Result<u64, Fault> {
        if let Some(fault) = self.fault {
            return Err(fault);
        }
        let mut digest = self.digest;
        if !matches!(job, Job::Certify) {
            digest.take(self.image.as_slice());
        }
        Ok(digest.sum)
    }
}
