//! Values of a part that ST's X-CUBE-EEPROM wrote, as a store.
//!
//! `specs/Xcube/Element.antt` says what an element is, `Pages.antt` in which order the words of the
//! pages count, `Values.antt` which values they mean, and `Import.antt` what is given of them and
//! why nothing is.
//!
//! The state words of a page and the order of an element's fields are AN4894's. That a CRC is of
//! the data and then the address, by the polynomial 8005 from FFFF on, is from memory of ST's
//! sources. Were it another, an element would fit with a chance of 1 in 65536, and of a part where
//! none fits nothing is given.

mod element;
mod importing;
mod pages;

pub use importing::import_xcube;
