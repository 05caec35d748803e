//! Tests of the libraries that `trace`, `bench` and `lint` are made of, by cases computed by hand or by external programs.
//!
//! The crate has tests alone, in a module for each part:
//!
//! - `symbols`, `coverage`: symbol files in the forms of four assemblers, and the files that tell what of a cartridge was
//!   executed, read or never touched.
//! - `rules`, `allowed`, `reports`: names, texts and findings of `lint`'s rules, what may be broken, and the four formats
//!   of a report.
//!
//! They stand together, above the libraries: a test in a library's own crate would have CI prove that crate once more.
#![tactic(auto)]

#[cfg(test)]
mod allowed;
#[cfg(test)]
mod coverage;
#[cfg(test)]
mod reports;
#[cfg(test)]
mod rules;
#[cfg(test)]
mod symbols;
