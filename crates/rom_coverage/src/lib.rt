//! Which bytes of a cartridge's ROM a run executed, read as data, read by DMA, or never touched.
//!
//! `Coverage` takes each access to ROM and keeps a byte of marks for each byte of ROM. From the marks the other files
//! make the log of code and data that debuggers read (`log`), a picture (`picture`), a record of lines of source
//! (`record`), and a table of percentages (`table`). Nothing here opens a file.
#![tactic(auto)]

mod log;
mod marks;
mod picture;
mod record;
mod table;

pub use log::log_file;
pub use marks::{Coverage, Opcode, Use};
pub use picture::picture_file;
pub use record::record_file;
pub use table::push_table;
