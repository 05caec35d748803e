// What a run reads and prints: the arguments of the command line, and the lines for the user.
//
// Builds on the names of inputs and outputs (`shelf`). `read_form` accepts the arguments after a command's name if and only
// if they have the given form (`specs/Form.antt`). It doesn't know which commands there are. Making a line allocates
// nothing, so that a failed allocation can be reported too.
#![tactic(auto)]

mod forms;
mod help;
mod lines;
mod mistakes;
mod options;
mod pairs;
mod settings;
mod stems;
mod words;

pub use forms::{Asked, Form, read_form};
pub use help::{help_line, version_line};
pub use lines::{
    Line, all_differ_line, boot_refused_line, cannot_read_line, cannot_write_line,
    cart_refused_line, demo_line, frame_differs_line, frames_differ_line, frames_line, image_line,
    no_memory_line, plan_refused_line, samples_line, script_refused_line, spc_no_text_line,
    spc_too_long_line, spc_too_short_line, sums_refused_line, table_refused_line, usage_line,
};
pub use mistakes::{Fault, Mistake, mistake_in};
pub use options::{Count, Setting};
pub use pairs::{input_given, input_name, output_given, output_name};
pub use settings::{count_set, is_unset, number_set, setting_value, stem_set};
pub use words::{Argv, Word};
