//! What the readers of a line share in both formats: names and quoted values are cut from the front of bytes,
//! escapes are taken away, and the labels that were gathered become a label set.
#![tactic(auto)]

mod chars;
mod head;
mod known_front;
mod known_fronts;
mod label_list;
mod labels;
mod line;
mod line_room;
mod quoted;
mod scan;

pub use chars::{Blank, CharClass, LabelChar, MetricChar, NameClass};
pub use head::{Head, SampleLabels, head_at};
pub use known_fronts::KnownFronts;
pub use label_list::{LabelList, labels_at};
pub use labels::{AfterLabel, LabelParts, after_label, label_of, set_of};
pub use line::LineRead;
pub use line_room::LineRoom;
pub use quoted::{Escapes, QuotedValue, has_backslash, quoted_at, unescaped_text};
pub use scan::{Cut, behind, behind_text, cut_chars, cut_name, front_len, is_word};
