//! The sentence on the error output that says why the program ended with another status than 0 and 1.
use bridge_ports::Reason;
use program_words::nearest_form;

/// What is known of an end beside its status.
#[derive(Clone, Copy)]
pub(crate) struct Ending<'a> {
    pub(crate) words: &'a [String],
    /// Why reading the input failed, where it did.
    pub(crate) input: Reason,
    /// Why writing the output failed, where it did.
    pub(crate) output: Reason,
    /// Why opening or reading the file of a configuration failed, where it did.
    pub(crate) file: Reason,
    /// Up to which line and column that file was a document of TOML, where it was none.
    pub(crate) broken_at: Option<(u32, u32)>,
}

impl Ending<'_> {
    /// Writes the sentence of a status. Where that fails nothing can be done about it.
    pub(crate) fn say<R: Eprint>(&self, rt: &R, status: u8) {
        match status {
            2 => self.say_form(rt),
            3 => self.say_unread(rt),
            4 => {
                let _ = eprintln!(rt;
                    "bridge: writing the output failed: {}",
                    self.output.words()
                );
            }
            5 => self.say_fault(rt),
            6 => {
                let _ = eprintln!(rt; "bridge: there was not enough memory");
            }
            7 => {
                let _ = eprintln!(rt; "bridge: the line breaks the grammar of docs/SCRIPTS.md");
            }
            8 => {
                let _ = eprintln!(rt;
                    "bridge: the limits are 64 MiB for a page, 256 MiB for a script and 1 MiB for a configuration"
                );
            }
            _ => {}
        }
    }

    // The path of a run's configuration.
    fn config(&self) -> Option<&str> {
        match self.words {
            [verb, path] => path_behind(verb.as_str(), path.as_str()),
            _ => None,
        }
    }

    fn say_form<R: Eprint>(&self, rt: &R) {
        let _ = match nearest_form(self.words) {
            Some(form) => eprintln!(rt;
                "bridge: use `bridge {form}`; `bridge --help` shows each form"
            ),
            None => eprintln!(rt; "bridge: `bridge --help` shows each form of the command line"),
        };
    }

    fn say_unread<R: Eprint>(&self, rt: &R) {
        let _ = match self.config() {
            Some(path) => eprintln!(rt; "bridge: reading {path} failed: {}", self.file.words()),
            None => eprintln!(rt; "bridge: reading the input failed: {}", self.input.words()),
        };
    }

    fn say_fault<R: Eprint>(&self, rt: &R) {
        let path = self.config().unwrap_or("");
        let _ = match self.broken_at {
            Some((line, column)) => {
                eprintln!(rt; "bridge: {path} is no TOML at line {line}, column {column}")
            }
            None => eprintln!(rt;
                "bridge: {path} is no configuration; docs/CONFIGURATION.md has what the line means"
            ),
        };
    }
}

/// The path behind the word `run`.
fn path_behind<'a>(verb: &str, path: &'a str) -> Option<&'a str> {
    if verb == "run" {
        return Some(path);
    }
    None
}
