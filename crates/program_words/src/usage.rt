//! What `--help` and `--version` print, and what is printed where words fit no form.
ghost use Rattle.std.specs.Prelude.{◌≡◌};
ghost use Rattle.program_words.specs.HelpTexts.{help_text, no_form_text, version_text};

/// Each form of the command line, behind its first word.
pub(crate) const FORMS: &[(&str, &str)] = &[
    ("check", "check FORMAT"),
    ("convert", "convert FORMAT JOB INSTANCE NANOS"),
    ("replay", "replay [SCRAPERS] [page [SELECTOR ..]]"),
    ("run", "run CONFIG"),
    ("load", "load NUMBER TARGETS ROUNDS"),
    ("--help", "--help"),
    ("--version", "--version"),
];

/// What `--help` prints: each form that is built, with an example.
pub const HELP: &str = "\
bridge check FORMAT
    reads a page on the input and prints its families and samples, or its first fault;
    FORMAT is text or openmetrics
    bridge check text
bridge convert FORMAT JOB INSTANCE NANOS
    reads a page on the input and prints the OTLP JSON text of one event
    bridge convert openmetrics app localhost:8000 1700000000000000000
bridge replay [SCRAPERS] [page [SELECTOR ..]]
    reads a script on the input and prints the OTLP JSON text of each of its scrapes;
    SCRAPERS, 1 to 4, is how many targets are visited at once, 1 where it is left out;
    with page, the federation page of what the targets show at the end follows, with a
    SELECTOR or up to 16 only the series that one of them matches
    bridge replay 4 page '{job=\"app\"}'
bridge run CONFIG
    scrapes the targets of the configuration in the file CONFIG, posts each scrape to its
    collector, and prints a report when all rounds are made
    bridge run examples/bridge.toml
bridge load NUMBER TARGETS ROUNDS
    visits TARGETS targets, 1 to 64, ROUNDS times each, 1 to 1000, but at most 20000 times in all, over pages that
    the NUMBER, 0 to 1000000, stands for, and prints a report
    bridge load 7 64 300
bridge --help
    prints these lines
bridge --version
    prints the name and the version
";

/// What `--version` prints.
pub const VERSION: &str = "bridge 0.1.0\n";

/// The lines of `--help`.
#[tactic(auto, unfolding(crate::specs::HelpTexts::help_text))]
pub fn help() -> &'static [u8]
    ensures { result.now ≡ help_text }
{
    HELP.as_bytes()
}

/// The line of `--version`.
#[tactic(auto, unfolding(crate::specs::HelpTexts::version_text))]
pub fn version() -> &'static [u8]
    ensures { result.now ≡ version_text }
{
    VERSION.as_bytes()
}

/// The line of words that fit no form.
#[tactic(auto, unfolding(crate::specs::HelpTexts::no_form_text))]
pub fn no_form() -> &'static [u8]
    ensures { result.now ≡ no_form_text }
{
    b"words\n"
}
