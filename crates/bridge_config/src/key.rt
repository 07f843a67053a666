//! The keys of a configuration: a table of rows.
ghost use Rattle.std.specs.Prelude.{◌≡◌};
ghost use Rattle.bridge_config.specs.ConfigKeys as spec;

/// The word of a target's job.
pub(crate) const JOB: &str = "job";

/// The word of a target's URL.
pub(crate) const URL: &str = "url";

/// A key of a configuration.
#[derive(Clone, Copy)]
pub(crate) enum Key {
    Collector,
    Rounds,
    Scrapers,
    Keep,
    Tries,
    MaxPage,
    SampleLimit,
    Interval,
    Honor,
    Listen,
    Pages,
    Target,
}

/// The form of a key's value.
#[derive(Clone, Copy)]
pub(crate) enum Form {
    Url,
    /// A host, a colon and a port.
    Place,
    /// An array of tables.
    Tables,
    /// A truth value, which is false where the key is left out.
    Truth,
    /// A whole number from the least to the most, and what holds where the key is left out.
    Whole(u32, u32, Option<u32>),
}

/// Which table a key stands in.
#[derive(Clone, Copy)]
pub(crate) enum Level {
    /// The document.
    Top,
    /// The table of a target.
    InTarget,
}

/// All keys, in the order in which their faults go.
pub(crate) const KEYS: [Key; 12] = [
    Key::Collector,
    Key::Rounds,
    Key::Scrapers,
    Key::Keep,
    Key::Tries,
    Key::MaxPage,
    Key::SampleLimit,
    Key::Interval,
    Key::Honor,
    Key::Listen,
    Key::Pages,
    Key::Target,
];

impl Key {
    /// The word and the form of the key.
    fn row(self) -> (&'static str, Form)
        ensures word { result.0.now ≡ (spec.key_row self).word }
        ensures form { result.1 ≡ (spec.key_row self).form }
    {
        match self {
            Key::Collector => ("collector", Form::Url),
            Key::Rounds => ("rounds", Form::Whole(1, 1_000_000, None)),
            Key::Scrapers => ("scrapers", Form::Whole(1, 4, Some(4))),
            Key::Keep => ("keep", Form::Whole(0, 4, Some(2))),
            Key::Tries => ("tries", Form::Whole(1, 8, Some(3))),
            Key::MaxPage => ("max_page", Form::Whole(1_024, 67_108_864, Some(16_777_216))),
            Key::SampleLimit => ("sample_limit", Form::Whole(1, 200_000, Some(20_000))),
            Key::Interval => ("interval_ms", Form::Whole(0, 86_400_000, Some(15_000))),
            Key::Honor => ("honor_timestamps", Form::Truth),
            Key::Listen => ("listen", Form::Place),
            Key::Pages => ("pages", Form::Whole(0, 1_000, Some(0))),
            Key::Target => ("target", Form::Tables),
        }
    }

    /// The word of the key.
    pub(crate) fn word(self) -> &'static str
        ensures { result.now ≡ (spec.key_row self).word }
    {
        self.row().0
    }

    /// The form of the key's value.
    pub(crate) fn form(self) -> Form
        ensures { result ≡ (spec.key_row self).form }
    {
        self.row().1
    }
}
