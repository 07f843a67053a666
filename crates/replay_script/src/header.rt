//! The header of a script.
ghost use Rattle.std.specs.Prelude.{◌≡◌, []};
ghost use Rattle.replay_script.specs.HeaderLines as spec;
ghost use Rattle.replay_script.specs.Progresses.{with_header_number};
ghost use Rattle.replay_script.specs.ScriptContents.{header_of};

/// A line of the header.
#[derive(Clone, Copy, Debug, PartialEq, Eq)]
pub enum HeaderLine {
    Keep,
    Tries,
    Limit,
    MaxPage,
    Cut,
    Honor,
    Rounds,
}

/// What the header of a script says, with the defaults of the lines that it lacks.
#[derive(Clone, Copy, Debug, PartialEq, Eq)]
pub struct Header {
    /// How many scrapes a series may miss and keep its start, from 0 to 4.
    pub keep: u32,
    /// How often a body is posted at most, from 1 to 8.
    pub tries: u32,
    /// The most samples of a page, from 1 to 200,000.
    pub limit: u32,
    /// The most bytes of a page, from 1,024 to 67,108,864.
    pub max_page: u32,
    /// The most bytes that one read hands out, from 1 to 65,536.
    pub cut: u32,
    /// Whether times of pages are taken for those of the points.
    pub honor: bool,
    /// How many scrapes each target has, from 1 to 1,000,000.
    pub rounds: u32,
}

impl HeaderLine {
    /// The place of the line in the order of the header.
    pub(crate) fn place(self) -> u32
        ensures { result ≡ spec.place_of self }
    {
        match self {
            HeaderLine::Keep => 1,
            HeaderLine::Tries => 2,
            HeaderLine::Limit => 3,
            HeaderLine::MaxPage => 4,
            HeaderLine::Cut => 5,
            HeaderLine::Honor => 6,
            HeaderLine::Rounds => 7,
        }
    }

    /// The least and the greatest number that the line may have.
    #[tactic(auto, unfolding(crate::specs::HeaderLines::header_row))]
    fn range(self) -> (u32, u32)
        ensures { result ≡ ((spec.header_row self).least, (spec.header_row self).most) }
    {
        match self {
            HeaderLine::Keep => (0, 4),
            HeaderLine::Tries => (1, 8),
            HeaderLine::Limit => (1, 200_000),
            HeaderLine::MaxPage => (1_024, 67_108_864),
            HeaderLine::Cut => (1, 65_536),
            HeaderLine::Honor => (0, 1),
            HeaderLine::Rounds => (1, 1_000_000),
        }
    }

    /// Whether the line may have the number.
    pub(crate) fn may_have(self, number: u64) -> bool
        ensures { result ≡ spec.is_in_row (spec.header_row self) number }
    {
        let (least, most) = self.range();
        u64::from(least) <= number && number <= u64::from(most)
    }
}

impl Header {
    /// The header without lines; it has no number of rounds.
    #[tactic(auto, unfolding(crate::specs::HeaderLines::header_row, crate::specs::ScriptContents::header_of))]
    pub(crate) fn new() -> Header
        ensures { result ≡ header_of [] }
    {
        Header {
            keep: 2,
            tries: 3,
            limit: 20_000,
            max_page: 16_777_216,
            cut: 4_096,
            honor: false,
            rounds: 0,
        }
    }

    /// The header with the number of a line.
    pub(crate) fn with(self, line: HeaderLine, number: u32) -> Header
        ensures { result ≡ with_header_number line number self }
    {
        match line {
            HeaderLine::Keep => Header {
                keep: number,
                ..self
            },
            HeaderLine::Tries => Header {
                tries: number,
                ..self
            },
            HeaderLine::Limit => Header {
                limit: number,
                ..self
            },
            HeaderLine::MaxPage => Header {
                max_page: number,
                ..self
            },
            HeaderLine::Cut => Header {
                cut: number,
                ..self
            },
            HeaderLine::Honor => Header {
                honor: number == 1,
                ..self
            },
            HeaderLine::Rounds => Header {
                rounds: number,
                ..self
            },
        }
    }
}
