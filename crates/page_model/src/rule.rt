//! The twenty rules of a page.
ghost use Rattle.std.specs.Prelude.{◌≡◌};

use std::fmt;

/// The rules of a page in the order of their numbers. What each of them forbids stands in
/// `specs/Faults.antt`.
#[derive(Clone, Copy, Debug, PartialEq, Eq)]
pub enum Rule {
    TooLong,
    Utf8,
    NoNewline,
    Syntax,
    Range,
    Labels,
    AfterEof,
    NoEof,
    Descriptor,
    Exemplar,
    Split,
    Interleaved,
    Suffix,
    Duplicate,
    Value,
    Threshold,
    Order,
    Incomplete,
    Unit,
    TooMany,
}

impl Rule {
    ghost use Rattle.page_model.specs.RuleNames.{rule_number, rule_name};

    /// The rule's number, from 1.
    #[tactic(auto, unfolding(crate::specs::RuleNames::rule_number))]
    pub fn number(&self) -> u8
        ensures { result ≡ rule_number self.now }
    {
        match self {
            Rule::TooLong => 1,
            Rule::Utf8 => 2,
            Rule::NoNewline => 3,
            Rule::Syntax => 4,
            Rule::Range => 5,
            Rule::Labels => 6,
            Rule::AfterEof => 7,
            Rule::NoEof => 8,
            Rule::Descriptor => 9,
            Rule::Exemplar => 10,
            Rule::Split => 11,
            Rule::Interleaved => 12,
            Rule::Suffix => 13,
            Rule::Duplicate => 14,
            Rule::Value => 15,
            Rule::Threshold => 16,
            Rule::Order => 17,
            Rule::Incomplete => 18,
            Rule::Unit => 19,
            Rule::TooMany => 20,
        }
    }

    /// The rule's name, as a refusal prints it.
    #[tactic(auto, unfolding(crate::specs::RuleNames::rule_name))]
    pub fn name(&self) -> &'static str
        ensures { result.now ≡ rule_name self.now }
    {
        match self {
            Rule::TooLong => "TooLong",
            Rule::Utf8 => "Utf8",
            Rule::NoNewline => "NoNewline",
            Rule::Syntax => "Syntax",
            Rule::Range => "Range",
            Rule::Labels => "Labels",
            Rule::AfterEof => "AfterEof",
            Rule::NoEof => "NoEof",
            Rule::Descriptor => "Descriptor",
            Rule::Exemplar => "Exemplar",
            Rule::Split => "Split",
            Rule::Interleaved => "Interleaved",
            Rule::Suffix => "Suffix",
            Rule::Duplicate => "Duplicate",
            Rule::Value => "Value",
            Rule::Threshold => "Threshold",
            Rule::Order => "Order",
            Rule::Incomplete => "Incomplete",
            Rule::Unit => "Unit",
            Rule::TooMany => "TooMany",
        }
    }
}

impl fmt::Display for Rule {
    /// The rule's number and name.
    fn fmt<W: fmt::Write>(&self, f: &mut fmt::Formatter<W>) -> fmt::Result {
        write!(f, "{} {}", self.number(), self.name())
    }
}
