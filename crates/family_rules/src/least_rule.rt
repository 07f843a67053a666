//! The order of the rules that one sample breaks: that of their numbers.
ghost use Rattle.std.specs.Prelude.{◌≡◌, nat_le};
ghost use Rattle.label_sets.specs.Lists.{when_true};
ghost use Rattle.page_model.specs.RuleNames.{rule_number};
ghost use Rattle.family_rules.specs.LeastRule.{lesser, least};

use page_model::Rule;

/// Whether the second rule has no smaller number.
fn goes_first(a: Rule, b: Rule) -> bool
    ensures { result ≡ nat_le (rule_number a) (rule_number b) }
{
    a.number() <= b.number()
}

/// The one of the least number of two rules.
fn lesser(a: Rule, b: Rule) -> Rule
    ensures { result ≡ lesser a b }
{
    if goes_first(a, b) { a } else { b }
}

/// The rule, where it is broken.
pub(crate) fn rule_if(broken: bool, rule: Rule) -> Option<Rule>
    ensures { result ≡ when_true broken rule }
{
    if broken { Some(rule) } else { None }
}

/// The one of the least number of the rules that are broken.
pub(crate) fn least(a: Option<Rule>, b: Option<Rule>) -> Option<Rule>
    ensures { result ≡ least a b }
{
    match a {
        Some(first) => match b {
            Some(second) => Some(lesser(first, second)),
            None => Some(first),
        },
        None => b,
    }
}
