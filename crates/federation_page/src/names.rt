//! Names and kinds under which series are federated (OpenMetrics 1.0, "Counter", "Info").
ghost use Rattle.std.specs.Prelude.{◌≡◌, [], not};
ghost use Rattle.std.specs.Str.{bytes_eq};
ghost use Rattle.label_sets.specs.Lists.{when_true};
ghost use Rattle.std.specs.Option.{option_copied};
ghost use Rattle.federation_page.specs.Candidates.{federated_kind, federated_name, in_front_of};

use label_sets::Kind;

/// The text, where it isn't empty.
fn nonempty(text: &str) -> Option<&str>
    ensures { option_copied result ≡ when_true (not (bytes_eq text.now [])) text.now }
{
    if text.is_empty() { None } else { Some(text) }
}

/// What stands in front of this end of a name that has more before it.
fn in_front_of<'a>(end: &str, name: &'a str) -> Option<&'a str>
    ensures { option_copied result ≡ in_front_of end.now name.now }
{
    match name.strip_suffix(end) {
        Some(front) => nonempty(front),
        None => None,
    }
}

/// The kind under which a series of this kind and key name is federated.
#[tactic(auto, unfolding(crate::specs::Candidates::federated_kind))]
pub(crate) fn federated_kind(kind: Kind, key: &str) -> Kind
    ensures { result ≡ federated_kind kind key.now }
{
    if kind != Kind::Counter {
        return kind;
    }
    match in_front_of("_total", key) {
        Some(_) => Kind::Counter,
        None => Kind::Unknown,
    }
}

/// The name of the family under which it is federated.
#[tactic(auto, unfolding(crate::specs::Candidates::federated_name))]
pub(crate) fn federated_name(kind: Kind, key: &str) -> &str
    ensures { result.now ≡ federated_name kind key.now }
{
    let front = match kind {
        Kind::Counter => in_front_of("_total", key),
        Kind::Info => in_front_of("_info", key),
        _ => None,
    };
    front.unwrap_or(key)
}
