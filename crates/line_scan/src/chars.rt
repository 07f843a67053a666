//! Classes of characters (Prometheus text format 0.0.4, "Text format details"; OpenMetrics 1.0, "ABNF":
//! metricname, label-name).
ghost use Rattle.std.specs.Prelude.{◌≡◌, ◌<◌, ◌∷◌, [], ℕ, List, Bool, true, false, refl};
ghost use Rattle.std.specs.List.{list_all};
ghost use Rattle.label_sets.specs.Names.{is_blank, is_label_start, is_label_char, is_label_name, is_metric_start, is_metric_char, is_metric_name};
ghost use Rattle.std.proofs.Common.{arith, ◌&&◌};
ghost use Rattle.std.proofs.lemmas.Bool.Decides.{nat_tests};

/// A class of characters, told by a test of one byte.
pub trait CharClass {
    ghost test: { ℕ → Bool };

    /// Whether a byte is of the class.
    fn has(byte: u8) -> bool
        ensures { result ≡ test byte };
}

/// The characters of a sort of names. Which of them may stand first is a test of its own.
pub trait NameClass: CharClass {
    ghost start: { ℕ → Bool };

    ghost is_name: { List ℕ → Bool };

    /// Whether a name may begin with this byte.
    fn starts(byte: u8) -> bool
        ensures { result ≡ start byte };

    ghost not_empty: { is_name [] ≡ false };

    ghost by_first: { (c : ℕ) (cs : List ℕ) → list_all Self.test (c ∷ cs) ≡ true → is_name (c ∷ cs) ≡ start c };

    ghost ascii: { (c : ℕ) → Self.test c ≡ true → c < 128 };
}

/// A space or a tab.
pub struct Blank;

/// A character of a label name.
pub struct LabelChar;

/// A character of a metric name.
pub struct MetricChar;

/// The later characters of a label name, each at its own place, and a comma at each other place.
static LABEL_CHARS: [u8; 256] = *b"\
    ,,,,,,,,,,,,,,,,,,,,,,,,,,,,,,,,\
    ,,,,,,,,,,,,,,,,0123456789,,,,,,\
    ,ABCDEFGHIJKLMNOPQRSTUVWXYZ,,,,_\
    ,abcdefghijklmnopqrstuvwxyz,,,,,\
    ,,,,,,,,,,,,,,,,,,,,,,,,,,,,,,,,\
    ,,,,,,,,,,,,,,,,,,,,,,,,,,,,,,,,\
    ,,,,,,,,,,,,,,,,,,,,,,,,,,,,,,,,\
    ,,,,,,,,,,,,,,,,,,,,,,,,,,,,,,,,";

/// The same of a metric name: the colon is one more.
static METRIC_CHARS: [u8; 256] = *b"\
    ,,,,,,,,,,,,,,,,,,,,,,,,,,,,,,,,\
    ,,,,,,,,,,,,,,,,0123456789:,,,,,\
    ,ABCDEFGHIJKLMNOPQRSTUVWXYZ,,,,_\
    ,abcdefghijklmnopqrstuvwxyz,,,,,\
    ,,,,,,,,,,,,,,,,,,,,,,,,,,,,,,,,\
    ,,,,,,,,,,,,,,,,,,,,,,,,,,,,,,,,\
    ,,,,,,,,,,,,,,,,,,,,,,,,,,,,,,,,\
    ,,,,,,,,,,,,,,,,,,,,,,,,,,,,,,,,";

impl CharClass for Blank {
    ghost test = { is_blank };

    fn has(byte: u8) -> bool {
        byte == b' ' || byte == b'\t'
    }
}

impl CharClass for LabelChar {
    ghost test = { is_label_char };

    fn has(byte: u8) -> bool {
        LABEL_CHARS[byte as usize] != b','
    }
}

impl CharClass for MetricChar {
    ghost test = { is_metric_char };

    fn has(byte: u8) -> bool {
        METRIC_CHARS[byte as usize] != b','
    }
}

impl NameClass for LabelChar {
    ghost start = { is_label_start };

    ghost is_name = { is_label_name };

    ghost not_empty = { refl };

    ghost by_first = { λ c cs h. Prim.grind (arith, nat_tests) };

    ghost ascii = { λ c h. Prim.grind (arith, nat_tests) };

    fn starts(byte: u8) -> bool {
        (byte >= b'a' && byte <= b'z') || (byte >= b'A' && byte <= b'Z') || byte == b'_'
    }
}

impl NameClass for MetricChar {
    ghost start = { is_metric_start };

    ghost is_name = { is_metric_name };

    ghost not_empty = { refl };

    ghost by_first = { λ c cs h. Prim.grind (arith, nat_tests) };

    ghost ascii = { λ c h. Prim.grind (arith, nat_tests) };

    fn starts(byte: u8) -> bool {
        LabelChar::starts(byte) || byte == b':'
    }
}
