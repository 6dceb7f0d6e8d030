// What a filter wants.
ghost use Rattle.std.specs.Prelude.{◌≡◌, bytes_eq};
ghost use Rattle.std.specs.List.{list_any};
ghost use Rattle.kb_status.specs.Filter as rule;

use kb_world::{Filter, Key, Spot, Text};

fn is_wanted(name: &Option<Text>, text: &str) -> bool
    ensures { result ≡ rule.is_wanted name.now text.now }
{
    match name {
        Some(name) => name.as_str() == text,
        None => true,
    }
}

fn is_one_of(names: &[Text], text: &str) -> bool
    ensures { result ≡ list_any (λ name. bytes_eq name text.now) names.now }
{
    names.iter().any(|name| name.as_str() == text)
}

fn is_among_texts(names: &[Text], text: &str) -> bool
    ensures { result ≡ rule.is_among_texts names.now text.now }
{
    names.is_empty() || is_one_of(names, text)
}

/// Whether the filter wants the package.
pub fn wants_key(filter: &Filter, key: &Key) -> bool
    ensures { result ≡ rule.wants_key filter.now key.now }
{
    is_wanted(&filter.module, key.module.as_str())
        && is_wanted(&filter.version, key.version.as_str())
}

/// Whether the filter wants the spot.
pub fn wants_spot(filter: &Filter, spot: &Spot) -> bool
    ensures { result ≡ rule.wants_spot filter.now spot.now }
{
    is_among_texts(filter.kernels.as_slice(), spot.kernel.as_str())
        && is_among_texts(filter.arches.as_slice(), spot.arch.as_str())
}

/// Whether the filter names no kernel and no architecture.
pub fn wants_all_spots(filter: &Filter) -> bool
    ensures { result ≡ rule.wants_all_spots filter.now }
{
    filter.kernels.as_slice().is_empty() && filter.arches.as_slice().is_empty()
}
