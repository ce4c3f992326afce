//! The prefix and the local part of a name.
ghost use Rattle.std.specs.Prelude.{◌≡◌, [], ◌∷◌, ◌++◌, unwrap_or};
ghost use Rattle.std.specs.List.{position_or_len};
ghost use Rattle.std.specs.Option.{option_map};
ghost use Rattle.std.specs.Str.{bytes_eq};
ghost use Rattle.xml_names.specs.Names.{has_colon, is_colon, prefix_of, local_of, with_prefix};

// How many bytes stand before the first colon. Names are short: a search of many bytes at once gains nothing.
fn before_colon_len(name: &[u8]) -> usize
    ensures { result ≡ position_or_len is_colon name.now }
{
    name.iter().take_while(|b| **b != b':').count()
}

// Whether a name as it is spelled has a prefix.
pub(crate) fn is_prefixed(name: &str) -> bool
    ensures { result ≡ has_colon name.now }
{
    before_colon_len(name.as_bytes()) < name.len()
}

// The prefix and the local part of a name as it is spelled, apart at its colon. Most names have none.
#[tactic(auto, unfolding(crate::specs::Names::prefix_of, crate::specs::Names::local_of))]
pub(crate) fn split_name(name: &str) -> (&str, &str)
    ensures prefix { result.0.now ≡ prefix_of name.now }
    ensures local { result.1.now ≡ local_of name.now }
{
    if !is_prefixed(name) {
        return ("", name);
    }
    match name.split_once(':') {
        Some((prefix, local)) => (prefix, local),
        None => ("", name),
    }
}

// The prefix, if there is one, and the local part of a name as it is spelled.
#[tactic(auto, unfolding(crate::specs::Names::prefix_of, crate::specs::Names::local_of))]
pub(crate) fn split_prefix(name: &str) -> (Option<&str>, &str)
    ensures prefix { unwrap_or (option_map (λ p. p.now) result.0) [] ≡ prefix_of name.now }
    ensures local { result.1.now ≡ local_of name.now }
    ensures spelled { with_prefix (option_map (λ p. p.now) result.0) result.1.now ≡ name.now }
{
    if !is_prefixed(name) {
        return (None, name);
    }
    match name.split_once(':') {
        Some((prefix, local)) => (Some(prefix), local),
        None => (None, name),
    }
}

// The characters of a prefix; none where there is no prefix.
pub(crate) fn prefix_or_nothing<'a>(prefix: Option<&'a str>) -> &'a str
    ensures { result.now ≡ unwrap_or (option_map (λ p. p.now) prefix.entry) [] }
{
    match prefix {
        Some(prefix) => prefix,
        None => "",
    }
}

// Whether bytes are a colon and this local part.
fn is_after_colon(local: &[u8], bytes: &[u8]) -> bool
    ensures { result ≡ bytes_eq bytes.now (58 ∷ local.now) }
{
    match bytes.split_first() {
        Some((colon, rest)) => *colon == b':' && rest == local,
        None => false,
    }
}

// Whether a name is this prefix, a colon and this local part.
fn is_joined(prefix: &[u8], local: &[u8], name: &[u8]) -> bool
    ensures { result ≡ bytes_eq name.now (prefix.now ++ (58 ∷ local.now)) }
{
    if name.len() < prefix.len() {
        return false;
    }
    let (front, back) = name.split_at(prefix.len());
    front == prefix && is_after_colon(local, back)
}

/// Whether a name is spelled with this prefix, or with none, and this local part (Namespaces in XML 1.0, section 4).
pub fn is_spelled(prefix: Option<&str>, local: &str, name: &str) -> bool
    ensures { result ≡ bytes_eq name.now (with_prefix (option_map (λ p. p.now) prefix.entry) local.now) }
{
    match prefix {
        Some(prefix) => is_joined(prefix.as_bytes(), local.as_bytes(), name.as_bytes()),
        None => name == local,
    }
}
