// Identifiers of users and the servers that they name.
ghost use Rattle.std.specs.Prelude.{◌≡◌};
ghost use Rattle.fed_event.specs.Ids.{domain_of, is_user_id as is_user_id_text};

/// The most bytes of a user id.
const MAX_USER_ID: usize = 255;

/// The name of the server that an identifier names (appendix "Common Namespace Format"): what follows its first colon, and nothing
/// where it has none.
pub fn domain(id: &str) -> &str
    ensures { result.now ≡ domain_of id.now }
{
    match id.split_once(':') {
        Some((_, domain)) => domain,
        None => "",
    }
}

/// Whether a text is the id of a user (appendix "User Identifiers"): it has at most 255 bytes, begins with `@` and has a colon. What
/// the localpart and the server name may hold is not tested, as older ids are wider.
pub fn is_user_id(text: &str) -> bool
    ensures { result ≡ is_user_id_text text.now }
{
    text.len() <= MAX_USER_ID && text.starts_with('@') && text.as_bytes().contains(&b':')
}
